// The rows that a pattern of four labels gives.
#![tactic(auto)]
