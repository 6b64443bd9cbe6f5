// The boundary of the rows of every block that filling accepts; no code.
#![tactic(auto)]
