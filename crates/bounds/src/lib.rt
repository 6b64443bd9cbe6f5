// How many rows a block has at most, and how large a row's six-volume is at most; no code.
#![tactic(auto)]
