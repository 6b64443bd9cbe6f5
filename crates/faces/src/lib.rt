// That the faces of all rows fit; no code.
#![tactic(auto)]
