// Demand 3 for every block that filling accepts; no code.
#![tactic(auto)]
