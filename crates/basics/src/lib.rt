// Definitions and laws that are not about meshes; no code.
#![tactic(auto)]
