// Isosurface stuffing of a block: the checks in the papers' order, then points moved and rows written.
#![tactic(auto)]

mod check;
pub mod steps;
