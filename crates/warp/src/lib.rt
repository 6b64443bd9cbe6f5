// Moving lattice points to cuts that are too near.
#![tactic(auto)]

pub mod bytes;
pub mod moves;
