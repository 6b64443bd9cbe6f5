// Lattice points line by line along x, and the far ends of a point's edges by strides: nothing is divided
// and no neighbour is built.
#![tactic(auto)]

pub mod strides;
pub mod walk;
