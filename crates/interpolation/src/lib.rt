// Where a skin crosses an edge, by the sizes of the samples at both ends: the byte that mending fills in.
#![tactic(auto)]

pub mod between;
