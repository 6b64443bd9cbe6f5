// The node table: the ids in use are counted and checked window by window, then written with their
// places, and the rows rewritten in place.
#![tactic(auto)]

pub mod assign;
pub mod block;
pub mod refused;
pub mod survey;
