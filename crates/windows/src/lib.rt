// The ids of a row table in windows: a window's ids in use are marked in a table of bits, and rewritten
// as numbers. Parts of the row table that have no id in a window are left out.
#![tactic(auto)]

pub mod hits;
pub mod numbers;
pub mod passes;
pub mod spread;
pub mod window;
