// The ids that bits mark: whether each has a place, and their nodes written, an id with its coordinates.
#![tactic(auto)]

pub mod check;
pub mod write;

use refusals::Refusal;

// An entry of a row table whose id has no place, and why.
#[derive(Clone, Copy)]
pub struct RefusedEntry {
    pub entry: usize,
    pub refusal: Refusal,
}
