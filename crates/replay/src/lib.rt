// Recorded calls: what separate software answered, held against what the calls answer.
#![tactic(auto)]

pub mod files;
pub mod fills;
pub mod questions;

// How many entries the tables of a recorded call of filling have, and how many ids it wrote.
#[derive(Clone, Copy)]
pub struct Lengths {
    pub samples: usize,
    pub cuts: usize,
    pub state: usize,
    pub rows: usize,
    pub ids: usize,
}

// How many entries the tables of recorded calls of the place of an id have, how many questions there
// are, and the number answered to all of them.
#[derive(Clone, Copy)]
pub struct Asked {
    pub cuts: usize,
    pub state: usize,
    pub questions: usize,
    pub number: u32,
}

// How many bytes a recorded file has, the lengths of the tables lent to its reader, and the largest
// size that it takes.
#[derive(Clone, Copy)]
pub struct Filed {
    pub file: usize,
    pub samples: usize,
    pub cuts: usize,
    pub limit: usize,
}
