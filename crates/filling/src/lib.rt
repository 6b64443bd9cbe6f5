// What the calls answer.
#![tactic(auto)]

// The answer of filling: a number of the papers, the rows written, the points moved, a place.
#[repr(C)]
#[derive(Clone, Copy, PartialEq, Eq)]
pub struct Filled {
    pub number: u32,
    pub rows: u64,
    pub moved: u64,
    pub place: u64,
}

// The answer of the place call.
#[repr(C)]
#[derive(Clone, Copy, PartialEq, Eq)]
pub struct Placed {
    pub number: u32,
    pub x: u32,
    pub y: u32,
    pub z: u32,
}
