// What mending answers (document 02, F-4).
#![tactic(auto)]

// The answer: a number of the papers, the bytes filled in and the bytes cleared.
#[repr(C)]
#[derive(Clone, Copy)]
pub struct Mended {
    pub number: u32,
    pub filled: u64,
    pub cleared: u64,
}
