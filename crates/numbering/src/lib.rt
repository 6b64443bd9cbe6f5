// What the node call answers (document 02, F-6).
#![tactic(auto)]

// The answer: a number of the papers, the nodes written or needed, and where a refused id stands.
#[repr(C)]
#[derive(Clone, Copy)]
pub struct Numbered {
    pub number: u32,
    pub nodes: u64,
    pub place: u64,
}
