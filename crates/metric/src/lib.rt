// What the place call in millimetres answers (document 02, F-1).
#![tactic(auto)]

// A point in millimetres.
#[repr(C)]
#[derive(Clone, Copy)]
pub struct Metric {
    pub x: f64,
    pub y: f64,
    pub z: f64,
}

// The answer: a number of the papers, and the point, three zeros with a refusal.
#[repr(C)]
#[derive(Clone, Copy)]
pub struct PlacedMm {
    pub number: u32,
    pub point: Metric,
}
