// Labels of lattice points, and which points move.
#![tactic(auto)]

// A point's label: the sign of its sample, or zero in the band and once it has moved.
#[derive(Clone, Copy)]
pub enum Label {
    Minus,
    Zero,
    Plus,
}
