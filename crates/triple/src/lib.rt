// Places, and the six-volume of a tetrahedron as a triple product of differences of places.
#![tactic(auto)]

pub mod volume;

// A place: three signed coordinates, 256 to a doubled coordinate. (In which box it is stands in contracts, as
// `InBox`: places, differences and products have each their own, and the same struct.)
#[derive(Clone, Copy)]
pub struct Place {
    pub x: i64,
    pub y: i64,
    pub z: i64,
}
