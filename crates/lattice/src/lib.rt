// The lattice of a block: its points and their numbers, edges, the rim.
#![tactic(auto)]

ghost use Rattle.lattice.specs.Counts.{Sized};

pub mod counts;
pub mod edge_code;
pub mod edges;
pub mod numbers;
pub mod rim;

pub use edge_code::EdgeCode;

// The sizes of a block, in cubes.
#[derive(Clone, Copy)]
pub struct Sizes {
    pub nx: usize,
    pub ny: usize,
    pub nz: usize,
}

// The lattice of a block whose sizes are taken: each is from 1 to 64.
#[derive(Clone, Copy)]
pub struct Lattice {
    pub sizes: Sizes,
    ghost sized: { Sized sizes },
}

// A lattice point is a cube corner or a cube centre.
#[derive(Clone, Copy)]
pub enum Kind {
    Corner,
    Centre,
}

// A decoded lattice point: its kind, its three indices, its own number, and the number that its
// indices have in the other kind. Every neighbour is a few strides from one of the two numbers. (That it is
// a point of a lattice stands in contracts, as `Sited`: a site that held its lattice would have to be compared
// with that of whatever it is looked up in.)
#[derive(Clone, Copy)]
pub struct Site {
    pub kind: Kind,
    pub x: usize,
    pub y: usize,
    pub z: usize,
    pub own: usize,
    pub across: usize,
}

// How far a code leads up and down along each axis, in doubled coordinates.
#[derive(Clone, Copy)]
pub struct Shift {
    pub ux: usize,
    pub uy: usize,
    pub uz: usize,
    pub dx: usize,
    pub dy: usize,
    pub dz: usize,
}
