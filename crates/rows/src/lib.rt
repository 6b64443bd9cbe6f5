// The rows of one lattice tetrahedron: which corners they have, by document 01's table, and their ids.
#![tactic(auto)]

pub mod corners;
pub mod picks;
pub mod stencils;
pub mod writing;

// A corner in a row: a lattice point, or the cut of the edge from a point in a direction.
#[derive(Clone, Copy)]
pub enum Corner {
    Point(usize),
    Edge(usize, usize),
}

// The four corners of a row.
#[derive(Clone, Copy)]
pub struct Row(pub Corner, pub Corner, pub Corner, pub Corner);

// A lattice tetrahedron of a block of n points: its axis, its edge in the turn, and the numbers of its
// corners, ascending. (Axis and edge are numbers, as they are places in the table of cuts. That the corners
// are points of the block stands in contracts, as `KnownTetra`: clauses say which tetrahedron a result is,
// and a fact in it would be a part of that equation.)
#[derive(Clone, Copy)]
pub struct Tetra {
    pub n: usize,
    pub axis: usize,
    pub edge: usize,
    pub corners: [usize; 4],
}
