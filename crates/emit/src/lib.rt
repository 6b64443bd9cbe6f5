// The rows of a block, counted and written: the walk over all its lattice tetrahedra.
#![tactic(auto)]

ghost use Rattle.std.specs.Prelude.{◌≡◌, length};
ghost use Rattle.lattice.specs.Counts.{points};

pub mod bare;
pub mod cubes;
pub mod labels;
pub mod passes;

use labelling::scan::Scan;
use lattice::Sizes;

// What rows are told from: a scan, and a state byte for each of its points.
#[derive(Clone, Copy)]
pub struct Moved<'a> {
    pub scan: Scan<'a>,
    pub state: &'a [u8],
    ghost coded: { length state.now ≡ points scan.lattice.sizes },
}

// The six points that the tetrahedra between a cube and the next one along an axis have, in a block of n
// points: the lower and the higher centre, and the shared face's corners in their turn, (-,-), (+,-),
// (+,+), (-,+). (The axis is a number, and that they are points of the block stands in contracts, as
// `KnownCube`, for the reasons that `rows::Tetra` gives.)
#[derive(Clone, Copy)]
pub struct Cube {
    pub n: usize,
    pub axis: usize,
    pub points: [usize; 6],
}

// All cubes with a next one along an axis: the six points counted from a cube's lowest corner and its
// centre, and how many such cubes there are along x, y and z. (Of which block it is stands in contracts, as
// `InPass`, since a pass does not hold the block.)
#[derive(Clone, Copy)]
pub struct Pass {
    pub step: Cube,
    pub cubes: Sizes,
}
