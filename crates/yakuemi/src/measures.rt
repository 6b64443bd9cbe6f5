// The measures of a block.
ghost use Rattle.std.specs.Prelude.{◌≡◌};
ghost use Rattle.yakuemi.specs.Measures.{measure, sizes};

use crate::sizes;
use lattice::Lattice;
use refusals::Refusal;

// The answer of measures: 0 with both counts, or 1 with zeros where a size is outside 1 to 64.
#[repr(C)]
#[derive(Clone, Copy)]
pub struct Measures {
    pub number: u32,
    pub points: u64,
    pub tetrahedra: u64,
}

// The count of lattice points and of lattice tetrahedra of a block of nx by ny by nz cubes.
#[tactic(auto, using(crate::proofs::Measured::measured, crate::proofs::Measured::unmeasured), unfolding(refusals::specs::inner::Numbers::refusal_number))]
pub fn yakuemi_measures(nx: u32, ny: u32, nz: u32) -> Measures
    ensures { result ≡ measure (sizes nx ny nz) }
{
    match Lattice::new(sizes(nx, ny, nz)) {
        Some(lattice) => Measures {
            number: 0,
            points: lattice.point_count() as u64,
            tetrahedra: lattice.tetrahedron_count() as u64,
        },
        None => Measures {
            number: Refusal::Sizes.number(),
            points: 0,
            tetrahedra: 0,
        },
    }
}
