// The place of one id, in millimetres.
ghost use Rattle.std.specs.Prelude.{◌≡◌};
ghost use Rattle.metric.specs.Millimetres.{locate_mm};
ghost use Rattle.yakuemi.specs.Measures.{sizes};

use crate::sizes;
use metric::PlacedMm;

// Where the corner with an id stands, in millimetres: the place call's answer, each coordinate
// turned exactly into a float and multiplied once by the unit, the millimetres per step.
//
// Theorems (crates/metric/proofs/Theorems.antt): where the unit is a power of two each product is
// exact (`exact`); at every unit it is within one part in 2^53 of the exact one (`near`); no
// coordinate of any answer is a NaN or an infinity (`finite_always`).
#[tactic(auto, unfolding(metric::specs::Millimetres::locate_mm))]
pub fn yakuemi_place_mm(
    nx: u32,
    ny: u32,
    nz: u32,
    cuts: &[u8],
    state: &[u8],
    id: u32,
    unit: f64,
) -> PlacedMm
    ensures { result ≡ locate_mm (sizes nx ny nz) cuts.now state.now id unit }
{
    let p = places::locate::locate_id(sizes(nx, ny, nz), cuts, state, id as usize);
    scale::in_millimetres(p, unit)
}
