// The checks of a block, in the papers' order.
ghost use Rattle.std.specs.Prelude.{◌≡◌};
ghost use Rattle.moving.specs.Block.{block_of};
ghost use Rattle.refusals.specs.inner.Numbers.{refusal_number, refusal_place};
ghost use Rattle.checks.specs.inner.Faults.{fault_number, fault_offset};
ghost use Rattle.stuffing.specs.inner.Checks.{Tables, Checked};

use checks::{CutTable, Fault, cuts, rim};
use labelling::label;
use labelling::scan::Scan;
use lattice::{Lattice, Sizes};
use refusals::Refusal;

// Sizes, the band, then the lengths of the tables. (One by one, as the call has them: what passes is built
// here.)
fn tables<'a>(
    sizes: Sizes,
    band: u32,
    samples: &'a [i16],
    cuts: &'a [u8],
    state_len: usize,
) -> Result<CutTable<'a>, Refusal>
    ensures { Tables band (block_of sizes samples.now cuts.now) state_len result }
{
    let Some(lattice) = Lattice::new(sizes) else {
        return Err(Refusal::Sizes);
    };
    if !label::band_fits(band) {
        return Err(Refusal::Band);
    }
    let n = lattice.point_count();
    if samples.len() != n {
        return Err(Refusal::Samples);
    }
    if cuts.len() != 7 * n {
        return Err(Refusal::Cuts);
    }
    if state_len != n {
        return Err(Refusal::State);
    }
    let scan = Scan {
        lattice,
        band,
        samples,
    };
    Ok(CutTable { scan, cuts })
}

// Why a byte at fault refuses a block. (No `From`: both types are other crates', and neither of these knows
// the other.)
#[tactic(auto, unfolding(refusals::specs::inner::Numbers::refusal_number, refusals::specs::inner::Numbers::refusal_place))]
fn refusal(fault: Fault) -> Refusal
    ensures number { refusal_number result ≡ fault_number fault }
    ensures place { refusal_place result ≡ fault_offset fault }
{
    match fault {
        Fault::Gap(o) => Refusal::Gap(o),
        Fault::Stray(o) => Refusal::Stray(o),
    }
}

// The same, then the rim and the cut bytes: an accepted block, or why it is refused.
pub fn check<'a>(
    sizes: Sizes,
    band: u32,
    samples: &'a [i16],
    cuts: &'a [u8],
    state_len: usize,
) -> Result<CutTable<'a>, Refusal>
    ensures { Checked band (block_of sizes samples.now cuts.now) state_len result }
{
    let table = tables(sizes, band, samples, cuts, state_len)?;
    if let Some(p) = rim::first_rim(table.scan) {
        return Err(Refusal::Rim(p));
    }
    match cuts::first_cut(table) {
        Ok(()) => Ok(table),
        Err(fault) => Err(refusal(fault)),
    }
}
