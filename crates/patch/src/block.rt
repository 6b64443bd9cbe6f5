// Mending the cut table of a block, after the papers' checks.
ghost use Rattle.std.specs.Prelude.{◌≡◌};
ghost use Rattle.moving.specs.Block.{block_of};
ghost use Rattle.mending.specs.Mend.{mend};
ghost use Rattle.patch.specs.inner.Answer.{answer_of};

use crate::{Counts, table};
use labelling::label;
use labelling::scan::Scan;
use lattice::{Lattice, Sizes};
use mending::Mended;
use refusals::Refusal;

// Sizes, the band, then the lengths of the tables. (One by one, as the call has them: what passes is built
// here.)
fn mend(s: Sizes, band: u32, samples: &[i16], cuts: &mut [u8]) -> Result<Counts, Refusal>
    ensures answer { answer_of result ≡ (mend band (block_of s samples.now cuts.old)).answer }
    ensures cuts { cuts.new ≡ (mend band (block_of s samples.now cuts.old)).cuts }
{
    let Some(lattice) = Lattice::new(s) else {
        return Err(Refusal::Sizes);
    };
    if !label::band_fits(band) {
        return Err(Refusal::Band);
    }
    let n = lattice.point_count();
    if samples.len() != n {
        return Err(Refusal::Samples);
    }
    if cuts.len() != 7 * n {
        return Err(Refusal::Cuts);
    }
    let scan = Scan {
        lattice,
        band,
        samples,
    };
    Ok(table::mend_table(scan, cuts))
}

// The call's answer.
pub fn mend_block(s: Sizes, band: u32, samples: &[i16], cuts: &mut [u8]) -> Mended
    ensures answer { result ≡ (mend band (block_of s samples.now cuts.old)).answer }
    ensures cuts { cuts.new ≡ (mend band (block_of s samples.now cuts.old)).cuts }
{
    match mend(s, band, samples, cuts) {
        Ok(counts) => Mended {
            number: 0,
            filled: counts.filled as u64,
            cleared: counts.cleared as u64,
        },
        Err(refusal) => Mended {
            number: refusal.number(),
            filled: 0,
            cleared: 0,
        },
    }
}
