// Mending a cut table.
ghost use Rattle.std.specs.Prelude.{◌≡◌};
ghost use Rattle.moving.specs.Block.{block_of};
ghost use Rattle.mending.specs.Mend.{mend};
ghost use Rattle.yakuemi.specs.Measures.{sizes};

use crate::sizes;
use mending::Mended;

// Changes the cut table of a block of nx by ny by nz cubes so that filling with the same band no
// longer refuses it with 6 or 7: a missing byte is filled in, by the sizes of the samples at both
// ends, and a stray one is cleared. Which edges cross is read off the labels that filling reads.
//
// Theorems (crates/mending/proofs/Theorems.antt): a byte filled in is within half a 256th of its
// edge of the exact quotient, or under one where it was held (`near`); filling then answers neither 6 nor 7, whatever
// else is lent (`unrefused`); the counts are those of the bytes that filling would refuse
// (`counted`); a second run changes nothing and answers two zeros (`again`).
pub fn yakuemi_mend(
    nx: u32,
    ny: u32,
    nz: u32,
    band: u32,
    samples: &[i16],
    cuts: &mut [u8],
) -> Mended
    ensures answer { result ≡ (mend band (block_of (sizes nx ny nz) samples.now cuts.old)).answer }
    ensures cuts { cuts.new ≡ (mend band (block_of (sizes nx ny nz) samples.now cuts.old)).cuts }
{
    patch::block::mend_block(sizes(nx, ny, nz), band, samples, cuts)
}
