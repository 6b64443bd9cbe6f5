// Filling a block with tetrahedra.
ghost use Rattle.std.specs.Prelude.{◌≡◌};
ghost use Rattle.moving.specs.Block.{block_of, reading_of};
ghost use Rattle.geometry.specs.Place.{place_of};
ghost use Rattle.filling.specs.Fill.{fill};
ghost use Rattle.filling.specs.Demand.{Conforms, OnSkin, rows_read};
ghost use Rattle.yakuemi.specs.Measures.{sizes};

use crate::sizes;
use filling::Filled;

// Moves the points that sit too near the skin, each to the nearest cut, and writes the rows of a
// block of nx by ny by nz cubes: N samples, 7N cut bytes, N state bytes and a row table, of any
// content. A sample whose size is at most the band counts as zero, in every test, so its point lies on
// the skin: it never moves, and its state byte is 15.
//
// Theorems: of the cuts that violate a point it moves to the nearest (`nearest_cut`,
// crates/moving/proofs/Choice.antt); a point in the band never moves (`in_band_rests`,
// crates/moving/proofs/Band.antt); what each state byte says of its point, and which points lie on the
// skin (`told`, `skin_told`, crates/filling/proofs/Told.antt).
pub fn yakuemi_fill(
    nx: u32,
    ny: u32,
    nz: u32,
    band: u32,
    samples: &[i16],
    cuts: &[u8],
    state: &mut [u8],
    rows: &mut [u32],
) -> Filled
    ensures answer { result
        ≡ (fill band (block_of (sizes nx ny nz) samples.now cuts.now) state.old rows.old).answer }
    ensures state { state.new
        ≡ (fill band (block_of (sizes nx ny nz) samples.now cuts.now) state.old rows.old).state }
    ensures rows { rows.new
        ≡ (fill band (block_of (sizes nx ny nz) samples.now cuts.now) state.old rows.old).rows }
    ensures conforms { result.number ≡ 0
        → Conforms (rows_read rows.new result.rows)
        (place_of (sizes nx ny nz) cuts.now state.new)
        (OnSkin (reading_of band (block_of (sizes nx ny nz) samples.now cuts.now))) }
{
    stuffing::steps::fill_sized(sizes(nx, ny, nz), band, samples, cuts, state, rows)
}
