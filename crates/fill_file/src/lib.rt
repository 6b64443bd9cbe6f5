// One block file, from its bytes to what the bench program prints.
#![tactic(auto)]

pub mod answers;
pub mod printing;

ghost use Rattle.std.specs.Prelude.{◌≡◌, ◌*◌, ◌≤◌, length};
ghost use Rattle.lattice.specs.Counts.{points};
ghost use Rattle.blockfile.specs.Format.{read_whole};
ghost use Rattle.fill_file.specs.program.Summary.{fill_read, summary, bench_limit};
ghost use Rattle.fill_file.specs.inner.Answer.{answer_of};
ghost use Rattle.fill_file.specs.program.Printed.{output};

use answers::{Counts, Refused};
use blockfile::Loaded;
use text::Text;

// The measures of the block that was read, and its filling with band 0. A state table that is too
// short is lent as it is, and filling refuses it.
pub fn fill_read(
    block: Loaded,
    samples: &[i16],
    cuts: &[u8],
    state: &mut [u8],
    rows: &mut [u32],
) -> Result<Counts, Refused>
    requires { (points block.lattice.sizes ≤ length samples.now) × (7 * points block.lattice.sizes ≤ length cuts.now) }
    ensures value { answer_of result ≡ (fill_read block.lattice.sizes samples.now cuts.now state.old rows.old).answer }
    ensures state_after { state.new ≡ (fill_read block.lattice.sizes samples.now cuts.now state.old rows.old).state }
    ensures rows_after { rows.new ≡ (fill_read block.lattice.sizes samples.now cuts.now state.old rows.old).rows }
{
    let nx = block.lattice.sizes.nx as u32;
    let ny = block.lattice.sizes.ny as u32;
    let nz = block.lattice.sizes.nz as u32;
    let m = yakuemi::yakuemi_measures(nx, ny, nz);
    let n = m.points as usize;
    let k = n.min(state.len());
    let e = 7 * n;
    let f = yakuemi::yakuemi_fill(
        nx,
        ny,
        nz,
        0,
        &samples[..n],
        &cuts[..e],
        &mut state[..k],
        rows,
    );
    if f.number != 0 {
        return Err(Refused {
            number: f.number,
            place: f.place,
        });
    }
    Ok(Counts {
        points: m.points,
        lattice: m.tetrahedra,
        moved: f.moved,
        emitted: f.rows,
    })
}

// Reads a file of at most 5 by 5 by 5 cubes, which must be all of the bytes, into the sample and
// cut tables and fills its block.
pub fn summarize(
    bytes: &[u8],
    samples: &mut [i16],
    cuts: &mut [u8],
    state: &mut [u8],
    rows: &mut [u32],
) -> Result<Counts, Refused>
    ensures answer { answer_of result
        ≡ (summary bytes.now samples.old cuts.old state.old rows.old).answer }
    ensures samples { samples.new ≡ (read_whole bytes.now bench_limit samples.old cuts.old).samples }
    ensures cuts { cuts.new ≡ (read_whole bytes.now bench_limit samples.old cuts.old).cuts }
    ensures state { state.new
        ≡ (summary bytes.now samples.old cuts.old state.old rows.old).state }
    ensures rows { rows.new
        ≡ (summary bytes.now samples.old cuts.old state.old rows.old).rows }
{
    let block = blockfile::file::read_whole(bytes, 5, samples, cuts)?;
    fill_read(block, samples, cuts, state, rows)
}

// All that the bench program prints, for the bytes of its input. The tables are large enough for 5 by
// 5 by 5 cubes: N is 341, and 1200 lattice tetrahedra give at most three rows each.
#[tactic(auto, unfolding(crate::specs::program::Printed::output))]
pub fn output(bytes: &[u8]) -> Text<113>
    ensures { result ≡ output bytes.now }
{
    let mut samples = [0i16; 341];
    let mut cuts = [0u8; 2387];
    let mut state = [0u8; 341];
    let mut rows = [0u32; 14400];
    printing::answer(summarize(bytes, &mut samples, &mut cuts, &mut state, &mut rows))
}
