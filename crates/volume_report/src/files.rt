// One file of the week, from its bytes to the numbers of its line.
ghost use Rattle.std.specs.Prelude.{◌≡◌, ◌*◌, ◌≤◌, Ok, length, take};
ghost use Rattle.lattice.specs.Counts.{points};
ghost use Rattle.moving.specs.Block.{Bytes};
ghost use Rattle.sums.specs.inner.Measured.{Measured};
ghost use Rattle.fill_file.specs.inner.Answer.{answer_of as summary_of};
ghost use Rattle.volume_report.specs.program.Report.{measured, entry_of};
ghost use Rattle.volume_report.specs.inner.Answer.{entry_with, answer_of};
ghost use Rattle.bounds.specs.inner.Most.{rows_most};
ghost use Rattle.volume_report.specs.inner.Small.{Small};

use crate::{Outcome, Volumes};
use blockfile::Loaded;
use fill_file::answers::Counts;

// The volumes of a block that was read and filled.
fn measure(block: Loaded, filled: Counts, cuts: &[u8], state: &[u8], rows: &[u32]) -> Volumes
    requires in_bounds { (points block.lattice.sizes ≤ length state.now) × (7 * points block.lattice.sizes ≤ length cuts.now) }
    requires emitted_le_rows_most { filled.emitted ≤ rows_most }
    requires measured { Bytes cuts.now
        → Measured block.lattice.sizes (take (7 * points block.lattice.sizes) cuts.now) (take (points block.lattice.sizes) state.now) rows.now filled.emitted }
    ensures value { entry_with (Ok result) block.end ≡ measured block.lattice.sizes block.end (summary_of (Ok filled)) cuts.now state.now rows.now }
    ensures small { Small (entry_with (Ok result) block.end) }
{
    let n = block.lattice.point_count();
    let bytes = 7 * n;
    let v = sums::add_up(
        block.lattice.sizes,
        &cuts[..bytes],
        &state[..n],
        rows,
        filled.emitted as usize,
    );
    Volumes {
        tetrahedra: filled.emitted,
        moved: filled.moved,
        sum: v.sum,
        smallest: v.smallest,
    }
}

// The numbers of the file that starts the bytes, whatever follows it. The tables are those of the
// bench program, large enough for 5 by 5 by 5 cubes.
pub fn entry(bytes: &[u8]) -> Outcome
    ensures value { answer_of result ≡ entry_of bytes.now }
    ensures small { Small (answer_of result) }
{
    let mut samples = [0i16; 341];
    let mut cuts = [0u8; 2387];
    let mut state = [0u8; 341];
    let mut rows = [0u32; 14400];
    match blockfile::file::read(bytes, 5, &mut samples, &mut cuts) {
        Err(refusal) => Outcome {
            volumes: Err(refusal.into()),
            end: 0,
        },
        Ok(block) => {
            match fill_file::fill_read(block, &samples, &cuts, &mut state, &mut rows) {
                Err(refused) => Outcome {
                    volumes: Err(refused),
                    end: block.end,
                },
                Ok(filled) => Outcome {
                    volumes: Ok(measure(block, filled, &cuts, &state, &rows)),
                    end: block.end,
                },
            }
        }
    }
}
