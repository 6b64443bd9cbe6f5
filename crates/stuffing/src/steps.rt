// The steps of filling: the checks, then an accepted block.
ghost use Rattle.std.specs.Prelude.{◌≡◌, length};
ghost use Rattle.lattice.specs.Counts.{points};
ghost use Rattle.moving.specs.Block.{block_of};
ghost use Rattle.filling.specs.Check.{Accepted};
ghost use Rattle.labelling.specs.inner.Scans.{block_in};
ghost use Rattle.stuffing.specs.inner.Fills.{Fills};

use crate::check;
use filling::Filled;
use labelling::scan::Scan;
use lattice::Sizes;

fn answered(number: u32, rows: usize, moved: usize) -> Filled
    ensures { result ≡ record { number = number; rows = rows; moved = moved; place = 0 } }
{
    Filled {
        number,
        rows: rows as u64,
        moved: moved as u64,
        place: 0,
    }
}

// A block that passed every check: its points are moved, its rows counted and, where they fit,
// written.
fn fill_accepted(scan: Scan<'_>, cuts: &[u8], state: &mut [u8], rows: &mut [u32]) -> Filled
    requires accepted { Accepted scan.band (block_in scan cuts.now) }
    requires state_len { length state.old ≡ points scan.lattice.sizes }
    ensures { Fills scan.entry.band (block_in scan.entry cuts.now)
        state.old rows.old result state.new rows.new }
{
    let moved = warp::moves::warp(scan, cuts, state);
    let count = emit::passes::count_rows(scan, state);
    if rows.len() / 4 < count {
        return answered(10, count, moved);
    }
    emit::passes::write_rows(scan, state, rows);
    answered(0, count, moved)
}

// Any block.
pub fn fill_sized(
    s: Sizes,
    band: u32,
    samples: &[i16],
    cuts: &[u8],
    state: &mut [u8],
    rows: &mut [u32],
) -> Filled
    ensures { Fills band (block_of s samples.now cuts.now)
        state.old rows.old result state.new rows.new }
{
    match check::check(s, band, samples, cuts, state.len()) {
        Ok(table) => fill_accepted(table.scan, table.cuts, state, rows),
        Err(refusal) => Filled {
            number: refusal.number(),
            rows: 0,
            moved: 0,
            place: refusal.place() as u64,
        },
    }
}
