// The cut table of a block file.
ghost use Rattle.std.specs.Prelude.{◌≡◌, true, ◌+◌, ◌*◌, ◌<◌, ◌≤◌, length};
ghost use Rattle.std.proofs.lemmas.List.Edits.{sets};
ghost use Rattle.blockfile.specs.Format.{runs_from, lengths, fit, cuts_from};

use crate::runs;

// The first `total` entries become the cut table of the runs whose headers start at `head` and
// whose bytes start at `first`: every entry is written once, in ascending order. (The headers are counted
// as in `runs`: each is read at its place of the file.)
pub fn write_cuts(
    bytes: &[u8],
    head: usize,
    count: usize,
    first: usize,
    total: usize,
    table: &mut [u8],
)
    requires count_bound { (count < 65536) × (head + 6 * count ≤ length bytes.now) }
    requires count_in_bounds { first + lengths (runs_from bytes.now head count) ≤ length bytes.now }
    requires count_value { fit total 0 (runs_from bytes.now head count) ≡ true }
    requires total_in_bounds { total ≤ length table.old }
    ensures { table.new
        ≡ sets table.old 0 (cuts_from bytes.now total 0 first (runs_from bytes.now head count)) }
{
    let mut k: usize = 0;
    let mut at = first;
    for i in 0..count {
        let r = runs::run_at(bytes, head + 6 * i);
        let start = r.start();
        let next = at + usize::from(r.length);
        table[k..start].fill(0);
        k = r.end();
        table[start..k].copy_from_slice(&bytes[at..next]);
        at = next;
    }
    table[k..total].fill(0);
}
