// The runs of a block file: their headers, and what they must be like. (Loops over the headers count
// them: `run_at` and `two_at` read at a place of the file, which contracts name, and parts of six bytes
// would be read by the same calls.)
ghost use Rattle.std.specs.Prelude.{◌≡◌, true, ◌+◌, ◌*◌, ◌<◌, ◌≤◌, length};
ghost use Rattle.lattice.specs.Counts.{most_points};
ghost use Rattle.blockfile.specs.Format.{run_at, runs_from, run_fits, fit, lengths, well_formed, first_byte, end};

use crate::{Run, numbers};

// The run whose header starts at i.
#[tactic(auto, unfolding(crate::specs::Format::run_at))]
pub fn run_at(bytes: &[u8], i: usize) -> Run
    requires { i + 6 ≤ length bytes.now }
    ensures { result ≡ run_at bytes.now i }
{
    Run {
        offset: numbers::four_at(bytes, i),
        length: numbers::two_at(bytes, i + 4),
    }
}

// A run that starts no earlier than `least` and ends within the cut table.
#[tactic(auto, unfolding(crate::specs::Format::run_fits))]
fn run_fits(r: Run, least: usize, total: usize) -> bool
    ensures { result ≡ run_fits total least r }
{
    1 <= r.length && r.end() <= total && least <= r.start()
}

// The runs whose headers start at `head` fit the cut table, one after the other, and never touch.
fn runs_fit(bytes: &[u8], head: usize, count: usize, total: usize) -> bool
    requires { (count < 65536) × (head + 6 * count ≤ length bytes.now) }
    ensures { result ≡ fit total 0 (runs_from bytes.now head count) }
{
    let mut least: usize = 0;
    for i in 0..count {
        let r = run_at(bytes, head + 6 * i);
        if !run_fits(r, least, total) {
            return false;
        }
        least = r.end() + 1;
    }
    true
}

// How many bytes the runs have together.
fn run_bytes(bytes: &[u8], head: usize, count: usize) -> usize
    requires { (count < 65536) × (head + 6 * count ≤ length bytes.now) }
    ensures value { result ≡ lengths (runs_from bytes.now head count) }
    ensures upper_bound { result < 4294967296 }
{
    let mut sum: usize = 0;
    for i in 0..count {
        sum += usize::from(numbers::two_at(bytes, head + 6 * i + 4));
    }
    sum
}

// Where a file of n points ends.
pub fn end_of(bytes: &[u8], n: usize) -> usize
    requires { (n ≤ most_points) × (first_byte bytes.now n ≤ length bytes.now) }
    ensures { result ≡ end bytes.now n }
{
    let count = usize::from(numbers::two_at(bytes, 3 + 2 * n));
    let first = 5 + 2 * n + 6 * count;
    first + run_bytes(bytes, 5 + 2 * n, count)
}

// What follows the size bytes is that of a block of n points.
pub fn is_well_formed(bytes: &[u8], n: usize) -> bool
    requires { n ≤ most_points }
    ensures { result ≡ well_formed bytes.now n }
{
    let head = 5 + 2 * n;
    if bytes.len() < head {
        return false;
    }
    let count = usize::from(numbers::two_at(bytes, 3 + 2 * n));
    let first = head + 6 * count;
    if bytes.len() < first {
        return false;
    }
    let end = end_of(bytes, n);
    if bytes.len() < end {
        return false;
    }
    if !runs_fit(bytes, head, count, 7 * n) {
        return false;
    }
    !bytes[first..end].contains(&0)
}
