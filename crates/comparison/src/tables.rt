// Tables, compared with what a record states. (Ids and samples each by a loop of their own: one
// function over both would take the reading of an entry as a closure, and its bound with it.)
ghost use Rattle.std.specs.Prelude.{◌≡◌, ◌+◌, ◌*◌, ◌≤◌, length};
ghost use Rattle.blockfile.specs.Format.{samples_from};
ghost use Rattle.comparison.specs.program.Same.{same, untouched, ids_from, same_samples};

use blockfile::numbers;

// The rows are the ids that stand from `at` on.
pub fn same_ids(rows: &[u32], bytes: &[u8], at: usize) -> bool
    requires { at + 2 * length rows.now ≤ length bytes.now }
    ensures { result ≡ same rows.now (ids_from bytes.now at (length rows.now)) }
{
    for (i, id) in rows.iter().enumerate() {
        if *id != u32::from(numbers::two_at(bytes, at + 2 * i)) {
            return false;
        }
    }
    true
}

// Every entry is as it was lent.
pub fn is_untouched(rows: &[u32], lent: u32) -> bool
    ensures { result ≡ untouched lent rows.now }
{
    rows.iter().all(|n| *n == lent)
}

// The samples are those that stand from `at` on.
pub fn same_samples(samples: &[i16], bytes: &[u8], at: usize) -> bool
    requires { at + 2 * length samples.now ≤ length bytes.now }
    ensures { result ≡ same_samples samples.now (samples_from bytes.now at (length samples.now)) }
{
    for (i, sample) in samples.iter().enumerate() {
        if *sample != numbers::signed(numbers::two_at(bytes, at + 2 * i)) {
            return false;
        }
    }
    true
}
