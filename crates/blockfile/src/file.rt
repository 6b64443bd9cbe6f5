// A block file: read, or refused with nothing written.
ghost use Rattle.std.specs.Prelude.{◌≡◌, true, ◌+◌, ◌*◌, ◌≤◌, length, MatchResult};
ghost use Rattle.std.proofs.lemmas.List.Edits.{sets};
ghost use Rattle.lattice.specs.Counts.{most_points};
ghost use Rattle.blockfile.specs.Format.{beyond, well_formed, samples_from, file_cuts, read_body, read, read_whole};
ghost use Rattle.blockfile.specs.inner.Answer.{answer_of};
ghost use Rattle.blockfile.specs.inner.Needs.{needs_after, needs, Opens, Shut};

use crate::{Loaded, cuts, numbers, runs, samples};
use lattice::{Lattice, Sizes};
use refusals::Refusal;

// A size above the limit.
#[tactic(auto, unfolding(crate::specs::Format::beyond))]
fn is_beyond(s: Sizes, limit: usize) -> bool
    ensures { result ≡ beyond limit s }
{
    limit < s.nx || limit < s.ny || limit < s.nz
}

// The lattice of the sizes with which a file starts, or why they are refused.
fn lattice_of(bytes: &[u8], limit: usize) -> Result<Lattice, Refusal>
    ensures { MatchResult result (λ l. Opens bytes.now limit l.sizes) (λ e. Shut bytes.now limit e) }
{
    if bytes.len() < 3 {
        return Err(Refusal::File);
    }
    let sizes = Sizes {
        nx: usize::from(bytes[0]),
        ny: usize::from(bytes[1]),
        nz: usize::from(bytes[2]),
    };
    let Some(lattice) = Lattice::new(sizes) else {
        return Err(Refusal::Sizes);
    };
    if is_beyond(sizes, limit) {
        return Err(Refusal::Room);
    }
    Ok(lattice)
}

// The tables become those of a well-formed file of n points.
fn write_tables(bytes: &[u8], n: usize, samples: &mut [i16], cuts: &mut [u8])
    requires n_le_most_points { (n ≤ most_points) × (well_formed bytes.now n ≡ true) }
    requires n_in_bounds { (n ≤ length samples.old) × (7 * n ≤ length cuts.old) }
    ensures samples_after { samples.new ≡ sets samples.old 0 (samples_from bytes.now 3 n) }
    ensures cuts_after { cuts.new ≡ sets cuts.old 0 (file_cuts bytes.now n) }
{
    samples::write_samples(bytes, n, samples);
    let head = 5 + 2 * n;
    let count = usize::from(numbers::two_at(bytes, 3 + 2 * n));
    cuts::write_cuts(bytes, head, count, head + 6 * count, 7 * n, cuts);
}

// A file that fits the tables, by what follows the size bytes, or a refusal.
fn check_body(
    bytes: &[u8],
    lattice: Lattice,
    samples: &[i16],
    cuts: &[u8],
) -> Result<Loaded, Refusal>
    ensures { answer_of result ≡ (read_body bytes.now samples.now cuts.now lattice.sizes).answer }
{
    let n = lattice.point_count();
    if samples.len() < n {
        return Err(Refusal::Room);
    }
    if cuts.len() < 7 * n {
        return Err(Refusal::Room);
    }
    if !runs::is_well_formed(bytes, n) {
        return Err(Refusal::File);
    }
    Ok(Loaded {
        lattice,
        end: runs::end_of(bytes, n),
    })
}

// What reading a file into these tables answers; nothing is written yet.
fn check(bytes: &[u8], limit: usize, samples: &[i16], cuts: &[u8]) -> Result<Loaded, Refusal>
    ensures { answer_of result ≡ (read bytes.now limit samples.now cuts.now).answer }
{
    let lattice = lattice_of(bytes, limit)?;
    check_body(bytes, lattice, samples, cuts)
}

// Reads a block file from the start of the bytes into the first entries of the lent tables, and
// says where it ends. Everything is checked before anything is written.
pub fn read(
    bytes: &[u8],
    limit: usize,
    samples: &mut [i16],
    cuts: &mut [u8],
) -> Result<Loaded, Refusal>
    ensures value { answer_of result ≡ (read bytes.now limit samples.old cuts.old).answer }
    ensures samples_after { samples.new ≡ (read bytes.now limit samples.old cuts.old).samples }
    ensures cuts_after { cuts.new ≡ (read bytes.now limit samples.old cuts.old).cuts }
{
    let loaded = check(bytes, limit, samples, cuts)?;
    write_tables(bytes, loaded.lattice.point_count(), samples, cuts);
    Ok(loaded)
}

// As `read`, where the file must be all of the bytes: what follows its end is refused.
pub fn read_whole(
    bytes: &[u8],
    limit: usize,
    samples: &mut [i16],
    cuts: &mut [u8],
) -> Result<Loaded, Refusal>
    ensures value { answer_of result ≡ (read_whole bytes.now limit samples.old cuts.old).answer }
    ensures samples_after { samples.new ≡ (read_whole bytes.now limit samples.old cuts.old).samples }
    ensures cuts_after { cuts.new ≡ (read_whole bytes.now limit samples.old cuts.old).cuts }
{
    let loaded = check(bytes, limit, samples, cuts)?;
    if loaded.end < bytes.len() {
        return Err(Refusal::File);
    }
    write_tables(bytes, loaded.lattice.point_count(), samples, cuts);
    Ok(loaded)
}

// How many bytes of a file of n points must be held before more of it is known.
fn needed_after(bytes: &[u8], n: usize) -> usize
    requires { n ≤ most_points }
    ensures { result ≡ needs_after bytes.now n }
{
    let head = 5 + 2 * n;
    if bytes.len() < head {
        return head;
    }
    let first = head + 6 * usize::from(numbers::two_at(bytes, 3 + 2 * n));
    if bytes.len() < first {
        return first;
    }
    runs::end_of(bytes, n)
}

// How many bytes must be held before more is known of the file that they start: a reader that asks
// for so many, again and again, never takes a byte past the file's end.
pub fn needed(bytes: &[u8], limit: usize) -> usize
    ensures { result ≡ needs bytes.now limit }
{
    match lattice_of(bytes, limit) {
        Ok(lattice) => needed_after(bytes, lattice.point_count()),
        Err(_) => 3,
    }
}
