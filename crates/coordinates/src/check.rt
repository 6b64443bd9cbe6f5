// Whether ids have places.
ghost use Rattle.std.specs.Prelude.{◌≡◌, true, false, ◌+◌, ◌*◌, ◌<◌, ◌^◌, eqb, length, MatchOption};
ghost use Rattle.bitmap.specs.inner.Bits.{bit, marked};
ghost use Rattle.coordinates.specs.inner.Marked.{fault, first, AllPlaced, Unplaced, FirstRefused};

use crate::RefusedEntry;
use labelling::codes;
use places::Stored;

// Most ids in use are points that did not move: they have a place whatever else is there.
fn is_placed(stored: Stored, id: usize) -> bool
    ensures { result ≡ eqb (fault stored.entry id) 0 }
{
    if id < stored.state.len() && codes::no_move(usize::from(stored.state[id])) {
        return true;
    }
    stored.locate(id).is_ok()
}

// The ids of a word's bits that are set.
fn word_placed(stored: Stored, word: u64, lo: usize) -> bool
    requires { lo + 64 < 2 ^ 32 }
    ensures all_placed { result ≡ true → AllPlaced stored.entry (bit word) lo 64 }
    ensures unplaced { result ≡ false → Unplaced stored.entry (bit word) lo 64 }
{
    for j in 0..64 {
        if bitmap::is_set(word, j) && !is_placed(stored, lo + j) {
            return false;
        }
    }
    true
}

// The ids that are marked in a window.
pub fn bits_placed(stored: Stored, bits: &[u64], lo: usize) -> bool
    requires { lo + 64 * length bits.now < 2 ^ 31 }
    ensures all_placed { result ≡ true → AllPlaced stored.entry (marked bits.now) lo (64 * length bits.now) }
    ensures unplaced { result ≡ false → Unplaced stored.entry (marked bits.now) lo (64 * length bits.now) }
{
    for (w, word) in bits.iter().enumerate() {
        if *word != 0 && !word_placed(stored, *word, lo + 64 * w) {
            return false;
        }
    }
    true
}

// The first entry whose id has no place, and why.
pub fn first_unplaced(stored: Stored, rows: &[u32]) -> Option<RefusedEntry>
    ensures { MatchOption result (first stored.entry rows.now ≡ length rows.now)
        (λ r. FirstRefused stored.entry rows.now r.entry r.refusal) }
{
    for (entry, id) in rows.iter().enumerate() {
        if let Err(refusal) = stored.locate(*id as usize) {
            return Some(RefusedEntry { entry, refusal });
        }
    }
    None
}
