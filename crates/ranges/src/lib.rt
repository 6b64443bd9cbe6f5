// Whole ranges of a table, tested at once: no test ends early, so that the compiler takes many
// entries in one step. A range may go past the table's end: what is not there counts as zero.
#![tactic(auto)]

mod joint;

ghost use Rattle.std.specs.Prelude.{◌≡◌, true, false, ℕ, ◌-◌, ◌<◌, ◌≤◌, pos, length, get_or};
ghost use Rattle.ranges.specs.inner.Blank.{Blank};
ghost use Rattle.labelling.specs.inner.Labels.{has_label};

use labelling::label;

// What a table has of the range from one entry on and before another.
fn there<T>(table: &[T], from: usize, to: usize) -> &[T]
    ensures { (d : T) (k : ℕ) → from ≤ k → k < to → get_or table.now k d ≡ get_or result.now (k - from) d }
{
    let end = to.min(table.len());
    &table[from.min(end)..end]
}

// All bytes are zero, byte by byte: the highest is.
fn is_highest_zero(bytes: &[u8]) -> bool
    ensures { result ≡ true → Blank bytes.now 0 (length bytes.now) }
{
    let mut top: u8 = 0;
    for &byte in bytes {
        top = top.max(byte);
    }
    top == 0
}

// All bytes from one on and before another are zero: the highest is.
pub fn are_zero(bytes: &[u8], from: usize, to: usize) -> bool
    ensures { result ≡ true → Blank bytes.now from to }
{
    is_highest_zero(there(bytes, from, to))
}

// All bytes from one on and before another are zero: eight together by the joint test, and what is
// left over by itself.
pub fn is_blank(bytes: &[u8], from: usize, to: usize) -> bool
    ensures { result ≡ true → Blank bytes.now from to }
{
    let (eights, rest) = there(bytes, from, to).as_chunks::<8>();
    let mut seen: u64 = 0;
    for eight in eights {
        seen |= joint::eight(eight);
    }
    seen == 0 && is_highest_zero(rest)
}

// The highest sample, or 0 if none is above zero; or the lowest, or 0 if none is below zero. Where it is not
// plus, or not minus, by whatever band, none is.
fn outermost(plus: bool, samples: &[i16]) -> i16
    ensures { (band : ℕ) → has_label plus band result ≡ false
        → (p : ℕ) → has_label plus band (get_or samples.now p (pos 0)) ≡ false }
{
    let mut seen: i16 = 0;
    for &x in samples {
        seen = if plus { seen.max(x) } else { seen.min(x) };
    }
    seen
}

// Some sample from one on and before another is plus by the band, or some is minus: the outermost
// one is.
pub fn has_some(plus: bool, band: u32, samples: &[i16], from: usize, to: usize) -> bool
    ensures { result ≡ false
        → (p : ℕ) → from ≤ p → p < to → has_label plus band (get_or samples.now p (pos 0)) ≡ false }
{
    label::has_label(plus, band, outermost(plus, there(samples, from, to)))
}
