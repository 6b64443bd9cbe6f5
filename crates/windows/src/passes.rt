// One window of ids: its ids in use marked, and the entries that are in it rewritten.
ghost use Rattle.std.specs.Prelude.{◌≡◌, ◌*◌, length};
ghost use Rattle.windows.specs.inner.Windows.{window, Known, Marks, Windowed, in_window, Rewrites};

use crate::hits::Hits;
use crate::numbers::Numbers;
use crate::window::{PART, WORDS, Window};
use bitmap::Bits;

// Marks the ids of a part that are in a window.
fn mark_part(bits: &mut Bits<WORDS>, rows: &[u32], w: Window)
    ensures { Marks (window * w.index) rows.now bits.old.words bits.new.words }
{
    for id in rows {
        if let Some(k) = w.place(*id) {
            bits.mark(k);
        }
    }
}

// Rewrites the ids of a part that are in a window.
fn rewrite_part<N: Numbers>(rows: &mut [u32], w: Window, numbers: N)
    ensures { Rewrites (in_window (N.number_of numbers) (window * w.index)) (length rows.old) rows.old rows.new }
{
    for id in rows.iter_mut() {
        if let Some(k) = w.place(*id) {
            *id = numbers.number(k);
        }
    }
}

impl Hits {
    // Marks the ids of a window, and no other.
    pub fn mark_window(&self, bits: &mut Bits<WORDS>, rows: &[u32], w: Window)
        requires { Known self.now.bits.words rows.now w.index }
        ensures { Windowed (window * w.index) rows.now bits.new.words }
    {
        bits.clear();
        for (p, part) in rows.chunks(PART).enumerate() {
            if self.has(w, p) {
                mark_part(bits, part, w);
            }
        }
    }

    // Rewrites the ids of a window.
    pub fn rewrite_window<N: Numbers>(&self, rows: &mut [u32], w: Window, numbers: N)
        requires { Known self.now.bits.words rows.old w.index }
        ensures { Rewrites (in_window (N.number_of numbers) (window * w.index)) (length rows.old) rows.old rows.new }
    {
        // By the part's number: in a loop over `chunks_mut` no invariant can name what was written so far.
        let n = rows.len();
        for p in 0..n / PART + 1 {
            if self.has(w, p) {
                let a = PART * p;
                let e = a + PART.min(n - a);
                rewrite_part(&mut rows[a..e], w, numbers);
            }
        }
    }
}
