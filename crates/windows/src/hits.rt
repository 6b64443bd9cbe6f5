// Which parts of the row table have entries in which windows, so that later passes leave the others out.
ghost use Rattle.std.specs.Prelude.{◌≡◌, false, ◌≤◌, MatchOption};
ghost use Rattle.bitmap.specs.inner.Bits.{marked};
ghost use Rattle.windows.specs.inner.Windows.{windows, slot, Missed, NextHit};

use crate::window::{PART, WINDOWS, Window};
use bitmap::Bits;

// The words that hold a bit for each slot of each window.
pub const HIT_WORDS: usize = 3168;

#[derive(Drop)]
pub struct Hits {
    pub bits: Bits<HIT_WORDS>,
}

impl Hits {
    // Whether a part may have an entry in a window.
    pub fn has(&self, w: Window, p: usize) -> bool
        ensures { result ≡ marked self.now.bits.words (slot w.index p) }
    {
        self.bits.is_marked(w.slot(p))
    }

    // Whether some part of a row table of n entries has an entry in a window.
    pub fn is_hit(&self, n: usize, w: Window) -> bool
        ensures { result ≡ false → Missed self.now.bits.words n w.index }
    {
        (0..n / PART + 1).any(|p| self.has(w, p))
    }

    // The next window from one on that is hit.
    pub fn next_hit(&self, n: usize, from: usize) -> Option<Window>
        requires { from ≤ windows }
        ensures { MatchOption result (NextHit self.now.bits.words n from windows)
            (λ w. NextHit self.now.bits.words n from w.index) }
    {
        for index in from..WINDOWS {
            let w = Window { index };
            if self.is_hit(n, w) {
                return Some(w);
            }
        }
        None
    }
}
