// The hits of a row table: each part is marked in the windows that it has entries in.
ghost use Rattle.std.specs.Prelude.{◌≡◌, true, false, length};
ghost use Rattle.windows.specs.inner.Windows.{AtMost, Grows, Beyond, Told, Spread};

use crate::hits::Hits;
use crate::window::{PART, WINDOW, Window};

// The greatest id, or 0. There is no early end, so that the compiler can go over many entries at once.
fn greatest(rows: &[u32]) -> u32
    ensures { AtMost result rows.now }
{
    let mut most = 0;
    for id in rows {
        most = most.max(*id);
    }
    most
}

impl Hits {
    // Entry by entry. Answers whether every id is in some window.
    fn spread_entries(&mut self, rows: &[u32], p: usize) -> bool
        ensures grows { Grows self.old.bits.words self.new.bits.words }
        ensures told { result ≡ true → Told self.new.bits.words rows.now p }
        ensures beyond { result ≡ false → Beyond rows.now }
    {
        for id in rows {
            let Some(w) = Window::of(*id) else {
                return false;
            };
            if !self.has(w, p) {
                self.bits.mark(w.slot(p));
            }
        }
        true
    }

    // Most parts of a filled block have ids of the first window only.
    fn spread_part(&mut self, rows: &[u32], p: usize) -> bool
        ensures grows { Grows self.old.bits.words self.new.bits.words }
        ensures told { result ≡ true → Told self.new.bits.words rows.now p }
        ensures beyond { result ≡ false → Beyond rows.now }
    {
        if (greatest(rows) as usize) < WINDOW {
            let first = Window { index: 0 };
            self.bits.mark(first.slot(p));
            return true;
        }
        self.spread_entries(rows, p)
    }

    // The whole row table. Answers whether every id is in some window.
    pub fn spread(&mut self, rows: &[u32]) -> bool
        ensures spread { result ≡ true → Spread self.new.bits.words rows.now (length rows.now) }
        ensures beyond { result ≡ false → Beyond rows.now }
    {
        for (p, part) in rows.chunks(PART).enumerate() {
            if !self.spread_part(part, p) {
                return false;
            }
        }
        true
    }
}
