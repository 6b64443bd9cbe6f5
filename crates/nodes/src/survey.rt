// The first round over the windows, from the last one down: the ids in use are checked and counted.
ghost use Rattle.std.specs.Prelude.{◌≡◌, ◌*◌, ◌≤◌, length, MatchOption};
ghost use Rattle.windows.specs.inner.Windows.{window, Spread, Windowed};
ghost use Rattle.nodes.specs.inner.Rounds.{all_ids, Found, Counted, SomeUnplaced};

use bitmap::Bits;
use coordinates::check;
use places::Stored;
use windows::hits::Hits;
use windows::window::{WINDOWS, WORDS, Window};

// One window: its ids in use are marked, checked and counted on.
fn survey_window(
    stored: Stored,
    rows: &[u32],
    hits: &Hits,
    bits: &mut Bits<WORDS>,
    w: Window,
    total: u32,
) -> Option<u32>
    requires spread { Spread hits.now.bits.words rows.now (length rows.now) }
    requires total_bound { total ≤ all_ids }
    ensures windowed { Windowed (window * w.index) rows.now bits.new.words }
    ensures found { MatchOption result (SomeUnplaced stored.entry rows.now)
        (λ next. Found stored.entry rows.now w.index total next) }
{
    hits.mark_window(bits, rows, w);
    if !check::bits_placed(stored, &bits.words, w.first_id()) {
        return None;
    }
    Some(total + bits.count())
}

// How many ids are in use, if each has a place. The first window, which is looked at last, stays
// marked.
pub fn survey(stored: Stored, rows: &[u32], hits: &Hits, bits: &mut Bits<WORDS>) -> Option<u32>
    requires { Spread hits.now.bits.words rows.now (length rows.now) }
    ensures { MatchOption result (SomeUnplaced stored.entry rows.now)
        (λ count. Counted stored.entry rows.now count bits.new.words) }
{
    let mut total = 0;
    for index in (1..WINDOWS).rev() {
        let w = Window { index };
        if hits.is_hit(rows.len(), w) {
            total = survey_window(stored, rows, hits, bits, w, total)?;
        }
    }
    survey_window(stored, rows, hits, bits, Window { index: 0 }, total)
}
