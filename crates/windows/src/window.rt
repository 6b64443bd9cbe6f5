// The ids in windows of equal size, and the row table in parts.
ghost use Rattle.std.specs.Prelude.{◌≡◌, ◌+◌, ◌*◌, ◌/◌, ◌≤◌, ◌<◌, MatchOption};
ghost use Rattle.windows.specs.inner.Windows.{window, windows, hit_words, slot, Outside};

// The ids of a window.
pub const WINDOW: usize = 524288;

// How many windows hold every id that may have a place.
pub const WINDOWS: usize = 9;

// The words that hold a bit for each id of a window.
pub const WORDS: usize = 8192;

// The entries of a part of the row table.
pub const PART: usize = 256;

// The slots of a window.
pub const PARTS: usize = 22528;

// One of the windows.
#[derive(Clone, Copy)]
pub struct Window {
    pub index: usize,
    ghost within: { index < windows },
}

impl Window {
    // The window of an id, if there is one.
    pub fn of(id: u32) -> Option<Window>
        ensures { MatchOption result (windows * window ≤ id) (λ w. w.index ≡ id / window) }
    {
        let index = id as usize / WINDOW;
        if index < WINDOWS {
            Some(Window { index })
        } else {
            None
        }
    }

    pub fn first_id(self) -> usize
        ensures { result ≡ window * self.index }
    {
        WINDOW * self.index
    }

    // Where an id stands in the window, if it is there.
    pub fn place(self, id: u32) -> Option<usize>
        ensures { MatchOption result (Outside (window * self.index) id)
            (λ k. (k < window) × (id ≡ window * self.index + k)) }
    {
        let id = id as usize;
        let first = self.first_id();
        if first <= id && id - first < WINDOW {
            return Some(id - first);
        }
        None
    }

    // Where the hits of a part in the window are kept; the last parts of a long table share a slot.
    pub fn slot(self, p: usize) -> usize
        ensures value { result ≡ slot self.index p }
        ensures upper_bound { result < 64 * hit_words }
    {
        PARTS * self.index + p.min(PARTS - 1)
    }
}
