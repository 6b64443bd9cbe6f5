// What gives the ids of a window their numbers: the ranks of their bits, or a table of their own, where there
// is room for it, so that an entry costs one load.
ghost use Rattle.std.specs.Prelude.{ℕ, ◌≡◌, ◌+◌, ◌<◌, ◌^◌, get_or};
ghost use Rattle.basics.specs.Lists.{count};
ghost use Rattle.bitmap.specs.inner.Bits.{marked};
ghost use Rattle.windows.specs.inner.Windows.{window, Unrolled};

use crate::window::{WINDOW, WORDS};
use bitmap::{Bits, Ranking};

// The number of each place in a window.
pub trait Numbers: Copy {
    ghost number_of: { Self → ℕ → ℕ };

    fn number(self, k: usize) -> u32
        requires { k < window }
        ensures { result ≡ number_of self k };
}

impl Numbers for Ranking<'_, WORDS> {
    ghost number_of = { λ ranking k. ranking.first + count (marked ranking.bits.now.words) k };

    fn number(self, k: usize) -> u32 {
        self.number(k)
    }
}

impl Numbers for &[u32; WINDOW] {
    ghost number_of = { λ numbers k. get_or numbers.now k 0 };

    fn number(self, k: usize) -> u32 {
        self[k]
    }
}

// Writes the number that each id of a window has or would have, in use or not.
pub fn unroll(bits: &Bits<WORDS>, first: u32, numbers: &mut [u32; WINDOW])
    requires { first + window < 2 ^ 32 }
    ensures { Unrolled bits.now.words first numbers.new }
{
    let mut next = first;
    for (k, number) in numbers.iter_mut().enumerate() {
        *number = next;
        next += u32::from(bits.is_marked(k));
    }
}
