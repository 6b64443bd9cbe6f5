// The cut bytes of a point's fourteen edges, by strides: quick, and without asking which of the
// edges exist.
ghost use Rattle.std.specs.Prelude.{◌≡◌, true, ℕ, ◌+◌, ◌<◌, ◌≤◌, get_or};
ghost use Rattle.lattice.specs.Axis.{along_x};
ghost use Rattle.lattice.specs.Counts.{grid};
ghost use Rattle.lattice.specs.inner.Site.{Sited};
ghost use Rattle.lines.specs.inner.Lines.{Line};
ghost use Rattle.lines.specs.inner.Strides.{range_most};
ghost use Rattle.warp.specs.inner.Quick.{Offsets, Uncut, Bare};

use lattice::{Lattice, Site};
use lines::{strides, walk};

// Where the bytes of a point's fourteen edges stand, by code, each if its edge exists: the seven of
// the point itself, and those of the starts of the edges that end there.
// (By the direction: two entries are written for each, seven apart.)
pub fn offsets(lattice: Lattice, q: Site) -> [usize; 14]
    requires { Sited lattice.sizes q }
    ensures { Offsets lattice.sizes q result }
{
    let back = strides::behind(lattice, q);
    let first = 7 * q.own;
    let mut at = [0usize; 14];
    for d in 0..7 {
        at[d] = first + d;
        at[d + 7] = 7 * back[d] + d;
    }
    at
}

// The byte at an offset, or 0 past the end of the table.
pub fn cut_at(cuts: &[u8], at: usize) -> u8
    ensures { result ≡ get_or cuts.now at 0 }
{
    cuts.get(at).copied().unwrap_or(0)
}

// No cut starts at any of m + 1 points from one on.
fn is_uncut(cuts: &[u8], from: usize, m: usize) -> bool
    requires { (from ≤ range_most) × (m ≤ 65) }
    ensures { result ≡ true → Uncut cuts.now from m }
{
    ranges::are_zero(cuts, 7 * from, 7 * (from + m + 1))
}

// No cut on any edge of a line of points: none starts on the line, nor where an edge that ends on it
// starts. Those starts stand side by side, so five ranges hold them all.
pub fn is_bare_line(lattice: Lattice, cuts: &[u8], q: Site) -> bool
    requires { Line lattice.sizes q.own q }
    ensures { result ≡ true → (x : ℕ) → x < grid lattice.sizes q.kind along_x → Bare lattice.sizes cuts.now (q.own + x) }
{
    let m = walk::line_length(lattice, q.kind);
    let back = strides::behind(lattice, q);
    let firsts = [back[0], back[1], back[2], back[3], back[5]];
    for first in firsts {
        if !is_uncut(cuts, first, m) {
            return false;
        }
    }
    true
}
