// Points on the block's outside.
ghost use Rattle.std.specs.Prelude.{◌≡◌, ◌≤◌};
ghost use Rattle.lattice.specs.Axis.{xyz, somewhere};
ghost use Rattle.lattice.specs.Counts.{largest};
ghost use Rattle.lattice.specs.Rim.{outermost, rim_at};
ghost use Rattle.lattice.specs.inner.Site.{Sited, index};

use crate::{Kind, Lattice, Site, Sizes};

// The first or the last of m along an axis.
#[tactic(auto, unfolding(crate::specs::Rim::outermost))]
pub fn is_outermost(m: usize, i: usize) -> bool
    requires { i ≤ largest }
    ensures { result ≡ outermost m i }
{
    i == 0 || i + 1 == m
}

// The first or the last along some axis of a grid of nx by ny by nz points.
fn is_rim_of(nx: usize, ny: usize, nz: usize, q: Site) -> bool
    requires { (q.x ≤ largest) × (q.y ≤ largest) × (q.z ≤ largest) }
    ensures { result ≡ somewhere (λ a. outermost (xyz nx ny nz a) (index q a)) }
{
    is_outermost(nx, q.x) || is_outermost(ny, q.y) || is_outermost(nz, q.z)
}

impl Lattice {
    // On the outside of the points of its kind.
    #[tactic(auto, unfolding(crate::specs::Rim::rim_at))]
    pub fn is_rim(self, q: Site) -> bool
        requires { Sited self.sizes q }
        ensures { result ≡ rim_at self.sizes q.kind (index q) }
    {
        let Sizes { nx, ny, nz } = self.sizes;
        match q.kind {
            Kind::Corner => is_rim_of(nx + 1, ny + 1, nz + 1, q),
            Kind::Centre => is_rim_of(nx, ny, nz, q),
        }
    }
}
