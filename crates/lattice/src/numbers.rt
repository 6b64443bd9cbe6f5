// The number of a point, and the point of a number.
ghost use Rattle.std.specs.Prelude.{◌≡◌, ◌+◌, ◌*◌, ◌<◌, ◌≤◌};
ghost use Rattle.lattice.specs.Axis.{xyz};
ghost use Rattle.lattice.specs.Counts.{largest, widest, points};
ghost use Rattle.lattice.specs.inner.Site.{site_at, site_of};

use crate::{Kind, Lattice, Site, Sizes};

// The number of a cell in a grid of a by b by any.
pub fn linear(a: usize, b: usize, x: usize, y: usize, z: usize) -> usize
    requires { (a ≤ widest) × (b ≤ widest) × (x ≤ largest) × (y ≤ largest) × (z ≤ largest) }
    ensures value { result ≡ x + a * (y + b * z) }
    ensures upper_bound { result ≤ 274624 }
{
    x + a * (y + b * z)
}

impl Lattice {
    // The site of the point of a kind with these indices.
    pub fn site_at(self, kind: Kind, x: usize, y: usize, z: usize) -> Site
        requires { (x ≤ largest) × (y ≤ largest) × (z ≤ largest) }
        ensures { result ≡ site_at self.sizes kind (xyz x y z) }
    {
        let Sizes { nx, ny, nz: _ } = self.sizes;
        let among_corners = linear(nx + 1, ny + 1, x, y, z);
        let among_centres = self.corner_count() + linear(nx, ny, x, y, z);
        let (own, across) = match kind {
            Kind::Corner => (among_corners, among_centres),
            Kind::Centre => (among_centres, among_corners),
        };
        Site {
            kind,
            x,
            y,
            z,
            own,
            across,
        }
    }

    // The point of a number, decoded once: nothing above divides again.
    pub fn locate(self, p: usize) -> Site
        requires { p < points self.sizes }
        ensures { result ≡ site_of self.sizes p }
    {
        let Sizes { nx, ny, nz: _ } = self.sizes;
        let first = self.corner_count();
        if p < first {
            let line = p / (nx + 1);
            return self.site_at(Kind::Corner, p % (nx + 1), line % (ny + 1), line / (ny + 1));
        }
        let c = p - first;
        let line = c / nx;
        self.site_at(Kind::Centre, c % nx, line % ny, line / ny)
    }
}
