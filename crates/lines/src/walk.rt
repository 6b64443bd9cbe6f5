// Lattice points line by line along x, in ascending number. A line's first point is decoded; the
// numbers of the others follow, and nothing is divided.
ghost use Rattle.std.specs.Prelude.{◌≡◌, ◌+◌, ◌<◌, ◌≤◌};
ghost use Rattle.std.specs.Iterator.{at_most};
ghost use Rattle.lattice.specs.Axis.{along_x};
ghost use Rattle.lattice.specs.Counts.{grid, points};
ghost use Rattle.lattice.specs.inner.Site.{most};
ghost use Rattle.lines.specs.inner.Lines.{Line, line_at};
ghost use Rattle.lines.specs.inner.Walk.{Comes, Walks, CanPass, Passes, points_ahead};

use lattice::{Kind, Lattice, Site, Sizes};

// How many points a line has.
pub fn line_length(lattice: Lattice, kind: Kind) -> usize
    ensures value { result ≡ grid lattice.sizes kind along_x }
    ensures lower_bound { (1 ≤ result) × (result ≤ 65) }
{
    lattice.sizes.nx + 1 - kind.odd()
}

// The point of index x in the line that starts at q.
pub fn along(q: Site, x: usize) -> Site
    requires { (q.own ≤ most) × (q.across ≤ most) × (x ≤ 65) }
    ensures { result ≡ line_at q x }
{
    Site {
        kind: q.kind,
        x,
        y: q.y,
        z: q.z,
        own: q.own + x,
        across: q.across + x,
    }
}

// The first point of the next line, of the next layer, or of the centres.
fn next_line(lattice: Lattice, q: Site) -> Site
    requires line { Line lattice.sizes q.own q }
    requires along_x_bound { q.own + grid lattice.sizes q.kind along_x < points lattice.sizes }
    ensures { Line lattice.sizes (q.own + grid lattice.sizes q.kind along_x) result }
{
    let Sizes { nx: _, ny, nz } = lattice.sizes;
    let odd = q.kind.odd();
    if q.y + 1 < ny + 1 - odd {
        return lattice.site_at(q.kind, 0, q.y + 1, q.z);
    }
    if q.z + 1 < nz + 1 - odd {
        return lattice.site_at(q.kind, 0, 0, q.z + 1);
    }
    lattice.site_at(Kind::Centre, 0, 0, 0)
}

// The line after a line, if it is not the last one.
fn after(lattice: Lattice, q: Site) -> Option<Site>
    requires { Line lattice.sizes q.own q }
    ensures { Comes lattice.sizes (q.own + grid lattice.sizes q.kind along_x) result }
{
    if q.own + line_length(lattice, q.kind) < lattice.point_count() {
        Some(next_line(lattice, q))
    } else {
        None
    }
}

// The lines of a lattice that are still to come, each by its first point.
#[derive(Drop)]
pub struct Lines {
    pub lattice: Lattice,
    pub ahead: Option<Site>,
}

impl Lines {
    // All lines of a lattice.
    pub fn of(lattice: Lattice) -> Lines
        ensures { Walks lattice.sizes 0 result }
    {
        Lines {
            lattice,
            ahead: Some(lattice.locate(0)),
        }
    }
}

impl Iterator for Lines {
    type Item = Site;

    ghost can_next = { CanPass };

    ghost next_gives = { Passes };

    ghost remaining = { λ l. at_most (points_ahead l) };

    fn next(&mut self) -> Option<Site> {
        let q = self.ahead?;
        self.ahead = after(self.lattice, q);
        Some(q)
    }
}
