// The seven directions, and where the fourteen codes lead.
ghost use Rattle.std.specs.Prelude.{◌≡◌, true, ◌+◌, ◌*◌, ◌-◌, ◌<◌, ◌≤◌};
ghost use Rattle.lattice.specs.Counts.{largest};
ghost use Rattle.lattice.specs.Point.{number};
ghost use Rattle.lattice.specs.Edge.{exists, far_kind, far_index, near, edge_byte};
ghost use Rattle.lattice.specs.inner.Site.{most, Sited, index, odd_of, stays_by, shift_along, shift_of, risen, fallen, Stride};

use crate::edge_code::DIRECTIONS;
use crate::{EdgeCode, Kind, Lattice, Shift, Site, Sizes, numbers};

// The directions below this one are long.
const LONG: usize = 3;

// So far up along x, y and z, and so far down.
fn shift_by(ux: usize, uy: usize, uz: usize, dx: usize, dy: usize, dz: usize) -> Shift
    ensures { result ≡ record { ux = ux; uy = uy; uz = uz; dx = dx; dy = dy; dz = dz } }
{
    Shift {
        ux,
        uy,
        uz,
        dx,
        dy,
        dz,
    }
}

// A line a direction.
#[tactic(auto, unfolding(crate::specs::inner::Site::shift_along, crate::specs::Direction::direction, crate::specs::Direction::directions))]
fn direction(d: usize) -> Shift
    requires { d < 7 }
    ensures { result ≡ shift_along d }
{
    match d {
        0 => shift_by(2, 0, 0, 0, 0, 0),
        1 => shift_by(0, 2, 0, 0, 0, 0),
        2 => shift_by(0, 0, 2, 0, 0, 0),
        3 => shift_by(1, 1, 1, 0, 0, 0),
        4 => shift_by(0, 1, 1, 1, 0, 0),
        5 => shift_by(1, 0, 1, 0, 1, 0),
        _ => shift_by(0, 0, 1, 1, 1, 0),
    }
}

// Where a code leads: its direction, turned round where the point is the end.
pub fn shift(code: EdgeCode) -> Shift
    ensures { result ≡ shift_of code.code }
{
    let t = direction(code.direction());
    if code.is_start() {
        return t;
    }
    Shift {
        ux: t.dx,
        uy: t.dy,
        uz: t.dz,
        dx: t.ux,
        dy: t.uy,
        dz: t.uz,
    }
}

impl Kind {
    // 1 where doubled coordinates are odd.
    pub fn odd(self) -> usize
        ensures { result ≡ odd_of self }
    {
        match self {
            Kind::Corner => 0,
            Kind::Centre => 1,
        }
    }
}

// A step from the doubled coordinate w stays between 0 and 2n.
fn stays(n: usize, w: usize, up: usize, down: usize) -> bool
    requires { (n ≤ largest) × (w ≤ 2 * largest + 1) × (up ≤ 2) × (down ≤ 2) }
    ensures { result ≡ stays_by n w up down }
{
    down <= w && w + up <= 2 * n + down
}

// From a number in a grid of a by b by any, the cells that a step leads up and down.
#[tactic(auto, unfolding(crate::specs::inner::Site::risen, crate::specs::inner::Site::fallen))]
fn stride(a: usize, b: usize, base: usize, odd: usize, t: Shift) -> usize
    requires { Stride a b base odd t }
    ensures { result ≡ base + risen a b odd t - fallen a b odd t }
{
    let rise = numbers::linear(a, b, (t.ux + odd) / 2, (t.uy + odd) / 2, (t.uz + odd) / 2);
    let fall = numbers::linear(
        a,
        b,
        (t.dx + 1 - odd) / 2,
        (t.dy + 1 - odd) / 2,
        (t.dz + 1 - odd) / 2,
    );
    base + rise - fall
}

impl Lattice {
    // Both ends of the edge by a code are in the block.
    pub fn is_edge(self, q: Site, code: EdgeCode) -> bool
        requires { Sited self.sizes q }
        ensures { result ≡ exists self.sizes q.kind (index q) code.code }
    {
        let Sizes { nx, ny, nz } = self.sizes;
        let t = shift(code);
        let odd = q.kind.odd();
        stays(nx, 2 * q.x + odd, t.ux, t.dx)
            && stays(ny, 2 * q.y + odd, t.uy, t.dy)
            && stays(nz, 2 * q.z + odd, t.uz, t.dz)
    }

    // The number of the far end of an edge that exists, by strides from the point's own number or, on
    // a short edge, from the number of its indices in the other kind.
    fn reach(self, q: Site, code: EdgeCode) -> usize
        requires sited { Sited self.sizes q }
        requires there { exists self.sizes q.kind (index q) code.code ≡ true }
        ensures { result ≡ number self.sizes (far_kind q.kind code.code) (far_index q.kind (index q) code.code) }
    {
        let t = shift(code);
        let odd = q.kind.odd();
        let Sizes { nx, ny, nz: _ } = self.sizes;
        if code.direction() < LONG {
            stride(nx + 1 - odd, ny + 1 - odd, q.own, odd, t)
        } else {
            stride(nx + odd, ny + odd, q.across, odd, t)
        }
    }

    // The neighbour of a decoded point by a code, if the edge exists.
    #[tactic(auto, unfolding(crate::specs::Edge::near))]
    pub fn neighbour(self, q: Site, code: EdgeCode) -> Option<usize>
        requires { Sited self.sizes q }
        ensures { result ≡ near self.sizes q.kind (index q) code.code }
    {
        if self.is_edge(q, code) {
            Some(self.reach(q, code))
        } else {
            None
        }
    }
}

// The byte of the cut table that the edge from p by a code to q has.
#[tactic(auto, unfolding(crate::specs::Edge::edge_byte, crate::specs::Direction::is_start, crate::specs::Direction::direction_of))]
pub fn edge_byte(p: usize, code: EdgeCode, q: usize) -> usize
    requires { (p < most) × (q < most) }
    ensures { result ≡ edge_byte p code.code q }
{
    let start = if code.is_start() { p } else { q };
    DIRECTIONS * start + code.direction()
}
