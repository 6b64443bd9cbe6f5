// Where lattice points, cuts and moved points stand.
ghost use Rattle.std.specs.Prelude.{◌≡◌, ◌*◌, ◌+◌, ◌<◌, ◌≤◌, pos, ◌+ℤ◌, ◌-ℤ◌, ◌*ℤ◌};
ghost use Rattle.lattice.specs.Direction.{direction, step};
ghost use Rattle.lattice.specs.inner.Site.{index};
ghost use Rattle.moving.specs.Violation.{measured};
ghost use Rattle.geometry.specs.Place.{lattice_place};
ghost use Rattle.triple.specs.inner.Places.{place_at, along, Within, InBox, lattice_box, place_box};

use lattice::{EdgeCode, Site, edges};
use triple::Place;

// A lattice coordinate.
fn coordinate(i: usize, odd: usize) -> i64
    requires { (i ≤ 64) × (odd ≤ 1) }
    ensures { result ≡ pos (256 * (2 * i + odd)) }
{
    let n = 256 * (2 * i + odd);
    n as i64
}

// The place of a decoded lattice point.
pub fn rest_place(q: Site) -> Place
    requires { (q.x ≤ 64) × (q.y ≤ 64) × (q.z ≤ 64) }
    ensures result_value { place_at result ≡ lattice_place q.kind (index q) }
    ensures in_box { InBox lattice_box result }
{
    let odd = q.kind.odd();
    Place {
        x: coordinate(q.x, odd),
        y: coordinate(q.y, odd),
        z: coordinate(q.z, odd),
    }
}

// t times a step up and down from a coordinate.
fn stepped(from: i64, t: usize, up: usize, down: usize) -> i64
    requires within { Within lattice_box from }
    requires t_bound { (t ≤ 256) × (up ≤ 2) × (down ≤ 2) }
    ensures value { result ≡ from +ℤ pos t *ℤ (pos up -ℤ pos down) }
    ensures within_2 { Within place_box result }
{
    let way = up as i64 - down as i64;
    from + t as i64 * way
}

// t times the three numbers of a code from a place.
fn led(from: Place, code: EdgeCode, t: usize) -> Place
    requires in_box { InBox lattice_box from }
    requires t_bound { t ≤ 256 }
    ensures result_value { place_at result ≡ along (place_at from) (step code.code) t }
    ensures in_box_2 { InBox place_box result }
{
    let w = edges::shift(code);
    Place {
        x: stepped(from.x, t, w.ux, w.dx),
        y: stepped(from.y, t, w.uy, w.dy),
        z: stepped(from.z, t, w.uz, w.dz),
    }
}

// The place of a cut: t times the direction's three numbers from the edge's start.
pub fn cut_place(start: Place, d: usize, t: u8) -> Place
    requires in_box { InBox lattice_box start }
    requires d_bound { d < 7 }
    ensures result_value { place_at result ≡ along (place_at start) (direction d) t }
    ensures in_box_2 { InBox place_box result }
{
    led(start, EdgeCode::at_start(d), t as usize)
}

// Where a point with a code stands: the cut of its edge, measured from the point itself.
pub fn moved_place(rest: Place, code: EdgeCode, t: u8) -> Place
    requires in_box { InBox lattice_box rest }
    ensures result_value { place_at result ≡ along (place_at rest) (step code.code) (measured code.code t) }
    ensures in_box_2 { InBox place_box result }
{
    let n = t as usize;
    if code.is_start() {
        led(rest, code, n)
    } else {
        led(rest, code, 256 - n)
    }
}
