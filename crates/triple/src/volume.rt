// The six-volume of a tetrahedron: a signed triple product.
ghost use Rattle.std.specs.Prelude.{◌≡◌};
ghost use Rattle.geometry.specs.Volume.{difference, cross, dot, six_volume};
ghost use Rattle.triple.specs.inner.Places.{place_at, InBox, place_box};

use crate::Place;

fn difference(p: Place, q: Place) -> Place
    requires in_box { InBox place_box p }
    requires in_box_2 { InBox place_box q }
    ensures result_value { place_at result ≡ difference (place_at p) (place_at q) }
    ensures in_box_3 { InBox 80000 result }
{
    Place {
        x: q.x - p.x,
        y: q.y - p.y,
        z: q.z - p.z,
    }
}

fn cross_product(v: Place, w: Place) -> Place
    requires in_box { InBox 80000 v }
    requires in_box_2 { InBox 80000 w }
    ensures result_value { place_at result ≡ cross (place_at v) (place_at w) }
    ensures in_box_3 { InBox 12800000000 result }
{
    Place {
        x: v.y * w.z - v.z * w.y,
        y: v.z * w.x - v.x * w.z,
        z: v.x * w.y - v.y * w.x,
    }
}

fn dot_product(u: Place, v: Place) -> i64
    requires in_box { InBox 80000 u }
    requires in_box_2 { InBox 12800000000 v }
    ensures { result ≡ dot (place_at u) (place_at v) }
{
    u.x * v.x + (u.y * v.y + u.z * v.z)
}

pub fn six_volume(a: Place, b: Place, c: Place, d: Place) -> i64
    requires in_box { InBox place_box a }
    requires in_box_2 { InBox place_box b }
    requires in_box_3 { InBox place_box c }
    requires in_box_4 { InBox place_box d }
    ensures { result ≡ six_volume (place_at a) (place_at b) (place_at c) (place_at d) }
{
    dot_product(
        difference(a, b),
        cross_product(difference(a, c), difference(a, d)),
    )
}
