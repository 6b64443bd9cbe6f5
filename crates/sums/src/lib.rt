// The six-volumes of the rows of a filled block: their sum, and the smallest.
#![tactic(auto)]

ghost use Rattle.std.specs.Prelude.{◌≡◌, ◌*◌, ◌<◌, ◌≤◌, pos, ltb, eqb, if◌then◌else◌};
ghost use Rattle.geometry.specs.Place.{place_of};
ghost use Rattle.filling.specs.Mesh.{row_volume};
ghost use Rattle.filling.specs.Demand.{row_read, rows_read};
ghost use Rattle.boundary.specs.Sum.{sum, smallest};
ghost use Rattle.triple.specs.inner.Places.{place_at, InBox, place_box};
ghost use Rattle.bounds.specs.inner.Most.{volume_most};
ghost use Rattle.sums.specs.inner.Measured.{Standing, Measured};

use lattice::Sizes;
use triple::{Place, volume};

#[derive(Clone, Copy)]
pub struct Sums {
    pub sum: u64,
    pub smallest: u64,
}

// Where the corner of a row stands: the place call's answer.
// (Sizes and tables one by one: `Measured` speaks of the rows by them, and the place call takes them so.)
fn stand(s: Sizes, cuts: &[u8], state: &[u8], id: u32) -> Place
    requires { Standing s cuts.now state.now id }
    ensures result_value { place_at result ≡ place_of s cuts.now state.now id }
    ensures in_box { InBox place_box result }
{
    let p = places::locate::locate_id(s, cuts, state, id as usize);
    Place {
        x: p.x as i64,
        y: p.y as i64,
        z: p.z as i64,
    }
}

// The six-volume of the i-th row.
fn volume_at(s: Sizes, cuts: &[u8], state: &[u8], rows: &[u32], count: usize, i: usize) -> u64
    requires measured { Measured s cuts.now state.now rows.now count }
    requires i_lt_count { i < count }
    ensures result_value { pos result ≡ row_volume (place_of s cuts.now state.now) (row_read rows.now i) }
    ensures upper_bound { result ≤ volume_most }
{
    let at = 4 * i;
    let a = stand(s, cuts, state, rows[at]);
    let b = stand(s, cuts, state, rows[at + 1]);
    let c = stand(s, cuts, state, rows[at + 2]);
    let d = stand(s, cuts, state, rows[at + 3]);
    let v = volume::six_volume(a, b, c, d);
    v as u64
}

// The smallest of i values and one more: the first is the smallest of one.
// (No minimum of two: the first one has none before it.)
fn lesser(i: usize, least: u64, v: u64) -> u64
    ensures { result ≡ (if eqb i 0 then v else if ltb v least then v else least) }
{
    if i == 0 {
        return v;
    }
    if v < least {
        return v;
    }
    least
}

// Adds up the first `count` rows, as filling left them with these tables.
// (By the row's number, by which `Measured` says that its corners stand somewhere.)
pub fn add_up(s: Sizes, cuts: &[u8], state: &[u8], rows: &[u32], count: usize) -> Sums
    requires { Measured s cuts.now state.now rows.now count }
    ensures sum_value { pos result.sum
        ≡ sum (row_volume (place_of s cuts.now state.now)) (rows_read rows.now count) }
    ensures smallest_value { pos result.smallest
        ≡ smallest (row_volume (place_of s cuts.now state.now)) (rows_read rows.now count) }
    ensures sum_bound { result.sum ≤ volume_most * count }
{
    let mut sum: u64 = 0;
    let mut least: u64 = 0;
    for i in 0..count {
        let v = volume_at(s, cuts, state, rows, count, i);
        sum += v;
        least = lesser(i, least, v);
    }
    Sums {
        sum,
        smallest: least,
    }
}
