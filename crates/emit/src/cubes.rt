// The lattice tetrahedra between a cube and the next one along an axis: the two centres, the four
// corners of the shared face in their turn, and their labels, read once.
ghost use Rattle.std.specs.Prelude.{◌≡◌, ◌+◌, ◌<◌, ◌≤◌, length};
ghost use Rattle.basics.specs.Lists.{gather, below};
ghost use Rattle.basics.specs.inner.Writing.{Wrote};
ghost use Rattle.lattice.specs.Counts.{points};
ghost use Rattle.stencil.specs.inner.Sign.{winds};
ghost use Rattle.triple.specs.inner.Places.{place_at, InBox, place_box};
ghost use Rattle.rows.specs.inner.Corners.{quarter_at};
ghost use Rattle.rows.specs.inner.Stencils.{rows_most};
ghost use Rattle.emit.specs.inner.Cubes.{winds_with, quarter_of, quarter_labels, KnownCube, cube_most, Room};
ghost use Rattle.emit.specs.inner.Cubes.{solid_cube, cube_count, edge_ids, cube_ids};
ghost use Rattle.emit.specs.inner.Moving.{moved_label};

use crate::{Cube, Moved};
use moving::Label;
use rows::{Tetra, picks, stencils, writing};
use triple::{Place, volume};

// Which of the six points the tetrahedron of each edge of the turn has, ascending.
static QUARTERS: [[usize; 4]; 4] = [[2, 3, 0, 1], [3, 4, 0, 1], [5, 4, 0, 1], [2, 5, 0, 1]];

// The tetrahedron of an edge of the turn.
fn quarter(c: Cube, e: usize) -> Tetra
    requires { e < 4 }
    ensures { result ≡ quarter_of c (quarter_at e) }
{
    let [i, j, low, high] = QUARTERS[e];
    Tetra {
        n: c.n,
        axis: c.axis,
        edge: e,
        corners: [c.points[i], c.points[j], c.points[low], c.points[high]],
    }
}

// The labels of its four corners.
fn quarter_labels(labels: [Label; 6], e: usize) -> [Label; 4]
    requires { e < 4 }
    ensures { result ≡ quarter_labels labels (quarter_at e) }
{
    let [i, j, low, high] = QUARTERS[e];
    [labels[i], labels[j], labels[low], labels[high]]
}

// Where the points of a cube at 0 and the next one stand along an axis, 256 to a doubled coordinate:
// the lowest corner, the centre, the shared face and the next cube's centre.
const CORNER: i64 = 0;

const CENTRE: i64 = 256;

const FACE: i64 = 512;

const NEXT: i64 = 768;

// A tetrahedron of two corners of the shared face and the two centres, in this order, winds
// positively: a signed triple product, in places seen along the axis, the next one and the one
// after, from a cube at 0.
fn winds_with(first: Place, second: Place) -> bool
    requires { (InBox place_box first) × (InBox place_box second) }
    ensures { result ≡ winds_with (place_at first) (place_at second) }
{
    let lower = Place {
        x: CENTRE,
        y: CENTRE,
        z: CENTRE,
    };
    let upper = Place {
        x: NEXT,
        y: CENTRE,
        z: CENTRE,
    };
    let v = volume::six_volume(first, second, lower, upper);
    0 < v
}

// The four corners of a lattice tetrahedron, ascending, wind positively: the same along every axis
// and in every cube.
fn winding(e: usize) -> bool
    requires { e < 4 }
    ensures { result ≡ winds (quarter_at e) }
{
    let mm = Place {
        x: FACE,
        y: CORNER,
        z: CORNER,
    };
    let pm = Place {
        x: FACE,
        y: FACE,
        z: CORNER,
    };
    let pp = Place {
        x: FACE,
        y: FACE,
        z: FACE,
    };
    let mp = Place {
        x: FACE,
        y: CORNER,
        z: FACE,
    };
    match e {
        0 => winds_with(mm, pm),
        1 => winds_with(pm, pp),
        2 => winds_with(mp, pp),
        _ => winds_with(mm, mp),
    }
}

// The rows of a cube of six plus points, from an index on: its four tetrahedra. Into an empty table
// rows are only counted. Answers the index after them. (A struct of the table and the index would make no
// contract shorter: each clause names the table before and after, and both indices.)
fn write_solid_cube(rows: &mut [u32], at: usize, c: Cube) -> usize
    requires known_cube { KnownCube c.n c }
    requires cube_most_bound { at + cube_most ≤ rows_most }
    requires room { Room rows.old at (length (gather (edge_ids c solid_cube) (below 4))) }
    ensures { Wrote (gather (edge_ids c solid_cube) (below 4)) rows.old at rows.new result }
{
    if rows.is_empty() {
        return at + 16;
    }
    let mut to = at;
    for e in 0..4 {
        to = writing::write_solid(rows, to, winding(e), quarter(c, e));
    }
    to
}

// How many rows the four tetrahedra of a cube have.
fn count_cube(labels: [Label; 6]) -> usize
    ensures value { result ≡ cube_count labels }
    ensures upper_bound { result ≤ 12 }
{
    let mut count = 0;
    for e in 0..4 {
        count += stencils::row_count(picks::pattern(quarter_labels(labels, e)));
    }
    count
}

// The rows of any cube, by the labels of its six points.
fn write_mixed_cube(rows: &mut [u32], at: usize, moved: Moved<'_>, c: Cube) -> usize
    requires known_cube { KnownCube (points moved.scan.lattice.sizes) c }
    requires cube_most_bound { at + cube_most ≤ rows_most }
    requires room { Room rows.old at (length (cube_ids (moved_label moved) c)) }
    ensures { Wrote (cube_ids (moved_label moved.entry) c) rows.old at rows.new result }
{
    let labels = moved.labels(c);
    if rows.is_empty() {
        return at + 4 * count_cube(labels);
    }
    let mut to = at;
    for e in 0..4 {
        to = writing::write_tetra(
            rows,
            to,
            winding(e),
            quarter(c, e),
            quarter_labels(labels, e),
        );
    }
    to
}

// The rows of the four tetrahedra between a cube and the next one, from an index on; the index after
// them. Most cubes are air or rubber, and a glance tells.
pub fn write_cube(rows: &mut [u32], at: usize, moved: Moved<'_>, c: Cube) -> usize
    requires known_cube { KnownCube (points moved.scan.lattice.sizes) c }
    requires cube_most_bound { at + cube_most ≤ rows_most }
    requires room { Room rows.old at (length (cube_ids (moved_label moved) c)) }
    ensures { Wrote (cube_ids (moved_label moved.entry) c) rows.old at rows.new result }
{
    let plus = moved.count_plus(c);
    if plus == 0 {
        return at;
    }
    if plus == 6 && moved.is_unmoved(c) {
        return write_solid_cube(rows, at, c);
    }
    write_mixed_cube(rows, at, moved, c)
}
