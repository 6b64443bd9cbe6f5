// All rows of a block: for each axis, each cube that has a next one along it, by strides.
ghost use Rattle.std.specs.Prelude.{◌≡◌, ◌+◌, ◌*◌, ◌<◌, ◌≤◌, length};
ghost use Rattle.basics.specs.inner.Writing.{Wrote};
ghost use Rattle.lattice.specs.Counts.{points};
ghost use Rattle.labelling.specs.inner.Scans.{label_in};
ghost use Rattle.moving.specs.Reading.{label_after};
ghost use Rattle.filling.specs.Fill.{overwritten};
ghost use Rattle.rows.specs.inner.Corners.{axis_at};
ghost use Rattle.rows.specs.inner.Stencils.{rows_most};
ghost use Rattle.emit.specs.inner.Cubes.{KnownCube, Room};
ghost use Rattle.emit.specs.inner.Moving.{moved_label};
ghost use Rattle.emit.specs.inner.Passes.{moved_cube, shifted, KnownRun, InPass, pass_of};
ghost use Rattle.emit.specs.inner.Passes.{run_ids, line_ids, layer_ids, pass_ids, block_ids};
ghost use Rattle.emit.specs.inner.Passes.{line_most, layer_most, pass_most};
ghost use Rattle.emit.specs.inner.Mesh.{row_total, signed_table};

use crate::{Cube, Moved, Pass, bare, cubes};
use labelling::scan::Scan;
use lattice::{Lattice, Sizes, numbers};

impl Cube {
    // The six points, for a cube with this lowest corner and this centre.
    #[tactic(auto, unfolding(crate::specs::inner::Passes::moved_cube))]
    fn from_corner(self, corner: usize, centre: usize) -> Cube
        requires { KnownCube self.n (moved_cube self corner centre) }
        ensures { result ≡ moved_cube self corner centre }
    {
        let [low, high, mm, pm, pp, mp] = self.points;
        let [low, high] = [centre + low, centre + high];
        let [mm, pm, pp, mp] = [corner + mm, corner + pm, corner + pp, corner + mp];
        let points = [low, high, mm, pm, pp, mp];
        Cube { points, ..self }
    }

    // The six points of the cube that is so many on along x.
    #[tactic(auto, unfolding(crate::specs::inner::Passes::shifted))]
    fn shifted(self, x: usize) -> Cube
        requires { KnownCube self.n (shifted self x) }
        ensures { result ≡ shifted self x }
    {
        let [low, high, mm, pm, pp, mp] = self.points;
        let points = [low + x, high + x, mm + x, pm + x, pp + x, mp + x];
        Cube { points, ..self }
    }
}

impl Pass {
    // The pass along an axis. The six points of a cube are counted by the strides of the corners along
    // the axis, the next one and the one after, and by that of the centres along the axis.
    fn along(lattice: Lattice, axis: usize) -> Pass
        requires { axis < 3 }
        ensures { result ≡ pass_of lattice.sizes (axis_at axis) }
    {
        let Sizes { nx, ny, nz } = lattice.sizes;
        let corners = [1, nx + 1, (nx + 1) * (ny + 1)];
        let centres = [1, nx, nx * ny];
        let [u, v, w] = [
            corners[axis],
            corners[(axis + 1) % 3],
            corners[(axis + 2) % 3],
        ];
        let mut cubes = [nx, ny, nz];
        cubes[axis] -= 1;
        Pass {
            step: Cube {
                n: lattice.point_count(),
                axis,
                points: [0, centres[axis], u, u + v, u + v + w, u + w],
            },
            cubes: Sizes {
                nx: cubes[0],
                ny: cubes[1],
                nz: cubes[2],
            },
        }
    }
}

// So many cubes side by side along x, from the first one on. Kept out of its caller, so that the loop has
// all registers for itself.
#[inline(never)]
fn write_run(rows: &mut [u32], at: usize, moved: Moved<'_>, first: Cube, count: usize) -> usize
    requires known_run { KnownRun (points moved.scan.lattice.sizes) first count }
    requires line_most_bound { at + line_most ≤ rows_most }
    requires room { Room rows.old at (length (run_ids (moved_label moved) first count)) }
    ensures { Wrote (run_ids (moved_label moved.entry) first count) rows.old at rows.new result }
{
    if bare::is_bare_run(moved.scan, first, count) {
        return at;
    }
    let mut to = at;
    for x in 0..count {
        to = cubes::write_cube(rows, to, moved, first.shifted(x));
    }
    to
}

// The cubes of one line: its first corner and centre, and from there by strides. Along an axis of one
// cube no cube has a next one, and so no line a first one.
fn write_line(rows: &mut [u32], at: usize, moved: Moved<'_>, p: Pass, y: usize, z: usize) -> usize
    requires in_pass { InPass moved.scan.lattice.sizes p }
    requires y_lt_my { (y < p.cubes.ny) × (z < p.cubes.nz) }
    requires line_most_bound { at + line_most ≤ rows_most }
    requires room { Room rows.old at (length (line_ids moved.scan.lattice.sizes p (moved_label moved) z y)) }
    ensures { Wrote (line_ids moved.entry.scan.lattice.sizes p (moved_label moved.entry) z y)
        rows.old at rows.new result }
{
    if p.cubes.nx == 0 {
        return at;
    }
    let lattice = moved.scan.lattice;
    let Sizes { nx, ny, .. } = lattice.sizes;
    let corner = numbers::linear(nx + 1, ny + 1, 0, y, z);
    let centre = lattice.corner_count() + numbers::linear(nx, ny, 0, y, z);
    let first = p.step.from_corner(corner, centre);
    write_run(rows, at, moved, first, p.cubes.nx)
}

// The lines of one layer.
fn write_layer(rows: &mut [u32], at: usize, moved: Moved<'_>, p: Pass, z: usize) -> usize
    requires in_pass { InPass moved.scan.lattice.sizes p }
    requires z_lt_mz { z < p.cubes.nz }
    requires layer_most_bound { at + layer_most ≤ rows_most }
    requires room { Room rows.old at (length (layer_ids moved.scan.lattice.sizes p (moved_label moved) z)) }
    ensures { Wrote (layer_ids moved.entry.scan.lattice.sizes p (moved_label moved.entry) z)
        rows.old at rows.new result }
{
    let mut to = at;
    for y in 0..p.cubes.ny {
        to = write_line(rows, to, moved, p, y, z);
    }
    to
}

// The layers of one axis.
fn write_pass(rows: &mut [u32], at: usize, moved: Moved<'_>, p: Pass) -> usize
    requires in_pass { InPass moved.scan.lattice.sizes p }
    requires pass_most_bound { at + pass_most ≤ rows_most }
    requires room { Room rows.old at (length (pass_ids moved.scan.lattice.sizes p (moved_label moved))) }
    ensures { Wrote (pass_ids moved.entry.scan.lattice.sizes p (moved_label moved.entry))
        rows.old at rows.new result }
{
    let mut to = at;
    for z in 0..p.cubes.nz {
        to = write_layer(rows, to, moved, p, z);
    }
    to
}

// All rows of a block, from the table's start on; the index after them.
fn write_all(rows: &mut [u32], moved: Moved<'_>) -> usize
    requires room { Room rows.old 0 (length (block_ids moved.scan.lattice.sizes (moved_label moved))) }
    ensures { Wrote (block_ids moved.entry.scan.lattice.sizes (moved_label moved.entry))
        rows.old 0 rows.new result }
{
    let mut to = 0;
    for axis in 0..3 {
        to = write_pass(rows, to, moved, Pass::along(moved.scan.lattice, axis));
    }
    to
}

// How many rows a block has: they are written into an empty table, which only counts them. (A trait that
// either counts or writes would have `Wrote` as its law, which an empty table meets as it is.)
pub fn count_rows(scan: Scan<'_>, state: &[u8]) -> usize
    requires state_len { length state.now ≡ points scan.lattice.sizes }
    ensures { result ≡ row_total scan.entry.lattice.sizes (label_after (label_in scan.entry) state.now) }
{
    write_all(&mut [], Moved { scan, state }) / 4
}

// All rows of a block, written over the first entries of the row table.
pub fn write_rows(scan: Scan<'_>, state: &[u8], rows: &mut [u32])
    requires state_len { length state.now ≡ points scan.lattice.sizes }
    requires state_in_bounds { 4 * row_total scan.lattice.sizes (label_after (label_in scan) state.now)
        ≤ length rows.old }
    ensures { rows.new
        ≡ overwritten (signed_table scan.entry.lattice.sizes (label_after (label_in scan.entry) state.now))
        rows.old }
{
    write_all(rows, Moved { scan, state });
}
