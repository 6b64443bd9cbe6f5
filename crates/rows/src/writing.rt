// The rows of one lattice tetrahedron, written as ids.
ghost use Rattle.std.specs.Prelude.{◌≡◌, ◌+◌, ◌≤◌, length};
ghost use Rattle.basics.specs.inner.Writing.{Wrote};
ghost use Rattle.rows.specs.inner.Corners.{KnownTetra};
ghost use Rattle.rows.specs.inner.Stencils.{tetra_ids, solid};

use crate::{Row, Tetra, picks, stencils};
use moving::Label;

// The rows of a tetrahedron, from an index on. `wound` says that the four corners, ascending, wind
// positively. Answers the index after the rows.
pub fn write_tetra(rows: &mut [u32], at: usize, wound: bool, t: Tetra, labels: [Label; 4]) -> usize
    requires known_tetra { KnownTetra t }
    requires w_in_bounds { at + length (tetra_ids wound t labels) ≤ length rows.old }
    ensures { Wrote (tetra_ids wound t labels) rows.old at rows.new result }
{
    let pattern = picks::pattern(labels);
    if stencils::row_count(pattern) == 0 {
        return at;
    }
    let order = picks::order(labels);
    let keep = wound == picks::is_even(labels);
    stencils::write_stencil(rows, at, pattern, t, order, keep)
}

// Four plus corners: the tetrahedron itself is the row. Answers the index after it.
pub fn write_solid(rows: &mut [u32], at: usize, wound: bool, t: Tetra) -> usize
    requires known_tetra { KnownTetra t }
    requires at_in_bounds { at + 4 ≤ length rows.old }
    ensures { Wrote (tetra_ids wound t solid) rows.old at rows.new result }
{
    let row = Row(t.point(0), t.point(1), t.point(2), t.point(3));
    stencils::write_row(rows, at, t.n, wound, row)
}
