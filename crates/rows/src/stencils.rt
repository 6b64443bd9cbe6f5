// The rows of a lattice tetrahedron, a line of document 01's table each: p1, p2.. are the plus
// corners, m1.. the minus, z1.. the zero, in this order. If the order winds as it should, so do
// the rows that bring in its corners in that order; the others wind the other way round.
ghost use Rattle.std.specs.Prelude.{◌≡◌, ◌+◌, ◌*◌, ◌≤◌, length};
ghost use Rattle.basics.specs.inner.Writing.{Wrote};
ghost use Rattle.stencil.specs.Stencil.{stencil_of};
ghost use Rattle.rows.specs.inner.Corners.{most, KnownTetra, KnownRow, row_ids};
ghost use Rattle.rows.specs.inner.Stencils.{InOrder, row_count, turned, stencil_ids};

use crate::{Row, Tetra};

// How many rows a pattern gives.
pub fn row_count(pattern: usize) -> usize
    ensures value { result ≡ row_count (stencil_of pattern) }
    ensures upper_bound { result ≤ 3 }
{
    match pattern {
        0..=4 => 0,
        11 => 2,
        12 => 3,
        16 => 3,
        _ => 1,
    }
}

// A row of a block of n points, as it is or with its last two corners exchanged. Answers the index after
// it. (Four stores, as `copy_from_slice` takes the numbers through the stack: a cube of six plus points
// took a tenth longer.)
pub fn write_row(rows: &mut [u32], at: usize, n: usize, keep: bool, row: Row) -> usize
    requires few { n ≤ most }
    requires known { KnownRow n row }
    requires room { at + 4 ≤ length rows.old }
    ensures { Wrote (turned keep (row_ids n row)) rows.old at rows.new result }
{
    let Row(a, b, c, d) = row;
    let [a, b, c, d] = [a.id(n), b.id(n), c.id(n), d.id(n)];
    let last = if keep { [c, d] } else { [d, c] };
    rows[at] = a;
    rows[at + 1] = b;
    rows[at + 2] = last[0];
    rows[at + 3] = last[1];
    at + 4
}

// The pattern's number, by which document 01 has its table, chooses the stencil. Answers the index after
// its rows.
pub(crate) fn write_stencil(
    rows: &mut [u32],
    at: usize,
    pattern: usize,
    t: Tetra,
    order: [usize; 4],
    keep: bool,
) -> usize
    requires known_tetra { KnownTetra t }
    requires in_order { InOrder order }
    requires room { at + 4 * row_count (stencil_of pattern) ≤ length rows.old }
    ensures { Wrote (stencil_ids t order keep (stencil_of pattern)) rows.old at rows.new result }
{
    let [a, b, c, d] = order;
    let p1 = t.point(a);
    match pattern {
        0..=4 => at,
        6 => write_row(
            rows,
            at,
            t.n,
            keep,
            Row(p1, t.cut(a, b), t.point(c), t.point(d)),
        ),
        7 => write_row(
            rows,
            at,
            t.n,
            keep,
            Row(p1, t.cut(a, b), t.cut(a, c), t.point(d)),
        ),
        8 => write_row(
            rows,
            at,
            t.n,
            keep,
            Row(p1, t.cut(a, b), t.cut(a, c), t.cut(a, d)),
        ),
        11 => {
            let [p2, z1] = [t.point(b), t.point(d)];
            let [p1m1, p2m1] = [t.cut(a, c), t.cut(b, c)];
            let to = write_row(rows, at, t.n, keep, Row(p1, p2, p2m1, z1));
            write_row(rows, to, t.n, !keep, Row(p1, p1m1, p2m1, z1))
        }
        12 => {
            let p2 = t.point(b);
            let [p1m1, p1m2] = [t.cut(a, c), t.cut(a, d)];
            let [p2m1, p2m2] = [t.cut(b, c), t.cut(b, d)];
            let to = write_row(rows, at, t.n, keep, Row(p1, p2, p2m1, p2m2));
            let to = write_row(rows, to, t.n, keep, Row(p1, p1m1, p1m2, p2m2));
            write_row(rows, to, t.n, !keep, Row(p1, p1m1, p2m1, p2m2))
        }
        16 => {
            let [p2, p3] = [t.point(b), t.point(c)];
            let [p1m1, p2m1, p3m1] = [t.cut(a, d), t.cut(b, d), t.cut(c, d)];
            let to = write_row(rows, at, t.n, keep, Row(p1, p2, p3, p3m1));
            let to = write_row(rows, to, t.n, !keep, Row(p1, p2, p2m1, p3m1));
            write_row(rows, to, t.n, keep, Row(p1, p1m1, p2m1, p3m1))
        }
        _ => write_row(
            rows,
            at,
            t.n,
            keep,
            Row(p1, t.point(b), t.point(c), t.point(d)),
        ),
    }
}
