// A cut table, line by line, in place.
ghost use Rattle.std.specs.Prelude.{◌≡◌, ◌+◌, ◌*◌, ◌≤◌, ◌<◌, length};
ghost use Rattle.lattice.specs.Axis.{along_x};
ghost use Rattle.lattice.specs.Counts.{grid, points};
ghost use Rattle.lattice.specs.inner.Site.{Sited};
ghost use Rattle.labelling.specs.inner.Scans.{label_in};
ghost use Rattle.lines.specs.inner.Lines.{Line};
ghost use Rattle.lines.specs.inner.Strides.{ends_at};
ghost use Rattle.checks.specs.inner.Faults.{crossings_at};
ghost use Rattle.patch.specs.inner.Mends.{Mends, Chosen, FineTo, point_due, due_in};

use crate::{Counts, seven};
use checks::{CutTable, crossing, cuts, quiet};
use labelling::scan::Scan;
use lattice::Site;
use lines::strides;
use lines::walk::{self, Lines};

// The far ends of the edges from a point that cross, by direction.
fn crossing_ends(scan: Scan<'_>, q: Site) -> [Option<usize>; 7]
    requires { Sited scan.lattice.sizes q }
    ensures { Chosen (crossings_at scan.entry.lattice.sizes (label_in scan.entry) q.own)
        (ends_at scan.entry.lattice.sizes q) result 7 }
{
    let must = crossing::crossings(scan, q);
    let mut ends = [None; 7];
    for (d, &far) in strides::ahead(scan.lattice, q).iter().enumerate() {
        ends[d] = must[d].then_some(far);
    }
    ends
}

// The seven bytes of a point, which are lent to it.
fn mend_site(scan: Scan<'_>, bytes: &mut [u8], q: Site) -> Counts
    requires sited { Sited scan.lattice.sizes q }
    requires bytes_len { length bytes.old ≡ 7 }
    ensures { Mends (point_due scan.entry.lattice.sizes (label_in scan.entry) scan.entry.samples.now q.own) 0 7
        bytes.old bytes.new result }
{
    seven::mend_seven(scan.samples, bytes, q.own, crossing_ends(scan, q))
}

// The point of index x in a line.
fn mend_point(scan: Scan<'_>, cuts: &mut [u8], q: Site, x: usize) -> Counts
    requires tabled { length cuts.old ≡ 7 * points scan.lattice.sizes }
    requires line { Line scan.lattice.sizes q.own q }
    requires x_bound { x < grid scan.lattice.sizes q.kind along_x }
    ensures { Mends (due_in scan.entry) (7 * (q.own + x)) (7 * (q.own + x) + 7) cuts.old cuts.new result }
{
    let a = 7 * (q.own + x);
    let e = a + 7;
    mend_site(scan, &mut cuts[a..e], walk::along(q, x))
}

// The index of the first point of a line from one on that has a byte at fault: found as filling finds it.
fn next_fault(table: CutTable<'_>, q: Site, from: usize) -> Option<usize>
    requires line { Line table.scan.lattice.sizes q.own q }
    requires from_bound { from ≤ grid table.scan.lattice.sizes q.kind along_x }
    ensures { FineTo table.entry.scan.lattice.sizes (label_in table.entry.scan) table.entry.cuts.now q from result }
{
    match cuts::line_search(table, q, from) {
        Ok(()) => None,
        Err(fault) => Some(fault.offset() / 7 - q.own),
    }
}

// A line of points: those that have a byte at fault.
// (The table changes between two searches, so no iterator can hold it; and a `CutTable` lends the bytes to be
// read only, so that they have their length stands in a clause.)
fn mend_points(scan: Scan<'_>, cuts: &mut [u8], q: Site) -> Counts
    requires tabled { length cuts.old ≡ 7 * points scan.lattice.sizes }
    requires line { Line scan.lattice.sizes q.own q }
    ensures { Mends (due_in scan.entry) (7 * q.own) (7 * (q.own + grid scan.entry.lattice.sizes q.kind along_x))
        cuts.old cuts.new result }
{
    let mut total = Counts::default();
    let mut from = 0;
    while let Some(x) = next_fault(CutTable { scan, cuts }, q, from) {
        total += mend_point(scan, cuts, q, x);
        from = x + 1;
    }
    total
}

// The same; many lines need only a glance.
fn mend_line(scan: Scan<'_>, cuts: &mut [u8], q: Site) -> Counts
    requires tabled { length cuts.old ≡ 7 * points scan.lattice.sizes }
    requires line { Line scan.lattice.sizes q.own q }
    ensures { Mends (due_in scan.entry) (7 * q.own) (7 * (q.own + grid scan.entry.lattice.sizes q.kind along_x))
        cuts.old cuts.new result }
{
    if quiet::is_quiet_line(CutTable { scan, cuts }, q) {
        return Counts::default();
    }
    mend_points(scan, cuts, q)
}

// The whole table.
pub fn mend_table(scan: Scan<'_>, cuts: &mut [u8]) -> Counts
    requires { length cuts.old ≡ 7 * points scan.lattice.sizes }
    ensures { Mends (due_in scan.entry) 0 (7 * points scan.entry.lattice.sizes) cuts.old cuts.new result }
{
    let mut total = Counts::default();
    for q in Lines::of(scan.lattice) {
        total += mend_line(scan, cuts, q);
    }
    total
}
