// Cut bytes that are missing or too many.
ghost use Rattle.std.specs.Prelude.{◌≡◌, ◌≤◌, length};
ghost use Rattle.lattice.specs.Axis.{along_x};
ghost use Rattle.lattice.specs.Counts.{grid};
ghost use Rattle.lattice.specs.inner.Site.{Sited};
ghost use Rattle.labelling.specs.inner.Scans.{label_in};
ghost use Rattle.lines.specs.inner.Lines.{Line};
ghost use Rattle.checks.specs.inner.Faults.{PointAnswered, PartAnswered, LineAnswered, RestAnswered, CutAnswer};

use crate::{CutTable, Fault, crossing, quiet, seven};
use labelling::scan::Scan;
use lattice::Site;
use lines::walk::{self, Lines};

// The first byte at fault of a point's seven, which are lent to it. Most points need only a glance.
fn site_fault(scan: Scan<'_>, bytes: &[u8], q: Site) -> Result<(), Fault>
    requires sited { Sited scan.lattice.sizes q }
    requires bytes_len { length bytes.now ≡ 7 }
    ensures { PointAnswered scan.entry.lattice.sizes (label_in scan.entry) bytes.now q result }
{
    if quiet::is_quiet(scan, bytes, q) {
        return Ok(());
    }
    seven::point_fault(bytes, crossing::crossings(scan, q))
}

// The first byte at fault of some points of a line, from one on and before another, point by point.
// (By the point's index in the line: its site, its seven bytes and its answer's place all follow from it.)
fn part_search(table: CutTable<'_>, q: Site, from: usize, to: usize) -> Result<(), Fault>
    requires line { Line table.scan.lattice.sizes q.own q }
    requires from_le_to { (from ≤ to) × (to ≤ grid table.scan.lattice.sizes q.kind along_x) }
    ensures { PartAnswered table.entry.scan.lattice.sizes (label_in table.entry.scan) table.entry.cuts.now q from to
        result }
{
    for x in from..to {
        let a = 7 * (q.own + x);
        let e = a + 7;
        if let Err(fault) = site_fault(table.scan, &table.cuts[a..e], walk::along(q, x)) {
            return Err(fault.further(a));
        }
    }
    Ok(())
}

// So many points are looked at together.
const PART: usize = 16;

// The first byte at fault of a line of points from one on: some points at a glance, and one by one
// only where that does not do.
pub fn line_search(table: CutTable<'_>, q: Site, from: usize) -> Result<(), Fault>
    requires line { Line table.scan.lattice.sizes q.own q }
    requires from_bound { from ≤ grid table.scan.lattice.sizes q.kind along_x }
    ensures { RestAnswered table.entry.scan.lattice.sizes (label_in table.entry.scan) table.entry.cuts.now q from
        result }
{
    let m = walk::line_length(table.scan.lattice, q.kind);
    for x in (from..m).step_by(PART) {
        let end = m.min(x + PART);
        if !quiet::is_quiet_part(table, q, x, end) {
            part_search(table, q, x, end)?;
        }
    }
    Ok(())
}

// The first byte at fault of a line. Many lines need only a glance.
fn line_fault(table: CutTable<'_>, q: Site) -> Result<(), Fault>
    requires { Line table.scan.lattice.sizes q.own q }
    ensures { LineAnswered table.entry.scan.lattice.sizes (label_in table.entry.scan) table.entry.cuts.now q result }
{
    if quiet::is_quiet_line(table, q) {
        return Ok(());
    }
    line_search(table, q, 0)
}

// The lowest byte at fault.
pub fn first_cut(table: CutTable<'_>) -> Result<(), Fault>
    ensures { CutAnswer table.entry.scan.lattice.sizes (label_in table.entry.scan) table.entry.cuts.now result }
{
    for q in Lines::of(table.scan.lattice) {
        line_fault(table, q)?;
    }
    Ok(())
}
