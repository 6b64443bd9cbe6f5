// Points with nothing to find: no edge crosses and all seven bytes are zero. Most points are so, many
// parts of lines and many lines. Nobody asks which edges exist: the candidates for their far ends are
// looked at, and that some of these are no far ends does no harm.
ghost use Rattle.std.specs.Prelude.{◌≡◌, true, ℕ, ◌<◌, ◌≤◌, length, get_or};
ghost use Rattle.lattice.specs.Axis.{along_x};
ghost use Rattle.lattice.specs.Counts.{grid, points};
ghost use Rattle.lattice.specs.inner.Site.{Sited};
ghost use Rattle.labelling.specs.inner.Scans.{label_in};
ghost use Rattle.lines.specs.inner.Lines.{Line};
ghost use Rattle.lines.specs.inner.Strides.{ends_at, range_most};
ghost use Rattle.checks.specs.inner.Faults.{PointFine, PartFine, LineFine};
ghost use Rattle.checks.specs.inner.Glance.{Calm, Covers, Level};

use crate::CutTable;
use labelling::scan::Scan;
use lattice::{Lattice, Site};
use lines::{strides, walk};

// No label of seven points is opposed to the point's own.
fn is_calm(scan: Scan<'_>, own: usize, ends: [usize; 7]) -> bool
    requires own_in_bounds { own < points scan.lattice.sizes }
    requires by_index { (d : ℕ) → d < 7 → get_or ends d 0 < points scan.lattice.sizes }
    ensures { result ≡ true → Calm (label_in scan.entry) own ends }
{
    !ends.iter().any(|&far| scan.are_opposed(own, far))
}

// The seven bytes of a point are fine, at a glance. A point where this fails may be fine as well. Of
// the candidates the third is the highest along long edges, the fourth along short ones.
pub fn is_quiet(scan: Scan<'_>, bytes: &[u8], q: Site) -> bool
    requires sited { Sited scan.lattice.sizes q }
    requires bytes_len { length bytes.now ≡ 7 }
    ensures { result ≡ true → PointFine scan.entry.lattice.sizes (label_in scan.entry) bytes.now q }
{
    let far = strides::ahead(scan.lattice, q);
    let highest = far[2].max(far[3]);
    highest < scan.samples.len() && is_calm(scan, q.own, far) && ranges::are_zero(bytes, 0, 7)
}

// Where five ranges start that hold the points of a line from one on and all candidates: those of
// neighbours stand side by side.
fn range_starts(lattice: Lattice, q: Site) -> [usize; 5]
    requires { Sited lattice.sizes q }
    ensures { Covers q.own (ends_at lattice.sizes q) result }
{
    let far = strides::ahead(lattice, q);
    [q.own, far[1], far[2], far[4], far[6]]
}

// In none of five ranges of m + 1 samples there is one that is plus, or there is none that is minus.
fn is_level(plus: bool, scan: Scan<'_>, starts: [usize; 5], m: usize) -> bool
    requires m_bound { m ≤ 65 }
    requires by_index { (k : ℕ) → k < 5 → get_or starts k 0 ≤ range_most }
    ensures { result ≡ true → Level plus scan.entry.band scan.entry.samples.now starts m }
{
    !starts.iter().any(|&from| ranges::has_some(plus, scan.band, scan.samples, from, from + m + 1))
}

// The bytes of some points of a line, from one on and before another, are fine, at a glance: all are
// zero, and of these points and of the candidates none is plus or, where the first point is plus, none
// is minus.
pub fn is_quiet_part(table: CutTable<'_>, q: Site, from: usize, to: usize) -> bool
    requires line { Line table.scan.lattice.sizes q.own q }
    requires from_lt_to { (from < to) × (to ≤ grid table.scan.lattice.sizes q.kind along_x) }
    ensures { result ≡ true
        → PartFine table.entry.scan.lattice.sizes (label_in table.entry.scan) table.entry.cuts.now q from to }
{
    let scan = table.scan;
    let first = walk::along(q, from);
    let own = first.own;
    let count = to - from;
    ranges::is_blank(table.cuts, 7 * own, 7 * (own + count))
        && is_level(
            !scan.is_plus(own),
            scan,
            range_starts(scan.lattice, first),
            count,
        )
}

// The same for a whole line.
pub fn is_quiet_line(table: CutTable<'_>, q: Site) -> bool
    requires { Line table.scan.lattice.sizes q.own q }
    ensures { result ≡ true
        → LineFine table.entry.scan.lattice.sizes (label_in table.entry.scan) table.entry.cuts.now q }
{
    is_quiet_part(table, q, 0, walk::line_length(table.scan.lattice, q.kind))
}
