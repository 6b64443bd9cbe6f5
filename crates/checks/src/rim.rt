// Rim points whose label is plus. Of a line inside its layer and its block only the two ends
// are on the rim.
ghost use Rattle.std.specs.Prelude.{◌≡◌, ◌||◌, ℕ, ◌+◌, ◌<◌, ◌≤◌, unwrap_or, IfSome};
ghost use Rattle.lattice.specs.Axis.{along_x, along_y, along_z};
ghost use Rattle.lattice.specs.Counts.{grid, points};
ghost use Rattle.lattice.specs.Rim.{outermost};
ghost use Rattle.moving.specs.Label.{is_plus};
ghost use Rattle.labelling.specs.inner.Scans.{label_in};
ghost use Rattle.filling.specs.Check.{rim_fault, first_rim};
ghost use Rattle.lines.specs.inner.Lines.{Line};
ghost use Rattle.checks.specs.inner.Search.{FirstIn};

use labelling::scan::Scan;
use lattice::{Lattice, Site, Sizes, rim};
use lines::walk::{self, Lines};

// All points of a line are on the rim.
fn is_outer(lattice: Lattice, q: Site) -> bool
    requires { Line lattice.sizes q.own q }
    ensures { result
        ≡ (outermost (grid lattice.sizes q.kind along_y) q.y || outermost (grid lattice.sizes q.kind along_z) q.z) }
{
    let Sizes { nx: _, ny, nz } = lattice.sizes;
    let odd = q.kind.odd();
    rim::is_outermost(ny + 1 - odd, q.y) || rim::is_outermost(nz + 1 - odd, q.z)
}

// The first plus point from one point on and before another.
fn first_plus(scan: Scan<'_>, from: usize, to: usize) -> Option<usize>
    requires { to ≤ points scan.lattice.sizes }
    ensures { FirstIn (λ (p : ℕ). is_plus (label_in scan.entry p)) from to result }
{
    (from..to).find(|&p| scan.is_plus(p))
}

// The first point of a line that is on the rim and plus.
fn line_rim(scan: Scan<'_>, q: Site) -> Option<usize>
    requires { Line scan.lattice.sizes q.own q }
    ensures { FirstIn (rim_fault scan.entry.lattice.sizes (label_in scan.entry)) q.own
        (q.own + grid scan.entry.lattice.sizes q.kind along_x) result }
{
    let own = q.own;
    let end = own + walk::line_length(scan.lattice, q.kind);
    let last = end - 1;
    if is_outer(scan.lattice, q) {
        first_plus(scan, own, end)
    } else if scan.is_plus(own) {
        Some(own)
    } else if scan.is_plus(last) {
        Some(last)
    } else {
        None
    }
}

// The lowest rim point that is plus.
pub fn first_rim(scan: Scan<'_>) -> Option<usize>
    ensures lowest { unwrap_or result (points scan.entry.lattice.sizes)
        ≡ first_rim scan.entry.lattice.sizes (label_in scan.entry) }
    ensures below { IfSome result (λ p. p < points scan.entry.lattice.sizes) }
{
    for q in Lines::of(scan.lattice) {
        if let Some(p) = line_rim(scan, q) {
            return Some(p);
        }
    }
    None
}
