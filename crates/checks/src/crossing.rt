// Which edges from a point cross: the labels of their ends are opposed. Far ends stand a
// stride away: a table of strides gives candidates, which are far ends where the edges exist.
ghost use Rattle.std.specs.Prelude.{◌≡◌, ◌<◌, get_or};
ghost use Rattle.lattice.specs.Direction.{as_start};
ghost use Rattle.lattice.specs.Edge.{exists};
ghost use Rattle.lattice.specs.Rim.{rim_at};
ghost use Rattle.lattice.specs.inner.Site.{Sited, index};
ghost use Rattle.labelling.specs.inner.Scans.{label_in};
ghost use Rattle.filling.specs.Check.{crosses};
ghost use Rattle.lines.specs.inner.Strides.{ends_at};
ghost use Rattle.checks.specs.inner.Faults.{crossings_at};

use labelling::scan::Scan;
use lattice::{EdgeCode, Lattice, Site};
use lines::strides;

// The edge from a point in direction d exists. From a point that is not on the rim all do.
fn is_there(lattice: Lattice, q: Site, outer: bool, d: usize) -> bool
    requires sited { Sited lattice.sizes q }
    requires outer_value { outer ≡ rim_at lattice.sizes q.kind (index q) }
    requires d_bound { d < 7 }
    ensures { result ≡ exists lattice.sizes q.kind (index q) (as_start d) }
{
    !outer || lattice.is_edge(q, EdgeCode::at_start(d))
}

// The edge exists and crosses. Its candidate is `far`.
fn crosses(scan: Scan<'_>, q: Site, outer: bool, d: usize, far: usize) -> bool
    requires sited { Sited scan.lattice.sizes q }
    requires outer_value { outer ≡ rim_at scan.lattice.sizes q.kind (index q) }
    requires d_bound { d < 7 }
    requires far_value { far ≡ get_or (ends_at scan.lattice.sizes q) d 0 }
    ensures { result ≡ crosses scan.entry.lattice.sizes (label_in scan.entry) q.own d }
{
    is_there(scan.lattice, q, outer, d) && scan.are_opposed(q.own, far)
}

// The seven edges that start at a point, by direction.
pub fn crossings(scan: Scan<'_>, q: Site) -> [bool; 7]
    requires { Sited scan.lattice.sizes q }
    ensures { result ≡ crossings_at scan.entry.lattice.sizes (label_in scan.entry) q.own }
{
    let outer = scan.lattice.is_rim(q);
    let far = strides::ahead(scan.lattice, q);
    let mut must = [false; 7];
    for (d, &end) in far.iter().enumerate() {
        must[d] = crosses(scan, q, outer, d, end);
    }
    must
}
