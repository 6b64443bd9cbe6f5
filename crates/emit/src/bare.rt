// Runs of cubes without a plus, told from the samples of whole lines of points: quick where there is air.
ghost use Rattle.std.specs.Prelude.{◌≡◌, true, false, ℕ, ◌+◌, ◌<◌, ◌≤◌};
ghost use Rattle.lattice.specs.Counts.{points};
ghost use Rattle.labelling.specs.inner.Scans.{label_in};
ghost use Rattle.emit.specs.inner.Cubes.{Light, plus_count};
ghost use Rattle.emit.specs.inner.Passes.{shifted, KnownRun};

use crate::Cube;
use labelling::scan::Scan;

// A line of so many points from one on has a sample above the band. Samples are looked at in whole
// steps of sixteen, so that the compiled loop has no rest: some that follow the line are asked too.
fn has_plus(scan: Scan<'_>, from: usize, count: usize) -> bool
    requires { from + count ≤ points scan.lattice.sizes }
    ensures { result ≡ false → Light (label_in scan.entry) from count }
{
    let whole = (count + 15) / 16 * 16;
    ranges::has_some(true, scan.band, scan.samples, from, from + whole)
}

// None of the points of so many cubes side by side along x, the first one and those after it, has a
// sample above the band.
pub fn is_bare_run(scan: Scan<'_>, first: Cube, count: usize) -> bool
    requires { KnownRun (points scan.lattice.sizes) first count }
    ensures { result ≡ true → (x : ℕ) → x < count → plus_count (label_in scan.entry) (shifted first x) ≡ 0 }
{
    if count == 0 {
        return true;
    }
    for p in first.points {
        if has_plus(scan, p, count) {
            return false;
        }
    }
    true
}
