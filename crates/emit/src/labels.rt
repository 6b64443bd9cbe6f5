// The labels of points once they have moved, and what a glance at a cube's six points tells.
ghost use Rattle.std.specs.Prelude.{◌≡◌, ◌<◌, ◌≤◌};
ghost use Rattle.lattice.specs.Counts.{points};
ghost use Rattle.labelling.specs.inner.Scans.{label_in};
ghost use Rattle.emit.specs.inner.Cubes.{KnownCube, plus_count, unmoved, cube_labels};
ghost use Rattle.emit.specs.inner.Moving.{moved_label};

use crate::{Cube, Moved};
use labelling::{codes, label};
use moving::Label;

impl<'a> Moved<'a> {
    // The label of a point: zero once its state byte says so.
    fn label(self, p: usize) -> Label
        requires { p < points self.scan.lattice.sizes }
        ensures { result ≡ moved_label self.entry p }
    {
        if codes::says_zero(self.state[p]) {
            return Label::Zero;
        }
        if self.scan.is_plus(p) {
            return Label::Plus;
        }
        if label::is_minus(self.scan.band, self.scan.samples[p]) {
            return Label::Minus;
        }
        Label::Zero
    }

    // The labels of the six points, each read once for all four tetrahedra.
    pub(crate) fn labels(self, c: Cube) -> [Label; 6]
        requires { KnownCube (points self.scan.lattice.sizes) c }
        ensures { result ≡ cube_labels (moved_label self.entry) c }
    {
        let [low, high, mm, pm, pp, mp] = c.points;
        [
            self.label(low),
            self.label(high),
            self.label(mm),
            self.label(pm),
            self.label(pp),
            self.label(mp),
        ]
    }

    // How many of the six points have a sample above the band.
    pub(crate) fn count_plus(self, c: Cube) -> usize
        requires { KnownCube (points self.scan.lattice.sizes) c }
        ensures { result ≡ plus_count (label_in self.entry.scan) c }
    {
        let mut plus = 0;
        for p in c.points {
            if self.scan.is_plus(p) {
                plus += 1;
            }
        }
        plus
    }

    // None of the six points has moved, and none has the mark: all their state bytes are 0.
    pub(crate) fn is_unmoved(self, c: Cube) -> bool
        requires { KnownCube (points self.scan.lattice.sizes) c }
        ensures { result ≡ unmoved self.entry.state.now c }
    {
        let mut codes = 0;
        for p in c.points {
            codes += self.state[p] as usize;
        }
        codes == 0
    }
}
