// What every test reads of a block: its lattice, and the band and the samples by which each lattice point
// has a label.
ghost use Rattle.std.specs.Prelude.{◌≡◌, length};
ghost use Rattle.lattice.specs.Counts.{points};

use crate::label;
use lattice::Lattice;

// A band of any size, and a sample for each lattice point.
#[derive(Clone, Copy)]
pub struct Scan<'a> {
    pub lattice: Lattice,
    pub band: u32,
    pub samples: &'a [i16],
    ghost sampled: { length samples.now ≡ points lattice.sizes },
}

impl<'a> Scan<'a> {
    ghost use Rattle.std.specs.Prelude.{◌<◌, get_or, pos};
    ghost use Rattle.moving.specs.Label.{is_plus, opposed};
    ghost use Rattle.labelling.specs.inner.Scans.{label_in};

    // The sample of a point.
    pub fn sample(self, p: usize) -> i16
        requires { p < points self.lattice.sizes }
        ensures { result ≡ get_or self.entry.samples.now p (pos 0) }
    {
        self.samples[p]
    }

    // The label of a point is plus.
    #[tactic(auto, unfolding(moving::specs::Label::labels))]
    pub fn is_plus(self, p: usize) -> bool
        requires { p < points self.lattice.sizes }
        ensures { result ≡ is_plus (label_in self.entry p) }
    {
        label::is_plus(self.band, self.samples[p])
    }

    // One of two points is plus and the other is minus.
    #[tactic(auto, unfolding(moving::specs::Label::labels))]
    pub fn are_opposed(self, p: usize, q: usize) -> bool
        requires { (p < points self.lattice.sizes) × (q < points self.lattice.sizes) }
        ensures { result ≡ opposed (label_in self.entry p) (label_in self.entry q) }
    {
        label::opposite(self.band, self.samples[p], self.samples[q])
    }
}
