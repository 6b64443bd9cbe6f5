// What keeps a block from being filled: a rim point that is plus, a cut byte that is missing
// or too many.
#![tactic(auto)]

ghost use Rattle.std.specs.Prelude.{◌≡◌, ◌*◌, length};
ghost use Rattle.lattice.specs.Counts.{points};

pub mod crossing;
pub mod cuts;
pub mod quiet;
pub mod rim;
pub mod seven;

use labelling::scan::Scan;

// A cut byte at fault, by its offset: one that is missing, or one too many.
#[derive(Clone, Copy)]
pub enum Fault {
    Gap(usize),
    Stray(usize),
}

impl Fault {
    ghost use Rattle.std.specs.Prelude.{◌+◌, ◌≤◌};
    ghost use Rattle.lattice.specs.inner.Site.{most};
    ghost use Rattle.checks.specs.inner.Faults.{fault_number, fault_offset};

    // The byte's offset.
    pub fn offset(self) -> usize
        ensures { result ≡ fault_offset self }
    {
        match self {
            Fault::Gap(o) => o,
            Fault::Stray(o) => o,
        }
    }

    // The same fault where offsets are counted from so many bytes before.
    pub fn further(self, by: usize) -> Fault
        requires { (fault_offset self ≤ 7) × (by ≤ 7 * most) }
        ensures number { fault_number result ≡ fault_number self }
        ensures offset { fault_offset result ≡ by + fault_offset self }
    {
        match self {
            Fault::Gap(o) => Fault::Gap(by + o),
            Fault::Stray(o) => Fault::Stray(by + o),
        }
    }
}

// A scan and its cut table: seven bytes for each lattice point.
#[derive(Clone, Copy)]
pub struct CutTable<'a> {
    pub scan: Scan<'a>,
    pub cuts: &'a [u8],
    ghost tabled: { length cuts.now ≡ 7 * points scan.lattice.sizes },
}
