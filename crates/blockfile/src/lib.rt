// Reading a block file: sizes, samples, and the runs of the cut table.
#![tactic(auto)]

pub mod cuts;
pub mod file;
pub mod numbers;
pub mod runs;
pub mod samples;

ghost use Rattle.std.specs.Prelude.{◌≡◌, ◌+◌};

use lattice::Lattice;

// A run of cut bytes that are listed in a file: where in the cut table it starts, and how many.
#[derive(Clone, Copy)]
pub struct Run {
    pub offset: u32,
    pub length: u16,
}

impl Run {
    // The byte of the cut table at which it starts.
    pub fn start(self) -> usize
        ensures { result ≡ self.offset }
    {
        self.offset as usize
    }

    // The first byte after it.
    pub fn end(self) -> usize
        ensures { result ≡ self.offset + self.length }
    {
        self.start() + usize::from(self.length)
    }
}

// A file that was read: the lattice of its block, and where in the bytes it ends.
#[derive(Clone, Copy)]
pub struct Loaded {
    pub lattice: Lattice,
    pub end: usize,
}
