// Mending a cut table: bytes that are missing are filled in, stray ones are cleared.
#![tactic(auto)]

ghost use Rattle.std.specs.Prelude.{◌≡◌, ◌+◌, ◌≤◌};
ghost use Rattle.patch.specs.inner.Sums.{CanAdd, Added};

pub mod block;
pub mod seven;
pub mod table;

use std::ops::AddAssign;

// How many bytes were filled in, and how many were cleared.
#[derive(Clone, Copy, Default)]
pub struct Counts {
    pub filled: usize,
    pub cleared: usize,
}

impl AddAssign for Counts {
    ghost can_add_assign = { CanAdd };

    ghost add_assign_gives = { Added };

    fn add_assign(&mut self, more: Counts) {
        self.filled += more.filled;
        self.cleared += more.cleared;
    }
}
