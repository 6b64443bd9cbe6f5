// The week's report of volumes, a file at a time: its numbers, its line, and the totals.
#![tactic(auto)]

pub mod files;
pub mod printing;
pub mod totals;
pub mod turns;

use fill_file::answers::Refused;
use text::Text;
use totals::Totals;

// T, M, the sum of the six-volumes and the smallest of a block that was accepted.
#[derive(Clone, Copy)]
pub struct Volumes {
    pub tetrahedra: u64,
    pub moved: u64,
    pub sum: u64,
    pub smallest: u64,
}

// What a file's line says, and where in the bytes the file ends: 0 where it is refused with 1, 11 or 12
// and nobody knows. (0 and no `Option`: `entry_of`, the definition of what the report prints, says 0.)
#[derive(Clone, Copy)]
pub struct Outcome {
    pub volumes: Result<Volumes, Refused>,
    pub end: usize,
}

impl Outcome {
    ghost use Rattle.std.specs.Prelude.{◌≡◌};
    ghost use Rattle.volume_report.specs.inner.Answer.{answer_of};

    // 0, or the number of a refusal.
    #[tactic(auto, unfolding(crate::specs::inner::Answer::entry_with, crate::specs::program::Report::refusal))]
    pub fn number(self) -> u32
        ensures { result ≡ (answer_of self).number }
    {
        match self.volumes {
            Ok(_) => 0,
            Err(refused) => refused.number,
        }
    }
}

// How many files there were, and T and the sums of those that were accepted.
#[derive(Clone, Copy)]
pub struct Tally {
    pub files: u64,
    pub tetrahedra: u64,
    pub sum: u64,
}

// What a turn leaves: the totals with its file, its line, and whether the report ends with it. (A flag:
// totals and line are left in both cases, so the variants of an enum would hold the same two.)
#[derive(Drop)]
pub struct Turn {
    pub totals: Totals,
    pub line: Text<105>,
    pub last: bool,
}
