// The totals of the week.
ghost use Rattle.std.specs.Prelude.{◌≡◌, ◌<◌, ltb};
ghost use Rattle.volume_report.specs.program.Report.{counted, is_last, begun, most_files};
ghost use Rattle.volume_report.specs.inner.Answer.{answer_of};
ghost use Rattle.volume_report.specs.inner.Small.{Small, Kept};

use crate::{Outcome, Tally};

const MOST: u64 = 1000000;

// Totals of so many files of 5 by 5 by 5 cubes that none of them overflows.
#[derive(Clone, Copy)]
pub struct Totals {
    pub tally: Tally,
    ghost kept: { Kept tally },
}

// No file yet.
#[tactic(auto, unfolding(crate::specs::program::Report::begun))]
pub fn begin() -> Totals
    ensures { result.tally ≡ begun }
{
    Totals {
        tally: Tally {
            files: 0,
            tetrahedra: 0,
            sum: 0,
        },
    }
}

// After so many files the report ends.
pub fn goes_on(t: Tally) -> bool
    ensures { result ≡ ltb t.files most_files }
{
    t.files < MOST
}

// One file more.
pub fn count(t: Totals, o: Outcome) -> Totals
    requires files_lt_most_files { t.tally.files < most_files }
    requires small { Small (answer_of o) }
    ensures { result.tally ≡ counted t.tally (answer_of o) }
{
    let Tally {
        files,
        tetrahedra,
        sum,
    } = t.tally;
    let Ok(v) = o.volumes else {
        return Totals {
            tally: Tally {
                files: files + 1,
                tetrahedra,
                sum,
            },
        };
    };
    Totals {
        tally: Tally {
            files: files + 1,
            tetrahedra: tetrahedra + v.tetrahedra,
            sum: sum + v.sum,
        },
    }
}

// A file refused with one of these numbers ends the report: where the next one starts is unknown.
// (A number: the entry of which the report's definition asks this has one.)
#[tactic(auto, unfolding(crate::specs::program::Report::is_last))]
pub fn is_last(number: u32) -> bool
    ensures { result ≡ is_last number }
{
    number == 1 || number == 11 || number == 12
}
