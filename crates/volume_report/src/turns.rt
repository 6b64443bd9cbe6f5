// A turn of the report: one file, its line, and the totals with it.
ghost use Rattle.std.specs.Prelude.{◌≡◌, ◌<◌};
ghost use Rattle.volume_report.specs.program.Report.{entry_of, line_of, counted, is_last, most_files};

use crate::totals::Totals;
use crate::{Turn, files, printing, totals};

// Measures the file that starts the bytes, counts it, and writes its line.
pub fn turn(t: Totals, bytes: &[u8]) -> Turn
    requires { t.tally.files < most_files }
    ensures tally { result.totals.tally ≡ counted t.tally (entry_of bytes.now) }
    ensures line { result.line ≡ line_of (counted t.tally (entry_of bytes.now)).files (entry_of bytes.now) }
    ensures last { result.last ≡ is_last (entry_of bytes.now).number }
{
    let outcome = files::entry(bytes);
    let totals = totals::count(t, outcome);
    Turn {
        totals,
        line: printing::line(totals.tally.files, outcome),
        last: totals::is_last(outcome.number()),
    }
}
