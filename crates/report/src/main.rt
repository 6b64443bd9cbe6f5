// The week's report of volumes: block files one after another from standard input, a line for each,
// and the totals.
#![tactic(auto)]

mod fetch;

ghost use Rattle.std.specs.Prelude.{OnOk, IfSome};
ghost use Rattle.std.specs.Io.KnownBytes.{Appends};
ghost use Rattle.std.specs.List.{concat};
ghost use Rattle.volume_report.specs.program.Report.{last_line, report};

use fetch::Fetched;
use std::io;
use std::io::{Read, Write};
use volume_report::{Tally, Turn, printing, totals, turns};

fn print_last<W: Write>(t: Tally, output: &mut W) -> io::Result<()>
    ensures { OnOk result (Appends (W.contents output.old) (W.contents output.new) (last_line t)) }
{
    let line = printing::last_line(t);
    output.write_all(line.as_slice())
}

// A turn holds one file and no byte of the next. Nothing is held where the input ends before a file
// starts. A read or a write that fails ends the report with its error. (The loop goes over no list: how
// many turns there are is known only from the input, and the totals of each go into the next.)
fn run<R: Read, W: Write>(input: &mut R, output: &mut W) -> io::Result<()>
    ensures { OnOk result (IfSome (R.remaining input.old)
        (λ bytes. Appends (W.contents output.old) (W.contents output.new) (concat (report bytes)))) }
{
    let mut bytes = [0u8; 9045];
    let mut totals = totals::begin();
    while totals::goes_on(totals.tally) {
        let Fetched {
            held,
            ended: _,
            failure,
        } = fetch::fetch(input, &mut bytes);
        if let Some(e) = failure {
            return Err(e);
        }
        if held == 0 {
            return print_last(totals.tally, output);
        }
        let Turn {
            totals: after,
            line,
            last,
        } = turns::turn(totals, &bytes[..held]);
        output.write_all(line.as_slice())?;
        totals = after;
        if last {
            return print_last(totals.tally, output);
        }
    }
    print_last(totals.tally, output)
}

fn main(rt: HostRuntime) -> io::Result<()> {
    run(&mut rt.stdin(), &mut rt.stdout())
}
