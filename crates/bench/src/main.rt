// The bench program: reads one block file from standard input, fills its block and prints the
// counts, or why it is refused.
#![tactic(auto)]

ghost use Rattle.std.specs.Prelude.{IfSome, OnOk, take};
ghost use Rattle.std.specs.Io.KnownBytes.{Appends};
ghost use Rattle.fill_file.specs.program.Printed.{output};

use std::io;
use std::io::{Read, Write};

// The longest file of 5 by 5 by 5 cubes has 1194 runs of one byte, 3 + 682 + 2 + 7 * 1194 = 9045
// bytes; one byte more shows that a file is too long. A read or a write that fails is answered by its
// error.
fn run<R: Read, W: Write>(input: &mut R, printed: &mut W) -> io::Result<()>
    ensures { OnOk result (IfSome (R.remaining input.old)
        (λ bytes. Appends (W.contents printed.old) (W.contents printed.new) (output (take 9046 bytes)))) }
{
    let mut bytes = [0u8; 9046];
    let n = streams::read_first(input, &mut bytes)?;
    let text = fill_file::output(&bytes[..n]);
    printed.write_all(text.as_slice())
}

fn main(rt: HostRuntime) -> io::Result<()> {
    run(&mut rt.stdin(), &mut rt.stdout())
}
