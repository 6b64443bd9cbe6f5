// Reads the three size bytes with which a block file starts, and prints the block's measures.
#![tactic(auto)]

use std::io;
use std::io::{Read, Write};

// A size byte that does not come counts as 0.
fn run<R: Read, W: Write>(input: &mut R, output: &mut W) -> io::Result<()> {
    let mut sizes = [0u8; 3];
    streams::read_first(input, &mut sizes)?;
    let [x, y, z] = sizes.map(u32::from);
    let m = yakuemi::yakuemi_measures(x, y, z);
    if m.number == 0 {
        text::print_line(output, b"points ", m.points, b"\n")?;
        return text::print_line(output, b"lattice ", m.tetrahedra, b"\n");
    }
    output.write_all(b"refused 1 0\n")
}

fn main(rt: HostRuntime) -> io::Result<()> {
    run(&mut rt.stdin(), &mut rt.stdout())
}
