// Reads recorded calls from standard input and makes each of them again: document 01's row tables of
// 95 and of 96 numbers first, then blocks, places and files that separate software answered too. It
// ends at the first difference and says in which record it is, counted from 1.
#![tactic(auto)]

mod tally;

ghost use Rattle.std.specs.Prelude.{◌+◌, ◌≤◌};

use blockfile::numbers;
use std::io;
use std::io::{Read, Write};
use tally::Tally;
use text::print_line;

// What a record holds.
#[derive(Clone, Copy)]
enum Kind {
    Filling,
    Places,
    File,
}

impl TryFrom<u8> for Kind {
    type Error = ();

    // The byte with which a head starts.
    fn try_from(first: u8) -> Result<Kind, ()> {
        match first {
            1 => Ok(Kind::Filling),
            2 => Ok(Kind::Places),
            3 => Ok(Kind::File),
            _ => Err(()),
        }
    }
}

fn field(head: &[u8; 48], at: usize) -> u64
    requires { at + 4 ≤ 48 }
{
    u64::from(numbers::four_at(head, at))
}

// What the given case's records state, once they agree: the row table's length, the number and T.
fn print_given<W: Write>(output: &mut W, head: &[u8; 48]) -> io::Result<()> {
    print_line(output, b"table of ", field(head, 20), b" numbers: ")?;
    print_line(output, b"", field(head, 32), b", T ")?;
    print_line(output, b"", field(head, 36), b"\n")
}

// Makes the calls of a record again, in tables with room for 5 by 5 by 5 cubes. The table of bytes is
// the state table of a filling, or the cut table of a file.
fn is_agreed(kind: Kind, head: &[u8; 48], body: &[u8]) -> bool {
    let mut samples = [0i16; 400];
    let mut bytes = [0u8; 2400];
    let mut rows = [0u32; 14500];
    match kind {
        Kind::Filling => replay::fills::agrees(head, body, &mut samples, &mut bytes, &mut rows),
        Kind::Places => replay::questions::agrees(head, body),
        Kind::File => replay::files::agrees(head, body, &mut samples, &mut bytes),
    }
}

// Counts a record that agrees.
fn note<W: Write>(
    kind: Kind,
    tally: &mut Tally,
    head: &[u8; 48],
    output: &mut W,
) -> io::Result<()> {
    let number = numbers::four_at(head, 32) as usize;
    match kind {
        Kind::Filling => {
            tally.count_filling(number);
            if tally.fillings() < 3 {
                print_given(output, head)?;
            }
        }
        Kind::Places => tally.count_places(number, field(head, 16)),
        Kind::File => tally.count_file(number),
    }
    Ok(())
}

// Reads the body that belongs to a head, checks the record, and answers its kind if it agrees.
fn check_body<R: Read>(
    input: &mut R,
    head: &[u8; 48],
    body: &mut [u8],
) -> io::Result<Option<Kind>> {
    let length = numbers::four_at(head, 4) as usize;
    if body.len() < length {
        return Ok(None);
    }
    if streams::read_first(input, &mut body[..length])? < length {
        return Ok(None);
    }
    match Kind::try_from(head[0]) {
        Ok(kind) if is_agreed(kind, head, &body[..length]) => Ok(Some(kind)),
        _ => Ok(None),
    }
}

// Checks one record and answers whether to go on: not after the last one, and not after a difference.
fn check_next<R: Read, W: Write>(
    input: &mut R,
    output: &mut W,
    tally: &mut Tally,
) -> io::Result<bool> {
    let mut head = [0u8; 48];
    let mut body = [0u8; 33000];
    let got = streams::read_first(input, &mut head)?;
    if got == 0 {
        return Ok(false);
    }
    tally.count_record();
    if got < 48 {
        tally.count_difference();
        return Ok(false);
    }
    match check_body(input, &head, &mut body)? {
        Some(kind) => {
            note(kind, tally, &head, output)?;
            Ok(true)
        }
        None => {
            tally.count_difference();
            Ok(false)
        }
    }
}

// A proved loop has to end, and nothing says that the input does: so it counts its turns, up to a
// number that no run uses up.
fn check_all<R: Read, W: Write>(
    input: &mut R,
    output: &mut W,
    tally: &mut Tally,
) -> io::Result<()> {
    for _ in 0..u64::MAX {
        if !check_next(input, output, tally)? {
            break;
        }
    }
    Ok(())
}

// A read or a write that fails ends the run with its error.
fn run<R: Read, W: Write>(input: &mut R, output: &mut W) -> io::Result<()> {
    let mut tally = Tally::new();
    check_all(input, output, &mut tally)?;
    tally.print(output)
}

fn main(rt: HostRuntime) -> io::Result<()> {
    run(&mut rt.stdin(), &mut rt.stdout())
}
