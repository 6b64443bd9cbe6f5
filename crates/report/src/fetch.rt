// The input, taken a block file at a time: never a byte past the end of one, so that what follows is
// there for the next turn.
ghost use Rattle.std.specs.Prelude.{◌≡◌, length, take, true, None};
ghost use Rattle.std.specs.Io.KnownBytes.{Consumes, IsAtEnd};
ghost use Rattle.text.specs.inner.Counts.{IsPrefixLen};
ghost use Rattle.blockfile.specs.inner.Needs.{bench_longest, HeldIn};

use std::io::{Error, Read};
use streams::Filled;

// What was fetched: how many bytes are held, whether the input ended before all that was needed came,
// which the contract says and the program need not ask, and the error of the read that failed, if one
// did. Such a read ends the input. (No Result, as in `streams`: what is held is told in both cases.)
#[derive(Drop)]
pub struct Fetched {
    pub held: usize,
    pub ended: bool,
    pub failure: Option<Error>,
}

// `fetch` for a table of any length, which is the most that is held. (A part can be lent of a slice,
// and not of an array behind a reference. The loop goes over no list: how much a turn reads, and
// whether there is one more, is known from the bytes that came before.)
fn fetch_into<R: Read>(input: &mut R, bytes: &mut [u8]) -> Fetched
    ensures prefix_len { IsPrefixLen result.held bytes.new }
    ensures held_in { HeldIn 5 (length bytes.old) bytes.new result.held result.ended }
    ensures taken { Consumes (R.remaining input.old) (R.remaining input.new) (take result.held bytes.new) }
    ensures end { result.ended ≡ true → result.failure ≡ None → IsAtEnd (R.remaining input.new) }
{
    let mut held: usize = 0;
    loop {
        let need = blockfile::file::needed(&bytes[..held], 5);
        if need <= held {
            return Fetched {
                held,
                ended: false,
                failure: None,
            };
        }
        if bytes.len() < need {
            return Fetched {
                held,
                ended: false,
                failure: None,
            };
        }
        let asked = need - held;
        let Filled {
            count: got,
            failure,
        } = streams::read_full(input, &mut bytes[held..need]);
        held += got;
        if got < asked {
            return Fetched {
                held,
                ended: true,
                failure,
            };
        }
    }
}

// Reads on until the file that starts the input is settled: it is all there, or it is refused
// whatever follows, or the input has ended. No byte past its end is read, and each read asks for all
// that is needed before more is known. 5 is the limit of a size, and no file within it has more than
// 9045 bytes.
pub fn fetch<R: Read>(input: &mut R, bytes: &mut [u8; 9045]) -> Fetched
    ensures prefix_len { IsPrefixLen result.held bytes.new }
    ensures held_in { HeldIn 5 bench_longest bytes.new result.held result.ended }
    ensures taken { Consumes (R.remaining input.old) (R.remaining input.new) (take result.held bytes.new) }
    ensures end { result.ended ≡ true → result.failure ≡ None → IsAtEnd (R.remaining input.new) }
{
    fetch_into(input, bytes)
}
