// Reading a table full from a reader.
#![tactic(auto)]

#[cfg(test)]
mod tests;

ghost use Rattle.std.specs.Prelude.{◌≡◌, ◌<◌, length, take, None, IfSome, IfOk};
ghost use Rattle.std.specs.Io.KnownBytes.{Consumes, IsAtEnd};
ghost use Rattle.text.specs.inner.Counts.{IsPrefixLen};

use std::io;
use std::io::{Error, Read};

// What came of it: how many bytes stand at the start of the table, and the error of the read that
// failed, if one did. (No Result: the count is told in both cases, and would stand in both variants.)
#[derive(Drop)]
pub struct Filled {
    pub count: usize,
    pub failure: Option<Error>,
}

// Reads until the table is full, the input ends or a read fails, and takes no other byte from the
// reader. A read that a signal interrupts has failed. (The library's `read_exact` does not tell how many
// bytes came before an early end, and a read says how far the next one starts: there is no list to go over.)
pub fn read_full<R: Read>(input: &mut R, table: &mut [u8]) -> Filled
    ensures prefix_len { IsPrefixLen result.count table.new }
    ensures consumed { Consumes (R.remaining input.old) (R.remaining input.new) (take result.count table.new) }
    ensures ended { result.failure ≡ None → result.count < length table.new → IsAtEnd (R.remaining input.new) }
{
    let mut count = 0usize;
    while count < table.len() {
        match input.read(&mut table[count..]) {
            Ok(0) => {
                return Filled {
                    count,
                    failure: None,
                };
            }
            Ok(n) => count += n,
            Err(e) => {
                return Filled {
                    count,
                    failure: Some(e),
                };
            }
        }
    }
    Filled {
        count,
        failure: None,
    }
}

// The same for who has no use for what came before a failure: the first bytes of the input, as many
// as the table takes.
pub fn read_first<R: Read>(input: &mut R, table: &mut [u8]) -> io::Result<usize>
    ensures prefix_len { IfOk result (λ n. IsPrefixLen n table.new) }
    ensures first_bytes { IfOk result (λ n. IfSome (R.remaining input.old) (λ bytes. take n table.new ≡ take (length table.new) bytes)) }
{
    let Filled { count, failure } = read_full(input, table);
    match failure {
        Some(e) => Err(e),
        None => Ok(count),
    }
}
