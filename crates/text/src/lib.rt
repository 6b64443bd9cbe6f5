// Text as bytes: words and decimal numbers, one after the other. Every program writes its numbers by
// `push_number` or `print_number`.
#![tactic(auto)]

ghost use Rattle.std.specs.Prelude.{◌≡◌, [], ◌∷◌, ◌++◌, ◌+◌, ◌<◌, ◌≤◌, List, ℕ, length, take, drop, OnOk};
ghost use Rattle.std.specs.Io.KnownBytes.{Appends};
ghost use Rattle.text.specs.Text.{decimal};

use std::io;
use std::io::Write;
use std::marker::Model;

// Text of at most N bytes. Clauses see the bytes that were written.
#[derive(Drop)]
pub struct Text<const N: usize> {
    bytes: [u8; N],
    len: usize,
}

impl<const N: usize> Model for Text<N> {
    ghost Value = { List ℕ };

    ghost view = { λ t. take t.len t.bytes };

    ghost invariant = { λ t. t.len ≤ N };
}

impl<const N: usize> Text<N> {
    // No text yet.
    pub fn new() -> Self
        ensures { result ≡ [] }
    {
        Text {
            bytes: [0; N],
            len: 0,
        }
    }

    // Writes a word.
    pub fn push(&mut self, word: &[u8])
        requires { length self.old + length word.now ≤ N }
        ensures { self.new ≡ self.old ++ word.now }
    {
        let end = self.len + word.len();
        let bytes = &mut self.bytes[..];
        bytes[self.len..end].copy_from_slice(word);
        self.len = end;
    }

    // Writes the decimal digits of a number, at most twenty.
    pub fn push_number(&mut self, n: u64)
        requires { length self.old + 20 ≤ N }
        ensures pushed { self.new ≡ self.old ++ decimal n }
        ensures upper_bound { length self.new ≤ length self.old + 20 }
    {
        let mut digits = [0u8; 20];
        let first = digits_at_end(n, &mut digits);
        self.push(&digits[first..]);
    }

    // Writes a number and the byte that follows it: a space, or the end of a line.
    pub fn push_field(&mut self, n: u64, follows: u8)
        requires { length self.old + 21 ≤ N }
        ensures pushed { self.new ≡ self.old ++ (decimal n ++ (follows ∷ [])) }
        ensures upper_bound { length self.new ≤ length self.old + 21 }
    {
        self.push_number(n);
        self.push(&[follows]);
    }

    // The bytes that were written.
    pub fn as_slice(&self) -> &[u8]
        ensures { result.now ≡ self.now }
    {
        let bytes = &self.bytes[..];
        &bytes[..self.len]
    }
}

// Puts the decimal digits of a number at the end of a table, and answers where they begin. A number
// of 64 bits has at most twenty. (The loop goes over no list: it ends with the number's first digit, and
// one over the table's places from behind would break there.)
fn digits_at_end(n: u64, digits: &mut [u8; 20]) -> usize
    ensures digits { drop result digits.new ≡ decimal n }
    ensures within { result < 20 }
{
    let mut first = 19usize;
    let mut rest = n;
    while rest >= 10 {
        digits[first] = b'0' + (rest % 10) as u8;
        rest /= 10;
        first -= 1;
    }
    digits[first] = b'0' + rest as u8;
    first
}

// The decimal digits of a number to a writer.
pub fn print_number<W: Write>(output: &mut W, n: u64) -> io::Result<()>
    ensures { OnOk result (Appends (W.contents output.old) (W.contents output.new) (decimal n)) }
{
    let mut digits = [0u8; 20];
    let first = digits_at_end(n, &mut digits);
    output.write_all(&digits[first..])
}

// A word, a number, and what follows them in the line, to a writer.
pub fn print_line<W: Write>(output: &mut W, word: &[u8], n: u64, rest: &[u8]) -> io::Result<()>
    ensures { OnOk
        result
        (Appends
        (W.contents output.old)
        (W.contents output.new)
        (word.now ++ (decimal n ++ rest.now))) }
{
    output.write_all(word)?;
    print_number(output, n)?;
    output.write_all(rest)
}
