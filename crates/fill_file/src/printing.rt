// What the bench program prints for an answer, as bytes.
ghost use Rattle.std.specs.Prelude.{◌≡◌, [], ◌∷◌, ◌++◌, ◌+◌, ◌≤◌, length};
ghost use Rattle.text.specs.Text.{newline, ascii, decimal, line};
ghost use Rattle.fill_file.specs.inner.Answer.{answer_of};
ghost use Rattle.fill_file.specs.program.Printed.{printed};

use crate::answers::{Counts, Refused};
use text::Text;

// Writes a word and a number, a line. A number has at most twenty digits.
fn push_count(text: &mut Text<113>, word: &[u8], n: u64)
    requires { length text.old + (length word.now + 21) ≤ 113 }
    ensures pushed { text.new ≡ text.old ++ (word.now ++ (decimal n ++ (newline ∷ []))) }
    ensures upper_bound { length text.new ≤ length text.old + (length word.now + 21) }
{
    text.push(word);
    text.push_field(n, b'\n');
}

// The four lines of a block that was filled: words of 29 bytes in all, and four numbers.
fn counts(c: Counts) -> Text<113>
    ensures { result ≡ printed (answer_of (Ok c)) }
{
    let mut text = Text::new();
    push_count(&mut text, b"points ", c.points);
    push_count(&mut text, b"lattice ", c.lattice);
    push_count(&mut text, b"moved ", c.moved);
    push_count(&mut text, b"emitted ", c.emitted);
    text
}

// Writes the line of a refusal: a word of eight bytes, and two numbers.
pub fn push_refusal<const N: usize>(text: &mut Text<N>, r: Refused)
    requires { length text.old + 50 ≤ N }
    ensures { text.new ≡ text.old ++ line (ascii "refused" ∷ decimal r.number ∷ decimal r.place ∷ []) }
{
    text.push(b"refused ");
    text.push_field(u64::from(r.number), b' ');
    text.push_field(r.place, b'\n');
}

// The line of a refusal.
fn refusal(r: Refused) -> Text<113>
    ensures { result ≡ printed (answer_of (Err r)) }
{
    let mut text = Text::new();
    push_refusal(&mut text, r);
    text
}

// All that is printed for an answer.
pub fn answer(outcome: Result<Counts, Refused>) -> Text<113>
    ensures { result ≡ printed (answer_of outcome) }
{
    match outcome {
        Ok(c) => counts(c),
        Err(r) => refusal(r),
    }
}
