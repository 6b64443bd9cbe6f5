// The lines of the report.
ghost use Rattle.std.specs.Prelude.{◌≡◌, [], ◌∷◌};
ghost use Rattle.text.specs.Text.{ascii, decimal, line};
ghost use Rattle.volume_report.specs.program.Report.{line_of, last_line};
ghost use Rattle.volume_report.specs.inner.Answer.{answer_of};

use crate::{Outcome, Tally, Volumes};
use fill_file::answers::Refused;
use fill_file::printing::push_refusal;
use text::Text;

// The line of a file that was accepted: five fields of at most twenty digits, each with the byte that
// follows it.
fn volumes(index: u64, v: Volumes) -> Text<105>
    ensures { result
        ≡ line (decimal index ∷ decimal v.tetrahedra ∷ decimal v.moved ∷ decimal v.sum ∷ decimal v.smallest ∷ []) }
{
    let mut text = Text::new();
    text.push_field(index, b' ');
    text.push_field(v.tetrahedra, b' ');
    text.push_field(v.moved, b' ');
    text.push_field(v.sum, b' ');
    text.push_field(v.smallest, b'\n');
    text
}

// The line of a file that was refused.
fn refusal(index: u64, r: Refused) -> Text<105>
    ensures { result ≡ line (decimal index ∷ ascii "refused" ∷ decimal r.number ∷ decimal r.place ∷ []) }
{
    let mut text = Text::new();
    text.push_field(index, b' ');
    push_refusal(&mut text, r);
    text
}

// The line of a file.
pub fn line(index: u64, o: Outcome) -> Text<105>
    ensures { result ≡ line_of index (answer_of o) }
{
    match o.volumes {
        Ok(v) => volumes(index, v),
        Err(r) => refusal(index, r),
    }
}

// The last line of the report.
pub fn last_line(t: Tally) -> Text<105>
    ensures { result ≡ last_line t }
{
    let mut text = Text::new();
    text.push_field(t.tetrahedra, b' ');
    text.push_field(t.sum, b'\n');
    text
}
