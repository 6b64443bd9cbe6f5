// Calls of the place of an id, asked again.
ghost use Rattle.std.specs.Prelude.{◌≡◌, ◌+◌, ◌*◌, ◌≤◌, length, take, drop, MatchOption};
ghost use Rattle.blockfile.specs.Format.{file_sizes};
ghost use Rattle.replay.specs.program.Questions.{asked_of, stated_place, answered, questions_at, places_agree_with, places_agree};

use crate::Asked;
use blockfile::numbers;
use filling::Placed;

// What a head states of the questions, if they make up the body.
#[tactic(auto, unfolding(crate::specs::program::Questions::asked_of))]
fn fitting(head: &[u8; 48], body: usize) -> Option<Asked>
    ensures { MatchOption result (body ≡ questions_at (asked_of head.now) + 10 * (asked_of head.now).questions → ⊥)
        (λ a. (a ≡ asked_of head.now) × (body ≡ questions_at a + 10 * a.questions)) }
{
    let asked = Asked {
        cuts: numbers::four_at(head, 8) as usize,
        state: numbers::four_at(head, 12) as usize,
        questions: numbers::four_at(head, 16) as usize,
        number: numbers::four_at(head, 32),
    };
    if body == 3 + asked.cuts + asked.state + 10 * asked.questions {
        Some(asked)
    } else {
        None
    }
}

// Recorded questions, which make up their body.
#[derive(Clone, Copy)]
struct Recorded<'a> {
    body: &'a [u8],
    asked: Asked,
    ghost whole: { length body.now ≡ questions_at asked + 10 * asked.questions },
}

impl<'a> Recorded<'a> {
    // The answer stated for the question at i.
    #[tactic(auto, unfolding(crate::specs::program::Questions::stated_place))]
    fn stated_place(self, i: usize) -> Placed
        requires { i + 10 ≤ length self.body.now }
        ensures { result ≡ stated_place self.entry.body.now self.entry.asked.number i }
    {
        Placed {
            number: self.asked.number,
            x: u32::from(numbers::two_at(self.body, i + 4)),
            y: u32::from(numbers::two_at(self.body, i + 6)),
            z: u32::from(numbers::two_at(self.body, i + 8)),
        }
    }

    // Asks the question at i again.
    fn is_answered(self, i: usize) -> bool
        requires { i + 10 ≤ length self.body.now }
        ensures { result
            ≡ answered self.entry.body.now self.entry.asked.number (file_sizes self.entry.body.now)
            (take self.entry.asked.cuts (drop 3 self.entry.body.now))
            (take self.entry.asked.state (drop (3 + self.entry.asked.cuts) self.entry.body.now)) i }
    {
        let body = self.body;
        let middle = 3 + self.asked.cuts;
        let first = middle + self.asked.state;
        let placed = yakuemi::yakuemi_place(
            u32::from(body[0]),
            u32::from(body[1]),
            u32::from(body[2]),
            &body[3..middle],
            &body[middle..first],
            numbers::four_at(body, i),
        );
        placed == self.stated_place(i)
    }

    // Asks all questions again. (They are counted: a question is read at its place of the body, which
    // contracts name, and parts of ten bytes would be read by the same calls.)
    fn are_answered(self) -> bool
        ensures { result ≡ places_agree_with self.entry.body.now self.entry.asked }
    {
        let first = 3 + self.asked.cuts + self.asked.state;
        for i in 0..self.asked.questions {
            if !self.is_answered(first + 10 * i) {
                return false;
            }
        }
        true
    }
}

// Asks the recorded questions again: true exactly if each is answered as the record states.
pub fn agrees(head: &[u8; 48], body: &[u8]) -> bool
    ensures { result ≡ places_agree head.now body.now }
{
    match fitting(head, body.len()) {
        None => false,
        Some(asked) => Recorded { body, asked }.are_answered(),
    }
}
