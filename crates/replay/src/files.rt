// Block files, read again.
ghost use Rattle.std.specs.Prelude.{◌≡◌, ◌+◌, ◌*◌, ◌≤◌, true, false, length, MatchOption};
ghost use Rattle.blockfile.specs.inner.Answer.{answer_of};
ghost use Rattle.replay.specs.program.Files.{filed_of, stated_read, same_read, filed_fits, reread, read_agrees, file_agrees};

use crate::Filed;
use blockfile::{Loaded, file, numbers};
use comparison::tables;
use lattice::Sizes;
use refusals::Refusal;

// What a head states of a file, if the body has all its parts and nothing else and there is room to
// read the file again.
#[tactic(auto, unfolding(crate::specs::program::Files::filed_of, crate::specs::program::Files::filed_fits))]
fn fitting(head: &[u8; 48], body: usize, samples: usize, cuts: usize) -> Option<Filed>
    ensures { MatchOption result (filed_fits (filed_of head.now) body samples cuts ≡ false)
        (λ f. (f ≡ filed_of head.now) × (filed_fits f body samples cuts ≡ true)) }
{
    let filed = Filed {
        file: numbers::four_at(head, 8) as usize,
        samples: numbers::four_at(head, 12) as usize,
        cuts: numbers::four_at(head, 16) as usize,
        limit: numbers::four_at(head, 20) as usize,
    };
    let parts = filed.file + 2 * filed.samples + filed.cuts;
    if body == parts && filed.samples <= samples && filed.cuts <= cuts {
        Some(filed)
    } else {
        None
    }
}

// A head states this number, these sizes and this end.
#[tactic(auto, unfolding(crate::specs::program::Files::stated_read, crate::specs::program::Files::same_read, crate::specs::program::Files::same_sizes))]
fn states(head: &[u8; 48], number: u32, sizes: Sizes, end: usize) -> bool
    ensures { result ≡ same_read (record { number = number; nx = sizes.nx; ny = sizes.ny; nz = sizes.nz; end = end }) (stated_read head.now) }
{
    let stated = [
        usize::from(numbers::two_at(head, 40)),
        usize::from(numbers::two_at(head, 42)),
        usize::from(numbers::two_at(head, 44)),
    ];
    number == numbers::four_at(head, 32)
        && end == numbers::four_at(head, 36) as usize
        && [sizes.nx, sizes.ny, sizes.nz] == stated
}

// A file or a refusal is what the head states.
#[tactic(auto, unfolding(blockfile::specs::inner::Answer::answer_of, blockfile::specs::Format::refusal))]
fn is_stated(answer: Result<Loaded, Refusal>, head: &[u8; 48]) -> bool
    ensures { result ≡ same_read (answer_of answer) (stated_read head.now) }
{
    match answer {
        Ok(file) => states(head, 0, file.lattice.sizes, file.end),
        Err(refusal) => {
            let none = Sizes {
                nx: 0,
                ny: 0,
                nz: 0,
            };
            states(head, refusal.number(), none, 0)
        }
    }
}

// A recorded file whose body has all its parts.
#[derive(Clone, Copy)]
struct Recorded<'a> {
    head: &'a [u8; 48],
    body: &'a [u8],
    filed: Filed,
    ghost whole: { length body.now ≡ filed.file + 2 * filed.samples + filed.cuts },
}

impl<'a> Recorded<'a> {
    // Lends the cut table as it was lent and reads the file.
    fn read_again(self, samples: &mut [i16], cuts: &mut [u8]) -> Result<Loaded, Refusal>
        requires { length cuts.old ≡ self.filed.cuts }
        ensures value { answer_of result ≡ (reread self.entry.head.now self.entry.body.now self.entry.filed samples.old).answer }
        ensures samples_after { samples.new ≡ (reread self.entry.head.now self.entry.body.now self.entry.filed samples.old).samples }
        ensures cuts_after { cuts.new ≡ (reread self.entry.head.now self.entry.body.now self.entry.filed samples.old).cuts }
    {
        cuts.fill(self.head[28]);
        let end = self.filed.file;
        file::read(&self.body[..end], self.filed.limit, samples, cuts)
    }

    // The answer and the tables are those that the record states.
    fn is_agreed(self, samples: &mut [i16], cuts: &mut [u8]) -> bool
        requires { (length samples.old ≡ self.filed.samples) × (length cuts.old ≡ self.filed.cuts) }
        ensures { result ≡ read_agrees self.entry.head.now self.entry.body.now self.entry.filed samples.old }
    {
        let answer = self.read_again(samples, cuts);
        let body = self.body;
        if !is_stated(answer, self.head) {
            return false;
        }
        if !tables::same_samples(samples, body, self.filed.file) {
            return false;
        }
        let first = self.filed.file + 2 * self.filed.samples;
        let end = first + self.filed.cuts;
        cuts[..] == body[first..end]
    }
}

// Reads a recorded file again into the lent tables: true exactly if reading does what the record
// states.
pub fn agrees(head: &[u8; 48], body: &[u8], samples: &mut [i16], cuts: &mut [u8]) -> bool
    ensures { result ≡ file_agrees head.now body.now samples.old (length cuts.old) }
{
    match fitting(head, body.len(), samples.len(), cuts.len()) {
        None => false,
        Some(filed) => {
            let file = Recorded { head, body, filed };
            let n = filed.samples;
            let k = filed.cuts;
            file.is_agreed(&mut samples[..n], &mut cuts[..k])
        }
    }
}
