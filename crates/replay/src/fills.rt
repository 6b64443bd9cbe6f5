// Calls of filling, replayed.
ghost use Rattle.std.specs.Prelude.{◌≡◌, ◌+◌, ◌*◌, ◌≤◌, true, false, length, MatchOption};
ghost use Rattle.lattice.specs.Counts.{most_points};
ghost use Rattle.replay.specs.program.Fills.{lengths_of, answer_of, fits, ids_at, replayed, stated_tables, agrees_with, fill_agrees};

use crate::Lengths;
use blockfile::{numbers, samples as sampled};
use comparison::tables;
use filling::Filled;

// No block has more lattice points.
const MOST_POINTS: usize = 536769;

// The lengths that a head states, if the body has all its parts and nothing else and there is room to
// replay the call.
#[tactic(auto, unfolding(crate::specs::program::Fills::lengths_of, crate::specs::program::Fills::fits))]
fn fitting(
    head: &[u8; 48],
    body: usize,
    samples: usize,
    state: usize,
    rows: usize,
) -> Option<Lengths>
    ensures { MatchOption result (fits (lengths_of head.now) body samples state rows ≡ false)
        (λ l. (l ≡ lengths_of head.now) × (fits l body samples state rows ≡ true)) }
{
    let lengths = Lengths {
        samples: numbers::four_at(head, 8) as usize,
        cuts: numbers::four_at(head, 12) as usize,
        state: numbers::four_at(head, 16) as usize,
        rows: numbers::four_at(head, 20) as usize,
        ids: numbers::four_at(head, 24) as usize,
    };
    let parts = 3 + 2 * lengths.samples + lengths.cuts + lengths.state + 2 * lengths.ids;
    if body == parts
        && lengths.samples <= MOST_POINTS
        && lengths.samples <= samples
        && lengths.state <= state
        && lengths.rows <= rows
        && lengths.ids <= lengths.rows
    {
        Some(lengths)
    } else {
        None
    }
}

// The answer that a head states.
#[tactic(auto, unfolding(crate::specs::program::Fills::answer_of))]
fn answer_of(head: &[u8; 48]) -> Filled
    ensures { result ≡ answer_of head.now }
{
    Filled {
        number: numbers::four_at(head, 32),
        rows: u64::from(numbers::four_at(head, 36)),
        moved: u64::from(numbers::four_at(head, 40)),
        place: u64::from(numbers::four_at(head, 44)),
    }
}

// A recorded call whose body has all its parts.
#[derive(Clone, Copy)]
struct Recorded<'a> {
    head: &'a [u8; 48],
    body: &'a [u8],
    lengths: Lengths,
    ghost few: { lengths.samples ≤ most_points },
    ghost whole: { ids_at lengths + 2 * lengths.ids ≡ length body.now },
    ghost ids_within: { lengths.ids ≤ lengths.rows },
}

impl<'a> Recorded<'a> {
    // Lends the tables as they were lent, and fills the block of the sizes and cut bytes that the body
    // holds, with band 0.
    fn replay(self, samples: &mut [i16], state: &mut [u8], rows: &mut [u32]) -> Filled
        requires { (length samples.old ≡ self.lengths.samples) × (length state.old ≡ self.lengths.state) × (length rows.old ≡ self.lengths.rows) }
        ensures value { result ≡ (replayed self.entry.head.now self.entry.body.now self.entry.lengths).answer }
        ensures state_after { state.new ≡ (replayed self.entry.head.now self.entry.body.now self.entry.lengths).state }
        ensures rows_after { rows.new ≡ (replayed self.entry.head.now self.entry.body.now self.entry.lengths).rows }
    {
        let head = self.head;
        let body = self.body;
        sampled::write_samples(body, self.lengths.samples, samples);
        state.fill(head[28]);
        rows.fill(numbers::four_at(head, 28));
        let first = 3 + 2 * self.lengths.samples;
        let end = first + self.lengths.cuts;
        yakuemi::yakuemi_fill(
            u32::from(body[0]),
            u32::from(body[1]),
            u32::from(body[2]),
            0,
            samples,
            &body[first..end],
            state,
            rows,
        )
    }

    // The tables are those that the record states.
    fn are_stated(self, state: &[u8], rows: &[u32]) -> bool
        requires { self.lengths.ids ≤ length rows.now }
        ensures { result ≡ stated_tables self.entry.head.now self.entry.body.now self.entry.lengths state.now rows.now }
    {
        let first = 3 + 2 * self.lengths.samples + self.lengths.cuts;
        let end = first + self.lengths.state;
        let count = self.lengths.ids;
        let head = self.head;
        let body = self.body;
        if state[..] != body[first..end] {
            return false;
        }
        if !tables::same_ids(&rows[..count], body, end) {
            return false;
        }
        tables::is_untouched(&rows[count..], numbers::four_at(head, 28))
    }

    // The call's answer and tables are those that the record states.
    fn is_agreed(self, samples: &mut [i16], state: &mut [u8], rows: &mut [u32]) -> bool
        requires { (length samples.old ≡ self.lengths.samples) × (length state.old ≡ self.lengths.state) × (length rows.old ≡ self.lengths.rows) }
        ensures { result ≡ agrees_with self.entry.head.now self.entry.body.now self.entry.lengths }
    {
        let filled = self.replay(samples, state, rows);
        if filled != answer_of(self.head) {
            return false;
        }
        self.are_stated(state, rows)
    }
}

// Replays a recorded call in the lent tables: true exactly if filling does what the record states.
pub fn agrees(
    head: &[u8; 48],
    body: &[u8],
    samples: &mut [i16],
    state: &mut [u8],
    rows: &mut [u32],
) -> bool
    ensures { result
        ≡ fill_agrees head.now body.now
        (length samples.old) (length state.old) (length rows.old) }
{
    match fitting(head, body.len(), samples.len(), state.len(), rows.len()) {
        None => false,
        Some(lengths) => {
            let call = Recorded {
                head,
                body,
                lengths,
            };
            let n = lengths.samples;
            let k = lengths.state;
            let m = lengths.rows;
            call.is_agreed(&mut samples[..n], &mut state[..k], &mut rows[..m])
        }
    }
}
