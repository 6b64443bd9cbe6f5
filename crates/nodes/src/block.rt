// The node call, after the papers' checks.
ghost use Rattle.std.specs.Prelude.{ℕ, ◌≡◌, ◌<◌, ◌%◌, List, length, Err};
ghost use Rattle.numbering.specs.Nodes.{number};
ghost use Rattle.coordinates.specs.inner.Marked.{first};
ghost use Rattle.nodes.specs.inner.Answer.{answer_of, Says};

use crate::refused::Refused;
use crate::{assign, survey};
use bitmap::Bits;
use coordinates::check;
use lattice::Sizes;
use numbering::Numbered;
use places::Stored;
use refusals::Refusal;
use windows::hits::{HIT_WORDS, Hits};
use windows::window::WORDS;

fn said(number: u32, nodes: usize, place: usize) -> Numbered
    ensures { result ≡ record { number = number; nodes = nodes; place = place } }
{
    Numbered {
        number,
        nodes: nodes as u64,
        place: place as u64,
    }
}

// The nodes written, or why there are none.
#[tactic(auto, unfolding(crate::specs::inner::Answer::answer_of))]
fn answer(outcome: Result<usize, Refused>) -> Numbered
    ensures { result ≡ answer_of outcome }
{
    match outcome {
        Ok(count) => said(0, count, 0),
        Err(Refused::Call(refusal)) => said(refusal.number(), 0, 0),
        Err(Refused::Entry(at)) => said(at.refusal.number(), 0, at.entry),
        Err(Refused::Short(count)) => said(10, count, 0),
    }
}

// Some id has no place: the first entry of which that is so.
fn unplaced(stored: Stored, rows: &[u32]) -> Refused
    requires { first stored rows.now < length rows.now }
    ensures { (nodes : List ℕ) → length rows.now % 4 ≡ 0
        → Says stored.entry.lattice.sizes stored.entry.cuts.now stored.entry.state.now rows.now nodes
        (answer_of (Err result)) rows.now nodes }
{
    Refused::Entry(check::first_unplaced(stored, rows).unwrap())
}

// Tables of the right lengths. Nothing is written before all checks have passed.
fn number_rows(stored: Stored, rows: &mut [u32], nodes: &mut [u32]) -> Result<usize, Refused>
    requires { length rows.old % 4 ≡ 0 }
    ensures { Says stored.entry.lattice.sizes stored.entry.cuts.now stored.entry.state.now rows.old nodes.old
        (answer_of result) rows.new nodes.new }
{
    let mut hits = Hits {
        bits: Bits {
            words: [0; HIT_WORDS],
        },
    };
    if !hits.spread(rows) {
        return Err(unplaced(stored, rows));
    }
    let mut bits = Bits { words: [0; WORDS] };
    let Some(count) = survey::survey(stored, rows, &hits, &mut bits) else {
        return Err(unplaced(stored, rows));
    };
    let count = count as usize;
    if nodes.len() < 4 * count {
        return Err(Refused::Short(count));
    }
    let mut ranks = [0; WORDS];
    assign::assign(stored, rows, nodes, &hits, &mut bits, &mut ranks, 4 * count);
    Ok(count)
}

// Sizes, then the lengths of the tables.
fn number_tables(
    s: Sizes,
    cuts: &[u8],
    state: &[u8],
    rows: &mut [u32],
    nodes: &mut [u32],
) -> Result<usize, Refused>
    ensures { Says s cuts.now state.now rows.old nodes.old (answer_of result) rows.new nodes.new }
{
    let stored = Stored::new(s, cuts, state)?;
    if rows.len() % 4 != 0 {
        return Err(Refused::Call(Refusal::Quads));
    }
    number_rows(stored, rows, nodes)
}

pub fn number_block(
    s: Sizes,
    cuts: &[u8],
    state: &[u8],
    rows: &mut [u32],
    nodes: &mut [u32],
) -> Numbered
    ensures answer { result ≡ (number s cuts.now state.now rows.old nodes.old).answer }
    ensures rows { rows.new ≡ (number s cuts.now state.now rows.old nodes.old).rows }
    ensures nodes { nodes.new ≡ (number s cuts.now state.now rows.old nodes.old).nodes }
{
    answer(number_tables(s, cuts, state, rows, nodes))
}
