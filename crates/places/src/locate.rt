// The place call: where the corner of a row with a given id stands.
ghost use Rattle.std.specs.Prelude.{◌≡◌, IfOk};
ghost use Rattle.filling.specs.Located.{locate};
ghost use Rattle.places.specs.inner.Answer.{answer_of, Answerable};

use crate::Stored;
use filling::Placed;
use lattice::Sizes;
use refusals::Refusal;
use triple::Place;

// The answer for what was found: a place, or a refusal's number with zeros.
fn answer(found: Result<Place, Refusal>) -> Placed
    requires { IfOk found Answerable }
    ensures { result ≡ answer_of found }
{
    match found {
        Ok(p) => Placed {
            number: 0,
            x: p.x as u32,
            y: p.y as u32,
            z: p.z as u32,
        },
        Err(refusal) => Placed {
            number: refusal.number(),
            x: 0,
            y: 0,
            z: 0,
        },
    }
}

fn find(s: Sizes, cuts: &[u8], state: &[u8], id: usize) -> Result<Place, Refusal>
    ensures answer { answer_of result ≡ locate s cuts.now state.now id }
    ensures answerable { IfOk result Answerable }
{
    Stored::new(s, cuts, state)?.locate(id)
}

// The place of an id, for every input.
pub fn locate_id(s: Sizes, cuts: &[u8], state: &[u8], id: usize) -> Placed
    ensures { result ≡ locate s cuts.now state.now id }
{
    answer(find(s, cuts, state, id))
}
