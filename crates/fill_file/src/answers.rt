// What the bench program answers for a file: the counts of its block, or why it is refused.
ghost use Rattle.std.specs.Prelude.{◌≡◌, ◌<◌};
ghost use Rattle.refusals.specs.inner.Numbers.{refusal_number};

use refusals::Refusal;

// How many points and lattice tetrahedra a block has, how many points moved, and how many rows were
// written.
#[derive(Clone, Copy)]
pub struct Counts {
    pub points: u64,
    pub lattice: u64,
    pub moved: u64,
    pub emitted: u64,
}

// The number of document 01 with which a file or its block is refused, and the place. (A number, since
// the call of filling answers one to C.)
#[derive(Clone, Copy)]
pub struct Refused {
    pub number: u32,
    pub place: u64,
    ghost refuses: { 0 < number },
}

// A file that is not read is refused at no place.
impl From<Refusal> for Refused {
    ghost from_gives = { λ refusal r. (r.number ≡ refusal_number refusal) × (r.place ≡ 0) };

    #[tactic(auto, using(crate::proofs::Outcome::refuses))]
    fn from(refusal: Refusal) -> Refused {
        Refused {
            number: refusal.number(),
            place: 0,
        }
    }
}
