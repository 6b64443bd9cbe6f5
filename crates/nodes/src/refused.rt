// Why the node call refuses, and what it answers.
ghost use Rattle.std.specs.Prelude.{◌≡◌};
ghost use Rattle.nodes.specs.declared.refused.Refused.TheVariants.{Call};

use coordinates::RefusedEntry;
use refusals::Refusal;

#[derive(Clone, Copy)]
pub enum Refused {
    // what was handed in is refused as a whole
    Call(Refusal),
    // an entry's id has no place
    Entry(RefusedEntry),
    // the node table is too short for so many nodes
    Short(usize),
}

impl From<Refusal> for Refused {
    ghost from_gives = { λ refusal r. r ≡ Call refusal };

    fn from(refusal: Refusal) -> Refused {
        Refused::Call(refusal)
    }
}
