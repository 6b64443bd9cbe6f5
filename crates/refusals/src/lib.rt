// Why a call refuses, by name. A number is given only where a call answers.
#![tactic(auto)]

ghost use Rattle.std.specs.Prelude.{◌≡◌};
ghost use Rattle.refusals.specs.inner.Numbers.{refusal_number, refusal_place};

// A refusal that is found at a place holds it: a point, the offset of a byte.
#[derive(Clone, Copy)]
pub enum Refusal {
    // a size that is not taken
    Sizes,
    // a table whose length is not that of the block
    Samples,
    Cuts,
    State,
    // a rim point that is plus
    Rim(usize),
    // a cut byte that is missing, or too many
    Gap(usize),
    Stray(usize),
    // an id that no corner of a row has
    Id,
    // a state byte that names no cut which violates its point
    Move,
    // bytes that no block file starts with
    File,
    // a block beyond the limit or the lent tables
    Room,
    // a unit that is not taken
    Unit,
    // a band that is not taken
    Band,
    // a row table of no whole rows
    Quads,
}

impl Refusal {
    // The papers' number.
    #[tactic(auto, unfolding(crate::specs::inner::Numbers::refusal_number))]
    pub fn number(self) -> u32
        ensures { result ≡ refusal_number self }
    {
        match self {
            Refusal::Sizes => 1,
            Refusal::Samples => 2,
            Refusal::Cuts => 3,
            Refusal::State => 4,
            Refusal::Rim(_) => 5,
            Refusal::Gap(_) => 6,
            Refusal::Stray(_) => 7,
            Refusal::Id => 8,
            Refusal::Move => 9,
            Refusal::File => 11,
            Refusal::Room => 12,
            Refusal::Unit => 13,
            Refusal::Band => 14,
            Refusal::Quads => 15,
        }
    }

    // The place, 0 where there is none.
    #[tactic(auto, unfolding(crate::specs::inner::Numbers::refusal_place))]
    pub fn place(self) -> usize
        ensures { result ≡ refusal_place self }
    {
        match self {
            Refusal::Rim(p) => p,
            Refusal::Gap(o) => o,
            Refusal::Stray(o) => o,
            _ => 0,
        }
    }
}
