// What a state byte says of its point. Only `is_unmoved` (emit) looks at bytes without asking here: it
// adds up six.
ghost use Rattle.std.specs.Prelude.{◌≡◌, ℕ, pos, ◌-ℤ◌, is_some, IfSome};
ghost use Rattle.moving.specs.Label.{label_of};
ghost use Rattle.moving.specs.State.{is_move, no_move, says_zero};
ghost use Rattle.moving.specs.Moving.{mark_of};

use lattice::EdgeCode;

// F-8: the mark of a point that lies on the skin unmoved.
const SKIN_MARK: usize = 15;

// The move by which a point moved, if its byte says one.
#[tactic(auto, unfolding(moving::specs::State::is_move))]
pub fn move_of(code: usize) -> Option<EdgeCode>
    ensures moved { is_some result ≡ is_move code }
    ensures same { IfSome result (λ c. c.code ≡ code) }
{
    EdgeCode::new(code)
}

// It is no move: 0, or the mark.
#[tactic(auto, unfolding(moving::specs::State::no_move))]
pub fn no_move(code: usize) -> bool
    ensures { result ≡ no_move code }
{
    code == 0 || code == SKIN_MARK
}

// The point's label is zero.
pub fn says_zero(byte: u8) -> bool
    ensures { result ≡ says_zero byte }
{
    byte != 0
}

// The byte at the outset of a point with the sample x, by the band from low to high. Samples are
// compared as they are, so that the compiler takes many in one step.
pub fn mark_of(low: i16, high: i16, x: i16) -> u8
    ensures { (band : ℕ) → low ≡ pos 0 -ℤ pos band → high ≡ pos band → result ≡ mark_of (label_of band x) }
{
    if x < low {
        return 0;
    }
    if high < x {
        return 0;
    }
    SKIN_MARK as u8
}
