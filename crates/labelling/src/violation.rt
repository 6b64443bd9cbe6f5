// When a cut violates an end of its edge, and how far from that end it is.
ghost use Rattle.std.specs.Prelude.{◌≡◌, ◌≤◌};
ghost use Rattle.moving.specs.Violation.{rule1, limit, measured, squared, violation};
ghost use Rattle.moving.specs.Nearest.{nearer};

use lattice::EdgeCode;

// "at most 63 on a long edge or 105 on a short one"
const LONG_LIMIT: usize = 63;

const SHORT_LIMIT: usize = 105;

// The most that a cut may be from an end that it violates, on an edge in direction d.
#[tactic(auto, unfolding(moving::specs::Violation::limit, lattice::specs::Direction::long))]
fn limit(d: usize) -> usize
    ensures { result ≡ limit rule1 d }
{
    if d < 3 { LONG_LIMIT } else { SHORT_LIMIT }
}

// How far a cut is from the end at which a point with this code is, or 256 where there is no cut: so
// the compiler needs no branch for the bytes that are 0.
fn distance(code: EdgeCode, t: u8) -> usize
    ensures none { t ≡ 0 → result ≡ 256 }
    ensures some { (t ≡ 0 → ⊥) → result ≡ measured code.code t }
{
    if code.is_start() {
        (t as usize + 255) % 256 + 1
    } else {
        256 - (t as usize)
    }
}

// "4 times t squared on long edges and 3 times t squared on short ones"
#[tactic(auto, using(crate::proofs::Labels::square_small), unfolding(moving::specs::Violation::squared, lattice::specs::Direction::long))]
fn squared(d: usize, t: usize) -> usize
    requires { t ≤ 256 }
    ensures { result ≡ squared d t }
{
    if d < 3 { 4 * (t * t) } else { 3 * (t * t) }
}

// The one test for violation: a cut against the end at which a point with this code is. The square of
// its distance from that end, if it violates it.
pub fn violation(code: EdgeCode, t: u8) -> Option<usize>
    ensures { result ≡ violation rule1 code.code t }
{
    let far = distance(code, t);
    let d = code.direction();
    if far <= limit(d) {
        Some(squared(d, far))
    } else {
        None
    }
}

// The one violation is nearer than the other; anything is nearer than none.
#[tactic(auto, unfolding(moving::specs::Nearest::nearer))]
pub fn is_nearer(v: Option<usize>, w: Option<usize>) -> bool
    ensures { result ≡ nearer v w }
{
    match (v, w) {
        (None, _) => false,
        (Some(_), None) => true,
        (Some(d), Some(e)) => d < e,
    }
}
