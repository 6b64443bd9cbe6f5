// The fourteen codes of the edges at a point: seven directions in which it is the start, and the same seven
// in which it is the end.
ghost use Rattle.std.specs.Prelude.{◌≡◌, ◌<◌, ◌&&◌, leb, is_some, IfSome};
ghost use Rattle.lattice.specs.Direction.{Code, as_start, is_start, direction_of};

// How many directions there are.
pub const DIRECTIONS: usize = 7;

// A code that names an edge: 1 to 7 of a start, 8 to 14 of an end.
#[derive(Clone, Copy)]
pub struct EdgeCode {
    pub code: usize,
    ghost names_edge: { Code code },
}

impl EdgeCode {
    // The code, if it names an edge.
    pub fn new(code: usize) -> Option<EdgeCode>
        ensures named { is_some result ≡ (leb 1 code && leb code 14) }
        ensures same { IfSome result (λ c. c.code ≡ code) }
    {
        if 1 <= code && code <= 2 * DIRECTIONS {
            Some(EdgeCode { code })
        } else {
            None
        }
    }

    // The code at the start of an edge in a direction.
    pub fn at_start(d: usize) -> EdgeCode
        requires { d < 7 }
        ensures { result.code ≡ as_start d }
    {
        EdgeCode { code: d + 1 }
    }

    // The point is the start of the edge.
    #[tactic(auto, unfolding(crate::specs::Direction::is_start))]
    pub fn is_start(self) -> bool
        ensures { result ≡ is_start self.code }
    {
        self.code <= DIRECTIONS
    }

    // The edge's direction.
    #[tactic(auto, unfolding(crate::specs::Direction::direction_of))]
    pub fn direction(self) -> usize
        ensures value { result ≡ direction_of self.code }
        ensures below { result < 7 }
    {
        (self.code - 1) % DIRECTIONS
    }
}
