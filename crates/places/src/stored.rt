// What filling leaves of a block: where its points, cuts and moved points stand.
ghost use Rattle.std.specs.Prelude.{◌≡◌, ◌*◌, length};
ghost use Rattle.lattice.specs.Counts.{points};

use crate::points;
use labelling::{codes, violation};
use lattice::{EdgeCode, Lattice, Sizes, edges};
use refusals::Refusal;
use triple::Place;

// A cut byte for each point and direction, and a state byte for each point.
#[derive(Clone, Copy)]
pub struct Stored<'a> {
    pub lattice: Lattice,
    pub cuts: &'a [u8],
    pub state: &'a [u8],
    ghost cuts_long: { length cuts.now ≡ 7 * points lattice.sizes },
    ghost state_long: { length state.now ≡ points lattice.sizes },
}

impl<'a> Stored<'a> {
    ghost use Rattle.std.specs.Prelude.{◌<◌, get_or, IfOk};
    ghost use Rattle.lattice.specs.Edge.{neighbour};
    ghost use Rattle.filling.specs.Located.{locate};
    ghost use Rattle.places.specs.inner.Answer.{answer_of, moved_answer, point_answer, cut_answer, Answerable};
    ghost use Rattle.places.specs.inner.Tables.{Whole};

    // Sizes, then the lengths of the tables.
    pub fn new(sizes: Sizes, cuts: &'a [u8], state: &'a [u8]) -> Result<Stored<'a>, Refusal>
        ensures { Whole sizes cuts.now state.now result }
    {
        let Some(lattice) = Lattice::new(sizes) else {
            return Err(Refusal::Sizes);
        };
        let n = lattice.point_count();
        if cuts.len() != 7 * n {
            return Err(Refusal::Cuts);
        }
        if state.len() != n {
            return Err(Refusal::State);
        }
        Ok(Stored {
            lattice,
            cuts,
            state,
        })
    }

    // The cut byte at an offset.
    fn byte_at(self, o: usize) -> u8
        requires { o < length self.cuts.now }
        ensures { result ≡ get_or self.entry.cuts.now o 0 }
    {
        self.cuts[o]
    }

    // A point whose state byte is a move: the code must name an edge whose cut violates the point.
    #[inline(always)]
    fn moved(self, p: usize, code: EdgeCode) -> Result<Place, Refusal>
        requires { p < points self.lattice.sizes }
        ensures answer { answer_of result
            ≡ moved_answer self.entry.lattice.sizes self.entry.cuts.now p code.code
            (neighbour self.entry.lattice.sizes p code.code) }
        ensures answerable { IfOk result Answerable }
    {
        let q = self.lattice.locate(p);
        let Some(far) = self.lattice.neighbour(q, code) else {
            return Err(Refusal::Move);
        };
        let t = self.byte_at(edges::edge_byte(p, code, far));
        if violation::violation(code, t).is_none() {
            return Err(Refusal::Move);
        }
        Ok(points::moved_place(points::rest_place(q), code, t))
    }

    // A lattice point: at rest, with or without the mark, or where its state byte says.
    #[inline(always)]
    fn point(self, p: usize) -> Result<Place, Refusal>
        requires { p < points self.lattice.sizes }
        ensures answer { answer_of result
            ≡ point_answer self.entry.lattice.sizes self.entry.cuts.now self.entry.state.now p }
        ensures answerable { IfOk result Answerable }
    {
        let byte = self.state[p] as usize;
        if codes::no_move(byte) {
            return Ok(points::rest_place(self.lattice.locate(p)));
        }
        match codes::move_of(byte) {
            Some(code) => self.moved(p, code),
            None => Err(Refusal::Move),
        }
    }

    // The cut of the byte at offset o: its edge exists, and neither end's byte says that its label is
    // zero.
    #[inline(always)]
    fn cut(self, o: usize) -> Result<Place, Refusal>
        requires { o < 7 * points self.lattice.sizes }
        ensures answer { answer_of result
            ≡ cut_answer self.entry.lattice.sizes self.entry.cuts.now self.entry.state.now o }
        ensures answerable { IfOk result Answerable }
    {
        let t = self.byte_at(o);
        let p = o / 7;
        let d = o % 7;
        if t == 0 || codes::says_zero(self.state[p]) {
            return Err(Refusal::Id);
        }
        let q = self.lattice.locate(p);
        let Some(far) = self.lattice.neighbour(q, EdgeCode::at_start(d)) else {
            return Err(Refusal::Id);
        };
        if codes::says_zero(self.state[far]) {
            return Err(Refusal::Id);
        }
        Ok(points::cut_place(points::rest_place(q), d, t))
    }

    // The place of an id. (Compiled into its caller, with `point`, `moved` and `cut`: a call would hand the
    // tables and the answer over in memory, and asking for all ids of a block took a third longer.)
    #[inline(always)]
    pub fn locate(self, id: usize) -> Result<Place, Refusal>
        ensures answer { answer_of result
            ≡ locate self.entry.lattice.sizes self.entry.cuts.now self.entry.state.now id }
        ensures answerable { IfOk result Answerable }
    {
        let n = self.lattice.point_count();
        if id < n {
            self.point(id)
        } else if id < 8 * n {
            self.cut(id - n)
        } else {
            Err(Refusal::Id)
        }
    }
}
