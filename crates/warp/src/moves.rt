// Which points move, and by which code.
ghost use Rattle.std.specs.Prelude.{◌≡◌, ℕ, Bool, ◌+◌, ◌<◌, ◌≤◌, length};
ghost use Rattle.lattice.specs.Axis.{along_x};
ghost use Rattle.lattice.specs.Counts.{grid, points};
ghost use Rattle.lattice.specs.Edge.{neighbour};
ghost use Rattle.lattice.specs.inner.Site.{Sited};
ghost use Rattle.moving.specs.Label.{band_most};
ghost use Rattle.moving.specs.Nearest.{nearest};
ghost use Rattle.moving.specs.Moving.{choice, state_at, state_of};
ghost use Rattle.moving.specs.Block.{reading_of};
ghost use Rattle.filling.specs.Fill.{moved_count};
ghost use Rattle.labelling.specs.inner.Scans.{label_in, block_in};
ghost use Rattle.lines.specs.inner.Lines.{Line};
ghost use Rattle.warp.specs.inner.Quick.{unfaded, open_along, byte_if, outset_of};
ghost use Rattle.warp.specs.inner.Turns.{chosen, Telling, Turn};

use crate::bytes;
use labelling::scan::Scan;
use labelling::{codes, violation};
use lattice::{EdgeCode, Lattice, Site};
use lines::walk;
use lines::walk::Lines;

// A cut between p and q is live: neither label is zero, and the state bytes tell.
fn is_live(state: &[u8], p: usize, q: usize) -> bool
    requires { (p < length state.now) × (q < length state.now) }
    ensures { result ≡ unfaded state.now p q }
{
    !codes::says_zero(state[p]) && !codes::says_zero(state[q])
}

// The edge from a point by a code exists, and its cut is live.
fn is_live_by(lattice: Lattice, state: &[u8], q: Site, code: EdgeCode) -> bool
    requires sited { Sited lattice.sizes q }
    requires state_len { length state.now ≡ points lattice.sizes }
    ensures { result ≡ open_along state.now q.own (neighbour lattice.sizes q.own code.code) }
{
    match lattice.neighbour(q, code) {
        Some(far) => is_live(state, q.own, far),
        None => false,
    }
}

// The nearest code among those that are taken and whose bytes violate the point. No test ends early,
// so that the compiler unrolls the loop. (By the code: it numbers the byte, and it is the answer. Beside
// `best`, and not in it: `is_nearer` compares two distances, for which a pair would be taken apart.)
fn nearest<F: Fn(EdgeCode) -> bool>(cuts: &[u8], at: [usize; 14], is_taken: F) -> Option<EdgeCode>
    requires { F.IsAlwaysCallable is_taken }
    ensures { (taken : ℕ → Bool) → Telling (F.post is_taken) taken
        → chosen result ≡ nearest (byte_if taken cuts.now at) }
{
    let mut found: usize = 0;
    let mut best: Option<usize> = None;
    for code in 1..15 {
        let by = EdgeCode { code };
        let v = violation::violation(by, bytes::cut_at(cuts, at[code - 1]));
        if violation::is_nearer(v, best) && is_taken(by) {
            best = v;
            found = code;
        }
    }
    EdgeCode::new(found)
}

// The move of a point in its turn, if it makes one. Mostly the nearest cut by the bytes is live, or
// there is none. Samples and band are not read here: the contract names them, for whose labels these
// are.
fn turn(scan: Scan<'_>, cuts: &[u8], state: &[u8], q: Site) -> Option<EdgeCode>
    requires { Turn (reading_of scan.band (block_in scan cuts.now)) q state.now }
    ensures { chosen result ≡ choice (reading_of scan.entry.band (block_in scan.entry cuts.now)) state.now q.own }
{
    let at = bytes::offsets(scan.lattice, q);
    let code = nearest(cuts, at, |_| true)?;
    if is_live_by(scan.lattice, state, q, code) {
        return Some(code);
    }
    nearest(cuts, at, |by| is_live_by(scan.lattice, state, q, by))
}

// The points of a line take their turns. The answer counts those that move.
// (By the index in the line, of which `along` makes the site.)
fn warp_line(scan: Scan<'_>, cuts: &[u8], state: &mut [u8], q: Site) -> usize
    requires line { Line scan.lattice.sizes q.own q }
    requires state_value { state.old ≡ state_at (reading_of scan.band (block_in scan cuts.now)) q.own }
    ensures state_after { state.new
        ≡ state_at (reading_of scan.entry.band (block_in scan.entry cuts.now)) (q.own + grid scan.entry.lattice.sizes q.kind along_x) }
    ensures counted { result + moved_count state.old ≡ moved_count state.new }
{
    let mut moved: usize = 0;
    for x in 0..walk::line_length(scan.lattice, q.kind) {
        let here = walk::along(q, x);
        if let Some(code) = turn(scan, cuts, state, here) {
            state[here.own] = code.code as u8;
            moved += 1;
        }
    }
    moved
}

// The table at the outset: the mark where a label is zero from the start. Nothing else is asked, so
// that the compiled loop takes many points in one step. (By an index: of what `iter_mut` gives beside
// another table the check knows nothing.)
fn mark(scan: Scan<'_>, state: &mut [u8])
    requires band_le_band_most { scan.band ≤ band_most }
    requires state_len { length state.old ≡ points scan.lattice.sizes }
    ensures { state.new ≡ outset_of (label_in scan.entry) (length state.old) }
{
    let high = scan.band as i16;
    let low = -high;
    for p in 0..state.len() {
        state[p] = codes::mark_of(low, high, scan.sample(p));
    }
}

// Points are taken once each, in ascending number, a line at a time, and move in place. Where there
// is no cut at all none moves, and most lines are far from any cut. The answer counts the points
// that move.
pub fn warp(scan: Scan<'_>, cuts: &[u8], state: &mut [u8]) -> usize
    requires state_len { length state.old ≡ points scan.lattice.sizes }
    requires band_le_band_most { scan.band ≤ band_most }
    ensures state_after { state.new ≡ state_of (reading_of scan.entry.band (block_in scan.entry cuts.now)) }
    ensures value { result ≡ moved_count (state_of (reading_of scan.entry.band (block_in scan.entry cuts.now))) }
{
    mark(scan, state);
    if ranges::is_blank(cuts, 0, cuts.len()) {
        return 0;
    }
    let mut moved: usize = 0;
    for q in Lines::of(scan.lattice) {
        if !bytes::is_bare_line(scan.lattice, cuts, q) {
            moved += warp_line(scan, cuts, state, q);
        }
    }
    moved
}
