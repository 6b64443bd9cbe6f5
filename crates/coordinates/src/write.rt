// The nodes of a window's ids, one after the other.
ghost use Rattle.std.specs.Prelude.{◌+◌, ◌*◌, ◌≤◌, ◌<◌, ◌^◌, length};
ghost use Rattle.basics.specs.Lists.{gather, below, count};
ghost use Rattle.basics.specs.inner.Writing.{Wrote};
ghost use Rattle.filling.specs.Located.{locate};
ghost use Rattle.bitmap.specs.inner.Bits.{bit, marked};
ghost use Rattle.numbering.specs.Nodes.{node_of};
ghost use Rattle.coordinates.specs.inner.Marked.{node_if};

use lattice::Sizes;
use places::locate;

// An id and its three coordinates, 0 where it has no place.
fn write_node(s: Sizes, cuts: &[u8], state: &[u8], nodes: &mut [u32], at: usize, id: usize) -> usize
    requires at_in_bounds { at + 4 ≤ length nodes.old }
    requires id_bound { id < 2 ^ 32 }
    ensures { Wrote (node_of id (locate s cuts.now state.now id)) nodes.old at nodes.new result }
{
    let p = locate::locate_id(s, cuts, state, id);
    nodes[at..at + 4].copy_from_slice(&[id as u32, p.x, p.y, p.z]);
    at + 4
}

// The ids of a word's bits that are set.
fn write_word(
    s: Sizes,
    cuts: &[u8],
    state: &[u8],
    word: u64,
    lo: usize,
    nodes: &mut [u32],
    at: usize,
) -> usize
    requires lo_bound { lo + 64 < 2 ^ 32 }
    requires word_in_bounds { at + 4 * count (bit word) 64 ≤ length nodes.old }
    ensures { Wrote (gather (node_if s cuts.now state.now (bit word) lo) (below 64)) nodes.old at
        nodes.new result }
{
    let mut to = at;
    for j in 0..64 {
        if bitmap::is_set(word, j) {
            to = write_node(s, cuts, state, nodes, to, lo + j);
        }
    }
    to
}

// The ids that are marked in a window. The tables are no `Stored`: nodes are written for tables of any lengths.
pub fn write_bits(
    s: Sizes,
    cuts: &[u8],
    state: &[u8],
    bits: &[u64],
    lo: usize,
    nodes: &mut [u32],
    at: usize,
) -> usize
    requires bits_bound { lo + 64 * length bits.now < 2 ^ 31 }
    requires bits_in_bounds { at + 4 * count (marked bits.now) (64 * length bits.now) ≤ length nodes.old }
    ensures { Wrote (gather (node_if s cuts.now state.now (marked bits.now) lo)
        (below (64 * length bits.now))) nodes.old at nodes.new result }
{
    let mut to = at;
    for (w, word) in bits.iter().enumerate() {
        if *word != 0 {
            to = write_word(s, cuts, state, *word, lo + 64 * w, nodes, to);
        }
    }
    to
}
