// The second round, from the first window up, where the first round ended: nodes are written, and the
// rows rewritten in place. A number is never above its id, so what has been rewritten is in no window
// that is still to come.
ghost use Rattle.std.specs.Prelude.{◌≡◌, map, ◌+◌, ◌*◌, ◌≤◌, ◌<◌, ◌^◌, length};
ghost use Rattle.filling.specs.Fill.{overwritten};
ghost use Rattle.windows.specs.inner.Windows.{window, Known, Windowed, put_in, Rewrites};
ghost use Rattle.numbering.specs.Nodes.{node_number, node_table};
ghost use Rattle.nodes.specs.inner.Rounds.{all_ids, AllIn};

use bitmap::{Bits, Ranking};
use coordinates::write;
use places::Stored;
use windows::hits::Hits;
use windows::numbers;
use windows::window::{WINDOWS, WORDS, Window};

// Rewrites the entries of a window. Where the numbers of its ids have room in what is spare, they stand there for
// the while: an entry is then looked up, not counted.
fn rewrite_window(
    hits: &Hits,
    w: Window,
    ranking: Ranking<WORDS>,
    rows: &mut [u32],
    spare: &mut [u32],
)
    requires { Known hits.now.bits.words rows.old w.index }
    ensures { Rewrites (put_in ranking.entry.bits.now.words ranking.entry.first (window * w.index)) (length rows.old)
        rows.old rows.new }
{
    match spare.first_chunk_mut() {
        Some(table) => {
            numbers::unroll(ranking.bits, ranking.first, table);
            hits.rewrite_window(rows, w, &*table);
        }
        None => hits.rewrite_window(rows, w, ranking),
    }
}

// Writes the nodes and rewrites the rows. The node table has four numbers for each node, and no more.
// (The first window is written whether it is hit or not, so the loop asks for the next one at its end.)
fn assign_all(
    stored: Stored,
    rows: &mut [u32],
    nodes: &mut [u32],
    hits: &Hits,
    bits: &mut Bits<WORDS>,
    ranks: &mut [u32; WORDS],
)
    requires all_in { AllIn stored rows.old hits.now.bits.words }
    requires windowed { Windowed 0 rows.old bits.old.words }
    requires nodes_len { length nodes.old ≡ 4 * node_number rows.old all_ids }
    ensures rows { rows.new ≡ map (node_number rows.old) rows.old }
    ensures nodes { nodes.new
        ≡ node_table stored.entry.lattice.sizes stored.entry.cuts.now stored.entry.state.now rows.old }
{
    let sizes = stored.lattice.sizes;
    let cuts = stored.cuts;
    let state = stored.state;
    let mut first: u32 = 0;
    let mut at: usize = 0;
    let mut w = Window { index: 0 };
    loop {
        let next = bits.rank(ranks, first);
        rewrite_window(
            hits,
            w,
            Ranking { bits, ranks, first },
            rows,
            &mut nodes[at..],
        );
        at = write::write_bits(sizes, cuts, state, &bits.words, w.first_id(), nodes, at);
        first = next;
        let Some(hit) = hits.next_hit(rows.len(), w.index + 1) else {
            return;
        };
        w = hit;
        hits.mark_window(bits, rows, w);
    }
}

// The same for a node table of any length. The end is that of the nodes, four numbers each: from there on the node
// table stays.
pub fn assign(
    stored: Stored,
    rows: &mut [u32],
    nodes: &mut [u32],
    hits: &Hits,
    bits: &mut Bits<WORDS>,
    ranks: &mut [u32; WORDS],
    end: usize,
)
    requires all_in { AllIn stored rows.old hits.now.bits.words }
    requires windowed { Windowed 0 rows.old bits.old.words }
    requires end_value { end ≡ 4 * node_number rows.old all_ids }
    requires end_in_bounds { end ≤ length nodes.old }
    ensures rows { rows.new ≡ map (node_number rows.old) rows.old }
    ensures nodes { nodes.new
        ≡ overwritten (node_table stored.entry.lattice.sizes stored.entry.cuts.now stored.entry.state.now rows.old)
        nodes.old }
{
    assign_all(stored, rows, &mut nodes[..end], hits, bits, ranks);
}
