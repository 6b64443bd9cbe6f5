// The node table of a row table.
ghost use Rattle.std.specs.Prelude.{◌≡◌};
ghost use Rattle.numbering.specs.Nodes.{number};
ghost use Rattle.yakuemi.specs.Measures.{sizes};

use crate::sizes;
use numbering::Numbered;

// Writes each id that the rows use once, ascending, with its place, and rewrites the rows as node
// numbers from 0. Any row table is taken.
//
// Theorems (crates/numbering/proofs/Theorems.antt): the nodes' ids ascend strictly (`ascending`) and
// are exactly the ids in use (`in_use`); putting each node's id back yields the old rows (`put_back`);
// each node's place is the place call's (`placed_as_called`); a refusal changes neither table
// (`refusal_leaves`).
pub fn yakuemi_nodes(
    nx: u32,
    ny: u32,
    nz: u32,
    cuts: &[u8],
    state: &[u8],
    rows: &mut [u32],
    nodes: &mut [u32],
) -> Numbered
    ensures answer { result ≡ (number (sizes nx ny nz) cuts.now state.now rows.old nodes.old).answer }
    ensures rows { rows.new
        ≡ (number (sizes nx ny nz) cuts.now state.now rows.old nodes.old).rows }
    ensures nodes { nodes.new
        ≡ (number (sizes nx ny nz) cuts.now state.now rows.old nodes.old).nodes }
{
    nodes::block::number_block(sizes(nx, ny, nz), cuts, state, rows, nodes)
}
