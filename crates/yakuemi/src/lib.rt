// The public calls of Yakuemi. None of them has a `requires`: whatever is handed in is answered,
// by a number of documents 01 and 02.
#![tactic(auto)]

ghost use Rattle.std.specs.Prelude.{◌≡◌};
ghost use Rattle.yakuemi.specs.Measures.{sizes};

mod fill;
mod measures;
mod mend;
mod node_table;
mod place;
mod place_mm;
mod read;

pub use fill::yakuemi_fill;
use lattice::Sizes;
pub use measures::{Measures, yakuemi_measures};
pub use mend::yakuemi_mend;
pub use node_table::yakuemi_nodes;
pub use place::yakuemi_place;
pub use place_mm::yakuemi_place_mm;
pub use read::{ReadFile, yakuemi_read};

// The sizes of a block, as the calls take them.
fn sizes(nx: u32, ny: u32, nz: u32) -> Sizes
    ensures { result ≡ sizes nx ny nz }
{
    Sizes {
        nx: nx as usize,
        ny: ny as usize,
        nz: nz as usize,
    }
}
