// The place of one id.
ghost use Rattle.std.specs.Prelude.{◌≡◌};
ghost use Rattle.filling.specs.Located.{locate};
ghost use Rattle.yakuemi.specs.Measures.{sizes};

use crate::sizes;
use filling::Placed;

// Where the corner with an id stands, in steps, 512 to a cube's side: answered from the sizes, the cut
// table and the state table that filling left.
pub fn yakuemi_place(nx: u32, ny: u32, nz: u32, cuts: &[u8], state: &[u8], id: u32) -> Placed
    ensures { result ≡ locate (sizes nx ny nz) cuts.now state.now id }
{
    places::locate::locate_id(sizes(nx, ny, nz), cuts, state, id as usize)
}
