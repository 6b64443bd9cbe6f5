// Sizes that are taken, and how many points and lattice tetrahedra a block of them has.
ghost use Rattle.std.specs.Prelude.{◌≡◌, ◌&&◌, leb, is_some, IfSome};
ghost use Rattle.lattice.specs.Counts.{sizes_fit, largest, corners, points, tetrahedra};

use crate::{Lattice, Sizes};

// The largest size.
const LARGEST: usize = 64;

fn size_fits(n: usize) -> bool
    ensures { result ≡ (leb 1 n && leb n largest) }
{
    1 <= n && n <= LARGEST
}

impl Lattice {
    // The lattice of sizes, if they are taken.
    #[tactic(auto, unfolding(crate::specs::Counts::sizes_fit))]
    pub fn new(sizes: Sizes) -> Option<Lattice>
        ensures taken { is_some result ≡ sizes_fit sizes }
        ensures same { IfSome result (λ l. l.sizes ≡ sizes) }
    {
        if size_fits(sizes.nx) && size_fits(sizes.ny) && size_fits(sizes.nz) {
            Some(Lattice { sizes })
        } else {
            None
        }
    }

    // How many cube corners there are.
    #[tactic(auto, unfolding(crate::specs::Counts::cells))]
    pub fn corner_count(self) -> usize
        ensures { result ≡ corners self.sizes }
    {
        let Sizes { nx, ny, nz } = self.sizes;
        (nx + 1) * ((ny + 1) * (nz + 1))
    }

    // How many lattice points: the corners and a centre for each cube.
    #[tactic(auto, unfolding(crate::specs::Counts::points, crate::specs::Counts::cells))]
    pub fn point_count(self) -> usize
        ensures { result ≡ points self.sizes }
    {
        let Sizes { nx, ny, nz } = self.sizes;
        self.corner_count() + nx * (ny * nz)
    }

    // How many lattice tetrahedra: four between each cube and the next one along each axis.
    #[tactic(auto, unfolding(crate::specs::Counts::tetrahedra))]
    pub fn tetrahedron_count(self) -> usize
        ensures { result ≡ tetrahedra self.sizes }
    {
        let Sizes { nx, ny, nz } = self.sizes;
        let along_x = (nx - 1) * (ny * nz);
        let along_y = nx * ((ny - 1) * nz);
        let along_z = nx * (ny * (nz - 1));
        4 * (along_x + along_y + along_z)
    }
}
