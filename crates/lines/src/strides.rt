// The far ends of a point's edges, by strides from its own number and from the number of its
// indices in the other kind: no neighbour is built, and nobody asks which of the edges exist.
ghost use Rattle.std.specs.Prelude.{◌≡◌, ◌-◌, ◌≤◌};
ghost use Rattle.lattice.specs.inner.Site.{Sited, most};
ghost use Rattle.lines.specs.inner.Strides.{ends_at, starts_back, starts_at};

use lattice::{Kind, Lattice, Site, Sizes};

// The ends of the seven edges that start at a point, by direction: strides from the point's own number, and from
// the number of its indices in the other kind.
#[tactic(auto, using(crate::proofs::FarEnds::site_numbers, crate::proofs::FarEnds::line_fits_across), unfolding(crate::specs::inner::Strides::ends_at))]
pub fn ahead(lattice: Lattice, q: Site) -> [usize; 7]
    requires { Sited lattice.sizes q }
    ensures { result ≡ ends_at lattice.sizes q }
{
    let Sizes { nx, ny, nz: _ } = lattice.sizes;
    let own = q.own;
    let across = q.across;
    let line = nx + 1;
    let layer = line * (ny + 1);
    match q.kind {
        Kind::Corner => [
            own + 1,
            own + line,
            own + layer,
            across,
            across - 1,
            across - nx,
            across - line,
        ],
        Kind::Centre => [
            own + 1,
            own + nx,
            own + nx * ny,
            across + layer + line + 1,
            across + layer + line,
            across + layer + 1,
            across + layer,
        ],
    }
}

// The same from the strides of a line, of a layer and of a line of the other kind.
#[tactic(auto, unfolding(crate::specs::inner::Strides::starts_back))]
fn starts_back(line: usize, layer: usize, wide: usize, own: usize, low: usize) -> [usize; 7]
    requires { (own ≤ most) × (low ≤ most) × (wide ≤ 65) }
    ensures { result ≡ starts_back line layer wide own low }
{
    let high = low + wide;
    [
        own.saturating_sub(1),
        own.saturating_sub(line),
        own.saturating_sub(layer),
        low,
        low + 1,
        high,
        high + 1,
    ]
}

// The starts of the seven edges that end at a point, by direction: a corner is the end of edges from the eight centres about it, a centre
// from the corners of its cube.
#[tactic(auto, using(lattice::proofs::Sites::numbers_small, crate::proofs::FarEnds::low_fits), unfolding(crate::specs::inner::Strides::starts_at))]
pub fn behind(lattice: Lattice, q: Site) -> [usize; 7]
    requires { Sited lattice.sizes q }
    ensures { result ≡ starts_at lattice.sizes q }
{
    let Sizes { nx, ny, nz: _ } = lattice.sizes;
    match q.kind {
        Kind::Corner => {
            let wide = nx;
            let line = wide + 1;
            let layer = line * (ny + 1);
            let low = q.across - (wide * ny + line);
            starts_back(line, layer, wide, q.own, low)
        }
        Kind::Centre => {
            let line = nx;
            let layer = line * ny;
            starts_back(line, layer, line + 1, q.own, q.across)
        }
    }
}
