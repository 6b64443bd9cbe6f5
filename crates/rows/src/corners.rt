// What a row has: the corners of a tetrahedron, and the cuts between two of them; and their ids.
ghost use Rattle.std.specs.Prelude.{◌≡◌, ◌<◌, ◌≤◌};
ghost use Rattle.rows.specs.inner.Corners.{most, KnownTetra, KnownCorner, point_at, cut_at, corner_id};

use crate::{Corner, Tetra};

// For each kind of tetrahedron, four times its axis and the edge of the turn: 8 times the start and the
// direction of the cut between two corners, four times four of them.
static CUTS: [[u8; 16]; 12] = [
    [0, 1, 4, 3, 1, 8, 14, 13, 4, 14, 16, 16, 3, 13, 16, 24],
    [0, 2, 6, 5, 2, 8, 19, 28, 6, 19, 16, 16, 5, 28, 16, 24],
    [0, 1, 21, 30, 1, 8, 19, 28, 21, 19, 16, 16, 30, 28, 16, 24],
    [0, 2, 4, 3, 2, 8, 21, 30, 4, 21, 16, 16, 3, 30, 16, 24],
    [0, 2, 5, 3, 2, 8, 20, 30, 5, 20, 16, 17, 3, 30, 17, 24],
    [0, 0, 20, 30, 0, 8, 19, 29, 20, 19, 16, 17, 30, 29, 17, 24],
    [0, 2, 6, 4, 2, 8, 19, 29, 6, 19, 16, 17, 4, 29, 17, 24],
    [0, 0, 5, 3, 0, 8, 14, 12, 5, 14, 16, 17, 3, 12, 17, 24],
    [0, 0, 22, 3, 0, 8, 21, 12, 22, 21, 16, 18, 3, 12, 18, 24],
    [0, 1, 21, 4, 1, 8, 19, 14, 21, 19, 16, 18, 4, 14, 18, 24],
    [0, 0, 20, 5, 0, 8, 19, 14, 20, 19, 16, 18, 5, 14, 18, 24],
    [0, 1, 22, 3, 1, 8, 20, 13, 22, 20, 16, 18, 3, 13, 18, 24],
];

impl Tetra {
    // One of its corners, of those from the fourth on the fourth.
    pub fn point(self, v: usize) -> Corner
        ensures corner { result ≡ point_at self v }
        ensures known { KnownTetra self → KnownCorner self.n result }
    {
        Corner::Point(self.corners[v.min(3)])
    }

    // The cut between two of them, whichever is lower.
    pub fn cut(self, u: usize, v: usize) -> Corner
        requires tetrahedral { (self.axis < 3) × (self.edge < 4) }
        requires u_bound { (u < 4) × (v < 4) }
        ensures corner { result ≡ cut_at self u v }
        ensures known { KnownTetra self → KnownCorner self.n result }
    {
        let packed = CUTS[4 * self.axis + self.edge][4 * u + v] as usize;
        Corner::Edge(self.corners[packed / 8], packed % 8)
    }
}

impl Corner {
    // The id, in a block of n points.
    #[tactic(auto, unfolding(crate::specs::inner::Corners::corner_id))]
    pub(crate) fn id(self, n: usize) -> u32
        requires few { n ≤ most }
        requires known { KnownCorner n self }
        ensures { result ≡ corner_id n self }
    {
        match self {
            Corner::Point(p) => p as u32,
            Corner::Edge(p, d) => (n + (7 * p + d)) as u32,
        }
    }
}
