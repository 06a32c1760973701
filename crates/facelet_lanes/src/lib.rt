// Rings of lanes: how the stickers that a move takes lie, so that it can turn them in place. facelet_moves turns them.
#![tactic(auto)]

ghost use Rattle.std.specs.Prelude.{◌≡◌, ◌+◌, ◌*◌, ◌<◌, get_or};
ghost use Rattle.generic_cube.specs.Inner.{Sized};
ghost use Rattle.sticker.specs.Place.{num_of};
ghost use Rattle.geometric_moves.specs.Turn.{kind_face};
ghost use Rattle.facelet_lanes.specs.InnerLanes.{ring_faces, ring_edges, frame_of, lane_of, ring_lane, ring_of, place_on, Spot};

// Three rings for each face, four lanes to a ring: the sides, the face, the face opposite. A lane starts at an edge of a face: here are the
// number of the face, and 0 for its first row, 1 for the last column, 2 for the last row, 3 for the first column. They are numbers, as the
// definitions `ring_faces` and `ring_edges` have them: an enum of edges would have to be numbered again in each clause.
static RINGS: [[(usize, usize); 4]; 18] = [
    [(1, 0), (2, 0), (4, 0), (5, 0)],
    [(0, 0), (0, 1), (0, 2), (0, 3)],
    [(3, 0), (3, 3), (3, 2), (3, 1)],
    [(0, 1), (5, 3), (3, 1), (2, 1)],
    [(1, 0), (1, 1), (1, 2), (1, 3)],
    [(4, 0), (4, 3), (4, 2), (4, 1)],
    [(0, 2), (1, 3), (3, 0), (4, 1)],
    [(2, 0), (2, 1), (2, 2), (2, 3)],
    [(5, 0), (5, 3), (5, 2), (5, 1)],
    [(1, 2), (5, 2), (4, 2), (2, 2)],
    [(3, 0), (3, 1), (3, 2), (3, 3)],
    [(0, 0), (0, 3), (0, 2), (0, 1)],
    [(0, 3), (2, 3), (3, 3), (5, 1)],
    [(4, 0), (4, 1), (4, 2), (4, 3)],
    [(1, 0), (1, 3), (1, 2), (1, 1)],
    [(0, 0), (4, 3), (3, 2), (1, 1)],
    [(5, 0), (5, 1), (5, 2), (5, 3)],
    [(2, 0), (2, 3), (2, 2), (2, 1)],
];

// Places in lines. From a line to the next the place goes up by `over` and down by `under`, along a line up by `along` and down by `behind`.
#[derive(Clone, Copy, Debug, PartialEq, Eq)]
pub struct Lane {
    pub start: usize,
    pub over: usize,
    pub along: usize,
    pub under: usize,
    pub behind: usize,
}

// The four lanes of a ring, each a quarter turn from the one before.
#[derive(Clone, Copy, Debug, PartialEq, Eq)]
pub struct Ring {
    pub a: Lane,
    pub b: Lane,
    pub c: Lane,
    pub d: Lane,
}

impl Lane {
    // The place of column q of line p.
    pub fn place(self, p: usize, q: usize) -> usize
        requires { Spot self p q }
        ensures { result ≡ place_on self p q }
    {
        self.start + p * self.over + q * self.along - (p * self.under + q * self.behind)
    }
}

// The face and the edge at which lane k of a ring starts.
fn edge_at(ring: usize, k: usize) -> (usize, usize)
    requires { (ring < 18) × (k < 4) }
    ensures face { (result.0 ≡ get_or ring_faces (4 * ring + k) 0) × (result.0 < 6) }
    ensures edge { (result.1 ≡ get_or ring_edges (4 * ring + k) 0) × (result.1 < 4) }
{
    RINGS[ring][k]
}

// The corners of a face and the steps along its edges, written down once for the four lanes of a ring.
#[derive(Clone, Copy, Debug, PartialEq, Eq)]
struct Frame {
    n: usize,
    corner: [usize; 4],
    step: [usize; 7],
}

impl Frame {
    fn new(n: usize) -> Frame
        requires { Sized n }
        ensures { result ≡ frame_of n }
    {
        Frame {
            n,
            corner: [0, n - 1, n * n - 1, n * n - n],
            step: [1, n, 0, 0, 1, n, 0],
        }
    }

    // The lane that starts at an edge of a face.
    fn lane(&self, face: usize, edge: usize) -> Lane
        requires { Sized self.now.n × (face < 6) × (edge < 4) × (self.now ≡ frame_of self.now.n) }
        ensures { result ≡ lane_of self.now.n face edge }
    {
        Lane {
            start: face * self.n * self.n + self.corner[edge],
            along: self.step[edge],
            over: self.step[edge + 1],
            behind: self.step[edge + 2],
            under: self.step[edge + 3],
        }
    }

    // Lane k of a ring.
    fn ring_lane(&self, ring: usize, k: usize) -> Lane
        requires { Sized self.now.n × (ring < 18) × (k < 4) × (self.now ≡ frame_of self.now.n) }
        ensures { result ≡ ring_lane self.now.n ring k }
    {
        let (face, edge) = edge_at(ring, k);
        self.lane(face, edge)
    }
}

// The number of the face as which a kind turns.
pub fn face_number(kind: usize) -> usize
    requires { kind < 15 }
    ensures { result ≡ num_of (kind_face kind) }
{
    usize::from(geometric_moves::kind_face(kind))
}

// The lanes of a ring.
pub fn ring_of(n: usize, ring: usize) -> Ring
    requires { Sized n × (ring < 18) }
    ensures { result ≡ ring_of n ring }
{
    let frame = Frame::new(n);
    Ring {
        a: frame.ring_lane(ring, 0),
        b: frame.ring_lane(ring, 1),
        c: frame.ring_lane(ring, 2),
        d: frame.ring_lane(ring, 3),
    }
}
