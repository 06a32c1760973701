// Rotations of the cube, and the face and the layers of a move: geometric_cube/moves.rs. What a move does to a place is a definition
// (specs/Turn.antt); the code that moves cubes is in facelet_moves.
#![tactic(auto)]

ghost use Rattle.std.specs.Prelude.{◌≡◌, ◌<◌, ◌≤◌};
ghost use Rattle.geometric_moves.specs.Turn.{opposite, facing, whither, then_rot, inverse_rot, turn_of, quarter_of, kind_face, layers_of};

use generic_cube::Move;
use sticker::Face;

// A rotation of the whole cube: for each axis, the half axis whose coordinate becomes the new one.
#[derive(Clone, Copy, Debug, PartialEq, Eq)]
pub struct Rotation {
    pub x: Face,
    pub y: Face,
    pub z: Face,
}

// The face as which each kind turns: the letters U L F R B D, the wide ones, and X, Y, Z, which turn as R, U, F.
static KIND_FACES: [Face; 15] = [
    Face::U,
    Face::L,
    Face::F,
    Face::R,
    Face::B,
    Face::D,
    Face::U,
    Face::L,
    Face::F,
    Face::R,
    Face::B,
    Face::D,
    Face::R,
    Face::U,
    Face::F,
];

pub fn opposite_of(f: Face) -> Face
    ensures { result ≡ opposite f }
{
    match f {
        Face::U => Face::D,
        Face::R => Face::L,
        Face::F => Face::B,
        Face::D => Face::U,
        Face::L => Face::R,
        Face::B => Face::F,
    }
}

impl Rotation {
    pub const IDENTITY: Rotation = Rotation {
        x: Face::R,
        y: Face::U,
        z: Face::F,
    };

    pub const X: Rotation = Rotation {
        x: Face::R,
        y: Face::F,
        z: Face::D,
    };

    pub const Y: Rotation = Rotation {
        x: Face::B,
        y: Face::U,
        z: Face::R,
    };

    pub const Z: Rotation = Rotation {
        x: Face::U,
        y: Face::L,
        z: Face::F,
    };

    // The half axis that this rotation brings to f.
    pub fn facing_of(self, f: Face) -> Face
        ensures { result ≡ facing self f }
    {
        match f {
            Face::U => self.y,
            Face::R => self.x,
            Face::F => self.z,
            Face::D => opposite_of(self.y),
            Face::L => opposite_of(self.x),
            Face::B => opposite_of(self.z),
        }
    }

    // This rotation, and then s.
    pub fn and_then(self, s: Rotation) -> Rotation
        ensures { result ≡ then_rot self s }
    {
        Rotation {
            x: self.facing_of(s.x),
            y: self.facing_of(s.y),
            z: self.facing_of(s.z),
        }
    }

    // The half turn of a quarter.
    pub fn half(self) -> Rotation
        ensures { result ≡ then_rot self self }
    {
        self.and_then(self)
    }

    // The half axis to which this rotation brings f.
    #[tactic(auto, unfolding(crate::specs::Turn::whither, crate::specs::Turn::same_face))]
    fn whither_of(self, f: Face) -> Face
        ensures { result ≡ whither self f }
    {
        let g = opposite_of(f);
        if self.x == f {
            Face::R
        } else if self.y == f {
            Face::U
        } else if self.z == f {
            Face::F
        } else if self.x == g {
            Face::L
        } else if self.y == g {
            Face::D
        } else {
            Face::B
        }
    }

    // The rotation that undoes this one.
    #[tactic(auto, unfolding(crate::specs::Turn::inverse_rot))]
    pub fn inverse(self) -> Rotation
        ensures { result ≡ inverse_rot self }
    {
        Rotation {
            x: self.whither_of(Face::R),
            y: self.whither_of(Face::U),
            z: self.whither_of(Face::F),
        }
    }

    // The quarter turn of a face: U, R, F turn as Y, X, Z; D, L, B as their inverses.
    #[tactic(auto, unfolding(crate::specs::Turn::quarter_of))]
    pub fn quarter(f: Face) -> Rotation
        ensures { result ≡ quarter_of f }
    {
        match f {
            Face::U => Rotation::Y,
            Face::R => Rotation::X,
            Face::F => Rotation::Z,
            Face::D => Rotation::Y.inverse(),
            Face::L => Rotation::X.inverse(),
            Face::B => Rotation::Z.inverse(),
        }
    }

    // This quarter turn t times: 2 is a half turn, 3 is a half turn and a quarter.
    #[tactic(auto, using(crate::proofs::RotationLaws::turn_two, crate::proofs::RotationLaws::turn_three), unfolding(crate::specs::Turn::turn_of))]
    pub fn times(self, t: usize) -> Rotation
        requires { t ≤ 3 }
        ensures { result ≡ turn_of t self }
    {
        match t {
            0 => Rotation::IDENTITY,
            1 => self,
            2 => self.half(),
            _ => self.half().and_then(self),
        }
    }
}

// The face as which a kind turns.
#[tactic(auto, unfolding(crate::specs::Turn::kind_face))]
pub fn kind_face(k: usize) -> Face
    requires { k < 15 }
    ensures { result ≡ kind_face k }
{
    KIND_FACES[k]
}

// How many layers a move has: 1 for a plain letter, all n for X, Y, Z.
#[tactic(auto, unfolding(crate::specs::Turn::layers_of))]
pub fn layers_of(n: usize, m: Move) -> usize
    ensures { result ≡ layers_of n m }
{
    match m.kind {
        0..=5 => 1,
        6..=11 => m.width,
        _ => n,
    }
}
