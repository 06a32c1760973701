// The faces of the cube, in the order in which they are stored: sticker.rs. Positions and stored places are definitions (specs/Place.antt).
#![tactic(auto)]

ghost use Rattle.std.specs.Prelude.{◌≡◌};

// A face of the cube; also the half axis that points to it. Its number is its place in the order.
#[derive(Clone, Copy, Debug, PartialEq, Eq)]
pub enum Face {
    U,
    R,
    F,
    D,
    L,
    B,
}

impl From<Face> for usize {
    ghost use Rattle.sticker.specs.Place.{num_of};

    ghost from_gives = { λ f k. k ≡ num_of f };

    fn from(f: Face) -> usize {
        f as usize
    }
}
