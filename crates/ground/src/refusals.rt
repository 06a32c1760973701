// Why an entry refuses its input: the rules' table of refusals.
ghost use Rattle.std.specs.Prelude.{◌≡◌};

// Each refusal has the number that C gets for it. 4, 11 and 15 are not given out.
#[derive(Clone, Copy, Debug, PartialEq, Eq)]
pub enum Refusal {
    Size = 1,
    Length = 2,
    Code = 3,
    Width = 5,
    Room = 6,
    Bounds = 7,
    Table = 8,
    Work = 9,
    Index = 10,
    Letter = 12,
    Digits = 13,
    Ending = 14,
    Sign = 16,
    Level = 17,
}

impl From<Refusal> for u8 {
    ghost use Rattle.ground.specs.Refusals.{refusal_no};

    ghost from_gives = { λ r k. k ≡ refusal_no r };

    fn from(refusal: Refusal) -> u8 {
        refusal as u8
    }
}
