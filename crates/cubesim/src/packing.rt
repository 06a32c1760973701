// Answers packed into one number: the refusal, 0 for none, and 256 times the value.
ghost use Rattle.std.specs.Prelude.{◌≡◌, ℕ};
ghost use Rattle.generic_cube.specs.Answers.{answer_no, answer_value};
ghost use Rattle.facelet_cube.specs.Cube.{verdict_no, verdict_value};
ghost use Rattle.scramble_parser.specs.Parse.{parsed_no, parsed_value};
ghost use Rattle.ida_star.specs.IdaStar.{outcome_value};
ghost use Rattle.cubesim.specs.Pack.{pack};

use ground::refusals::Refusal;
use scramble_parser::ParseError;

#[tactic(auto, unfolding(crate::specs::Pack::pack))]
fn pack_of(number: u8, value: usize) -> u64
    ensures { result ≡ pack number value }
{
    if value < 72057594037927936 {
        return (number as u64) + 256 * (value as u64);
    }
    (number as u64) + 18446744073709551360
}

// What an entry answers, as a number of the rules and a value.
pub trait Answer {
    ghost number: { Self → ℕ };

    ghost value: { Self → ℕ };

    fn pack(self) -> u64
        ensures { result ≡ pack (number self) (value self) };
}

impl Answer for Result<(), Refusal> {
    ghost number = { answer_no };

    ghost value = { λ a. 0 };

    fn pack(self) -> u64 {
        match self {
            Ok(()) => pack_of(0, 0),
            Err(refusal) => pack_of(refusal.into(), 0),
        }
    }
}

// A count, an index.
impl Answer for Result<usize, Refusal> {
    ghost number = { answer_no };

    ghost value = { answer_value };

    fn pack(self) -> u64 {
        match self {
            Ok(value) => pack_of(0, value),
            Err(refusal) => pack_of(refusal.into(), 0),
        }
    }
}

// Whether a cube is solved.
impl Answer for Result<bool, Refusal> {
    ghost number = { verdict_no };

    ghost value = { verdict_value };

    fn pack(self) -> u64 {
        match self {
            Ok(solved) => pack_of(0, usize::from(solved)),
            Err(refusal) => pack_of(refusal.into(), 0),
        }
    }
}

// A found list's count goes out as one more, so that 0 says none.
impl Answer for Result<Option<usize>, Refusal> {
    ghost number = { answer_no };

    ghost value = { outcome_value };

    fn pack(self) -> u64 {
        match self {
            Ok(found) => match found {
                None => pack_of(0, 0),
                Some(count) => pack_of(0, count.saturating_add(1)),
            },
            Err(refusal) => pack_of(refusal.into(), 0),
        }
    }
}

// A text's count of moves; a bad token's refusal goes out with its place.
impl Answer for Result<usize, ParseError> {
    ghost number = { parsed_no };

    ghost value = { parsed_value };

    fn pack(self) -> u64 {
        match self {
            Ok(count) => pack_of(0, count),
            Err(ParseError::Refused(refusal)) => pack_of(refusal.into(), 0),
            Err(ParseError::At(fault)) => pack_of(fault.refusal.into(), fault.place),
        }
    }
}
