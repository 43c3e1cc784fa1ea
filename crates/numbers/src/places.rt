// An address and a choice of headers as numbers.
ghost use Rattle.std.specs.Prelude.{◌≡◌};
ghost use Rattle.geometry.specs.Place.{place_said};
ghost use Rattle.header_choice.specs.Choice.{choice_said};
ghost use Rattle.numbers.specs.Places.{place_twin, choice_twin};

use geometry::{Address, Refusal};
use header_choice::Choice;

// An address, or 0 and the number of the refusal.
#[repr(C)]
#[derive(Clone, Copy)]
pub struct AdrPlace {
    pub address: u32,
    pub number: u8,
}

// Which of two is the newer: 1 the first, 2 the second, or 0 and the number of the refusal.
#[repr(C)]
#[derive(Clone, Copy)]
pub struct AdrChoice {
    pub which: u8,
    pub number: u8,
}

impl From<Result<Address, Refusal>> for AdrPlace {
    ghost from_gives = { λ p n. n ≡ place_twin (place_said p) };

    fn from(place: Result<Address, Refusal>) -> AdrPlace {
        match place {
            Ok(a) => AdrPlace {
                address: a.0,
                number: 0,
            },
            Err(r) => AdrPlace {
                address: 0,
                number: r.number(),
            },
        }
    }
}

impl From<Result<Choice, Refusal>> for AdrChoice {
    ghost from_gives = { λ c n. n ≡ choice_twin (choice_said c) };

    fn from(choice: Result<Choice, Refusal>) -> AdrChoice {
        match choice {
            Ok(Choice::First) => AdrChoice {
                which: 1,
                number: 0,
            },
            Ok(Choice::Second) => AdrChoice {
                which: 2,
                number: 0,
            },
            Err(r) => AdrChoice {
                which: 0,
                number: r.number(),
            },
        }
    }
}
