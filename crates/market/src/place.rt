// Places: what agents rank, each with a number of seats.
ghost use Rattle.std.specs.Prelude.{◌≡◌};

/// A place, by its number: the places of a market are numbered from 1.
// Kept: a type of its own beside `Agent`, so that neither is taken for the other.
#[derive(Clone, Copy, Debug, PartialEq, Eq)]
pub struct Place {
    pub number: u16,
}

impl From<u16> for Place {
    ghost from_gives = { λ n p. p ≡ record { number = n } };

    fn from(number: u16) -> Place {
        Place { number }
    }
}
