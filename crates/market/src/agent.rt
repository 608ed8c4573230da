// Agents: those who rank places.
ghost use Rattle.std.specs.Prelude.{◌≡◌};

/// An agent, by its number: the agents of a market are numbered from 1.
#[derive(Clone, Copy, Debug, PartialEq, Eq)]
pub struct Agent {
    pub number: u16,
}

impl From<u16> for Agent {
    ghost from_gives = { λ n a. a ≡ record { number = n } };

    fn from(number: u16) -> Agent {
        Agent { number }
    }
}
