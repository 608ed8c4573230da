// Sizes: how many agents and places rules are for.
ghost use Rattle.std.specs.Prelude.{◌≡◌};
ghost use Rattle.inheritance.specs.Making.{sizes_fit};

use market::sizes::{MOST_AGENTS, MOST_PLACES, Sizes};

/// Whether there are as many agents and places as rules are for.
pub fn sizes_fit(sizes: Sizes) -> bool
    ensures { result ≡ sizes_fit sizes.agents sizes.places }
{
    (1..=MOST_AGENTS).contains(&sizes.agents) && (1..=MOST_PLACES).contains(&sizes.places)
}
