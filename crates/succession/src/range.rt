// Ranges: which numbers are those of agents and places.
ghost use Rattle.std.specs.Prelude.{◌≡◌};
ghost use Rattle.succession.specs.Ranges.{agent_fits, place_fits};

use market::agent::Agent;
use market::place::Place;

/// Whether an agent is one of the agents 1 to `agents`.
pub fn agent_fits(agents: u16, agent: Agent) -> bool
    ensures { result ≡ agent_fits agents agent }
{
    (1..=agents).contains(&agent.number)
}

// Kept: a second function for the second type, since a trait for one line is no plainer.
/// Whether a place is one of the places 1 to `places`.
pub fn place_fits(places: u16, place: Place) -> bool
    ensures { result ≡ place_fits places place }
{
    (1..=places).contains(&place.number)
}
