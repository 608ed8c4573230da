// Rows: the standing of each agent.
ghost use Rattle.std.specs.Prelude.{◌≡◌};
ghost use Rattle.market.specs.Rows.{standing, is_waiting, waits};

use market::agent::Agent;
use market::standing::Standing;

/// The standing of an agent. Whoever is no agent of the row counts as departed with nothing.
pub fn standing_of(row: &[Standing], agent: Agent) -> Standing
    ensures { result ≡ standing row.now agent }
{
    agent
        .number
        .checked_sub(1)
        .and_then(|index| row.get(usize::from(index)))
        .copied()
        .unwrap_or(Standing::Unplaced)
}

/// Whether a standing is that of an agent that waits.
pub fn waiting(standing: Standing) -> bool
    ensures { result ≡ is_waiting standing }
{
    standing == Standing::Waiting
}

/// Whether an agent waits.
pub fn is_waiting(row: &[Standing], agent: Agent) -> bool
    ensures { result ≡ waits row.now agent }
{
    waiting(standing_of(row, agent))
}
