// Orders of agents: when a list is one, and who is the first in it that waits.
ghost use Rattle.std.specs.Prelude.{◌≡◌, ◌<◌, ◌≤◌, take, length, IfSome};
ghost use Rattle.std.specs.List.{position};
ghost use Rattle.std.specs.Option.{unwrap_or};
ghost use Rattle.market.specs.Rows.{is_waiting};
ghost use Rattle.succession.specs.Orders.{same_agent, is_order, first_waiting, agents_from, nobody, owner_by};
ghost use Rattle.succession.specs.Ranges.{agent_fits};

use crate::data::{Entry, all_right};
use crate::range::agent_fits;
use crate::row::{is_waiting, waiting};
use market::agent::Agent;
use market::sizes::Sizes;
use market::standing::Standing;

impl Entry for Agent {
    ghost alike = { same_agent };

    ghost sound = { λ n _ _ a. agent_fits n a };

    fn is_like(&self, other: &Agent) -> bool {
        other == self
    }

    fn is_sound(&self, sizes: Sizes, _earlier: &[Agent]) -> bool {
        agent_fits(sizes.agents, *self)
    }
}

/// Whether a list is an order of all agents. How many places there are makes no difference.
pub fn is_order(agents: u16, order: &[Agent]) -> bool
    ensures { result ≡ is_order agents order.now }
{
    order.len() == usize::from(agents) && all_right(Sizes { agents, places: 0 }, order)
}

/// The first agent of a list that waits.
fn first_waiting(order: &[Agent], row: &[Standing]) -> Option<Agent>
    ensures { result ≡ first_waiting row.now order.now }
{
    order.iter().copied().find(|agent| is_waiting(row, *agent))
}

/// The index of the first standing of a row that is of an agent that waits.
fn first_index(row: &[Standing]) -> Option<usize>
    ensures value { result ≡ position is_waiting row.now }
    ensures within { IfSome result (λ i. i < length row.now) }
{
    row.iter().position(|standing| waiting(*standing))
}

/// The standings of the agents up to a number.
fn standings_to(agents: u16, row: &[Standing]) -> &[Standing]
    ensures value { result.now ≡ take agents row.now }
    ensures few { length result.now ≤ agents }
{
    row.get(..usize::from(agents)).unwrap_or(row)
}

/// The lowest of all agents that waits.
#[tactic(auto, using(crate::proofs::Firsts::lowest_at))]
fn lowest_waiting(agents: u16, row: &[Standing]) -> Option<Agent>
    ensures { result ≡ first_waiting row.now (agents_from 1 agents) }
{
    let index = first_index(standings_to(agents, row))?;
    Some(Agent::from(index as u16 + 1))
}

// Kept: an owner is owed for every row, and by its definition that is the agent 0 where nobody waits.
/// The owner by an order: the first agent that waits in it. Where none does, which in an order of all agents says that
/// nobody waits, the lowest agent that waits, and else the number 0: so the answer is defined, and lawful, for every list.
pub fn owner_by(agents: u16, order: &[Agent], row: &[Standing]) -> Agent
    ensures { result ≡ owner_by agents order.now row.now }
{
    first_waiting(order, row)
        .or_else(|| lowest_waiting(agents, row))
        .unwrap_or(Agent::from(0))
}
