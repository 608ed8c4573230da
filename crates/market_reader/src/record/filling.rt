// Making room for a market, and filling it with the records of a file.
ghost use Rattle.std.specs.Prelude.{◌≡◌, ◌<◌, ◌≤◌, length, IfOk};
ghost use Rattle.spelling.specs.Views.{numbers_of};
ghost use Rattle.market_reader.specs.Filling.{tenant_in, unfilled, entered};
ghost use Rattle.market_reader.specs.Held.{held, nothing, served_by};

use super::{Market, Served};
use crate::lists::{Lists, put_at};
use market::agent::Agent;
use market::place::Place;
use market::sizes::{MOST_AGENTS, MOST_PLACES, Sizes};
use market::tenant::Tenant;
use market_file::form::{Form, MOST_LINES, MOST_WORDS};
use market_file::node::node_in;
use market_file::numbered::gather;
use market_lines::kind::Kind;
use spelling::words::Words;
use std::alloc::{AllocError, Global};

/// The tenant that the words of a T line say.
// Kept: a `From` needs a type of this crate, and a newtype for it is no plainer.
fn tenant_in(mut words: Words<'_>) -> Tenant
    ensures { result ≡ tenant_in (numbers_of words.entry) }
{
    let place = words.take_next();
    let agent = words.take_next();
    Tenant {
        place: Place::from(place),
        agent: Agent::from(agent),
    }
}

/// Which orders a market has, by the count of its Q lines.
fn served_by(queues: u16) -> Served
    ensures { result ≡ served_by queues }
{
    if queues == 1 {
        Served::ByQueue
    } else {
        Served::ByPriorities
    }
}

impl Market {
    /// Makes the room. This alone can fail, and only for want of memory.
    pub fn with_room(heap: Global) -> Result<Market, AllocError>
        ensures { IfOk result (λ market. held market ≡ nothing) }
    {
        let capacities = Vec::with_capacity(heap, usize::from(MOST_PLACES))?;
        let queue = Vec::with_capacity(heap, MOST_WORDS)?;
        let priorities = Lists::with_room(heap, usize::from(MOST_PLACES))?;
        let nodes = Vec::with_capacity(heap, MOST_LINES)?;
        let tenants = Vec::with_capacity(heap, MOST_LINES)?;
        let rankings = Lists::with_room(heap, usize::from(MOST_AGENTS))?;
        let sizes = Sizes::default();
        let served = Served::ByQueue;
        Ok(Market {
            sizes,
            served,
            capacities,
            queue,
            priorities,
            nodes,
            tenants,
            rankings,
        })
    }

    /// Makes the market that of a form, before the first record.
    #[tactic(auto, using(crate::proofs::Entering::no_record))]
    pub(crate) fn start(&mut self, form: Form)
        requires { (form.sizes.agents ≤ 200) × (form.sizes.places ≤ 40) }
        ensures { held self.new ≡ unfilled form }
    {
        self.sizes = form.sizes;
        self.served = served_by(form.contents.queues);
        self.capacities.clear();
        let _ = self.capacities.resize(usize::from(form.sizes.places), 0);
        self.queue.clear();
        self.priorities.clear();
        self.nodes.clear();
        self.tenants.clear();
        self.rankings.clear();
    }

    /// Enters a record: a line of a kind with these words.
    // Kept: kind and words, not a `Line`, which is read with a fault: a file that was checked has none.
    #[tactic(auto, using(crate::proofs::Entering::one_record))]
    pub(crate) fn enter(&mut self, kind: Kind, words: Words<'_>)
        requires few { length (numbers_of words) ≤ 201 }
        requires nodes { length (held self.old).nodes < 700 }
        requires tenants { length (held self.old).tenants < 700 }
        ensures { held self.new ≡ entered kind (numbers_of words.entry) (held self.old) }
    {
        let mut rest = words;
        let about = rest.take_next();
        match kind {
            Kind::Market | Kind::Contents => {}
            Kind::Seats => put_at(&mut self.capacities, about, rest.take_next()),
            Kind::Queue => gather(&mut self.queue, words),
            Kind::Priorities => self.priorities.gather_at(about, rest),
            Kind::Heir => self.nodes.push_reserved(node_in(words)),
            Kind::Tenant => self.tenants.push_reserved(tenant_in(words)),
            Kind::Ranking => self.rankings.gather_at(about, rest),
        }
    }
}
