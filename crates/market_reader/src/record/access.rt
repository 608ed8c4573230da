// What a market holds, for reading.
ghost use Rattle.std.specs.Prelude.{◌≡◌, map, vec_items};
ghost use Rattle.market_reader.specs.Held.{held, orders_seen};

use super::{Market, OrdersRef, Served};
use market::node::Node;
use market::place::Place;
use market::sizes::Sizes;
use market::tenant::Tenant;

impl Market {
    /// How many agents and places there are.
    pub fn sizes(&self) -> Sizes
        ensures agents { result.agents ≡ (held self.now).agents }
        ensures places { result.places ≡ (held self.now).places }
    {
        self.sizes
    }

    /// The capacities, by place.
    pub fn capacities(&self) -> &[u16]
        ensures { result.now ≡ (held self.now).capacities }
    {
        self.capacities.as_slice()
    }

    /// The queue, or the priorities by place.
    pub fn orders(&self) -> OrdersRef<'_>
        ensures { orders_seen result ≡ (held self.now).orders }
    {
        let places = usize::from(self.sizes.places);
        match self.served {
            Served::ByQueue => OrdersRef::Queue(self.queue.as_slice()),
            Served::ByPriorities => OrdersRef::Priorities(self.priorities.first(places)),
        }
    }

    /// The nodes of the tree, in file order.
    pub fn nodes(&self) -> &[Node]
        ensures { result.now ≡ (held self.now).nodes }
    {
        self.nodes.as_slice()
    }

    /// The tenants, in file order.
    pub fn tenants(&self) -> &[Tenant]
        ensures { result.now ≡ (held self.now).tenants }
    {
        self.tenants.as_slice()
    }

    /// The rankings, by agent; empty for an agent without an R line.
    pub fn rankings(&self) -> &[Vec<Place>]
        ensures { map vec_items result.now ≡ (held self.now).rankings }
    {
        let agents = usize::from(self.sizes.agents);
        self.rankings.first(agents)
    }
}
