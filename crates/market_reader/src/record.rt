// The market that a file says, in room for the largest market.
ghost use Rattle.std.specs.Prelude.{◌≡◌, ◌≤◌, length, vec_capacity};

use crate::lists::Lists;
use market::agent::Agent;
use market::node::Node;
use market::place::Place;
use market::sizes::Sizes;
use market::tenant::Tenant;

mod access;
mod filling;

/// The orders of a market: one queue for all places, or priorities, one order for each place.
#[derive(Clone, Copy)]
pub enum OrdersRef<'a> {
    Queue(&'a [Agent]),
    Priorities(&'a [Vec<Agent>]),
}

/// Which orders of agents a market has.
#[derive(Clone, Copy)]
pub(crate) enum Served {
    /// One order for all places.
    ByQueue,
    /// One order for each place.
    ByPriorities,
}

/// What a market file says, and no more. Of the lists for places and agents only those of the market count: the others
/// are room.
#[derive(Drop)]
pub struct Market {
    sizes: Sizes,
    // Kept: both lists are room that is made before the first byte is read, so the choice is a flag beside them.
    served: Served,
    // Kept: room for the largest market is made once, so these lists are longer than the sizes say.
    capacities: Vec<u16>,
    queue: Vec<Agent>,
    priorities: Lists<Agent>,
    nodes: Vec<Node>,
    tenants: Vec<Tenant>,
    rankings: Lists<Place>,
    ghost agents_few: { sizes.agents ≤ 200 },
    ghost places_few: { sizes.places ≤ 40 },
    ghost capacities_room: { 40 ≤ vec_capacity capacities },
    ghost queue_room: { 201 ≤ vec_capacity queue },
    ghost places_room: { length priorities ≡ 40 },
    ghost nodes_room: { 700 ≤ vec_capacity nodes },
    ghost tenants_room: { 700 ≤ vec_capacity tenants },
    ghost agents_room: { length rankings ≡ 200 },
}
