// Priorities: an order of all agents for each place.
ghost use Rattle.std.specs.Prelude.{◌≡◌, map, vec_items};
ghost use Rattle.std.specs.List.{list_all};
ghost use Rattle.succession.specs.Orders.{is_order};
ghost use Rattle.succession.specs.Priorities.{order_for, are_orders};

use crate::order::is_order;
use market::agent::Agent;
use market::place::Place;
use market::sizes::Sizes;

/// Whether each list is an order of all agents.
fn each_order(agents: u16, orders: &[Vec<Agent>]) -> bool
    ensures { result ≡ list_all (λ order. is_order agents order.items) orders.now }
{
    orders
        .iter()
        .all(|order| is_order(agents, order.as_slice()))
}

/// Whether lists are orders of all agents, one for each place.
pub fn are_orders(sizes: Sizes, orders: &[Vec<Agent>]) -> bool
    ensures { result ≡ are_orders sizes.agents sizes.places (map vec_items orders.now) }
{
    orders.len() == usize::from(sizes.places) && each_order(sizes.agents, orders)
}

/// The order of a place. What is no place has an empty one.
pub fn order_for(orders: &[Vec<Agent>], place: Place) -> &[Agent]
    ensures { result.now ≡ order_for (map vec_items orders.now) place }
{
    place
        .number
        .checked_sub(1)
        .and_then(|index| orders.get(usize::from(index)))
        .map_or(&[], |order| order.as_slice())
}
