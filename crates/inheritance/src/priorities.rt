// Priorities: an order of all agents for each place.
ghost use Rattle.std.specs.Prelude.{map, vec_items};
ghost use Rattle.succession.proofs.Ranking.{orders_right, orders_fit_true, order_of_place};
ghost use Rattle.succession.specs.Priorities.{are_orders, order_for, OrdersOf};
ghost use Rattle.inheritance.specs.Meanings.{PrioritiesData};

use crate::ordered::Ordered;
use crate::orders::Orders;
use market::agent::Agent;
use market::place::Place;
use market::sizes::Sizes;
use succession::priority::{are_orders, order_for};

/// Priorities: the owner of a place is the first agent in the place's order that waits. The order of place 1 stands first.
pub type Priorities<'a> = Ordered<&'a [Vec<Agent>]>;

impl<'a> Orders for &'a [Vec<Agent>] {
    ghost Made = { PrioritiesData };

    ghost made = { λ n m o. record { agents = n; places = m; orders = map vec_items o.now } };

    ghost fits = { λ n m o. are_orders n m (map vec_items o.now) };

    ghost Right = { λ n m o. OrdersOf n m (map vec_items o.now) };

    ghost order = { λ o. order_for (map vec_items o.now) };

    ghost laws = { record {
      test = record {
        right = λ n m o. orders_right n m (map vec_items o.now);
        passes = λ n m o. orders_fit_true n m (map vec_items o.now);
      };
      each = λ n m o. order_of_place n m (map vec_items o.now);
    } };

    fn are_right(&self, sizes: Sizes) -> bool {
        are_orders(sizes, self)
    }

    fn order_for(&self, place: Place) -> &[Agent] {
        order_for(self, place)
    }
}
