// The queue: one order of all agents for every place.
ghost use Rattle.market.specs.Data.{OrderOf};
ghost use Rattle.succession.proofs.Ordering.{order_right, order_fits};
ghost use Rattle.succession.specs.Orders.{is_order};
ghost use Rattle.inheritance.specs.Meanings.{QueueData};

use crate::ordered::Ordered;
use crate::orders::Orders;
use market::agent::Agent;
use market::place::Place;
use market::sizes::Sizes;
use succession::order::is_order;

/// A queue: the owner of every place is the first agent in the order that waits.
pub type Queue<'a> = Ordered<&'a [Agent]>;

impl<'a> Orders for &'a [Agent] {
    ghost Made = { QueueData };

    ghost made = { λ n m o. record { agents = n; places = m; order = o.now } };

    ghost fits = { λ n m o. is_order n o.now };

    ghost Right = { λ n m o. OrderOf n o.now };

    ghost order = { λ o p. o.now };

    ghost laws = { record {
      test = record { right = λ n m o. order_right n o.now; passes = λ n m o. order_fits n o.now };
      each = λ n m o right p known. right;
    } };

    fn are_right(&self, sizes: Sizes) -> bool {
        is_order(sizes.agents, self)
    }

    fn order_for(&self, _place: Place) -> &[Agent] {
        self
    }
}
