// Rules by orders: for each place an order of all agents.
ghost use Rattle.std.specs.Prelude.{◌≡◌, IfOk};
ghost use Rattle.std.specs.Result.{result_map_both};
ghost use Rattle.succession.proofs.Ordering.{ordered_lawful};
ghost use Rattle.succession.specs.Orders.{ordered_terms, OrderedOwns};
ghost use Rattle.inheritance.specs.Making.{ordered_made, MadeExactly, OrderedRight};

use crate::orders::Orders;
use crate::rule::Rule;
use crate::sizes::sizes_fit;
use market::agent::Agent;
use market::place::Place;
use market::refusal::Refusal;
use market::sizes::Sizes;
use market::standing::Standing;
use succession::order::owner_by;

/// A rule by orders: the owner of a place is the first agent in the place's order that waits.
#[derive(Clone, Copy)]
pub struct Ordered<O: Orders> {
    sizes: Sizes,
    orders: O,
}

impl<O: Orders> Ordered<O> {
    /// The rule of orders of all agents.
    pub fn new(sizes: Sizes, orders: O) -> Result<Ordered<O>, Refusal>
    where
        O: Drop,
        ensures value { let n = sizes.agents in let m = sizes.places in result_map_both (λ q. O.made q.sizes.agents q.sizes.places q.orders) (λ e. e) result ≡ ordered_made n m (O.fits n m orders) (O.made n m orders) }
        ensures exactly { MadeExactly (OrderedRight sizes.agents sizes.places (O.Right sizes.agents sizes.places orders)) result }
        ensures owns { IfOk result (λ q. OrderedOwns q.sizes.agents q.sizes.places (O.order q.orders)) }
    {
        if sizes_fit(sizes) && orders.are_right(sizes) {
            Ok(Ordered { sizes, orders })
        } else {
            Err(Refusal::Rule)
        }
    }
}

impl<O: Orders> Rule for Ordered<O> {
    ghost terms = { λ q. ordered_terms q.sizes.agents q.sizes.places (O.order q.orders) };

    ghost lawful = { λ q. ordered_lawful q.sizes.agents q.sizes.places (O.order q.orders) };

    fn sizes(&self) -> Sizes {
        self.sizes
    }

    fn owner(&self, row: &[Standing], place: Place) -> Agent {
        owner_by(self.sizes.agents, self.orders.order_for(place), row)
    }
}
