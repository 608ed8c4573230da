// The pile of rules of a market.
ghost use Rattle.std.specs.Prelude.{◌≡◌};
ghost use Rattle.std.specs.Result.{result_map_both};
ghost use Rattle.inheritance.specs.Making.{made_if};
ghost use Rattle.inheritance.specs.Views.{base_terms};
ghost use Rattle.market_reader.specs.Held.{held};
ghost use Rattle.piles.specs.Piles.{orders_fit, order_terms, pile_made, terms_of, PileLaw};

use inheritance::base::Base;
use inheritance::priorities::Priorities;
use inheritance::queue::Queue;
use inheritance::tenancy::Tenancy;
use inheritance::tree::Tree;
use market::refusal::Refusal;
use market_reader::record::{Market, OrdersRef};

/// The rules of a market, one on the other.
pub type Pile<'a> = Tenancy<'a, Tree<'a, Base<'a>>>;

/// The rule at the bottom: the queue of a market, or its priorities.
fn base_of(market: &Market) -> Result<Base<'_>, Refusal>
    ensures { result_map_both base_terms (λ e. e) result ≡ made_if (orders_fit (held market.now).agents (held market.now).places (held market.now).orders) (order_terms (held market.now)) }
{
    let sizes = market.sizes();
    match market.orders() {
        OrdersRef::Queue(order) => Queue::new(sizes, order).map(Base::ByQueue),
        OrdersRef::Priorities(orders) => Priorities::new(sizes, orders).map(Base::ByPriorities),
    }
}

/// The rules of a market: its tenancy on its tree on its queue or priorities.
pub fn pile_of(market: &Market) -> Result<Pile<'_>, Refusal>
    ensures value { result_map_both terms_of (λ e. e) result ≡ pile_made (held market.now) }
    ensures law { PileLaw (held market.now) (result_map_both terms_of (λ e. e) result) }
{
    let base = base_of(market)?;
    let tree = Tree::new(base, market.nodes())?;
    Tenancy::new(tree, market.tenants())
}
