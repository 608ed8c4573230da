// What each rule promises in its own words: the makers and the owners of all four are generic functions.
ghost use Rattle.std.specs.Prelude.{◌≡◌, map, vec_items, IfOk};
ghost use Rattle.std.specs.Result.{result_map_both};
ghost use Rattle.succession.specs.Tenancies.{tenancy_terms, TenancyOwns};
ghost use Rattle.succession.specs.Trees.{tree_terms, TreeOwns};
ghost use Rattle.inheritance.specs.Making.{MadeExactly, queue_made, QueueRight, priorities_made, PrioritiesRight, tree_made, TreeRight, tenancy_made, TenancyRight};
ghost use Rattle.inheritance.specs.Meanings.{layer_of, queue_terms, QueueOwns, priorities_terms, PrioritiesOwn};
ghost use Rattle.inheritance.specs.Views.{queue_data, priorities_data};

use inheritance::priorities::Priorities;
use inheritance::queue::Queue;
use inheritance::rule::Rule;
use inheritance::tenancy::Tenancy;
use inheritance::tree::Tree;
use market::agent::Agent;
use market::node::Node;
use market::place::Place;
use market::refusal::Refusal;
use market::sizes::Sizes;
use market::standing::Standing;
use market::tenant::Tenant;

/// The queue of an order of all agents.
pub fn queue(sizes: Sizes, order: &[Agent]) -> Result<Queue<'_>, Refusal>
    ensures value { result_map_both queue_data (λ e. e) result ≡ queue_made sizes.agents sizes.places order.now }
    ensures exactly { MadeExactly (QueueRight sizes.agents sizes.places order.now) result }
    ensures owns { IfOk result (λ q. QueueOwns (queue_data q)) }
{
    Queue::new(sizes, order)
}

/// The owner of a place by the queue.
pub fn owner_by_queue(queue: &Queue, row: &[Standing], place: Place) -> Agent
    ensures { result ≡ (queue_terms (queue_data queue.now)).owner row.now place }
{
    queue.owner(row, place)
}

/// The priorities of orders of all agents, one for each place.
pub fn priorities(sizes: Sizes, orders: &[Vec<Agent>]) -> Result<Priorities<'_>, Refusal>
    ensures value { result_map_both priorities_data (λ e. e) result ≡ priorities_made sizes.agents sizes.places (map vec_items orders.now) }
    ensures exactly { MadeExactly (PrioritiesRight sizes.agents sizes.places (map vec_items orders.now)) result }
    ensures owns { IfOk result (λ q. PrioritiesOwn (priorities_data q)) }
{
    Priorities::new(sizes, orders)
}

/// The owner of a place by priorities.
pub fn owner_by_priorities(priorities: &Priorities, row: &[Standing], place: Place) -> Agent
    ensures { result ≡ (priorities_terms (priorities_data priorities.now)).owner row.now place }
{
    priorities.owner(row, place)
}

/// The tree of nodes over a rule.
pub fn tree<R: Rule + Drop>(below: R, nodes: &[Node]) -> Result<Tree<'_, R>, Refusal>
    ensures value { result_map_both (λ t. layer_of t.below t.entries.now) (λ e. e) result ≡ tree_made (R.Rule.terms below) below nodes.now }
    ensures exactly { MadeExactly (TreeRight (R.Rule.terms below) nodes.now) result }
    ensures owns { IfOk result (λ t. TreeOwns (R.Rule.terms t.below) t.entries.now) }
{
    Tree::new(below, nodes)
}

/// The owner of a place by the tree.
pub fn owner_by_tree<R: Rule>(tree: &Tree<R>, row: &[Standing], place: Place) -> Agent
    ensures { result ≡ (tree_terms (R.Rule.terms tree.now.below) tree.now.entries.now).owner row.now place }
{
    tree.owner(row, place)
}

/// The tenancy of tenants over a rule.
pub fn tenancy<R: Rule + Drop>(below: R, tenants: &[Tenant]) -> Result<Tenancy<'_, R>, Refusal>
    ensures value { result_map_both (λ t. layer_of t.below t.entries.now) (λ e. e) result ≡ tenancy_made (R.Rule.terms below) below tenants.now }
    ensures exactly { MadeExactly (TenancyRight (R.Rule.terms below) tenants.now) result }
    ensures owns { IfOk result (λ t. TenancyOwns (R.Rule.terms t.below) t.entries.now) }
{
    Tenancy::new(below, tenants)
}

/// The owner of a place by the tenancy.
pub fn owner_by_tenancy<R: Rule>(tenancy: &Tenancy<R>, row: &[Standing], place: Place) -> Agent
    ensures { result ≡ (tenancy_terms (R.Rule.terms tenancy.now.below) tenancy.now.entries.now).owner row.now place }
{
    tenancy.owner(row, place)
}
