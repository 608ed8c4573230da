// Trees of heirs: when nodes are right, and who claims a place by a walk through them.
ghost use Rattle.std.specs.Prelude.{◌≡◌, ◌<◌, ◌≤◌, length, drop, IfSome};
ghost use Rattle.market.specs.Rows.{standing};
ghost use Rattle.succession.specs.Trees.{same_node, node_fits, is_tree, taken_by, node_from, heir_claims};

use crate::data::{Entry, all_right};
use crate::range::{agent_fits, place_fits};
use crate::row::standing_of;
use market::agent::Agent;
use market::node::{MOST_NODES, Node};
use market::place::Place;
use market::sizes::Sizes;
use market::standing::Standing;

impl Entry for Node {
    ghost alike = { same_node };

    ghost sound = { node_fits };

    fn is_like(&self, other: &Node) -> bool {
        other.is_at(self.branch())
    }

    fn is_sound(&self, sizes: Sizes, earlier: &[Node]) -> bool {
        place_fits(sizes.places, self.place)
            && self.took <= sizes.places
            && agent_fits(sizes.agents, self.heir)
            && self.branch().fits(earlier)
    }
}

/// Whether nodes are those of the trees of all places.
pub fn is_tree(sizes: Sizes, nodes: &[Node]) -> bool
    ensures { result ≡ is_tree sizes.agents sizes.places nodes.now }
{
    nodes.len() <= usize::from(MOST_NODES) && all_right(sizes, nodes)
}

/// The number of what an agent departed with, 0 for nothing, or none where it waits.
// Kept: 0 for nothing is the took number that a node has for it.
fn taken_by(row: &[Standing], agent: Agent) -> Option<u16>
    ensures { result ≡ taken_by (standing row.now agent) }
{
    match standing_of(row, agent) {
        Standing::Waiting => None,
        Standing::Placed(place) => Some(place.number),
        Standing::Unplaced => Some(0),
    }
}

/// The index of the child of a node for a took number, or of the root where the node's number is 0 and so is the took
/// number. A child comes after its parent.
fn child_of(nodes: &[Node], place: Place, number: usize, took: u16) -> Option<usize>
    ensures value { result ≡ node_from number place.number number took (drop number nodes.now) }
    ensures within { IfSome result (λ i. (number ≤ i) × (i < length nodes.now)) }
{
    nodes
        .get(number..)?
        .iter()
        .position(|node| node.is_child(place, number, took))
        .map(|passed| number + passed)
}

// Kept: nodes name their parents by number in one list, as the file does, since boxes would allocate.
/// The heir that the walk from the root of a place comes to and that waits.
pub fn waiting_heir(nodes: &[Node], row: &[Standing], place: Place) -> Option<Agent>
    ensures { result ≡ heir_claims nodes.now row.now place }
{
    let mut number = 0;
    let mut took = 0;
    while let Some(index) = child_of(nodes, place, number, took) {
        let heir = nodes[index].heir;
        let Some(taken) = taken_by(row, heir) else {
            return Some(heir);
        };
        number = index + 1;
        took = taken;
    }
    None
}
