// The tree: heirs over a rule below.
ghost use Rattle.market.specs.Data.{TreeOf};
ghost use Rattle.succession.proofs.Treeing.{tree_right, tree_fits, tree_owns};
ghost use Rattle.succession.proofs.Walking.{tree_lawful};
ghost use Rattle.succession.specs.Trees.{is_tree, heir_claims, TreeOwns};

use crate::claim::Claim;
use crate::layer::Layer;
use market::agent::Agent;
use market::node::Node;
use market::place::Place;
use market::sizes::Sizes;
use market::standing::Standing;
use succession::tree::{is_tree, waiting_heir};

/// A tree: the walk from the root of a place through its nodes stops at the first heir that waits, and that heir owns the
/// place. Where the walk ends without one, the rule below answers.
pub type Tree<'a, R> = Layer<'a, R, Node>;

impl Claim for Node {
    ghost fits = { is_tree };

    ghost Right = { TreeOf };

    ghost claims = { heir_claims };

    ghost Owns = { TreeOwns };

    ghost laws = { record { test = record { right = tree_right; passes = tree_fits }; lawful = tree_lawful; owns = tree_owns } };

    fn are_right(sizes: Sizes, nodes: &[Node]) -> bool {
        is_tree(sizes, nodes)
    }

    fn claimant(nodes: &[Node], row: &[Standing], place: Place) -> Option<Agent> {
        waiting_heir(nodes, row, place)
    }
}
