// Nodes of inheritance trees: who inherits a place.
ghost use Rattle.std.specs.Prelude.{◌≡◌};
ghost use Rattle.market.specs.Nodes.{branch_of, is_node, parent_fits};

use crate::agent::Agent;
use crate::place::Place;

/// The most nodes that the trees of a market have together.
pub const MOST_NODES: u16 = 300;

/// A node of a place's tree. A root has parent 0 and took number 0; any other node has the number of its parent, and is
/// the child that inherits where the parent's heir departed with the place of the took number, or with nothing for 0.
// Kept: 0 for no parent and for nothing are numbers of the format, and are compared as such.
#[derive(Clone, Copy)]
pub struct Node {
    pub place: Place,
    pub parent: u16,
    pub took: u16,
    pub heir: Agent,
}

/// Where a node stands in the trees: its place, its parent and its took number. No two nodes stand alike.
#[derive(Clone, Copy, Debug, PartialEq, Eq)]
pub struct Branch {
    pub place: Place,
    pub parent: u16,
    pub took: u16,
}

impl Node {
    /// Where the node stands.
    pub fn branch(&self) -> Branch
        ensures { result ≡ branch_of self.now }
    {
        Branch {
            place: self.place,
            parent: self.parent,
            took: self.took,
        }
    }

    /// Whether the node has the place, the parent and the took number. The parent may be any number.
    pub fn is_child(&self, place: Place, parent: usize, took: u16) -> bool
        ensures { result ≡ is_node place.number parent took self.now }
    {
        self.place == place && usize::from(self.parent) == parent && self.took == took
    }

    /// Whether the node stands there.
    pub fn is_at(&self, branch: Branch) -> bool
        ensures { result ≡ is_node branch.place.number branch.parent branch.took self.now }
    {
        self.branch() == branch
    }
}

impl Branch {
    /// Whether the parent is 0, with took number 0, or the number of an earlier node of the same place.
    pub fn fits(self, earlier: &[Node]) -> bool
        ensures { result ≡ parent_fits earlier.now self.place.number self.parent self.took }
    {
        match self.parent.checked_sub(1) {
            None => self.took == 0,
            Some(index) => earlier
                .get(usize::from(index))
                .is_some_and(|node| node.place == self.place),
        }
    }
}
