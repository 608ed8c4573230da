// What the lines so far have named, and what a line names wrongly after them.
ghost use Rattle.std.specs.Prelude.{◌≡◌, ◌≤◌, drop, slice_index};
ghost use Rattle.std.specs.Result.{result_err};
ghost use Rattle.market.specs.declared.node.Branch.{Branch};
ghost use Rattle.naming.specs.Faults.{twice_from, node_fault, first_fault, name_fault};
ghost use Rattle.naming.specs.Laws.{NamesLaw};
ghost use Rattle.naming.specs.Names.{named_before, node_before, branch_in};
ghost use Rattle.naming.specs.Repeats.{repeat_in};

use crate::fault::{Name, NameFault};
use crate::repeat::first_repeat;
use market::node::{Branch, Node};
use market::place::Place;
use market_lines::kind::Kind;

/// What the lines so far have named: the first words of those that have a name there, and the nodes.
#[derive(Clone, Copy)]
pub struct Noted<'a> {
    pub names: &'a [Name],
    pub nodes: &'a [Node],
}

/// The number at an index, or 0 past the end.
// Kept: 0 is what the definitions take for a number that is missing.
fn number_at(numbers: &[u16], index: usize) -> u16
    ensures { result ≡ slice_index numbers.now index }
{
    numbers.get(index).copied().unwrap_or(0)
}

/// Where the node of an H line stands.
fn branch_in(numbers: &[u16]) -> Branch
    ensures { result ≡ branch_in numbers.now }
{
    Branch {
        place: Place::from(number_at(numbers, 0)),
        parent: number_at(numbers, 1),
        took: number_at(numbers, 2),
    }
}

/// Checks that no word is named twice, where the word at index 0 has the place `first`.
fn check_words(words: &[u16], first: usize) -> Result<(), NameFault>
    requires { first ≤ 2 }
    ensures { result_err result ≡ twice_from first (repeat_in words.now) }
{
    match first_repeat(words) {
        Some(index) => Err(NameFault::Twice(index + first)),
        None => Ok(()),
    }
}

/// Checks that no word after the first is named twice.
fn check_rest(numbers: &[u16]) -> Result<(), NameFault>
    ensures { result_err result ≡ twice_from 2 (repeat_in (drop 1 numbers.now)) }
{
    match numbers {
        [_, rest @ ..] => check_words(rest, 2),
        [] => Ok(()),
    }
}

/// Whether an earlier line has this name.
fn named_before(names: &[Name], name: Name) -> bool
    ensures { result ≡ named_before names.now name.kind name.number }
{
    names.iter().any(|earlier| *earlier == name)
}

/// Whether a node stands there.
fn node_before(nodes: &[Node], branch: Branch) -> bool
    ensures { result ≡ node_before nodes.now branch.place.number branch.parent branch.took }
{
    nodes.iter().any(|node| node.is_at(branch))
}

/// Checks that no earlier line of the kind has named what the first word names.
fn check_name(names: &[Name], kind: Kind, numbers: &[u16]) -> Result<(), NameFault>
    ensures { result_err result ≡ first_fault names.now kind numbers.now None }
{
    let number = number_at(numbers, 0);
    if named_before(names, Name { kind, number }) {
        return Err(NameFault::Twice(1));
    }
    Ok(())
}

/// Checks the parent of an H line's node, and that no earlier node stands there.
fn check_node(nodes: &[Node], numbers: &[u16]) -> Result<(), NameFault>
    ensures { result_err result ≡ node_fault nodes.now numbers.now }
{
    let branch = branch_in(numbers);
    if !branch.fits(nodes) {
        return Err(NameFault::Parent);
    }
    if node_before(nodes, branch) {
        return Err(NameFault::Twice(1));
    }
    Ok(())
}

impl Noted<'_> {
    /// Checks what a line of a kind names: the error is what it names wrongly first.
    #[tactic(auto, using(crate::proofs::Naming::names_law))]
    pub fn check(&self, kind: Kind, numbers: &[u16]) -> Result<(), NameFault>
        ensures value { result_err result ≡ name_fault self.now.names.now self.now.nodes.now kind numbers.now }
        ensures law { NamesLaw self.now.names.now self.now.nodes.now kind numbers.now (result_err result) }
    {
        match kind {
            Kind::Market | Kind::Contents => Ok(()),
            Kind::Queue => check_words(numbers, 1),
            Kind::Heir => check_node(self.nodes, numbers),
            Kind::Seats | Kind::Tenant => check_name(self.names, kind, numbers),
            Kind::Priorities | Kind::Ranking => {
                check_name(self.names, kind, numbers)?;
                check_rest(numbers)
            }
        }
    }
}
