// What the lines so far have named, in room that was reserved beforehand.
ghost use Rattle.std.specs.Prelude.{◌≤◌, vec_capacity};

use market::node::Node;
use naming::fault::Name;

mod taking;

/// What the lines of a file have named so far; the numbers of the line at hand stand beside it.
// Kept: lists that are searched, since a map would allocate once the room is made.
#[derive(Drop)]
pub struct Ledger {
    names: Vec<Name>,
    nodes: Vec<Node>,
    numbers: Vec<u16>,
    ghost names_room: { 700 ≤ vec_capacity names },
    ghost nodes_room: { 700 ≤ vec_capacity nodes },
    ghost numbers_room: { 201 ≤ vec_capacity numbers },
}
