// The nodes of H lines.
ghost use Rattle.std.specs.Prelude.{◌≡◌};
ghost use Rattle.spelling.specs.Views.{numbers_of};
ghost use Rattle.market_file.specs.Ledgers.{node_in};

use market::agent::Agent;
use market::node::Node;
use market::place::Place;
use spelling::words::Words;

/// The node that the words of an H line say.
// Kept: a `From` needs a type of this crate, and a newtype for it is no plainer.
pub fn node_in(mut words: Words<'_>) -> Node
    ensures { result ≡ node_in (numbers_of words.entry) }
{
    let place = words.take_next();
    let parent = words.take_next();
    let took = words.take_next();
    let heir = words.take_next();
    Node {
        place: Place::from(place),
        parent,
        took,
        heir: Agent::from(heir),
    }
}
