// Members of the cycles on record.
use market::agent::Agent;
use market::place::Place;

/// A member of a cycle that traded: an agent, and the place that it took, or nothing.
#[derive(Clone, Copy, PartialEq, Eq)]
pub struct Member {
    pub agent: Agent,
    pub place: Option<Place>,
}
