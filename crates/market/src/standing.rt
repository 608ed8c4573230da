// Standings: whether an agent still waits, and with what it departed.
use crate::place::Place;

/// Where an agent stands in a row.
#[derive(Clone, Copy, Debug, PartialEq, Eq)]
pub enum Standing {
    /// It waits.
    Waiting,
    /// It departed with a place.
    Placed(Place),
    /// It departed with nothing.
    Unplaced,
}
