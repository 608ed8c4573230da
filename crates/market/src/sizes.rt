// Sizes: how many agents and places there are.

/// The most agents of a market.
pub const MOST_AGENTS: u16 = 200;

/// The most places of a market.
pub const MOST_PLACES: u16 = 40;

/// The most seats of a place.
pub const MOST_SEATS: u16 = 200;

/// How many agents and places there are.
#[derive(Clone, Copy, Debug, PartialEq, Eq, Default)]
pub struct Sizes {
    pub agents: u16,
    pub places: u16,
}
