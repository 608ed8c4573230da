// Phases: how far a round is.

/// The phase of a round.
#[derive(Clone, Copy, Debug, PartialEq, Eq)]
pub enum Phase {
    /// Made, with no market yet.
    Blank,
    /// All agents wait, and rankings can be filed.
    Filing,
    /// Cycles trade.
    Trading,
    /// Nobody waits.
    Ended,
}
