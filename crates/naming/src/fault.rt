// Names, and what can be wrong with them.
use market_lines::kind::Kind;

/// What a line names wrongly.
#[derive(Clone, Copy, Debug, PartialEq, Eq)]
pub enum NameFault {
    /// The parent of a node is neither 0 nor an earlier node of the same place, or is 0 and its took number is not.
    Parent,
    /// The word at this place, from 1, names what was named before.
    Twice(usize),
}

/// What the first word of a line names: the kind of the line and the number.
#[derive(Clone, Copy, Debug, PartialEq, Eq)]
pub struct Name {
    pub kind: Kind,
    pub number: u16,
}
