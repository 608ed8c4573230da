// What the first two lines of a file say: the sizes of the market, and the contents.
ghost use Rattle.std.specs.Prelude.{◌≡◌, ◌+◌, ◌<◌, MatchBool};
ghost use Rattle.std.specs.List.{slice_get};
ghost use Rattle.market_file.specs.Contents.{kinds_of, kinds_left};

use crate::kinds::Kinds;
use market::sizes::Sizes;
use market_lines::kind::Kind;

/// More than the lines that the sections of a file can have.
pub const MOST_LINES: usize = 700;

/// The most words of a line: a place and the most agents.
pub const MOST_WORDS: usize = 201;

/// How many lines each section has.
#[derive(Clone, Copy, Debug, PartialEq, Eq)]
pub struct Contents {
    pub seats: u16,
    pub queues: u16,
    pub priorities: u16,
    pub heirs: u16,
    pub tenants: u16,
    pub rankings: u16,
}

/// The form of a file: what its first two lines say.
#[derive(Clone, Copy, Debug, PartialEq, Eq)]
pub struct Form {
    pub sizes: Sizes,
    pub contents: Contents,
}

/// Whether so many lines are left that a whole section of lines is passed; if so, they are left without it.
fn is_past(left: &mut usize, count: u16) -> bool
    ensures { MatchBool result (left.old ≡ count + left.new) ((left.old < count) × (left.new ≡ left.old)) }
{
    match left.checked_sub(usize::from(count)) {
        Some(beyond) => {
            *left = beyond;
            true
        }
        None => false,
    }
}

impl Contents {
    /// The kinds of the lines of the sections, in file order.
    pub fn kinds(&self) -> Kinds
        ensures { kinds_left result ≡ kinds_of self.now }
    {
        Kinds::new(*self)
    }

    /// The kind of line that is due after so many lines of the sections, where one is.
    // Kept: the sections stand in order here and in `Kinds::next`, both by `kinds_of`. `self.kinds().nth(after)` takes a
    // step for each line before.
    #[tactic(auto, using(crate::proofs::Dues::inside, crate::proofs::Dues::past))]
    pub fn due(&self, after: usize) -> Option<Kind>
        ensures { result ≡ slice_get (kinds_of self.now) after }
    {
        let mut left = after;
        if !is_past(&mut left, self.seats) {
            Some(Kind::Seats)
        } else if !is_past(&mut left, self.queues) {
            Some(Kind::Queue)
        } else if !is_past(&mut left, self.priorities) {
            Some(Kind::Priorities)
        } else if !is_past(&mut left, self.heirs) {
            Some(Kind::Heir)
        } else if !is_past(&mut left, self.tenants) {
            Some(Kind::Tenant)
        } else if !is_past(&mut left, self.rankings) {
            Some(Kind::Ranking)
        } else {
            None
        }
    }
}
