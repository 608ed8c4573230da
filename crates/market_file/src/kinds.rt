// The kinds of lines that the sections of a file have, one after another.
ghost use Rattle.std.specs.Prelude.{◌≡◌, ◌+◌, MatchBool};
ghost use Rattle.std.specs.Iterator.{YieldsFirst, item_count};
ghost use Rattle.market_file.specs.Contents.{kinds_left};

use crate::form::Contents;
use market_lines::kind::Kind;

/// The kinds of the lines of the sections that are still to come.
#[derive(Drop)]
pub struct Kinds {
    left: Contents,
}

impl Kinds {
    /// The kinds of all lines of the sections.
    pub(crate) fn new(contents: Contents) -> Kinds
        ensures { result.left ≡ contents }
    {
        Kinds { left: contents }
    }
}

/// Takes one off a count that is not 0.
fn take_one(count: &mut u16) -> bool
    ensures { MatchBool result (count.old ≡ count.new + 1) ((count.old ≡ 0) × (count.new ≡ 0)) }
{
    match count.checked_sub(1) {
        Some(less) => {
            *count = less;
            true
        }
        None => false,
    }
}

impl Iterator for Kinds {
    type Item = Kind;

    ghost next_gives = { YieldsFirst kinds_left };

    ghost remaining = { item_count kinds_left };

    fn next(&mut self) -> Option<Kind> {
        let left = &mut self.left;
        if take_one(&mut left.seats) {
            Some(Kind::Seats)
        } else if take_one(&mut left.queues) {
            Some(Kind::Queue)
        } else if take_one(&mut left.priorities) {
            Some(Kind::Priorities)
        } else if take_one(&mut left.heirs) {
            Some(Kind::Heir)
        } else if take_one(&mut left.tenants) {
            Some(Kind::Tenant)
        } else if take_one(&mut left.rankings) {
            Some(Kind::Ranking)
        } else {
            None
        }
    }
}
