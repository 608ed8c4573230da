// The rule at the bottom of a pile: a queue or priorities, chosen while the program runs.
ghost use Rattle.inheritance.specs.Views.{base_terms, base_lawful};

use crate::priorities::Priorities;
use crate::queue::Queue;
use crate::rule::Rule;
use market::agent::Agent;
use market::place::Place;
use market::sizes::Sizes;
use market::standing::Standing;

/// A queue or priorities.
#[derive(Clone, Copy)]
pub enum Base<'a> {
    ByQueue(Queue<'a>),
    ByPriorities(Priorities<'a>),
}

impl<'a> Rule for Base<'a> {
    ghost terms = { base_terms };

    ghost lawful = { base_lawful };

    fn sizes(&self) -> Sizes {
        match self {
            Base::ByQueue(queue) => queue.sizes(),
            Base::ByPriorities(priorities) => priorities.sizes(),
        }
    }

    fn owner(&self, row: &[Standing], place: Place) -> Agent {
        match self {
            Base::ByQueue(queue) => queue.owner(row, place),
            Base::ByPriorities(priorities) => priorities.owner(row, place),
        }
    }
}
