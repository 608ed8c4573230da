// Rules: what every inheritance rule answers, and the two laws that it keeps.
ghost use Rattle.std.specs.Prelude.{◌≡◌};
ghost use Rattle.market.specs.Rules.{Terms, Lawful};
ghost use Rattle.inheritance.specs.Questions.{owner_answer, QuestionLaw};

use crate::question::question_fits;
use market::agent::Agent;
use market::place::Place;
use market::refusal::Refusal;
use market::sizes::Sizes;
use market::standing::Standing;

/// An inheritance rule, which never changes once it is made.
pub trait Rule {
    /// What the rule means: how many agents and places it is for, and who owns a place in a row.
    ghost terms: { Self → Terms };

    /// It keeps both laws: where somebody waits, the owner of a place waits, and it owns the place for as long as it
    /// waits.
    ghost lawful: { (rule : Self) → Lawful (terms rule) };

    /// How many agents and places the rule is for.
    fn sizes(&self) -> Sizes
        ensures agents { result.agents ≡ (terms self.now).agents }
        ensures places { result.places ≡ (terms self.now).places };

    // Kept: row and place are two parameters, here and where claims and questions take them, since one row is asked about
    // each place in turn, and a struct of both would be made anew for each.
    /// The owner of a place in a row, unchecked: for a caller that knows that the question is proper, as one that asks
    /// many questions about one row.
    fn owner(&self, row: &[Standing], place: Place) -> Agent
        ensures { result ≡ (terms self.now).owner row.now place };

    /// The owner of a place in a row, where the question is proper.
    fn owner_of(&self, row: &[Standing], place: Place) -> Result<Agent, Refusal>
        ensures value { result ≡ owner_answer (terms self.now) row.now place }
        ensures law { QuestionLaw (terms self.now) row.now place result }
    {
        if question_fits(self.sizes(), row, place) {
            Ok(self.owner(row, place))
        } else {
            Err(Refusal::Question)
        }
    }
}
