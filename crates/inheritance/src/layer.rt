// Layers: claims over a rule below.
ghost use Rattle.std.specs.Prelude.{◌≡◌, IfOk};
ghost use Rattle.std.specs.Result.{result_map_both};
ghost use Rattle.succession.specs.Layers.{layered};
ghost use Rattle.inheritance.specs.Making.{layer_made, MadeExactly};
ghost use Rattle.inheritance.specs.Meanings.{layer_of};

use crate::claim::Claim;
use crate::rule::Rule;
use market::agent::Agent;
use market::place::Place;
use market::refusal::Refusal;
use market::sizes::Sizes;
use market::standing::Standing;

/// A layer: whoever claims a place by its entries owns it, and otherwise the rule below answers.
#[derive(Drop)]
pub struct Layer<'a, R: Rule, C: Claim> {
    below: R,
    entries: &'a [C],
}

impl<'a, R: Rule, C: Claim> Layer<'a, R, C> {
    /// The layer of entries over a rule.
    pub fn new(below: R, entries: &'a [C]) -> Result<Layer<'a, R, C>, Refusal>
    where
        R: Drop,
        ensures value { result_map_both (λ t. layer_of t.below t.entries.now) (λ e. e) result ≡ layer_made C.fits (R.Rule.terms below) below entries.now }
        ensures exactly { let T = R.Rule.terms below in MadeExactly (C.Right T.agents T.places entries.now) result }
        ensures owns { IfOk result (λ t. C.Owns (R.Rule.terms t.below) t.entries.now) }
    {
        if C::are_right(below.sizes(), entries) {
            Ok(Layer { below, entries })
        } else {
            Err(Refusal::Rule)
        }
    }
}

impl<'a, R: Rule, C: Claim> Rule for Layer<'a, R, C> {
    ghost terms = { λ t. layered (R.Rule.terms t.below) (C.claims t.entries.now) };

    ghost lawful = { λ t. C.laws.lawful (R.Rule.terms t.below) t.entries.now (R.Rule.lawful t.below) };

    fn sizes(&self) -> Sizes {
        self.below.sizes()
    }

    fn owner(&self, row: &[Standing], place: Place) -> Agent {
        // Kept: tried with `unwrap_or_else`, which proves only once the closure has a clause and an answer of its own; the
        // match needs neither.
        match C::claimant(self.entries, row, place) {
            Some(claimant) => claimant,
            None => self.below.owner(row, place),
        }
    }
}
