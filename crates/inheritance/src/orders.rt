// Orders: which order of all agents decides for each place.
ghost use Rattle.std.specs.Prelude.{◌≡◌, ℕ, Bool, List};
ghost use Rattle.market.specs.declared.agent.Agent.{Agent};
ghost use Rattle.market.specs.declared.place.Place.{Place};
ghost use Rattle.inheritance.specs.Laws.{OrdersLaws};

use market::agent::Agent;
use market::place::Place;
use market::sizes::Sizes;

/// Orders of all agents, in one list or in many.
pub trait Orders {
    /// What rules by such orders are made of.
    ghost Made: { Type 0 };

    /// What the rule of so many agents and places by the orders is made of.
    ghost made: { ℕ → ℕ → Self → Made };

    /// The orders are right for so many agents and places, as a test.
    ghost fits: { ℕ → ℕ → Self → Bool };

    /// The same, in words.
    ghost Right: { ℕ → ℕ → Self → Type 0 };

    /// The order for a place.
    ghost order: { Self → Place → List Agent };

    /// The test and the words agree, and right orders have one of all agents for each place.
    ghost laws: { OrdersLaws fits Right order };

    /// Whether the orders are right for so many agents and places.
    fn are_right(&self, sizes: Sizes) -> bool
        ensures { result ≡ fits sizes.agents sizes.places self.now };

    /// The order for a place.
    fn order_for(&self, place: Place) -> &[Agent]
        ensures { result.now ≡ order self.now place };
}
