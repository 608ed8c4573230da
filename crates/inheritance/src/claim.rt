// Claims: the entries of a layer, and whom they name for a place.
ghost use Rattle.std.specs.Prelude.{◌≡◌, ℕ, Bool, List};
ghost use Rattle.market.specs.Rules.{Terms};
ghost use Rattle.succession.specs.Layers.{Claims};
ghost use Rattle.inheritance.specs.Laws.{ClaimLaws};

use market::agent::Agent;
use market::place::Place;
use market::sizes::Sizes;
use market::standing::Standing;

/// An entry of a layer, by which an agent may claim a place before the rule below is asked.
pub trait Claim: Sized {
    /// Entries are right for so many agents and places, as a test.
    ghost fits: { ℕ → ℕ → List Self → Bool };

    /// The same, in words.
    ghost Right: { ℕ → ℕ → List Self → Type 0 };

    /// Who claims a place in a row.
    ghost claims: { List Self → Claims };

    /// Who owns a place by entries over a rule.
    ghost Owns: { Terms → List Self → Type 0 };

    /// The test and the words agree, and the claims are lawful and own as they should.
    ghost laws: { ClaimLaws fits Right claims Owns };

    /// Whether entries are right for so many agents and places.
    fn are_right(sizes: Sizes, entries: &[Self]) -> bool
        ensures { result ≡ fits sizes.agents sizes.places entries.now };

    /// Who claims a place, if anybody does.
    fn claimant(entries: &[Self], row: &[Standing], place: Place) -> Option<Agent>
        ensures { result ≡ claims entries.now row.now place };
}
