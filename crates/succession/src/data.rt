// What rules are made of: lists in which each entry is right after those before it.
ghost use Rattle.std.specs.Prelude.{◌≡◌, ℕ, Bool, List, []};
ghost use Rattle.std.specs.List.{list_any};
ghost use Rattle.succession.specs.Right.{entry_right};
ghost use Rattle.succession.specs.Scans.{each_after};

use market::sizes::Sizes;

/// An entry of a rule's data, for so many agents and places.
pub trait Entry: Sized {
    /// Two entries that may not stand in one list.
    ghost alike: { Self → Self → Bool };

    /// What an entry says is in range, and fits the entries before it.
    ghost sound: { ℕ → ℕ → List Self → Self → Bool };

    /// Whether another entry may not stand in one list with this one.
    fn is_like(&self, other: &Self) -> bool
        ensures { result ≡ alike self.now other.now };

    /// Whether what the entry says is in range, and fits the entries before it.
    fn is_sound(&self, sizes: Sizes, earlier: &[Self]) -> bool
        ensures { result ≡ sound sizes.agents sizes.places earlier.now self.now };
}

/// Whether one of the entries may not stand in one list with an entry. All of them are compared, several at once: `any`,
/// which stops at the first, takes four times the instructions.
fn any_like<E: Entry>(one: &E, others: &[E]) -> bool
    ensures { result ≡ list_any (E.Entry.alike one.now) others.now }
{
    others
        .iter()
        .fold(false, |found, other| found | one.is_like(other))
}

/// Whether an entry is right after the earlier ones.
fn is_right<E: Entry>(sizes: Sizes, earlier: &[E], next: &E) -> bool
    ensures { result ≡ entry_right E.Entry.alike (E.Entry.sound sizes.agents sizes.places) earlier.now next.now }
{
    next.is_sound(sizes, earlier) && !any_like(next, earlier)
}

/// Whether each entry is right after those before it.
pub fn all_right<E: Entry>(sizes: Sizes, entries: &[E]) -> bool
    ensures { result ≡ each_after (entry_right E.Entry.alike (E.Entry.sound sizes.agents sizes.places)) [] entries.now }
{
    entries
        .iter()
        .enumerate()
        .all(|(i, next)| is_right(sizes, &entries[..i], next))
}
