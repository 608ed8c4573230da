// What the words of a line stand for, gathered in room that was reserved beforehand.
ghost use Rattle.std.specs.Prelude.{◌≡◌, ℕ, ◌≤◌, map, take, length, vec_capacity};
ghost use Rattle.spelling.specs.Views.{numbers_of};

use market::agent::Agent;
use market::place::Place;
use spelling::words::Words;

/// What `from` makes of a number, as a function.
// Kept: a clause of `gather` maps the numbers, and `From` gives a relation alone.
pub trait Numbered: From<u16> + Drop {
    ghost stands: { ℕ → Self };

    ghost made: { (n : ℕ) (x : Self) → Self.from_gives n x → x ≡ stands n };
}

impl Numbered for u16 {
    ghost stands = { λ n. n };

    ghost made = { λ n x e. e };
}

impl Numbered for Agent {
    ghost stands = { λ n. record { number = n } };

    ghost made = { λ n x e. e };
}

impl Numbered for Place {
    ghost stands = { λ n. record { number = n } };

    ghost made = { λ n x e. e };
}

/// Makes of a list what the words stand for, as many as it has room for.
pub fn gather<T: Numbered>(list: &mut Vec<T>, words: Words<'_>)
    ensures items { list.new.items ≡ map T.Numbered.stands (take (vec_capacity list.old) (numbers_of words.entry)) }
    ensures all { length (numbers_of words.entry) ≤ vec_capacity list.old → list.new.items ≡ map T.Numbered.stands (numbers_of words.entry) }
    ensures capacity { vec_capacity list.new ≡ vec_capacity list.old }
{
    list.clear();
    for number in words.take(list.capacity()) {
        list.push_reserved(T::from(number));
    }
}
