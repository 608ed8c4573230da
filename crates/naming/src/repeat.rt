// Numbers that repeat within a list.
ghost use Rattle.std.specs.Prelude.{◌≡◌, ◌<◌, length, IfSome};
ghost use Rattle.naming.specs.Repeats.{has, repeat_in, RepeatsExactly};

/// Whether a number is among numbers. All of them are compared, which is quicker than to stop at the first.
fn is_among(number: u16, numbers: &[u16]) -> bool
    ensures { result ≡ has number numbers.now }
{
    numbers
        .iter()
        .fold(false, |found, other| found | (*other == number))
}

/// The index of the first number that repeats an earlier one.
#[tactic(auto, using(crate::proofs::Repeating::turn, crate::proofs::Repeating::no_turn, crate::proofs::Repeating::repeats_exactly))]
pub(crate) fn first_repeat(numbers: &[u16]) -> Option<usize>
    ensures value { result ≡ repeat_in numbers.now }
    ensures within { IfSome result (λ i. i < length numbers.now) }
    ensures law { RepeatsExactly numbers.now result }
{
    for (i, number) in numbers.iter().enumerate() {
        if is_among(*number, &numbers[..i]) {
            return Some(i);
        }
    }
    None
}
