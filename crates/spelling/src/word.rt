// Words: a word is 1 to 5 decimal digits, with no leading zero unless it is 0 itself, and at most 65,535.
ghost use Rattle.std.specs.Prelude.{◌≡◌, ◌≤◌, length};
ghost use Rattle.spelling.specs.Grammar.{WordExactly};
ghost use Rattle.spelling.specs.Words.{digits_after, spelled};

// Kept: tried `try_fold`, which reads a file of words in a tenth more instructions than this loop.
/// The number that digits write, or `None` where a byte is no digit.
fn digits(text: &[u8]) -> Option<u32>
    requires { length text.now ≤ 5 }
    ensures { result ≡ digits_after 0 text.now }
{
    let mut n: u32 = 0;
    for b in text {
        if !b.is_ascii_digit() {
            return None;
        }
        n = 10 * n + u32::from(*b - b'0');
    }
    Some(n)
}

/// The number that a word's bytes spell, if they spell one.
pub fn number(text: &[u8]) -> Option<u16>
    ensures value { result ≡ spelled text.now }
    ensures grammar { WordExactly text.now result }
{
    match text {
        [] => None,
        [b'0', _, ..] => None,
        [_, _, _, _, _, _, ..] => None,
        _ => u16::try_from(digits(text)?).ok(),
    }
}
