// The lines of a file: each ends at a line feed, which the last may lack.
ghost use Rattle.std.specs.Prelude.{◌≡◌, length};
ghost use Rattle.std.specs.Option.{option_map};
ghost use Rattle.spelling.specs.Cuts.{until};
ghost use Rattle.spelling.specs.Lines.{lines, numbered, past, Gives, Rejoins};
ghost use Rattle.std.specs.Iterator.{at_most};

use crate::cut::cut;

/// The first line of `bytes`, and what stands after its line feed.
fn split_line(bytes: &[u8]) -> (&[u8], &[u8])
    ensures line { result.0.now ≡ until 10 bytes.now }
    ensures rest { result.1.now ≡ past bytes.now }
{
    let (line, rest) = cut(bytes, b'\n');
    (line, rest.get(1..).unwrap_or_default())
}

/// The lines of a file that are still to come.
#[derive(Drop)]
pub struct Lines<'a> {
    rest: &'a [u8],
}

impl<'a> Lines<'a> {
    /// All lines of a file.
    pub fn new(file: &'a [u8]) -> Lines<'a>
        ensures all { result.rest.now ≡ file.now }
        ensures rejoin { Rejoins file.now (lines result.rest.now) }
    {
        Lines { rest: file }
    }
}

impl<'a> Iterator for Lines<'a> {
    type Item = &'a [u8];

    ghost next_gives = { λ s r t. Gives s.rest.now r t.rest.now };

    ghost remaining = { λ s. at_most (length s.rest.now) };

    fn next(&mut self) -> Option<&'a [u8]> {
        if self.rest.is_empty() {
            return None;
        }
        let (line, rest) = split_line(self.rest);
        self.rest = rest;
        Some(line)
    }
}

/// The line of a file with a number, counted from 1.
pub fn line_at(file: &[u8], number: usize) -> Option<&[u8]>
    ensures { option_map (λ x. x.now) result ≡ numbered (lines file.now) number }
{
    Lines::new(file).nth(number.checked_sub(1)?)
}
