// The words of a line, as a view of its text that yields their numbers: nothing is copied.
ghost use Rattle.std.specs.Prelude.{◌≡◌, length, drop, slice_index};
ghost use Rattle.std.specs.Result.{result_map_both};
ghost use Rattle.spelling.specs.Reading.{words_read, ReadsByGrammar};
ghost use Rattle.spelling.specs.Views.{numbers_of, readings_left, Yields};
ghost use Rattle.spelling.specs.Words.{malformed, numbers_in};
ghost use Rattle.std.specs.Iterator.{at_most, item_count, YieldsFirst};

use crate::cut::cut;
use crate::fault::WordFault;
use crate::word::number;

// Kept: no ghost field says that all words are well spelled, since `after_letter` makes a view of any text.
/// The words of a line that are still to come.
#[derive(Clone, Copy)]
pub struct Words<'a> {
    rest: &'a [u8],
}

/// What the words of a text are read as, from the left: a number, or none at a malformed word.
#[derive(Clone, Copy)]
struct Readings<'a> {
    rest: &'a [u8],
}

impl<'a> Iterator for Readings<'a> {
    type Item = Option<u16>;

    ghost next_gives = { YieldsFirst readings_left };

    ghost remaining = { item_count readings_left };

    fn next(&mut self) -> Option<Option<u16>> {
        let (space, after) = self.rest.split_first()?;
        if *space != b' ' {
            self.rest = &[];
            return Some(None);
        }
        let (word, rest) = cut(after, b' ');
        self.rest = rest;
        Some(number(word))
    }
}

/// The place, from 1, of the leftmost malformed word of a text.
fn malformed_word(text: &[u8]) -> Option<usize>
    ensures { result ≡ malformed text.now }
{
    let mut readings = Readings { rest: text };
    readings
        .position(|reading| reading.is_none())
        .map(|i| i + 1)
}

impl<'a> Words<'a> {
    /// The words of a text, what stands after a line's letter, where none of them is malformed.
    #[tactic(auto, using(crate::proofs::Sentences::reads_by_grammar))]
    pub fn read(text: &'a [u8]) -> Result<Words<'a>, WordFault>
        ensures value { result_map_both numbers_of (λ e. e) result ≡ words_read text.now }
        ensures grammar { ReadsByGrammar text.now (result_map_both numbers_of (λ e. e) result) }
    {
        match malformed_word(text) {
            Some(place) => Err(WordFault::Malformed(place)),
            None => Ok(Words { rest: text }),
        }
    }

    /// The words of a line, what stands after its letter, up to the leftmost malformed one.
    pub fn after_letter(line: &'a [u8]) -> Words<'a>
        ensures { numbers_of result ≡ numbers_in (drop 1 line.now) }
    {
        Words {
            rest: line.get(1..).unwrap_or_default(),
        }
    }

    /// How many words are still to come.
    pub fn len(&self) -> usize
        ensures { result ≡ length (numbers_of self.now) }
    {
        self.count()
    }

    // Kept: the 0 is what the definition of a missing number says, and `next` answers an `Option`.
    /// The next number, or 0 where there is none.
    pub fn take_next(&mut self) -> u16
        ensures value { result ≡ slice_index (numbers_of self.old) 0 }
        ensures rest { numbers_of self.new ≡ drop 1 (numbers_of self.old) }
    {
        self.next().unwrap_or(0)
    }
}

impl<'a> Iterator for Words<'a> {
    type Item = u16;

    ghost next_gives = { λ s r t. Yields (numbers_of s) r (numbers_of t) };

    ghost remaining = { λ s. at_most (length (numbers_of s)) };

    fn next(&mut self) -> Option<u16> {
        let mut readings = Readings { rest: self.rest };
        let value = readings.next()??;
        self.rest = readings.rest;
        Some(value)
    }
}
