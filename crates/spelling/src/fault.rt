// What can be wrong with the letter or with the words of a line.
ghost use Rattle.std.specs.Prelude.{◌≡◌};
ghost use Rattle.spelling.specs.Faults.{word_cause, word_at};

/// A fault of the word layer.
#[derive(Clone, Copy, Debug, PartialEq, Eq)]
pub enum WordFault {
    /// The line is empty, or its first byte is not the letter due.
    Letter,
    /// The word at this place, from 1, is the leftmost malformed one.
    Malformed(usize),
}

impl WordFault {
    // Kept: a case with a field has no discriminant, so a match gives each number.
    /// The number of the fault.
    pub fn cause(self) -> u8
        ensures { result ≡ word_cause self }
    {
        match self {
            WordFault::Letter => 1,
            WordFault::Malformed(_) => 2,
        }
    }

    // Kept: 0 is what is printed where no word is named.
    /// The word that the fault names, from 1; 0 where it names none.
    pub fn word(self) -> usize
        ensures { result ≡ word_at self }
    {
        match self {
            WordFault::Letter => 0,
            WordFault::Malformed(place) => place,
        }
    }
}
