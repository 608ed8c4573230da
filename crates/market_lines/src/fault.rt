// What can be wrong with a line or with a file. Each layer carries the fault of the layer below it whole.
ghost use Rattle.std.specs.Prelude.{◌≡◌};
ghost use Rattle.market_lines.specs.Causes.{line_cause, line_word, line_layer, market_cause, layer_of, spot_of, fault_line, fault_word};
ghost use Rattle.market_lines.specs.declared.fault.LineFault.TheVariants.{InWord};
ghost use Rattle.market_lines.specs.declared.fault.MarketFault.TheVariants.{InLine};

use spelling::fault::WordFault;

/// What is wrong with a line.
#[derive(Clone, Copy, Debug, PartialEq, Eq)]
pub enum LineFault {
    /// Its letter or one of its words.
    InWord(WordFault),
    /// It has too few words or too many.
    Count,
    /// The number of the word at this place, from 1, is the leftmost out of its range.
    Range(usize),
}

/// A line's fault, and the line's number, from 1.
#[derive(Clone, Copy, Debug, PartialEq, Eq)]
pub struct At {
    pub line: usize,
    pub fault: LineFault,
}

/// A line, from 1, and a word of it, from 1; word 0 where no word is meant.
// Kept: 0 for no word is what is printed.
#[derive(Clone, Copy, Debug, PartialEq, Eq)]
pub struct Spot {
    pub line: usize,
    pub word: usize,
}

/// What is wrong with a file.
#[derive(Clone, Copy, Debug, PartialEq, Eq)]
pub enum MarketFault {
    /// One of its lines.
    InLine(At),
    /// It has no bytes, or more than 65,535.
    Size,
    /// A count of its contents is wrong, or a line is missing or extra.
    Contents(Spot),
    /// The parent of an H line is wrong.
    Parent(Spot),
    /// A word names what was named before.
    Twice(Spot),
}

/// The layer that a fault belongs to.
#[derive(Clone, Copy, Debug, PartialEq, Eq)]
pub enum Layer {
    Word,
    Line,
    Market,
}

impl From<WordFault> for LineFault {
    ghost from_gives = { λ e r. r ≡ InWord e };

    fn from(e: WordFault) -> LineFault {
        LineFault::InWord(e)
    }
}

impl From<At> for MarketFault {
    ghost from_gives = { λ e r. r ≡ InLine e };

    fn from(e: At) -> MarketFault {
        MarketFault::InLine(e)
    }
}

impl LineFault {
    /// The layer that the fault belongs to.
    fn layer(self) -> Layer
        ensures { result ≡ line_layer self }
    {
        match self {
            LineFault::InWord(_) => Layer::Word,
            LineFault::Count | LineFault::Range(_) => Layer::Line,
        }
    }

    // Kept: a case with a field has no discriminant, so a match gives each number.
    /// The number of the fault.
    fn cause(self) -> u8
        ensures { result ≡ line_cause self }
    {
        match self {
            LineFault::InWord(fault) => fault.cause(),
            LineFault::Count => 3,
            LineFault::Range(_) => 4,
        }
    }

    // Kept: 0 is what is printed where no word is named.
    /// The word that the fault names, from 1; 0 where it names none.
    fn word(self) -> usize
        ensures { result ≡ line_word self }
    {
        match self {
            LineFault::InWord(fault) => fault.word(),
            LineFault::Count => 0,
            LineFault::Range(place) => place,
        }
    }
}

impl MarketFault {
    // Kept: a case with a field has no discriminant, so a match gives each number.
    /// The number of the fault.
    pub fn cause(self) -> u8
        ensures { result ≡ market_cause self }
    {
        match self {
            MarketFault::InLine(at) => at.fault.cause(),
            MarketFault::Size => 8,
            MarketFault::Contents(_) => 5,
            MarketFault::Twice(_) => 6,
            MarketFault::Parent(_) => 7,
        }
    }

    /// The layer that the fault belongs to.
    pub fn layer(self) -> Layer
        ensures { result ≡ layer_of self }
    {
        match self {
            MarketFault::InLine(at) => at.fault.layer(),
            MarketFault::Size
            | MarketFault::Contents(_)
            | MarketFault::Parent(_)
            | MarketFault::Twice(_) => Layer::Market,
        }
    }

    /// The line and the word that the fault names, if it names a line.
    pub(crate) fn spot(self) -> Option<Spot>
        ensures { result ≡ spot_of self }
    {
        match self {
            MarketFault::InLine(at) => Some(Spot {
                line: at.line,
                word: at.fault.word(),
            }),
            MarketFault::Size => None,
            MarketFault::Contents(spot) | MarketFault::Parent(spot) | MarketFault::Twice(spot) =>
                Some(spot),
        }
    }

    // Kept, here and below: 0 is what is printed where nothing is named.
    /// The line that the fault names, from 1; 0 where it names none.
    pub fn line(self) -> usize
        ensures { result ≡ fault_line self }
    {
        self.spot().map_or(0, |spot| spot.line)
    }

    /// The word that the fault names, from 1; 0 where it names none.
    pub fn word(self) -> usize
        ensures { result ≡ fault_word self }
    {
        self.spot().map_or(0, |spot| spot.word)
    }
}
