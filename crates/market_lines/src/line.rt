// Lines as records of their kinds: each holds its stretch of the file, and its words as a view of it.
ghost use Rattle.std.specs.Prelude.{◌≡◌};
ghost use Rattle.std.specs.Result.{result_map_both};
ghost use Rattle.spelling.specs.Views.{numbers_of};
ghost use Rattle.market_lines.specs.Records.{whole, seen, line_read, LineByGrammar};

use crate::fault::LineFault;
use crate::kind::Kind;
use spelling::fault::WordFault;
use spelling::words::Words;

/// A line: the stretch of the file that it stands in, and its words.
// Kept: one case for each kind is a rule of the project, so that a match on a line has to name all kinds.
#[derive(Clone, Copy)]
pub enum Line<'a> {
    Market(&'a [u8], Words<'a>),
    Contents(&'a [u8], Words<'a>),
    Seats(&'a [u8], Words<'a>),
    Queue(&'a [u8], Words<'a>),
    Priorities(&'a [u8], Words<'a>),
    Heir(&'a [u8], Words<'a>),
    Tenant(&'a [u8], Words<'a>),
    Ranking(&'a [u8], Words<'a>),
}

impl<'a> Line<'a> {
    /// A line of a kind.
    fn new(kind: Kind, text: &'a [u8], words: Words<'a>) -> Line<'a>
        ensures { seen result ≡ whole kind text.now (numbers_of words.entry) }
    {
        match kind {
            Kind::Market => Line::Market(text, words),
            Kind::Contents => Line::Contents(text, words),
            Kind::Seats => Line::Seats(text, words),
            Kind::Queue => Line::Queue(text, words),
            Kind::Priorities => Line::Priorities(text, words),
            Kind::Heir => Line::Heir(text, words),
            Kind::Tenant => Line::Tenant(text, words),
            Kind::Ranking => Line::Ranking(text, words),
        }
    }

    /// The line of the kind due that stands in `text`.
    #[tactic(auto, using(crate::proofs::Lettering::line_by_grammar))]
    pub fn read(due: Kind, text: &'a [u8]) -> Result<Line<'a>, LineFault>
        ensures value { result_map_both seen (λ e. e) result ≡ line_read due text.now }
        ensures grammar { LineByGrammar due text.now (result_map_both seen (λ e. e) result) }
    {
        let (first, rest) = text.split_first().ok_or(WordFault::Letter)?;
        if !due.is(char::from(*first)) {
            return Err(WordFault::Letter.into());
        }
        let words = Words::read(rest)?;
        Ok(Line::new(due, text, words))
    }

    /// The kind of the line.
    pub fn kind(&self) -> Kind
        ensures { result ≡ (seen self.now).kind }
    {
        match self {
            Line::Market(..) => Kind::Market,
            Line::Contents(..) => Kind::Contents,
            Line::Seats(..) => Kind::Seats,
            Line::Queue(..) => Kind::Queue,
            Line::Priorities(..) => Kind::Priorities,
            Line::Heir(..) => Kind::Heir,
            Line::Tenant(..) => Kind::Tenant,
            Line::Ranking(..) => Kind::Ranking,
        }
    }

    /// The words of the line.
    pub fn words(&self) -> Words<'a>
        ensures { numbers_of result ≡ (seen self.now).numbers }
    {
        match self {
            Line::Market(_, words)
            | Line::Contents(_, words)
            | Line::Seats(_, words)
            | Line::Queue(_, words)
            | Line::Priorities(_, words)
            | Line::Heir(_, words)
            | Line::Tenant(_, words)
            | Line::Ranking(_, words) => *words,
        }
    }
}
