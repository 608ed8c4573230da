// The line that is due: its kind, how many words it may have, and in which range each of their numbers lies.
ghost use Rattle.std.specs.Prelude.{◌≡◌, ◌≤◌, length, false};
ghost use Rattle.std.specs.Range.{range_inclusive_start, range_inclusive_end, range_inclusive_exhausted};
ghost use Rattle.std.specs.Result.{result_map_both};
ghost use Rattle.spelling.specs.Views.{numbers_of};
ghost use Rattle.market_lines.specs.Records.{seen};
ghost use Rattle.market_file.specs.Bounds.{least_words, most_words, lowest, highest, misfit};
ghost use Rattle.market_file.specs.Files.{placed};
ghost use Rattle.market_file.specs.FormedLines.{ranged, fitting, line_formed, LineByForm};

use market::node::MOST_NODES;
use market::sizes::{MOST_AGENTS, MOST_PLACES, MOST_SEATS, Sizes};
use market_lines::fault::{At, LineFault};
use market_lines::kind::Kind;
use market_lines::line::Line;
use spelling::words::Words;
use std::ops::RangeInclusive;

/// The line that is due: its kind, and the sizes of the market.
#[derive(Clone, Copy, Debug, PartialEq, Eq)]
pub struct Due {
    pub kind: Kind,
    pub sizes: Sizes,
}

impl Due {
    /// How many words the line may have.
    fn word_counts(self) -> RangeInclusive<usize>
        ensures least { range_inclusive_start result ≡ least_words self.kind self.sizes }
        ensures most { range_inclusive_end result ≡ most_words self.kind self.sizes }
        ensures fresh { range_inclusive_exhausted result ≡ false }
        ensures few { range_inclusive_end result ≤ 65536 }
    {
        let agents = usize::from(self.sizes.agents);
        let places = usize::from(self.sizes.places);
        match self.kind {
            Kind::Market | Kind::Seats | Kind::Tenant => 2..=2,
            Kind::Contents => 6..=6,
            Kind::Queue => agents..=agents,
            Kind::Priorities => agents + 1..=agents + 1,
            Kind::Heir => 4..=4,
            Kind::Ranking => 1..=places + 1,
        }
    }

    /// The numbers that the word at a place, from 1, may have.
    fn word_range(self, place: usize) -> RangeInclusive<u16>
        ensures low { range_inclusive_start result ≡ lowest self.kind place }
        ensures high { range_inclusive_end result ≡ highest self.kind self.sizes place }
        ensures fresh { range_inclusive_exhausted result ≡ false }
    {
        let Sizes { agents, places } = self.sizes;
        match (self.kind, place) {
            (Kind::Market, 1) => 1..=MOST_AGENTS,
            (Kind::Market, _) => 1..=MOST_PLACES,
            (Kind::Contents, _) => 0..=65_535,
            (Kind::Seats, 1) => 1..=places,
            (Kind::Seats, _) => 1..=MOST_SEATS,
            (Kind::Queue, _) => 1..=agents,
            (Kind::Priorities, 1) => 1..=places,
            (Kind::Priorities, _) => 1..=agents,
            (Kind::Heir, 1) => 1..=places,
            (Kind::Heir, 2) => 0..=MOST_NODES,
            (Kind::Heir, 3) => 0..=places,
            (Kind::Heir, _) => 1..=agents,
            (Kind::Tenant, 1) => 1..=places,
            (Kind::Tenant, _) => 1..=agents,
            (Kind::Ranking, 1) => 1..=agents,
            (Kind::Ranking, _) => 1..=places,
        }
    }

    /// Checks that each number is in its range.
    fn check_ranges(self, words: Words<'_>) -> Result<(), LineFault>
        requires { length (numbers_of words) ≤ 65536 }
        ensures { result ≡ ranged (misfit self.kind self.sizes 1 (numbers_of words.entry)) }
    {
        for (index, number) in words.enumerate() {
            let place = index + 1;
            if !self.word_range(place).contains(&number) {
                return Err(LineFault::Range(place));
            }
        }
        Ok(())
    }

    /// Checks the count of words and then the range of each.
    fn check(self, words: Words<'_>) -> Result<(), LineFault>
        ensures { result ≡ fitting self.kind self.sizes (numbers_of words.entry) }
    {
        if !self.word_counts().contains(&words.len()) {
            return Err(LineFault::Count);
        }
        self.check_ranges(words)
    }

    /// The line that stands in `text`.
    #[tactic(auto, using(crate::proofs::Forming::line_by_form))]
    pub fn read<'a>(self, text: &'a [u8]) -> Result<Line<'a>, LineFault>
        ensures value { result_map_both seen (λ e. e) result ≡ line_formed self.kind self.sizes text.now }
        ensures law { LineByForm self.sizes self.kind text.now (result_map_both seen (λ e. e) result) }
    {
        let line = Line::read(self.kind, text)?;
        self.check(line.words())?;
        Ok(line)
    }

    /// The same; a fault says the line's number.
    pub(crate) fn read_numbered<'a>(self, number: usize, text: &'a [u8]) -> Result<Line<'a>, At>
        ensures { result_map_both seen (λ e. e) result ≡ placed number (line_formed self.kind self.sizes text.now) }
    {
        self.read(text).map_err(|fault| At {
            line: number,
            fault,
        })
    }
}
