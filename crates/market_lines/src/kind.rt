// The kinds of lines: the first letter of a line decides its kind.
ghost use Rattle.std.specs.Prelude.{◌≡◌, ◌==◌};
ghost use Rattle.std.specs.Result.{result_ok};
ghost use Rattle.market_lines.specs.Kinds.{kind_of, letter_of};

/// The kinds of lines, in the order in which a file has them.
#[derive(Clone, Copy, Debug, PartialEq, Eq)]
pub enum Kind {
    /// `M`: how many agents and places there are.
    Market,
    /// `C`: how many lines each section has.
    Contents,
    /// `S`: a place and its capacity.
    Seats,
    /// `Q`: the one order of all agents.
    Queue,
    /// `P`: a place and its order of all agents.
    Priorities,
    /// `H`: a node of a place's inheritance tree.
    Heir,
    /// `T`: a place and its tenant.
    Tenant,
    /// `R`: an agent and its ranking.
    Ranking,
}

/// A letter that stands for no kind.
#[derive(Clone, Copy, Debug, PartialEq, Eq)]
pub struct UnknownLetter;

impl TryFrom<char> for Kind {
    type Error = UnknownLetter;

    ghost try_from_gives = { λ letter r. result_ok r ≡ kind_of letter };

    fn try_from(letter: char) -> Result<Kind, UnknownLetter> {
        match letter {
            'M' => Ok(Kind::Market),
            'C' => Ok(Kind::Contents),
            'S' => Ok(Kind::Seats),
            'Q' => Ok(Kind::Queue),
            'P' => Ok(Kind::Priorities),
            'H' => Ok(Kind::Heir),
            'T' => Ok(Kind::Tenant),
            'R' => Ok(Kind::Ranking),
            _ => Err(UnknownLetter),
        }
    }
}

impl Kind {
    /// Whether a letter stands for the kind.
    pub(crate) fn is(self, letter: char) -> bool
        ensures { result ≡ (letter == letter_of self) }
    {
        Kind::try_from(letter) == Ok(self)
    }
}
