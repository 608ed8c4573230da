// Refusals: why a call is refused.
ghost use Rattle.std.specs.Prelude.{◌≡◌};
ghost use Rattle.market.specs.Refusals.{refusal_number};

/// Why a call of a round or of a rule is refused.
#[derive(Clone, Copy, Debug, PartialEq, Eq)]
pub enum Refusal {
    /// The phase of the round does not allow the call.
    Phase = 11,
    /// The numbers of agents or places are out of range, or not those of the rule.
    Sizes = 12,
    /// A capacity is out of range.
    Capacity = 13,
    /// There is no such agent.
    Agent = 14,
    /// A list has more places than there are.
    Length = 15,
    /// There is no such place.
    Place = 16,
    /// A place is listed twice.
    Repeat = 17,
    /// The agent has departed.
    Departed = 18,
    /// No cycle of the present row passes through the agent.
    Cycle = 19,
    /// The buffer is shorter than the text.
    Buffer = 20,
    /// The owner question is not proper.
    Question = 21,
    /// The data do not make a rule.
    Rule = 22,
}

impl Refusal {
    /// The number of the refusal.
    pub fn number(self) -> u8
        ensures { result ≡ refusal_number self }
    {
        self as u8
    }
}
