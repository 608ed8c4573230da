//! Hierarchical exchange by top trading cycles: what is proved of it for every economy. The functions do nothing; each
//! contract states a theorem.
#![tactic(auto)]

ghost use Rattle.std.specs.Prelude.{◌≡◌, [], ◌∷◌, map, Some, None};
ghost use Rattle.market.specs.declared.standing.Standing.TheVariants.{Placed, Unplaced};
ghost use Rattle.trading.specs.Cycles.{cycle_through};
ghost use Rattle.trading.specs.Economies.{all_waiting};
ghost use Rattle.trading.specs.Examples.{PrioritiesLawful, ThreeLawful, agent, place, three, wishes};
ghost use Rattle.trading.specs.Rankings.{Better, Worse};
ghost use Rattle.trading.specs.Stages.{last_row};
ghost use Rattle.trading.specs.Theorems.{
  AllWaitingProper,
  BetterInWords,
  CycleIsFound,
  CycleLasts,
  EquallyGood,
  FirstFinds,
  FoundIsCycle,
  NoAgentGains,
  NoGroupGains,
  NobodyBossy,
  OutcomeWithin,
  PointsAtBest,
  RunEnds,
  RunIsStaged,
  RunsAgree,
  SameMembers,
  SameRuns,
  SomebodyWorse,
  StagedOnce,
  TradeProper,
  TradeWithin,
  TradesCommute,
  WalkMeetsCycle,
};

/// A listed place is better than every later one and than nothing, which is better than an unlisted place.
pub fn better_in_words()
    ensures { BetterInWords }
{}

/// Of two seats each at least as good as the other, and as nothing, the one is the other.
pub fn equally_good()
    ensures { EquallyGood }
{}

/// What an agent points at can be had, and all else that can be had is worse by its ranking.
pub fn points_at_best()
    ensures { PointsAtBest }
{}

/// The row in which all agents wait is one of the economy.
pub fn all_waiting_proper()
    ensures { AllWaitingProper }
{}

/// A cycle's trade keeps to rows of the economy.
pub fn trade_proper()
    ensures { TradeProper }
{}

/// A cycle's trade keeps every place within its capacity.
pub fn trade_within()
    ensures { TradeWithin }
{}

/// A complete run ends in an allocation within the capacities.
pub fn outcome_within()
    ensures { OutcomeWithin }
{}

/// A walk from an agent that waits meets a cycle within as many steps as there are agents.
pub fn walk_meets_cycle()
    ensures { WalkMeetsCycle }
{}

/// What is found as the cycle through an agent is a cycle that starts with it.
pub fn found_is_cycle()
    ensures { FoundIsCycle }
{}

/// A cycle is found through each of its members.
pub fn cycle_is_found()
    ensures { CycleIsFound }
{}

/// What is found through the first agent of a cycle is the cycle itself.
pub fn first_finds()
    ensures { FirstFinds }
{}

/// Two cycles with a common agent have the same members.
pub fn same_members()
    ensures { SameMembers }
{}

/// Of two cycles without a common agent, when one has traded the other is still a cycle.
pub fn cycle_lasts()
    ensures { CycleLasts }
{}

/// Whichever of them trades first, the row after both is the same.
pub fn trades_commute()
    ensures { TradesCommute }
{}

/// From every row a complete run leads somewhere.
pub fn run_ends()
    ensures { RunEnds }
{}

/// Two complete runs from one row end in the same row.
pub fn runs_agree()
    ensures { RunsAgree }
{}

/// Under two rules with the same owners the runs are the same.
pub fn same_runs()
    ensures { SameRuns }
{}

/// The staged procedure has exactly one last row, the one that is computed.
pub fn staged_once()
    ensures { StagedOnce }
{}

/// A complete run from all agents waiting ends in the last row of the staged procedure.
pub fn run_is_staged()
    ensures { RunIsStaged }
{}

/// No group of agents gains by other rankings.
pub fn no_group_gains()
    ensures { NoGroupGains }
{}

/// No agent gains by another ranking.
pub fn no_agent_gains()
    ensures { NoAgentGains }
{}

/// No agent changes another's seat without its own.
pub fn nobody_bossy()
    ensures { NobodyBossy }
{}

/// Every other allocation within the capacities is worse for some agent.
pub fn somebody_worse()
    ensures { SomebodyWorse }
{}

/// Priorities keep the two laws.
pub fn priorities_lawful()
    ensures { PrioritiesLawful }
{}

/// By the ranking 2 1, place 2 is better than place 1, place 1 than nothing, and nothing than place 3.
pub fn ranking_computes()
    ensures later { Better (map place (2 ∷ 1 ∷ [])) (Some (place 2)) (Some (place 1)) }
    ensures listed { Better (map place (2 ∷ 1 ∷ [])) (Some (place 1)) None }
    ensures unlisted { Worse (map place (2 ∷ 1 ∷ [])) (Some (place 3)) None }
{}

/// The rule of an economy of three agents keeps the two laws, so the theorems speak of something.
pub fn three_lawful()
    ensures { ThreeLawful }
{}

/// In this economy agents 1 and 2 are a cycle and 3 is on none; the staged procedure gives them place 2, place 1
/// and nothing.
pub fn outcome_computes()
    ensures cycle { cycle_through three wishes (all_waiting 3) (agent 1) ≡ Some (agent 1 ∷ agent 2 ∷ []) }
    ensures none { cycle_through three wishes (all_waiting 3) (agent 3) ≡ None }
    ensures last { last_row three wishes ≡ Placed (place 2) ∷ Placed (place 1) ∷ Unplaced ∷ [] }
{}
