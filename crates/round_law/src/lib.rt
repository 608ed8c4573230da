//! Rounds: what each call makes of a round and answers, and the laws that bind all rounds. The functions do nothing;
//! each contract states a law, or what a worked round comes to.
#![tactic(auto)]

ghost use Rattle.std.specs.Prelude.{◌≡◌, [], ◌∷◌, ◌++◌, map, Ok, Err, codes};
ghost use Rattle.market.specs.declared.refusal.Refusal.{Refusal};
ghost use Rattle.market.specs.declared.standing.Standing.{Standing};
ghost use Rattle.trading.specs.Examples.{agent, place};
ghost use Rattle.round_law.specs.Calls.{TRADE};
ghost use Rattle.round_law.specs.Examples.{FourAlike, FourBound, FourBoundStill, FourDiffer, FourLawful, closing, filings, finishing, four, one_by_one, otherwise};
ghost use Rattle.round_law.specs.Histories.{after};
ghost use Rattle.round_law.specs.Laws.{
  ContentsRight,
  FileAccepted,
  FilingRight,
  FinishRight,
  OpenAccepted,
  OutcomesStaged,
  PhasesForward,
  RecordsTrue,
  RefusalsKeep,
  RoundsAgree,
  TextsShort,
  TradesRight,
};
ghost use Rattle.round_law.specs.States.{blank};
ghost use Rattle.round_law.specs.Steps.{close_answer, file_answer, finish_answer, open_answer, trade_answer};
ghost use Rattle.round_law.specs.Texts.{audit_text, listing_text, standing_answer, text_answer};

pub mod member;
pub mod phase;

/// Two ended rounds under one rule, opened alike: the same rankings give the same seats, no agent gains by another
/// ranking, and no other allocation would do for all.
pub fn rounds_agree()
    ensures { RoundsAgree }
{}

/// An ended round has the allocation of the staged procedure.
pub fn outcomes_staged()
    ensures { OutcomesStaged }
{}

/// The record of a round is how it came to its row.
pub fn records_true()
    ensures { RecordsTrue }
{}

/// TRADE trades the cycle through an agent, and is refused exactly where there is none.
pub fn trades_right()
    ensures { TradesRight }
{}

/// FINISH trades the cycles that the walks from the lowest waiting agent meet, until nobody waits.
pub fn finish_right()
    ensures { FinishRight }
{}

/// A refused call changes nothing.
pub fn refusals_keep()
    ensures { RefusalsKeep }
{}

/// No call leads back to an earlier phase.
pub fn phases_forward()
    ensures { PhasesForward }
{}

/// FILE touches one record only.
pub fn filing_right()
    ensures { FilingRight }
{}

/// The phase says who waits, and all that an open round holds is in range.
pub fn contents_right()
    ensures { ContentsRight }
{}

/// The listing has at most 1,400 bytes, and the audit at most 2,400.
pub fn texts_short()
    ensures { TextsShort }
{}

/// OPEN and FILE are accepted exactly with what they should take.
pub fn accepted_right()
    ensures open_takes { OpenAccepted }
    ensures file_takes { FileAccepted }
{}

/// The rule of the worked round keeps the two laws. The law of rounds binds two histories of it that have the same
/// rankings at the closing, and two that differ in one agent's, so the laws speak of something.
pub fn four_bound()
    ensures lawful { FourLawful }
    ensures alike { FourAlike }
    ensures bound { FourBound }
    ensures differ { FourDiffer }
    ensures still { FourBoundStill }
{}

/// What the calls of the worked round answer.
pub fn answers_compute()
    ensures sizes { open_answer four blank 4 (1 ∷ 1 ∷ []) ≡ Err Refusal.Sizes }
    ensures capacity { open_answer four blank 4 (1 ∷ 0 ∷ 2 ∷ []) ≡ Err Refusal.Capacity }
    ensures opens { open_answer four blank 4 (1 ∷ 1 ∷ 2 ∷ []) ≡ Ok 3 }
    ensures unknown { file_answer four (after four filings) (agent 1) (map place (1 ∷ 1 ∷ 4 ∷ [])) ≡ Err Refusal.Place }
    ensures twice { file_answer four (after four filings) (agent 1) (map place (1 ∷ 2 ∷ 1 ∷ [])) ≡ Err Refusal.Repeat }
    ensures early { trade_answer four (after four filings) (agent 2) ≡ Err Refusal.Phase }
    ensures closes { close_answer four (after four filings) ≡ Ok 4 }
    ensures beside { trade_answer four (after four closing) (agent 2) ≡ Err Refusal.Cycle }
    ensures trades { trade_answer four (after four closing) (agent 3) ≡ Ok (1, 2) }
    ensures departed { trade_answer four (after four (closing ++ TRADE (agent 3) ∷ [])) (agent 1) ≡ Err Refusal.Departed }
    ensures finishes { finish_answer four (after four (closing ++ TRADE (agent 3) ∷ [])) ≡ Ok 2 }
    ensures stands { standing_answer four (after four finishing) (agent 4) ≡ Ok Standing.Unplaced }
{}

/// What the worked round has on record, and that its audit does not fit a buffer of one byte less.
#[tactic(auto, unfolding(crate::proofs::Digits::digits))]
pub fn record_computes()
    ensures waiting { listing_text (after four closing) ≡ codes "1 -\n2 -\n3 -\n4 -\n" }
    ensures listing { listing_text (after four finishing) ≡ codes "1 2\n2 3\n3 1\n4 0\n" }
    ensures third { listing_text (after four otherwise) ≡ codes "1 2\n2 3\n3 1\n4 3\n" }
    ensures audit { audit_text (after four finishing) ≡ codes "1: 1>2 3>1\n2: 2>3\n3: 4>0\n" }
    ensures other { audit_text (after four one_by_one) ≡ codes "1: 1>2 3>1\n2: 4>0\n3: 2>3\n" }
    ensures fits { text_answer (after four closing) (listing_text (after four closing)) (codes "................") ≡ Ok 16 }
    ensures short { text_answer (after four closing) (listing_text (after four closing)) (codes "...............") ≡ Err Refusal.Buffer }
{}
