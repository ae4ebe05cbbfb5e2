//! Laws about the ends before and after a thread's work, and about what a refusal proves.
ghost use Rattle.std.specs.Prelude.{ℕ, List};
ghost use Rattle.bq_job.specs.declared.step.Step.{Step};
ghost use Rattle.bq_link.specs.EndStates.{PairsStay, SeatState};
ghost use Rattle.bq_link.specs.Looks.{TellsNoRefusal, TellsNoneEmpty};

/// The core's end and a seat's end from one call of `links` remain a pair, whatever they do.
pub fn pairs_stay()
    ensures { PairsStay }
{}

/// For each end and each size of an intake there is an invariant that the end keeps, that holds for
/// each intake with a free place, and that rules out a refusal. So a `submit` that returns a step
/// has met a full intake after the last step that it submitted.
#[tactic(auto, using(crate::proofs::LookLemmas::no_refusal))]
pub fn refusals_are_of_full_intakes()
    ensures { (places : ℕ) (seat : SeatState) → TellsNoRefusal places seat }
{}

/// For any list of taken steps there is an invariant that the core keeps, that holds for each intake
/// in which a step waits, and that rules out an empty intake. So a `take` that returns `None` has met
/// an empty intake after the last step that it took.
#[tactic(auto, using(crate::proofs::LookLemmas::none_empty))]
pub fn empty_looks_are_of_empty_intakes()
    ensures { (taken : List (ℕ × Step)) → TellsNoneEmpty taken }
{}
