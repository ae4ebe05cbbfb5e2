//! Properties of the model's definitions: what an addition does, and which job an id finds.
ghost use Rattle.bq_jobs.specs.Laws.{AddsAtTheEnd, ChosenHasItsId, NextIsFree};

/// A job whose id is above all others comes last.
#[tactic(auto, using(crate::proofs::Changes::adds_at_the_end))]
pub fn adds_at_the_end()
    ensures { AddsAtTheEnd }
{}

/// No job has the next id.
#[tactic(auto, using(crate::proofs::Changes::next_is_free))]
pub fn next_is_free()
    ensures { NextIsFree }
{}

/// A job that a test and an order choose is the job that its id finds.
pub fn chosen_has_its_id()
    ensures { ChosenHasItsId }
{}
