//! Laws about replays: a journal has at most one replay, and each further entry extends it by that
//! entry's step.
ghost use Rattle.bq_job.specs.declared.journal.Entry.{Entry};
ghost use Rattle.bq_job.specs.machine.{GivenAnswer, IsStep, Machine.Machine, Settings, new_machine};
ghost use Rattle.bq_job.specs.beside.{Replay.Replay, outcome_of};
ghost use Rattle.std.specs.Prelude.{◌≡◌, List, [], ◌∷◌, ◌++◌};

/// The replay of an empty journal gives no answers and leads to a new model.
#[tactic(auto, using(crate::proofs::ReplayLemmas::replay_none))]
pub fn replays_begin()
    ensures { (settings : Settings) → Replay settings [] [] (new_machine settings) }
{}

/// One more entry extends a replay by that entry's step.
#[tactic(auto, using(crate::proofs::ReplayLemmas::replay_more))]
pub fn replays_go_on()
    ensures { (settings : Settings) (journal : List Entry) (entry : Entry) (given more : List GivenAnswer) (next last : Machine)
        → Replay settings journal given next
        → IsStep next entry.moment entry.seat entry.step (outcome_of entry) more last
        → Replay settings (journal ++ entry ∷ []) (given ++ more) last }
{}

/// A journal has at most one replay: the same answers and the same model.
pub fn journals_have_one_replay()
    ensures { (settings : Settings) (journal : List Entry) (given others : List GivenAnswer) (last other : Machine)
        → Replay settings journal given last → Replay settings journal others other
        → (given ≡ others) × (last ≡ other) }
{}
