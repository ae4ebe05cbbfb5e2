//! Laws about runs: what holds of every run of the model, whatever its clients ask and whichever
//! allocations fail.
ghost use Rattle.bq_job.specs.declared.answer.Answer.TheVariants.{Deleted, Inserted};
ghost use Rattle.bq_job.specs.declared.job.Job.{Job};
ghost use Rattle.bq_job.specs.declared.step.Step.TheVariants.{Drain};
ghost use Rattle.bq_job.specs.beside.{machine_after, transitions};
ghost use Rattle.bq_job.specs.machine.{GivenAnswer, Machine.Machine, Settings, last_id, new_machine};
ghost use Rattle.bq_job.specs.laws.{GivesLeast, IsDeletion, IsHandedOut, IsHandedOutBefore, IsHeldByOne, IsKept, IsPutBefore};
ghost use Rattle.bq_job.specs.laws.{IsUndisturbed, Part, happenings, has_inserted, is_deletion, is_hand_out, parts_of_run, put};
ghost use Rattle.bq_job.specs.promise.{Entry, GoesBy, Transition};
ghost use Rattle.std.specs.Prelude.{ℕ, ◌≡◌, ◌≤◌, false, List, [], ◌∷◌, ◌++◌, Contains, Some, count_by, flat_map, length};
ghost use Rattle.std.specs.List.{list_any};

/// Each RESERVED of a run is either the answer to a reserve-job, or dispatch gave the client the
/// least job, by priority and then by id, that it could have at that moment.
#[tactic(auto, using(crate::proofs::AnswerPlaces::run_gives_least))]
pub fn reserved_jobs_are_least()
    ensures { (first last : Machine) (taken : List Transition) (t : Transition)
        → GoesBy first taken last → Contains taken t → GivesLeast t }
{}

/// An undisturbed job is handed out at most once.
pub fn undisturbed_jobs_are_handed_out_once()
    ensures { (settings : Settings) (taken : List Transition) (last : Machine) (j : Job)
        → GoesBy (new_machine settings) taken last
        → IsUndisturbed j (happenings (parts_of_run taken))
        → count_by (is_hand_out j.id) (happenings (parts_of_run taken)) ≤ 1 }
{}

/// Of two undisturbed jobs that were put into one tube with one priority, the one that was put
/// first is handed out first, if both are handed out.
pub fn undisturbed_jobs_are_handed_out_in_order()
    ensures { (settings : Settings) (taken : List Transition) (last : Machine) (a b : Job)
        → GoesBy (new_machine settings) taken last
        → IsUndisturbed a (happenings (parts_of_run taken)) → IsUndisturbed b (happenings (parts_of_run taken))
        → a.pri ≡ b.pri → a.tube ≡ b.tube → IsPutBefore a.id b.id (happenings (parts_of_run taken))
        → IsHandedOut a.id (happenings (parts_of_run taken)) → IsHandedOut b.id (happenings (parts_of_run taken))
        → IsHandedOutBefore a.id b.id (happenings (parts_of_run taken)) }
{}

/// From the step that begins to drain, no answer is INSERTED. Neither is any answer after the last
/// id was given.
#[tactic(auto, using(crate::proofs::AnswerPlaces::none_after_drain, crate::proofs::AnswerPlaces::none_after_last_id))]
pub fn no_put_is_accepted_once_draining()
    ensures drained { (first last : Machine) (early more : List Transition) (t : Transition)
        → GoesBy first (early ++ t ∷ more) last → t.entry.what ≡ Drain
        → has_inserted (flat_map (λ (u : Transition). u.given) (t ∷ more)) ≡ false }
    ensures last_id_given { (first last : Machine) (taken : List Transition) (early more : List GivenAnswer) (seat : ℕ)
        → GoesBy first taken last
        → flat_map (λ (u : Transition). u.given) taken ≡ early ++ (seat, Inserted last_id) ∷ more
        → has_inserted more ≡ false }
{}

/// From its put until its deletion, a job is present exactly once, in its tube and with its body,
/// after each part of a step.
#[tactic(auto, using(crate::proofs::KeptJobLemmas::accepted_is_kept))]
pub fn accepted_jobs_stay_until_deleted()
    ensures { (settings : Settings) (taken : List Transition) (last : Machine) (early late : List Part) (p : Part) (j : Job)
        → GoesBy (new_machine settings) taken last → parts_of_run taken ≡ early ++ p ∷ late
        → Contains (happenings (early ++ p ∷ [])) (put j)
        → list_any (is_deletion j.id) (happenings (early ++ p ∷ [])) ≡ false → IsKept j p.machine }
{}

/// After each part of a step at most one client holds a job, and that client is connected.
pub fn jobs_are_held_by_one_client()
    ensures { (settings : Settings) (taken : List Transition) (last : Machine) (p : Part)
        → GoesBy (new_machine settings) taken last → Contains (parts_of_run taken) p → IsHeldByOne p.machine }
{}

/// With a job limit, there are never more jobs than the limit after any part of a step, whatever
/// their states.
#[tactic(auto, using(crate::proofs::LimitLemmas::few_always))]
pub fn jobs_stay_within_their_limit()
    ensures { (settings : Settings) (taken : List Transition) (last : Machine) (p : Part) (most : ℕ)
        → GoesBy (new_machine settings) taken last → Contains (parts_of_run taken) p
        → settings.max_jobs ≡ Some most → length p.machine.jobs ≤ most }
{}

/// DELETED goes to the client that asked for it, and only if the job existed and no other client
/// held it.
#[tactic(auto, using(crate::proofs::AnswerPlaces::run_deletes))]
pub fn deleted_answers_its_asker()
    ensures { (first last : Machine) (taken : List Transition) (t : Transition) (seat : ℕ)
        → GoesBy first taken last → Contains taken t → Contains t.given (seat, Deleted) → IsDeletion t seat }
{}

/// Every history has a run with enough memory, and it can be computed.
#[tactic(auto, using(crate::proofs::ComputedRunLemmas::computed_goes))]
pub fn computed_is_run()
    ensures { (first : Machine) (history : List Entry)
        → GoesBy first (transitions first history) (machine_after first history) }
{}
