//! Laws about runs that have not ended: what was written stays right, and what holds so far becomes
//! the final promise.
ghost use Rattle.std.specs.Prelude.{ℕ, Bool, List, Option, ◌++◌, ◌≡◌, ◌<◌, None, map};
ghost use Rattle.bq_job.specs.Types.{Answer, Step};
ghost use Rattle.bq_job.specs.laws.{RunBegins};
ghost use Rattle.bq_job.specs.machine.{GivenAnswer, Machine.Machine, Settings};
ghost use Rattle.bq_job.specs.promise.{AreAllGone, AreLinesOwed, DoorSoFar, Entry, IsBeginning, IsDoorOwedSoFar, IsHistoryOf};
ghost use Rattle.bq_job.specs.promise.{IsHistorySoFar, IsLineOwed, IsLineOwedSoFar, IsRun, LineOver, LineSeen};
ghost use Rattle.bq_job.specs.promise.{answers_text, answers_to, steps_at};

/// Once each door and the control line has submitted that no more comes, the promise so far is the
/// final one.
pub fn all_gone_is_final()
    ensures { (settings : Settings) (doors : List DoorSoFar) (control : List ℕ) (failed : Bool)
        (readings : List (Option ℕ)) (last : Machine) (so_far : IsHistorySoFar settings doors control failed readings last)
        → AreAllGone settings.seats so_far.history
        → IsHistoryOf settings (map (λ door. door.over) doors) control failed readings last }
{}

/// The connections of a door that has no open connection are owed exactly what the final promise
/// owes them.
pub fn idle_doors_are_owed()
    ensures { (settings : Settings) (readings : List (Option ℕ)) (history : List Entry) (given : List GivenAnswer)
        (last : Machine) (seat : ℕ) (door : DoorSoFar)
        → IsRun settings readings history given last → seat < settings.seats
        → IsDoorOwedSoFar settings.max_job_size door (steps_at seat history) (answers_to seat given) → door.out ≡ None
        → (own : List Step) × AreLinesOwed settings.max_job_size door.over own (answers_to seat given) }
{}

/// Bytes that are right at one moment were right at each moment before, and stay right whatever
/// answers follow. So if a client has received a beginning of its answers, it always had.
pub fn what_was_written_stays_right()
    ensures open { (max_job_size : ℕ) (line : LineSeen) (taken : List Step) (answers more : List Answer) (early : List ℕ)
        → IsLineOwedSoFar max_job_size line taken answers → IsBeginning early line.written
        → IsBeginning early (answers_text (answers ++ more)) }
    ensures over { (max_job_size : ℕ) (line : LineOver) (taken : List Step) (answers : List Answer) (early : List ℕ)
        → IsLineOwed max_job_size line taken answers → IsBeginning early line.seen.written
        → IsBeginning early (answers_text answers) }
{}

/// The first entries of a run are a run, which gives the first of its answers. So a history so far
/// contains that of each moment before.
pub fn runs_begin_with_runs()
    ensures { (settings : Settings) (readings : List (Option ℕ)) (early late : List Entry) (given : List GivenAnswer)
        (last : Machine) → IsRun settings readings (early ++ late) given last → RunBegins settings readings early given }
{}
