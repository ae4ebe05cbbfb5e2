ghost use Rattle.std.specs.Prelude.{false, length, take, ◌*◌, ◌+◌, ◌≡◌, ◌≤◌};
ghost use Rattle.bq_core.specs.{Kicking.jobs_of, Replying.RepliesAt};
ghost use Rattle.bq_core_api.specs.Cost.{changed_jobs};
ghost use Rattle.bq_job.specs.{declared.job.Job.Job, machine.JobCommands.{after_kick, kick_effect, kickable, kicked}};
ghost use Rattle.bq_jobs.specs.{Ranks.is_listed, Searching.Asks};
ghost use Rattle.bq_state.specs.{Asking.AsksAsChanged, CoreParts.{count_jobs, machine_of}, Keeping.SearchesStore};

use crate::acts::{Reply, set_answer};
use bq_job::{Answer, Seat};
use bq_jobs::{JobList, Tube};
use bq_state::core_parts::CoreParts;
use bq_state::job_store::JobChange;
use bq_state::store::Store;
use bq_state::{changes, job_store, seats};

// Returns which jobs of a tube a kick makes ready: the buried ones or, if there are none, the
// delayed ones.
#[tactic(auto, using(crate::proofs::KickLemmas::kickable_buried, crate::proofs::KickLemmas::kickable_delayed))]
fn list_to_kick(store: &mut Store, tube: &Tube) -> JobList
    ensures order { jobs_of result tube.now store.old.jobs.jobs ≡ kickable tube.now store.old.jobs.jobs }
    ensures out { (k : Job) → is_listed result tube.now (kicked k) ≡ false }
    ensures kept { SearchesStore 1 store.old store.new }
{
    match job_store::first(store, JobList::Buried, tube) {
        Some(_) => JobList::Buried,
        None => JobList::Delayed,
    }
}

// Kicks at most `bound` jobs in this list of the tube, in order, and returns how many.
#[tactic(auto, using(crate::proofs::ToldLemmas::loop_asks, crate::proofs::KickLemmas::none_in_list, bq_state::proofs::PartsLemmas::compared_sound))]
fn kick_some(state: &mut CoreParts, list: JobList, tube: &Tube, bound: u32) -> u64
    requires out { (k : Job) → is_listed list tube.now (kicked k) ≡ false }
    ensures kicked { machine_of state.new
        ≡ after_kick (take bound (jobs_of list tube.now state.old.store.jobs.jobs))
        (machine_of state.old) }
    ensures count { result
        ≡ length (take bound (jobs_of list tube.now (machine_of state.old).jobs)) }
    ensures fewer { count_jobs (is_listed list tube.now) state.new
        + result ≤ count_jobs (is_listed list tube.now) state.old }
    ensures asks { Asks (9 * result + 1) state.old.store.jobs state.new.store.jobs }
{
    for done in 0..bound {
        let Some(id) = job_store::first(&mut state.store, list, tube) else {
            return u64::from(done);
        };
        changes::change_job(state, id, &JobChange::Kick);
    }
    u64::from(bound)
}

// Kicks at most `bound` jobs of the tube, and returns how many.
#[tactic(auto, using(std::proofs::lemmas::Grind::common_steps))]
fn kick_in(state: &mut CoreParts, tube: &Tube, bound: u32) -> u64
    ensures kicked { machine_of state.new
        ≡ after_kick (take bound (kickable tube.now (machine_of state.old).jobs))
        (machine_of state.old) }
    ensures count { result ≡ length (take bound (kickable tube.now (machine_of state.old).jobs)) }
    ensures changed { result
        ≤ changed_jobs (machine_of state.old).jobs (machine_of state.new).jobs }
    ensures asks { Asks (9 * result + 2) state.old.store.jobs state.new.store.jobs }
{
    let list = list_to_kick(&mut state.store, tube);
    kick_some(state, list, tube, bound)
}

/// Kicks at most `bound` jobs of the tube that the client uses.
#[tactic(auto, using(crate::proofs::AskLemmas::within))]
#[inline(never)]
pub(crate) fn kick(state: &mut CoreParts, seat: Seat, bound: u32, answer: &mut Answer) -> Reply
    ensures reply { RepliesAt seat false (kick_effect bound) state.old result answer.new state.new }
    ensures asks { AsksAsChanged state.old.store.jobs state.new.store.jobs }
{
    let Some(client) = seats::find(state.seats.as_slice(), seat) else {
        return Reply::Silent;
    };
    let tube = client.used().copy();
    let count = kick_in(state, &tube, bound);
    set_answer(answer, Answer::KickedCount(count));
    Reply::Told
}
