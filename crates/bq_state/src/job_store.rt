//! The jobs: changing one, and testing one for a command.
ghost use Rattle.std.specs.{Option.option_map, Prelude.{not, ◌||◌, ◌≡◌}};
ghost use Rattle.bq_job.specs.machine.{Changes.is_held_by as held_by, JobCommands.delayed_by as delayed_for};
ghost use Rattle.bq_job.specs.machine.{JobStates.is_reserved, Limits.later as later_by, Timers.job_after_timers};
ghost use Rattle.bq_jobs.specs.Ranks.{first_in};
ghost use Rattle.bq_state.specs.{Keeping.SearchesStore, JobChanges.{changed, passes}};

use crate::store::Store;
use bq_job::{JobId, JobState, Moment, Pri, Seat};
use bq_jobs::{JobEdit, JobList, PackedJob, PackedTest, Tube};

/// A change of a job.
#[derive(Clone, Copy)]
pub enum JobChange {
    /// Timers fire at this moment.
    FireTimers(Moment),
    /// It goes to the client at this seat, at this moment.
    HandOut(Seat, Moment),
    /// Its holder has disconnected: this is its state from now on.
    GiveBack(JobState),
    /// It gets this priority and this delay, in seconds from this moment.
    Release(Pri, u32, Moment),
    /// It is buried, with this burial number and this priority.
    Bury(u64, Pri),
    /// The client at this seat holds it until this deadline.
    Touch(Seat, Moment),
    /// It becomes ready.
    Kick,
}

/// Returns the moment `seconds` later, at most 2^64 - 1.
pub fn later(moment: Moment, seconds: u32) -> Moment
    ensures { result ≡ later_by moment seconds }
{
    moment.saturating_add(u64::from(seconds) * 1000)
}

fn fire_timers(job: &mut PackedJob, moment: Moment)
    ensures { job.new ≡ job_after_timers moment job.old }
{
    match job.state() {
        JobState::Delayed(due) => {
            if due <= moment {
                job.set_state(JobState::Ready);
            }
        }
        JobState::Reserved(_, deadline) => {
            if deadline <= moment {
                job.set_state(JobState::Ready);
                job.counts.timeouts = job.counts.timeouts.saturating_add(1);
            }
        }
        JobState::Ready | JobState::Buried(_) => {}
    }
}

/// Returns true if the client at the seat holds the job.
pub(crate) fn is_held_by(job: &PackedJob, seat: Seat) -> bool
    ensures { result ≡ held_by seat job.now }
{
    match job.state() {
        JobState::Reserved(holder, _) => holder == seat,
        _ => false,
    }
}

/// Returns true if some client holds the job.
pub(crate) fn is_reserved(job: &PackedJob) -> bool
    ensures { result ≡ is_reserved job.now.state }
{
    matches!(job.state(), JobState::Reserved(_, _))
}

/// Returns true if no client holds the job, or the client at the seat does.
pub(crate) fn is_free_for(job: &PackedJob, seat: Seat) -> bool
    ensures { result ≡ (not (is_reserved job.now.state) || held_by seat job.now) }
{
    !is_reserved(job) || is_held_by(job, seat)
}

/// Returns ready if there is no delay, otherwise delayed from this moment by `delay` seconds.
pub fn delayed_by(delay: u32, moment: Moment) -> JobState
    ensures { result ≡ delayed_for delay moment }
{
    if delay == 0 {
        JobState::Ready
    } else {
        JobState::Delayed(later(moment, delay))
    }
}

impl JobEdit for JobChange {
    ghost edited = { changed };

    fn edit(&self, job: &mut PackedJob) {
        match *self {
            JobChange::FireTimers(moment) => fire_timers(job, moment),
            JobChange::HandOut(seat, moment) => {
                job.set_state(JobState::Reserved(seat, later(moment, job.ttr())));
                job.counts.reserves = job.counts.reserves.saturating_add(1);
            }
            JobChange::GiveBack(becomes) => job.set_state(becomes),
            JobChange::Release(pri, delay, moment) => {
                job.pri = pri;
                job.delay = delay;
                job.set_state(delayed_by(delay, moment));
                job.counts.releases = job.counts.releases.saturating_add(1);
            }
            JobChange::Bury(number, pri) => {
                job.pri = pri;
                job.set_state(JobState::Buried(number));
                job.counts.buries = job.counts.buries.saturating_add(1);
            }
            JobChange::Touch(seat, deadline) => job.set_state(JobState::Reserved(seat, deadline)),
            JobChange::Kick => {
                job.set_state(JobState::Ready);
                job.counts.kicks = job.counts.kicks.saturating_add(1);
            }
        }
    }
}

/// Returns the id of the first job in this list of this tube.
pub fn first(store: &mut Store, list: JobList, tube: &Tube) -> Option<JobId>
    ensures id { result ≡ option_map (λ j. j.id) (first_in list tube.now store.old.jobs.jobs) }
    ensures kept { SearchesStore 1 store.old store.new }
{
    let (_, id) = store.first_listed(list, tube)?;
    Some(id)
}

/// A test of a job for a command.
#[derive(Clone, Copy)]
pub enum JobTest {
    /// The client at this seat holds it.
    HeldBy(Seat),
    /// No client holds it, or the client at this seat does.
    FreeFor(Seat),
    /// No client holds it.
    Free,
    /// It is buried or delayed.
    Kickable,
}

/// Returns true if the job passes the test.
pub(crate) fn passes(job: &PackedJob, test: JobTest) -> bool
    ensures { result ≡ passes test job.now }
{
    match test {
        JobTest::HeldBy(seat) => is_held_by(job, seat),
        JobTest::FreeFor(seat) => is_free_for(job, seat),
        JobTest::Free => !is_reserved(job),
        JobTest::Kickable => matches!(job.state(), JobState::Buried(_) | JobState::Delayed(_)),
    }
}

impl PackedTest for JobTest {
    ghost passed = { passes };

    fn passes(&self, job: &PackedJob) -> bool {
        passes(job, *self)
    }
}
