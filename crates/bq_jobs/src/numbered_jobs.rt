//! The record of a job, in which the tube is a number; its changes; and the records of all jobs.
//! The names of the tubes are in a table outside, one for the whole core.
ghost use Rattle.std.specs.Option.{option_map};
ghost use Rattle.std.specs.Prelude.{◌≡◌, ◌+◌, ◌-◌, ◌<◌, ◌^◌, if◌then◌else◌, []};
ghost use Rattle.std.specs.Prelude.{nat_lt, length, IfOk, IfSome, None, Some};
ghost use Rattle.bq_job.specs.machine.Changes.{job_with};
ghost use Rattle.bq_job.specs.beside.Lawful.{AreIdsWithin};
ghost use Rattle.bq_index.specs.Removed.{passing};
ghost use Rattle.bq_jobs.specs.Changed.{IgnoresTube, KeepsId, numbered_move, numbered_removal, pri_and_state, with_changed};
ghost use Rattle.bq_jobs.specs.JobsSeen.{ComparesAtMost, with_added};
ghost use Rattle.bq_jobs.specs.Moves.{CanMove, CanMoveIf, Moves, MovesIf, group_at, timer_at};
ghost use Rattle.bq_jobs.specs.Ranks.{first_held, first_timed};
ghost use Rattle.bq_jobs.specs.Room.{MakesRoom, RemovesIf};
ghost use Rattle.bq_jobs.specs.Searching.{FindsById, Searches};
ghost use Rattle.bq_jobs.specs.Seen.{IsBodyOf, IsTubeOf};
ghost use Rattle.bq_jobs.specs.Sharing.{MayShare, SharesAndChanges, if_shared};
ghost use Rattle.bq_jobs.specs.Stages.{state_of};

use super::ghost_name::GhostName;
use super::place_shelf::{self, GROUPS, Groups, PlaceShelf};
use super::places::{self, Group, Timer};
use super::timers::Timers;
use super::tube_number::TubeNumber;
use bq_index::{BoxSource, Edit, Shelf, Shelves, Test, TryEdit};
use bq_job::{Body, Counts, Job, JobId, JobState, Moment, NoMemory, NumberedBody, Pri, Seat};
use std::alloc::Global;
use std::marker::Model;
use std::mem::size_of;
use std::snapshot::Snapshot;

/// The kind of a job's state, without its data.
#[derive(Clone, Copy)]
pub enum Stage {
    Ready,
    Delayed,
    Reserved,
    Buried,
}

/// The record of a job, in which the tube is a number. A contract sees it as a job in the tube of
/// that number.
// Fields are in memory in this order: the ones that give the places of a job come first, next to
// its key. The state is spread over three fields: an enum would take a word for its tag and its
// seat, while here both follow three short numbers. The body has the time to run with it, which
// would take a word of its own otherwise.
#[derive(Drop)]
pub struct PackedJob {
    /// The tube of its put. It never changes.
    pub tube: TubeNumber,
    pub pri: Pri,
    /// The delay of its put or of its last release, in seconds.
    pub delay: u32,
    /// The client that holds it, if it is reserved.
    seat: Seat,
    stage: Stage,
    /// The moment or the number that belongs to its state, if the state has one.
    at: u64,
    /// The body, and how long a client may hold the job, in seconds, at least 1.
    body: NumberedBody,
    /// The moment at which its put was accepted.
    pub put_at: Moment,
    pub counts: Counts,
    /// Its id, for contracts only: the key of a record is its id, so the record does not store it
    /// again.
    pub id: Snapshot<JobId>,
}

const _: () = prove!(size_of::<PackedJob>() == 88);

impl Model for PackedJob {
    ghost use Rattle.bq_job.specs.declared.job.Job.{Job};
    ghost use Rattle.bq_jobs.specs.Stages.{state_of};

    ghost Value = { Job };

    ghost view = { λ r. record {
      id = r.id.value;
      tube = r.tube;
      pri = r.pri;
      delay = r.delay;
      ttr = r.body.number;
      body = r.body.bytes;
      put_at = r.put_at;
      counts = r.counts;
      state = state_of r.stage r.seat r.at;
    } };
}

impl PackedJob {
    /// Returns the record of a job whose tube has this number.
    pub fn of(job: Job, number: TubeNumber) -> PackedJob
        ensures { result ≡ record job { tube = number } }
    {
        let (stage, seat, at) = parts_of(job.state);
        let body = NumberedBody::new(job.body, job.ttr);
        PackedJob {
            tube: number,
            pri: job.pri,
            delay: job.delay,
            seat,
            stage,
            at,
            body,
            put_at: job.put_at,
            counts: job.counts,
            id: Snapshot::of(&job.id),
        }
    }

    /// Returns its state.
    pub fn state(&self) -> JobState
        ensures { result ≡ self.now.state }
    {
        match self.stage {
            Stage::Ready => JobState::Ready,
            Stage::Delayed => JobState::Delayed(self.at),
            Stage::Reserved => JobState::Reserved(self.seat, self.at),
            Stage::Buried => JobState::Buried(self.at),
        }
    }

    /// Returns how long a client may hold it, in seconds, at least 1.
    pub fn ttr(&self) -> u32
        ensures { result ≡ self.now.ttr }
    {
        self.body.number()
    }

    /// Returns another reference to its body, or `NoMemory` if `Arc` refuses one.
    pub fn share_body(&self) -> Result<Body, NoMemory>
        ensures { IfOk result (λ body. body ≡ self.now.body) }
    {
        self.body.share()
    }

    /// Sets its state.
    pub fn set_state(&mut self, state: JobState)
        ensures { self.new ≡ record self.old { state = state } }
    {
        let (stage, seat, at) = parts_of(state);
        self.stage = stage;
        self.seat = seat;
        self.at = at;
    }
}

// Returns the fields that represent a state.
fn parts_of(state: JobState) -> (Stage, Seat, u64)
    ensures { state_of result.0 result.1 result.2 ≡ state }
{
    match state {
        JobState::Ready => (Stage::Ready, 0, 0),
        JobState::Delayed(due) => (Stage::Delayed, 0, due),
        JobState::Reserved(seat, deadline) => (Stage::Reserved, seat, deadline),
        JobState::Buried(number) => (Stage::Buried, 0, number),
    }
}

/// What gives a job's place in each order, besides its id and its tube.
#[derive(Clone, Copy)]
pub struct PriAndState {
    pub pri: Pri,
    pub state: JobState,
}

impl PriAndState {
    /// Returns the priority and the state of a job.
    pub fn of(job: &Job) -> PriAndState
        ensures { result ≡ pri_and_state job.now }
    {
        PriAndState {
            pri: job.pri,
            state: job.state,
        }
    }

    /// Returns the priority and the state of a record's job.
    pub(crate) fn of_packed(row: &PackedJob) -> PriAndState
        ensures { result ≡ pri_and_state row.now }
    {
        PriAndState {
            pri: row.pri,
            state: row.state(),
        }
    }
}

/// The report about a changed job: the name of its tube, for contracts only, and its priority and
/// state before and after the change. The number of the tube comes with it.
#[derive(Drop)]
pub struct JobMove {
    pub tube: GhostName,
    pub from: PriAndState,
    pub to: PriAndState,
}

/// The report about a removed job: the name of its tube, for contracts only, and its priority and
/// state when it was removed. The number of the tube comes with it.
#[derive(Drop)]
pub struct JobRemoval {
    pub tube: GhostName,
    pub at: PriAndState,
}

/// The report about a changed record, in which the tube is a number.
#[derive(Clone, Copy)]
pub struct NumberedMove {
    pub tube: TubeNumber,
    pub from: PriAndState,
    pub to: PriAndState,
}

/// A change of a job.
pub trait JobEdit {
    ghost use Rattle.bq_job.specs.declared.job.Job.{Job};

    /// The job after the change.
    ghost edited: { Self → Job → Job };

    /// Changes a job.
    fn edit(&self, job: &mut PackedJob)
        ensures { job.new ≡ edited self.now job.old };
}

/// A test of a job.
pub trait PackedTest {
    ghost use Rattle.std.specs.Prelude.{Bool};
    ghost use Rattle.bq_job.specs.declared.job.Job.{Job};

    /// Whether a job passes.
    ghost passed: { Self → Job → Bool };

    /// Whether a job passes.
    fn passes(&self, job: &PackedJob) -> bool
        ensures { result ≡ passed self.now job.now };
}

/// The records of the jobs. A record is found by its id, and the first one of each kind without a
/// search. It is [`super::Jobs`] with numbers in place of names, and knows no names.
#[derive(Drop)]
pub struct NumberedJobs {
    by_id: Shelf<JobId, PackedJob>,
    groups: Groups,
    timers: Timers,
}

impl Model for NumberedJobs {
    ghost use Rattle.bq_jobs.specs.Inside.{seen_in, IsShelved};
    ghost use Rattle.bq_jobs.specs.JobsSeen.{JobsSeen};

    ghost Value = { JobsSeen };

    ghost view = { λ s. seen_in s.by_id s.groups s.timers };

    ghost invariant = { λ s. IsShelved ⟦<Group as Ord>⟧.cmp ⟦<Timer as Ord>⟧.cmp s.by_id s.groups s.timers };
}

impl NumberedJobs {
    ghost use Rattle.std.specs.Borrow.{sem};
    ghost use Rattle.bq_jobs.specs.Lent.{LeavesNumbered};

    /// Returns a value with no jobs, and no room for one, or `NoMemory` if the allocation of the
    /// table of groups fails.
    #[tactic(auto, using(crate::proofs::Shelved::shelved_none))]
    pub fn new(alloc: Global) -> Result<NumberedJobs, NoMemory>
        ensures { IfOk result
            (λ rows. rows ≡ record { jobs = []; room = 0; comparisons = 0; tubes = [] }) }
    {
        let Ok(groups) = Shelves::new(alloc, GROUPS) else {
            return Err(NoMemory);
        };
        Ok(NumberedJobs {
            by_id: Shelf::new(),
            groups,
            timers: Timers::new(),
        })
    }

    /// Returns the number of jobs.
    pub fn len(&self) -> usize
        ensures len { result ≡ length self.now.jobs }
        ensures ordered { AreIdsWithin 0 self.now.jobs (2 ^ 64) }
    {
        self.by_id.len()
    }

    /// Returns how many more jobs can be added.
    pub fn room(&self) -> usize
        ensures { result ≡ self.now.room }
    {
        self.by_id.spare()
    }

    /// Returns how often two keys were compared so far. The count stops at 2^64 - 1.
    pub fn comparisons(&self) -> u64
        ensures { result ≡ self.now.comparisons }
    {
        self.by_id
            .comparisons()
            .saturating_add(self.groups.comparisons())
            .saturating_add(self.timers.comparisons())
    }

    /// Makes room for a job, if there is none, with boxes from a source. What was allocated before a
    /// failure is kept for the next call. The boxes of the other orders are allocated first, so there
    /// is no room for a job until all of its boxes are there.
    pub fn reserve_one_from<S: BoxSource>(&mut self, source: &mut S) -> Result<(), NoMemory>
        ensures { MakesRoom result self.old self.new }
    {
        if self.by_id.spare() > 0 {
            return Ok(());
        }
        let Some(places) = self.by_id.len().checked_add(1) else {
            return Err(NoMemory);
        };
        self.groups.make_room(source, places)?;
        self.timers.make_room(source, places)?;
        match self.by_id.reserve_from(source, 1) {
            Ok(()) => Ok(()),
            Err(_) => Err(NoMemory),
        }
    }

    /// Returns the room of one job to the allocator, if there is room for more jobs than there are.
    pub fn give_back(&mut self)
        ensures { self.new ≡ record self.old {
          room =
              if nat_lt (length self.old.jobs) self.old.room then self.old.room - 1 else self.old.room;
        } }
    {
        if self.by_id.len() < self.by_id.spare() {
            self.by_id.give_back();
            self.groups.give_back();
            self.timers.give_back();
        }
    }

    /// Adds the job with this id, which uses the room of one.
    #[tactic(auto, using(crate::proofs::Shelved::additions))]
    pub fn add(&mut self, id: JobId, job: PackedJob)
        requires id { job.id ≡ id }
        requires room { 0 < self.old.room }
        requires absent { job_with job.id self.old.jobs ≡ None }
        ensures jobs { self.new.jobs ≡ with_added job self.old.jobs }
        ensures ordered { AreIdsWithin 0 self.new.jobs (2 ^ 64) }
        ensures room { self.new.room + 1 ≡ self.old.room }
        ensures comparisons { ComparesAtMost 4 self.old self.new }
    {
        place_shelf::enter(&mut self.groups, places::group_place(id, &job));
        place_shelf::enter(&mut self.timers, places::timer_place(id, &job));
        self.by_id.insert(id, job);
    }

    // Removes the job with this id and returns its record, if there is one and it passes a test. Its
    // room is free again. Otherwise no job is removed.
    #[tactic(auto, using(crate::proofs::TestedRemovals::passing_in, crate::proofs::TestedRemovals::passing_own))]
    fn remove_if<T: PackedTest>(&mut self, id: JobId, test: &T) -> Option<PackedJob>
        ensures job { result ≡ passing (T.passed test.now) (job_with id self.old.jobs) }
        ensures id { IfSome result (λ job. job.id ≡ id) }
        ensures left { RemovesIf id result self.old self.new }
    {
        let job = self.by_id.remove_if(&id, &Asked { test })?;
        place_shelf::leave(&mut self.groups, places::group_place(id, &job));
        place_shelf::leave(&mut self.timers, places::timer_place(id, &job));
        Some(job)
    }

    /// Removes the job with this id, if there is one and it passes a test, and drops its record.
    /// Returns the number of its tube, and its priority and state. Its room is free again.
    pub fn discard_if<T: PackedTest>(
        &mut self,
        id: JobId,
        test: &T,
    ) -> Option<(TubeNumber, PriAndState)>
        ensures removed { result
            ≡ option_map numbered_removal (passing (T.passed test.now) (job_with id self.old.jobs)) }
        ensures left { RemovesIf id result self.old self.new }
    {
        let row = self.remove_if(id, test)?;
        Some((row.tube, PriAndState::of_packed(&row)))
    }

    /// Changes the job with this id, if there is one, and moves it to its new place in each order.
    /// The record itself does not move, and nothing is allocated.
    #[tactic(auto, using(crate::proofs::Told::moves))]
    pub fn change<E: JobEdit>(&mut self, id: JobId, edit: &E) -> Option<NumberedMove>
        requires id { KeepsId (E.edited edit.now) }
        requires tube { IgnoresTube (E.edited edit.now) }
        ensures moved { result
            ≡ option_map (numbered_move (E.edited edit.now)) (job_with id self.old.jobs) }
        ensures jobs { self.new.jobs ≡ with_changed id (E.edited edit.now) self.old.jobs }
        ensures ordered { AreIdsWithin 0 self.old.jobs (2 ^ 64) }
        ensures room { self.new.room ≡ self.old.room }
        ensures comparisons { ComparesAtMost 7 self.old self.new }
    {
        let moved = self.by_id.edit(&id, &Reported { edit })?;
        let (from, to) = (moved.from, moved.to);
        shift_places(&mut self.groups, &mut self.timers, id, moved.tube, from, to);
        Some(moved)
    }

    /// Does the same, and also returns another reference to the job's body, or `NoMemory` if `Arc`
    /// refuses one. In that case nothing is changed. The record is searched once.
    pub fn share_and_change<E: JobEdit>(
        &mut self,
        id: JobId,
        edit: &E,
    ) -> Option<Result<(NumberedMove, Body), NoMemory>>
        requires id { KeepsId (E.edited edit.now) }
        requires tube { IgnoresTube (E.edited edit.now) }
        ensures { SharesAndChanges
            (λ moved. Some moved ≡ option_map (numbered_move (E.edited edit.now)) (job_with id self.old.jobs))
            id (E.edited edit.now) result self.old self.new }
    {
        let shared = self.by_id.try_edit(&id, &Shared { edit });
        shift_if_shared(&mut self.groups, &mut self.timers, id, &shared);
        shared
    }

    /// Returns the record of the job with this id.
    #[tactic(auto, using(crate::proofs::Shelved::found_in, crate::proofs::Shelved::id_searched))]
    pub fn get(&mut self, id: JobId) -> Option<&PackedJob>
        ensures* after { sem 𝓛 (LeavesNumbered self.entry) }
        ensures job { option_map (λ j. j.now) result ≡ job_with id self.old.jobs }
    {
        self.by_id.get(&id)
    }

    /// Returns the number of the tube of the job with this id.
    pub fn number_of(&mut self, id: JobId) -> Option<TubeNumber>
        ensures number { result ≡ option_map (λ j. j.tube) (job_with id self.old.jobs) }
        ensures kept { Searches 1 self.old self.new }
    {
        match self.get(id) {
            None => None,
            Some(row) => Some(row.tube),
        }
    }

    /// Returns the number of the tube of the job with this id, and another reference to its body,
    /// or `NoMemory` for that.
    pub fn share(&mut self, id: JobId) -> Option<(TubeNumber, Result<Body, NoMemory>)>
        ensures number { IfSome result (λ s. IsTubeOf (job_with id self.old.jobs) s.0) }
        ensures body { IfSome result (λ s. IfOk s.1 (IsBodyOf (job_with id self.old.jobs))) }
        ensures kept { FindsById id result self.old self.new }
    {
        match self.get(id) {
            None => None,
            Some(row) => Some((row.tube, row.share_body())),
        }
    }

    /// Returns another reference to the body of the job with this id, or `NoMemory`.
    pub fn share_body(&mut self, id: JobId) -> Option<Result<Body, NoMemory>>
        ensures body { IfSome result (λ s. IfOk s (IsBodyOf (job_with id self.old.jobs))) }
        ensures kept { FindsById id result self.old self.new }
    {
        match self.get(id) {
            None => None,
            Some(row) => Some(row.share_body()),
        }
    }

    /// Returns the number and the id of the first job of a holder: by that number, then by id.
    #[tactic(auto, using(crate::proofs::Shelved::first_in_group, crate::proofs::Shelved::groups_searched))]
    pub fn first_of_group(&mut self, group: Group) -> Option<(u64, JobId)>
        ensures rank { result ≡ first_held group self.old.jobs }
        ensures kept { Searches 1 self.old self.new }
    {
        place_shelf::first_of_group(&mut self.groups, group)
    }

    /// Returns the moment and the id of the first delay or of the first lease: by moment, then by
    /// id.
    #[tactic(auto, using(crate::proofs::Shelved::first_in_timers, crate::proofs::Shelved::timers_searched))]
    pub fn first_of_timer(&mut self, timer: Timer) -> Option<(Moment, JobId)>
        ensures rank { result ≡ first_timed timer self.old.jobs }
        ensures kept { Searches 1 self.old self.new }
    {
        self.timers.first(timer)
    }
}

// A change of a job, which reports what has changed.
#[derive(Drop)]
struct Reported<'e, E> {
    edit: &'e E,
}

impl<'e, E: JobEdit> Edit<PackedJob, NumberedMove> for Reported<'e, E> {
    ghost edited = { λ r. E.edited r.edit.now };

    ghost told = { λ r. numbered_move (E.edited r.edit.now) };

    fn edit(&self, job: &mut PackedJob) -> NumberedMove {
        report_change(self.edit, job)
    }
}

// Changes a job and returns what has changed.
#[inline(always)]
fn report_change<E: JobEdit>(edit: &E, job: &mut PackedJob) -> NumberedMove
    ensures job { job.new ≡ E.edited edit.now job.old }
    ensures report { result ≡ numbered_move (E.edited edit.now) job.old }
{
    let (tube, from) = (job.tube, PriAndState::of_packed(job));
    edit.edit(job);
    NumberedMove {
        tube,
        from,
        to: PriAndState::of_packed(job),
    }
}

// A change of a job that is made only if there is another reference to its body.
#[derive(Drop)]
struct Shared<'e, E> {
    edit: &'e E,
}

impl<'e, E: JobEdit> TryEdit<PackedJob, Result<(NumberedMove, Body), NoMemory>> for Shared<'e, E> {
    ghost edited = { λ s told j. if_shared (E.edited s.edit.now) told j };

    ghost MayTell = { λ s j told. MayShare (E.edited s.edit.now) j told };

    fn try_edit(&self, job: &mut PackedJob) -> Result<(NumberedMove, Body), NoMemory> {
        let body = job.share_body()?;
        let moved = report_change(self.edit, job);
        Ok((moved, body))
    }
}

// Moves a job to its new place in each order.
#[inline(always)]
fn shift_places(
    groups: &mut Groups,
    timers: &mut Timers,
    id: JobId,
    tube: TubeNumber,
    from: PriAndState,
    to: PriAndState,
)
    requires groups { CanMove ⟦<Group as Ord>⟧.cmp (group_at id tube from) (group_at id tube to) groups.old }
    requires timers { CanMove ⟦<Timer as Ord>⟧.cmp (timer_at id from) (timer_at id to) timers.old }
    ensures groups { Moves ⟦<Group as Ord>⟧.cmp (group_at id tube from) (group_at id tube to) groups.old groups.new }
    ensures timers { Moves ⟦<Timer as Ord>⟧.cmp (timer_at id from) (timer_at id to) timers.old timers.new }
{
    let (left, entered) = (
        places::place_in_groups(id, tube, from),
        places::place_in_groups(id, tube, to),
    );
    place_shelf::shift(groups, left, entered);
    let (left, entered) = (
        places::place_in_timers(id, from),
        places::place_in_timers(id, to),
    );
    place_shelf::shift(timers, left, entered);
}

// Does the same for a job that was changed, unless the reference to its body was refused.
#[inline(always)]
fn shift_if_shared(
    groups: &mut Groups,
    timers: &mut Timers,
    id: JobId,
    shared: &Option<Result<(NumberedMove, Body), NoMemory>>,
)
    requires { CanMoveIf ⟦<Group as Ord>⟧.cmp ⟦<Timer as Ord>⟧.cmp id shared.now groups.old timers.old }
    ensures { MovesIf ⟦<Group as Ord>⟧.cmp ⟦<Timer as Ord>⟧.cmp id shared.now groups.old groups.new
        timers.old timers.new }
{
    if let Some(Ok((moved, _))) = shared {
        shift_places(groups, timers, id, moved.tube, moved.from, moved.to);
    }
}

// A test of an entry by its record.
#[derive(Drop)]
struct Asked<'t, T> {
    test: &'t T,
}

impl<'t, T: PackedTest> Test<JobId, PackedJob> for Asked<'t, T> {
    ghost passed = { λ a k j. T.passed a.test.now j };

    fn passes(&self, _id: &JobId, job: &PackedJob) -> bool {
        self.test.passes(job)
    }
}
