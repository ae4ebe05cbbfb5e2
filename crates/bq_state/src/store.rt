//! The jobs and the tubes of a core.
ghost use Rattle.std.specs.{Option.option_map, Prelude.{IfOk, IfSome, None, Some, [], is_some, length, true, unwrap_or, ◌+◌, ◌<◌, ◌^◌, ◌≡◌}};
ghost use Rattle.bq_index.specs.Removed.{passing};
ghost use Rattle.bq_job.specs.{beside.AreIdsWithin, machine.{first_of, is_held_by, job_with}};
ghost use Rattle.bq_jobs.specs.Changed.{AsksNoTube, IgnoresTube, KeepsId, moved_by, removed_from, with_changed};
ghost use Rattle.bq_jobs.specs.{
  JobsSeen.{ComparesAtMost, ranked, with_added},
  Leases.{deadline_of, is_lease_before},
  Names.number_in,
  Numbering.{
    HasNumber,
    name_of,
  },
};
ghost use Rattle.bq_jobs.specs.Ranks.{first_by, first_in, is_timed, list_rank, moment_of};
ghost use Rattle.bq_jobs.specs.{Room.{MakesRoom, RemovesIf}, Seen.{IsBodyOf, IsTubeOf, but_for_tube}};
ghost use Rattle.bq_jobs.specs.{Sharing.SharesAndChanges, Told.{IsNamedIf, moved_told, removed_told, shared_told}};
ghost use Rattle.bq_state.specs.{Keeping.SearchesStore, Room.{room_given_back, room_left}, Store.first_store, TubesSeen.{entry_with, with_entry}};

use crate::tubes::{PauseEnds, TubeEntry};
use crate::watch_list::default_tube;
use bq_index::Catalog;
use bq_job::{Body, Job, JobId, Moment, NoMemory, Seat};
use bq_jobs::{
    GhostName, Group, JobEdit, JobList, JobMove, JobRemoval, NumberedJobs, NumberedMove, PackedJob,
    PackedTest, PriAndState, Timer, Tube, TubeNumber, TubeTable,
};
use std::alloc::Global;
use std::marker::Model;

// How much more room than there are jobs is kept.
const ROOM_TO_SPARE: usize = 1000;

/// The jobs, and an entry for each tube that exists, found by number or by name. The entries are in
/// the byte order of the names. A call that takes a number beside a name looks there first. It
/// searches for the name only if another tube, or none, has that number.
#[derive(Drop)]
pub struct Store {
    pub(crate) jobs: NumberedJobs,
    pub(crate) table: TubeTable<TubeEntry>,
    // The ends of the tubes' pauses.
    pub(crate) ends: PauseEnds,
}

impl Model for Store {
    ghost use Rattle.bq_state.specs.Store.{AreStored, StoreSeen, store_seen};

    ghost Value = { StoreSeen };

    ghost view = { λ s. store_seen s.jobs s.table };

    ghost invariant = { λ s. AreStored s.jobs s.table s.ends };
}

// Returns the room of one job to the heap, if there is room for more jobs than there are. Not
// inlined: it is rarely called, and its callers would save registers for it each time.
#[inline(never)]
fn give_back(jobs: &mut NumberedJobs)
    ensures { jobs.new
        ≡ record jobs.old { room = room_given_back (length jobs.old.jobs) jobs.old.room } }
{
    jobs.give_back();
}

// Returns the room of one job to the heap, if there is plenty.
#[inline(always)]
fn let_one_room_go(jobs: &mut NumberedJobs)
    ensures same { jobs.new ≡ record jobs.old { room = jobs.new.room } }
    ensures given { jobs.new.room ≡ room_left (length jobs.old.jobs) jobs.old.room }
    ensures room { 0 < jobs.old.room → 0 < jobs.new.room }
{
    if jobs.room().saturating_sub(jobs.len()) >= ROOM_TO_SPARE {
        give_back(jobs);
    }
}

impl Store {
    ghost use Rattle.std.specs.Borrow.{sem};
    ghost use Rattle.bq_state.specs.Lent.{LeavesStore};

    /// Returns a store with the default tube, without jobs and clients.
    ///
    /// # Errors
    ///
    /// `NoMemory` if an allocation fails.
    pub fn new(alloc: Global) -> Result<Store, NoMemory>
        ensures { IfOk result (λ store. store ≡ first_store store.tubes.numbers) }
    {
        let jobs = NumberedJobs::new(alloc)?;
        let mut store = Store {
            jobs,
            table: TubeTable::new(alloc),
            ends: Catalog::new(),
        };
        let _number = store.provide(alloc, &default_tube())?;
        Ok(store)
    }

    /// Returns the number of jobs.
    #[tactic(auto, using(bq_jobs::proofs::NamedJobs::ids_named))]
    pub fn len(&self) -> usize
        ensures len { result ≡ length self.now.jobs.jobs }
        ensures ordered { AreIdsWithin 0 self.now.jobs.jobs (2 ^ 64) }
    {
        self.jobs.len()
    }

    /// Returns how often two keys were compared so far. The count stops at 2^64 - 1.
    pub fn comparisons(&self) -> u64
        ensures { result ≡ self.now.jobs.comparisons }
    {
        self.jobs.comparisons()
    }

    /// Makes room for a job, if there is none. What was allocated before a failure is kept for the
    /// next call.
    pub fn reserve_one(&mut self, alloc: Global) -> Result<(), NoMemory>
        ensures room { MakesRoom result self.old.jobs self.new.jobs }
        ensures tubes { self.new.tubes ≡ self.old.tubes }
    {
        let mut heap = alloc;
        self.jobs.reserve_one_from(&mut heap)
    }

    /// Returns unneeded room to the heap: at most that of two jobs at a time, so that no step takes
    /// long.
    pub(crate) fn let_room_go(&mut self)
        ensures same { self.new ≡ record self.old { jobs = record self.old.jobs { room = self.new.jobs.room } } }
        ensures given { self.new.jobs.room
            ≡ room_left (length self.old.jobs.jobs) (room_left (length self.old.jobs.jobs) self.old.jobs.room) }
        ensures room { 0 < self.old.jobs.room → 0 < self.new.jobs.room }
    {
        let_one_room_go(&mut self.jobs);
        let_one_room_go(&mut self.jobs);
    }

    /// Adds a job, which uses the room of one, and counts it in its tube. The tube has to have an
    /// entry, with this number.
    #[tactic(auto, using(bq_jobs::proofs::NamedJobs::additions))]
    pub(crate) fn add(&mut self, job: Job, number: TubeNumber)
        requires room { 0 < self.old.jobs.room }
        requires absent { job_with job.id self.old.jobs.jobs ≡ None }
        requires number { HasNumber job.tube number self.old.tubes.numbers }
        ensures jobs { self.new.jobs.jobs ≡ with_added job self.old.jobs.jobs }
        ensures ordered { AreIdsWithin 0 self.new.jobs.jobs (2 ^ 64) }
        ensures room { self.new.jobs.room + 1 ≡ self.old.jobs.room }
        ensures comparisons { ComparesAtMost 4 self.old.jobs self.new.jobs }
        ensures tubes { self.new.tubes ≡ with_entry job.tube (entry_with job) self.old.tubes }
    {
        let name = GhostName::of(&job.tube);
        self.edit_entry(&name, number, &job);
        self.jobs.add(job.id, PackedJob::of(job, number));
    }

    /// Removes the job with this id, if there is one and it passes a test, and drops it. Its room is
    /// free again. Returns the number of its tube, and the report about it. Otherwise no job is
    /// removed.
    #[tactic(auto, using(bq_jobs::proofs::TestedRemovals::discards_if))]
    pub(crate) fn discard_if<T: PackedTest>(
        &mut self,
        id: JobId,
        test: &T,
    ) -> Option<(TubeNumber, JobRemoval)>
        requires tube { AsksNoTube (T.passed test.now) }
        ensures removed { option_map (λ r. r.1) result
            ≡ option_map removed_from (passing (T.passed test.now) (job_with id self.old.jobs.jobs)) }
        ensures number { IfSome result (λ r. HasNumber r.1.tube r.0 self.old.tubes.numbers) }
        ensures left { RemovesIf id result self.old.jobs self.new.jobs }
        ensures tubes { self.new.tubes ≡ self.old.tubes }
    {
        let removed = self.jobs.discard_if(id, test);
        removed_of(&self.table, removed)
    }

    /// Changes the job with this id, if there is one. Nothing is allocated. Returns the number of its
    /// tube, and the report about it.
    #[tactic(auto, using(bq_jobs::proofs::NamedJobs::changes, bq_jobs::proofs::NamedJobs::moved_has_name))]
    pub(crate) fn change<E: JobEdit>(
        &mut self,
        id: JobId,
        edit: &E,
    ) -> Option<(TubeNumber, JobMove)>
        requires id { KeepsId (E.edited edit.now) }
        requires tube { IgnoresTube (E.edited edit.now) }
        ensures moved { option_map (λ r. r.1) result
            ≡ option_map (moved_by (E.edited edit.now)) (job_with id self.old.jobs.jobs) }
        ensures number { IfSome result (λ r. HasNumber r.1.tube r.0 self.old.tubes.numbers) }
        ensures jobs { self.new.jobs.jobs ≡ with_changed id (E.edited edit.now) self.old.jobs.jobs }
        ensures ordered { AreIdsWithin 0 self.old.jobs.jobs (2 ^ 64) }
        ensures room { self.new.jobs.room ≡ self.old.jobs.room }
        ensures comparisons { ComparesAtMost 7 self.old.jobs self.new.jobs }
        ensures tubes { self.new.tubes ≡ self.old.tubes }
    {
        let moved = self.jobs.change(id, edit);
        told_of(&self.table, moved)
    }

    /// Does the same, and also returns another reference to the job's body, or `NoMemory` if `Arc`
    /// refuses one. In that case nothing is changed. The job is searched once.
    #[tactic(auto, using(bq_jobs::proofs::NamedJobs::changes))]
    pub(crate) fn share_and_change<E: JobEdit>(
        &mut self,
        id: JobId,
        edit: &E,
    ) -> Option<Result<((TubeNumber, JobMove), Body), NoMemory>>
        requires id { KeepsId (E.edited edit.now) }
        requires tube { IgnoresTube (E.edited edit.now) }
        ensures changed { SharesAndChanges
            (λ r. (Some r.1 ≡ option_map (moved_by (E.edited edit.now)) (job_with id self.old.jobs.jobs))
            × HasNumber r.1.tube r.0 self.old.tubes.numbers)
            id (E.edited edit.now) result self.old.jobs self.new.jobs }
        ensures tubes { self.new.tubes ≡ self.old.tubes }
    {
        let shared = self.jobs.share_and_change(id, edit);
        shared_of(&self.table, shared)
    }

    /// Returns the record of the job with this id. It has all of the job but the name of its tube.
    pub fn get(&mut self, id: JobId) -> Option<&PackedJob>
        ensures* after { sem 𝓛 (LeavesStore self.entry) }
        ensures job { option_map (λ row. but_for_tube row.now) result
            ≡ option_map but_for_tube (job_with id self.old.jobs.jobs) }
    {
        self.jobs.get(id)
    }

    /// Returns the tube of the job with this id.
    #[tactic(auto, using(bq_jobs::proofs::NamedJobs::tube_named, bq_jobs::proofs::NamedJobs::no_tube_named))]
    pub fn tube_of(&mut self, id: JobId) -> Option<Tube>
        ensures tube { result ≡ option_map (λ j. j.tube) (job_with id self.old.jobs.jobs) }
        ensures kept { SearchesStore 1 self.old self.new }
    {
        let number = self.jobs.number_of(id)?;
        tube_at(&self.table, number)
    }

    /// Returns the tube of the job with this id, and another reference to its body, or `NoMemory`
    /// for that.
    #[tactic(auto, using(bq_jobs::proofs::NamedJobs::shares))]
    pub fn share(&mut self, id: JobId) -> Option<(Tube, Result<Body, NoMemory>)>
        ensures tube { IfSome result (λ s. IsTubeOf (job_with id self.old.jobs.jobs) s.0) }
        ensures body { IfSome result (λ s. IfOk s.1 (IsBodyOf (job_with id self.old.jobs.jobs))) }
        ensures none { is_some result ≡ is_some (job_with id self.old.jobs.jobs) }
        ensures kept { SearchesStore 1 self.old self.new }
    {
        let (number, body) = self.jobs.share(id)?;
        let tube = tube_at(&self.table, number)?;
        Some((tube, body))
    }

    /// Returns another reference to the body of the job with this id, or `NoMemory`. It does not
    /// look up the name of the job's tube.
    #[tactic(auto, using(bq_jobs::proofs::NamedJobs::shares))]
    pub fn share_body(&mut self, id: JobId) -> Option<Result<Body, NoMemory>>
        ensures body { IfSome result (λ s. IfOk s (IsBodyOf (job_with id self.old.jobs.jobs))) }
        ensures none { is_some result ≡ is_some (job_with id self.old.jobs.jobs) }
        ensures kept { SearchesStore 1 self.old self.new }
    {
        self.jobs.share_body(id)
    }

    /// Returns the number and the id of the first job in a list of a tube: by that number, then by
    /// id. The number is the priority of a ready job, the due moment of a delayed one, and the burial
    /// number of a buried one.
    #[tactic(auto, using(bq_jobs::proofs::NamedFirsts::listed_told))]
    pub fn first_listed(&mut self, list: JobList, tube: &Tube) -> Option<(u64, JobId)>
        ensures rank { result
            ≡ option_map (ranked (list_rank list)) (first_in list tube.now self.old.jobs.jobs) }
        ensures kept { SearchesStore 1 self.old self.new }
    {
        let number = self.table.number_of(tube.name(), tube.number())?;
        self.jobs.first_of_group(Group::list(list, number))
    }

    /// Returns the deadline and the id of the job of the client at a seat whose time to run ends
    /// first: by deadline, then by id.
    #[tactic(auto, using(bq_jobs::proofs::NamedFirsts::seat_told))]
    pub fn first_held(&mut self, seat: Seat) -> Option<(Moment, JobId)>
        ensures rank { result
            ≡ option_map (ranked (λ j. deadline_of j.state))
            (first_of (is_held_by seat) is_lease_before self.old.jobs.jobs) }
        ensures kept { SearchesStore 1 self.old self.new }
    {
        self.jobs.first_of_group(Group::held(seat))
    }

    /// Returns the moment and the id of the delayed job that is due first, or of the reserved job
    /// whose time to run ends first, in any tube: by moment, then by id.
    #[tactic(auto, using(bq_jobs::proofs::NamedFirsts::timed_told))]
    pub fn first_timed(&mut self, timer: Timer) -> Option<(Moment, JobId)>
        ensures rank { result
            ≡ option_map (ranked (moment_of timer)) (first_by (is_timed timer) (moment_of timer) self.old.jobs.jobs) }
        ensures kept { SearchesStore 1 self.old self.new }
    {
        self.jobs.first_of_timer(timer)
    }
}

// Returns the tube with this number, with its name.
fn tube_at(table: &TubeTable<TubeEntry>, number: TubeNumber) -> Option<Tube>
    ensures { result ≡ name_of (number_in number) table.now.tubes }
{
    match table.name_of(number) {
        None => None,
        Some(name) => Some(Tube::new(name, number)),
    }
}

// Returns the name of the tube with this number, for contracts only.
#[inline(always)]
fn ghost_name(table: &TubeTable<TubeEntry>, number: TubeNumber) -> GhostName
    requires { is_some (name_of (number_in number) table.now.tubes) ≡ true }
    ensures { result ≡ unwrap_or (name_of (number_in number) table.now.tubes) [] }
{
    GhostName::of(table.name_of(number).unwrap())
}

// Returns the number of the tube of a removed record, and the report about its job.
fn removed_of(
    table: &TubeTable<TubeEntry>,
    removed: Option<(TubeNumber, PriAndState)>,
) -> Option<(TubeNumber, JobRemoval)>
    requires { IfSome removed (λ r. is_some (name_of (number_in r.0) table.now.tubes) ≡ true) }
    ensures { result ≡ option_map (removed_told table.now.tubes) removed }
{
    let (number, at) = removed?;
    let tube = ghost_name(table, number);
    Some((number, JobRemoval { tube, at }))
}

// Returns the number of the tube of a changed record, and the report about its job.
fn told_of(
    table: &TubeTable<TubeEntry>,
    moved: Option<NumberedMove>,
) -> Option<(TubeNumber, JobMove)>
    requires { IfSome moved (λ m. is_some (name_of (number_in m.tube) table.now.tubes) ≡ true) }
    ensures { result ≡ option_map (moved_told table.now.tubes) moved }
{
    let moved = moved?;
    Some(report_of(table, moved))
}

// Returns the same for a record that was found.
fn report_of(table: &TubeTable<TubeEntry>, moved: NumberedMove) -> (TubeNumber, JobMove)
    requires { is_some (name_of (number_in moved.tube) table.now.tubes) ≡ true }
    ensures { result ≡ moved_told table.now.tubes moved }
{
    let tube = ghost_name(table, moved.tube);
    (
        moved.tube,
        JobMove {
            tube,
            from: moved.from,
            to: moved.to,
        },
    )
}

// Returns the same for a change that may not have been made, with the body.
#[inline(always)]
fn shared_of(
    table: &TubeTable<TubeEntry>,
    shared: Option<Result<(NumberedMove, Body), NoMemory>>,
) -> Option<Result<((TubeNumber, JobMove), Body), NoMemory>>
    requires { IsNamedIf table.now.tubes shared }
    ensures { result ≡ shared_told table.now.tubes shared }
{
    match shared {
        None => None,
        Some(Err(fault)) => Some(Err(fault)),
        Some(Ok(pair)) => {
            let (moved, body) = pair;
            Some(Ok((report_of(table, moved), body)))
        }
    }
}
