//! The jobs of a work queue, each with the name of its tube.
ghost use Rattle.std.specs.Option.{option_map};
ghost use Rattle.std.specs.Prelude.{◌≡◌, ◌+◌, ◌<◌, ◌^◌, []};
ghost use Rattle.std.specs.Prelude.{length, IfSome, None};
ghost use Rattle.bq_job.specs.machine.Changes.{first_of, is_held_by, job_with};
ghost use Rattle.bq_job.specs.machine.Dispatch.{is_job_before};
ghost use Rattle.bq_job.specs.machine.JobCommands.{is_buried_in, is_delayed_in};
ghost use Rattle.bq_job.specs.machine.JobStates.{is_buried_before, is_delayed, is_due_before, is_reserved};
ghost use Rattle.bq_job.specs.beside.Lawful.{AreIdsWithin};
ghost use Rattle.bq_job.specs.machine.TubeCommands.{is_ready_in};
ghost use Rattle.bq_jobs.specs.JobsSeen.{ComparesAtMost, with_added};
ghost use Rattle.bq_jobs.specs.Leases.{is_lease_before};
ghost use Rattle.bq_jobs.specs.Ranks.{first_held, first_timed, id_in};
ghost use Rattle.bq_jobs.specs.Room.{MakesRoom, Removes};
ghost use Rattle.bq_jobs.specs.Searching.{Searches};

use super::named_group::{self, NamedGroup};
use super::place_shelf::{self, PlaceShelf};
use super::places::{JobList, ShelfPlace, Timer};
use bq_index::{BoxSource, Shelf};
use bq_job::{Job, JobId, Moment, NoMemory, Seat, TubeName};
use std::alloc::Global;
use std::marker::Model;

/// The jobs. A job is found by its id, and the first job of each kind without a search.
///
/// [`Jobs::add`] adds a job, with the room that [`Jobs::reserve_one`] made. [`Jobs::remove`]
/// removes a job and leaves its room for the next one, so to remove a job, change it and add it
/// again allocates nothing.
#[derive(Drop)]
pub struct Jobs {
    by_id: Shelf<JobId, Job>,
    groups: Shelf<ShelfPlace<NamedGroup>, ()>,
    timers: Shelf<ShelfPlace<Timer>, ()>,
}

impl Model for Jobs {
    ghost use Rattle.bq_jobs.specs.Inside.{seen_in, IsShelved};
    ghost use Rattle.bq_jobs.specs.JobsSeen.{JobsSeen};

    ghost Value = { JobsSeen };

    ghost view = { λ s. seen_in s.by_id s.groups s.timers };

    ghost invariant = { λ s. IsShelved ⟦<NamedGroup as Ord>⟧.cmp ⟦<Timer as Ord>⟧.cmp s.by_id s.groups s.timers };
}

impl Jobs {
    ghost use Rattle.std.specs.Borrow.{sem};
    ghost use Rattle.bq_jobs.specs.Lent.{LeavesJobs};

    /// Returns a value with no jobs, and no room for one.
    pub fn new() -> Jobs
        ensures { result ≡ record { jobs = []; room = 0; comparisons = 0; tubes = [] } }
    {
        Jobs {
            by_id: Shelf::new(),
            groups: Shelf::new(),
            timers: Shelf::new(),
        }
    }

    /// Returns the number of jobs.
    pub fn len(&self) -> usize
        ensures len { result ≡ length self.now.jobs }
        ensures ordered { AreIdsWithin 0 self.now.jobs (2 ^ 64) }
    {
        self.by_id.len()
    }

    /// Returns how many more jobs can be added.
    pub fn room(&self) -> usize
        ensures { result ≡ self.now.room }
    {
        self.by_id.spare()
    }

    /// Returns how often two keys were compared so far. The count stops at 2^64 - 1.
    pub fn comparisons(&self) -> u64
        ensures { result ≡ self.now.comparisons }
    {
        self.by_id
            .comparisons()
            .saturating_add(self.groups.comparisons())
            .saturating_add(self.timers.comparisons())
    }

    /// Makes room for a job, if there is none. What was allocated before a failure is kept for the
    /// next call. No other call allocates.
    pub fn reserve_one(&mut self, alloc: Global) -> Result<(), NoMemory>
        ensures { MakesRoom result self.old self.new }
    {
        let mut heap = alloc;
        self.reserve_one_from(&mut heap)
    }

    /// The same, with boxes from a source. The boxes of the other orders are allocated first, so
    /// there is no room for a job until all of its boxes are there.
    pub fn reserve_one_from<S: BoxSource>(&mut self, source: &mut S) -> Result<(), NoMemory>
        ensures { MakesRoom result self.old self.new }
    {
        if self.by_id.spare() > 0 {
            return Ok(());
        }
        let Some(places) = self.by_id.len().checked_add(1) else {
            return Err(NoMemory);
        };
        self.groups.make_room(source, places)?;
        self.timers.make_room(source, places)?;
        match self.by_id.reserve_from(source, 1) {
            Ok(()) => Ok(()),
            Err(_) => Err(NoMemory),
        }
    }

    /// Adds a job, which uses the room of one.
    #[tactic(auto, using(crate::proofs::Shelved::additions))]
    pub fn add(&mut self, job: Job)
        requires room { 0 < self.old.room }
        requires absent { job_with job.id self.old.jobs ≡ None }
        ensures jobs { self.new.jobs ≡ with_added job self.old.jobs }
        ensures ordered { AreIdsWithin 0 self.new.jobs (2 ^ 64) }
        ensures room { self.new.room + 1 ≡ self.old.room }
        ensures comparisons { ComparesAtMost 4 self.old self.new }
    {
        place_shelf::enter(&mut self.groups, named_group::place_of(&job));
        place_shelf::enter(&mut self.timers, named_group::timer_place_of(&job));
        self.by_id.insert(named_group::id_of(&job), job);
    }

    /// Removes the job with this id and returns it, if there is one. Its room is free again.
    #[tactic(auto, using(crate::proofs::Shelved::found_in))]
    pub fn remove(&mut self, id: JobId) -> Option<Job>
        ensures job { result ≡ job_with id self.old.jobs }
        ensures id { IfSome result (λ job. job.id ≡ id) }
        ensures left { Removes id result self.old self.new }
    {
        let job = self.by_id.remove(&id)?;
        place_shelf::leave(&mut self.groups, named_group::place_of(&job));
        place_shelf::leave(&mut self.timers, named_group::timer_place_of(&job));
        Some(job)
    }

    /// Returns the job with this id.
    #[tactic(auto, using(crate::proofs::Shelved::found_in, crate::proofs::Shelved::id_searched))]
    pub fn get(&mut self, id: JobId) -> Option<&Job>
        ensures* after { sem 𝓛 (LeavesJobs self.entry) }
        ensures job { option_map (λ j. j.now) result ≡ job_with id self.old.jobs }
    {
        self.by_id.get(&id)
    }

    /// Returns the id of the most urgent ready job of a tube: by priority, then by id.
    #[tactic(auto, using(crate::proofs::FirstJobs::held_id))]
    pub fn first_ready(&mut self, tube: &TubeName) -> Option<JobId>
        ensures id { result
            ≡ option_map (λ j. j.id) (first_of (is_ready_in tube.now) is_job_before self.old.jobs) }
        ensures kept { Searches 1 self.old self.new }
    {
        id_in(self.first_of_group(NamedGroup::list(JobList::Ready, tube)))
    }

    /// Returns the id of the delayed job of a tube that is due first: by due moment, then by id.
    #[tactic(auto, using(crate::proofs::FirstJobs::held_id))]
    pub fn first_delayed(&mut self, tube: &TubeName) -> Option<JobId>
        ensures id { result
            ≡ option_map (λ j. j.id)
            (first_of (is_delayed_in tube.now) is_due_before self.old.jobs) }
        ensures kept { Searches 1 self.old self.new }
    {
        id_in(self.first_of_group(NamedGroup::list(JobList::Delayed, tube)))
    }

    /// Returns the id of the job of a tube that was buried first: by burial number, then by id.
    #[tactic(auto, using(crate::proofs::FirstJobs::held_id))]
    pub fn first_buried(&mut self, tube: &TubeName) -> Option<JobId>
        ensures id { result
            ≡ option_map (λ j. j.id)
            (first_of (is_buried_in tube.now) is_buried_before self.old.jobs) }
        ensures kept { Searches 1 self.old self.new }
    {
        id_in(self.first_of_group(NamedGroup::list(JobList::Buried, tube)))
    }

    /// Returns the id of the delayed job that is due first, in any tube: by due moment, then by id.
    #[tactic(auto, using(crate::proofs::FirstJobs::timed_id))]
    pub fn first_due(&mut self) -> Option<JobId>
        ensures id { result
            ≡ option_map (λ j. j.id)
            (first_of (λ j. is_delayed j.state) is_due_before self.old.jobs) }
        ensures kept { Searches 1 self.old self.new }
    {
        id_in(self.first_of_timer(Timer::Delay))
    }

    /// Returns the id of the reserved job whose time to run ends first, among those of all clients:
    /// by deadline, then by id.
    #[tactic(auto, using(crate::proofs::FirstJobs::timed_id))]
    pub fn first_lease(&mut self) -> Option<JobId>
        ensures id { result
            ≡ option_map (λ j. j.id)
            (first_of (λ j. is_reserved j.state) is_lease_before self.old.jobs) }
        ensures kept { Searches 1 self.old self.new }
    {
        id_in(self.first_of_timer(Timer::Lease))
    }

    /// Returns the id of the job of the client at a seat whose time to run ends first: by deadline,
    /// then by id.
    #[tactic(auto, using(crate::proofs::FirstJobs::held_id))]
    pub fn first_held(&mut self, seat: Seat) -> Option<JobId>
        ensures id { result
            ≡ option_map (λ j. j.id) (first_of (is_held_by seat) is_lease_before self.old.jobs) }
        ensures kept { Searches 1 self.old self.new }
    {
        id_in(self.first_of_group(NamedGroup::held(seat)))
    }

    // Returns the number and the id of the first job of a holder: by that number, then by id.
    #[tactic(auto, using(crate::proofs::Shelved::first_in_group, crate::proofs::Shelved::groups_searched))]
    fn first_of_group(&mut self, group: NamedGroup) -> Option<(u64, JobId)>
        ensures rank { result ≡ first_held group self.old.jobs }
        ensures kept { Searches 1 self.old self.new }
    {
        place_shelf::first_rank(&mut self.groups, group)
    }

    // Returns the moment and the id of the first delay or of the first lease: by moment, then by
    // id.
    #[tactic(auto, using(crate::proofs::Shelved::first_in_timers, crate::proofs::Shelved::timers_searched))]
    fn first_of_timer(&mut self, timer: Timer) -> Option<(Moment, JobId)>
        ensures rank { result ≡ first_timed timer self.old.jobs }
        ensures kept { Searches 1 self.old self.new }
    {
        place_shelf::first_rank(&mut self.timers, timer)
    }
}

// Returns the id in a pair.
#[tactic(auto, unfolding(crate::specs::Ranks::id_in))]
fn id_in(rank: Option<(u64, JobId)>) -> Option<JobId>
    ensures { result ≡ id_in rank }
{
    let (_, id) = rank?;
    Some(id)
}
