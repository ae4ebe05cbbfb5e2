//! The core, and the parts of a step in order.
ghost use Rattle.std.specs.Prelude.{IfOk, IsErrOf, IsTrue, not, ◌&&◌, ◌<◌, ◌↔◌, ◌≡◌};
ghost use Rattle.bq_core.specs.{Serving.{NoneIsGone, ServesAsking, TakesStepWithin}, Turns.HasRoom};
ghost use Rattle.bq_core_api.specs.{Cost.{IsLookWithin, IsStepWithin}, Limits.{is_body_size, is_job_limit, is_seat_count}};
ghost use Rattle.bq_core_api.specs.Outbox.{outcome_of};
ghost use Rattle.bq_job.specs.{beside.{Lawful.IsLawful, NextDue.next_due}, machine.{Machine.new_machine, Steps.IsStep}};
ghost use Rattle.bq_state.specs.CoreParts.{machine_of};

use crate::{dispatch, timers, waits};
use bq_core_api::{Config, CoreFault, Outs, QueueCore};
use bq_job::{LARGEST_BODY, MOST_SEATS, Moment, NoMemory, Seat, Step};
use bq_state::core_parts::CoreParts;
use bq_state::store::Store;
use bq_state::waiting::WaitingList;
use bq_state::{changes, seats};
use std::alloc::Global;
use std::marker::Model;

/// The core: it represents the one-list model and takes its steps.
#[derive(Drop)]
pub struct Core {
    parts: CoreParts,
}

impl Model for Core {
    ghost use Rattle.bq_core.specs.CoreState.{CoreState};
    ghost use Rattle.bq_job.specs.beside.Lawful.{IsLawful};
    ghost use Rattle.bq_state.specs.CoreParts.{machine_of};

    ghost Value = { CoreState };

    ghost view = { λ c. record { machine = machine_of c.parts; comparisons = c.parts.store.jobs.comparisons } };

    ghost invariant = { λ c. IsLawful (machine_of c.parts) };
}

// Dispatches jobs, and then ends waits.
fn serve(state: &mut CoreParts, outs: &mut Outs)
    requires tubes { NoneIsGone (machine_of state.old) }
    requires room { HasRoom 0 (machine_of state.old) outs.old }
    ensures served { ServesAsking (machine_of state.old) outs.old outs.new
        (machine_of state.new) state.old.store.jobs state.new.store.jobs }
{
    dispatch::dispatch(state, outs);
    waits::end_waits(state, outs);
}

// Takes one step.
fn take_step(
    state: &mut CoreParts,
    alloc: Global,
    at: Moment,
    seat: Seat,
    what: &Step,
    outs: &mut Outs,
)
    requires lawful { IsLawful (machine_of state.old) }
    requires room { state.old.config.seats < outs.old.most }
    ensures step { IsStep (machine_of state.old) at seat what.now
        (outcome_of outs.new) outs.new.given (machine_of state.new) }
    ensures comparisons { TakesStepWithin at seat what.now state.old state.new outs.new }
    ensures lawful { IsLawful (machine_of state.new) }
    ensures settings { state.new.config ≡ state.old.config }
    ensures most { outs.new.most ≡ outs.old.most }
{
    outs.begin();
    changes::raise_moment(state, at);
    timers::fire(state);
    serve(state, outs);
    dispatch::act_or_hand_out(state, alloc, seat, what, outs);
    serve(state, outs);
}

fn is_seat_count(seats: u16) -> bool
    ensures { result ≡ is_seat_count seats }
{
    1 <= seats && seats <= MOST_SEATS
}

fn is_body_size(bytes: u32) -> bool
    ensures { result ≡ is_body_size bytes }
{
    1 <= bytes && bytes <= LARGEST_BODY
}

fn is_job_limit(most: Option<u32>) -> bool
    ensures { result ≡ is_job_limit most }
{
    match most {
        None => true,
        Some(most) => 1 <= most,
    }
}

// Returns why no core can be made with these settings, if that is so.
fn judge(config: Config) -> Result<(), CoreFault>
    ensures bad_seats { IsErrOf result CoreFault.BadSeats ↔ IsTrue
        (not (is_seat_count config.seats)) }
    ensures bad_max_job_size { IsErrOf result CoreFault.BadMaxJobSize ↔
        (IsTrue (is_seat_count config.seats) × IsTrue (not (is_body_size config.max_job_size))) }
    ensures bad_max_jobs { IsErrOf result CoreFault.BadMaxJobs ↔
        (IsTrue (is_seat_count config.seats && is_body_size config.max_job_size) × IsTrue (not (is_job_limit config.max_jobs))) }
{
    if !is_seat_count(config.seats) {
        return Err(CoreFault::BadSeats);
    }
    if !is_body_size(config.max_job_size) {
        return Err(CoreFault::BadMaxJobSize);
    }
    if !is_job_limit(config.max_jobs) {
        return Err(CoreFault::BadMaxJobs);
    }
    Ok(())
}

// Returns a core without jobs, or `NoMemory` if an allocation fails.
#[tactic(auto, using(bq_job::proofs::LawfulLemmas::new_is_lawful))]
fn empty_core(alloc: Global, config: Config) -> Result<Core, NoMemory>
    ensures { IfOk result (λ core. core ≡ record { machine = new_machine config; comparisons = 0 }) }
{
    let Ok(seats) = seats::free_seats(alloc, config.seats) else {
        return Err(NoMemory);
    };
    let Ok(waiting) = WaitingList::new(alloc, config.seats) else {
        drop(seats);
        return Err(NoMemory);
    };
    let Ok(store) = Store::new(alloc) else {
        drop(seats);
        drop(waiting);
        return Err(NoMemory);
    };
    Ok(Core {
        parts: changes::new_parts(config, store, seats, waiting),
    })
}

impl Core {
    /// Returns a core with no jobs and with all seats free. Returns the first setting that is out
    /// of range, or `NoMemory` if an allocation fails.
    pub fn new(alloc: Global, config: Config) -> Result<Core, CoreFault>
        ensures made { IfOk result
            (λ core. core ≡ record { machine = new_machine config; comparisons = 0 }) }
        ensures bad_seats { IsErrOf result CoreFault.BadSeats ↔ IsTrue
            (not (is_seat_count config.seats)) }
        ensures bad_max_job_size { IsErrOf result CoreFault.BadMaxJobSize ↔
            (IsTrue (is_seat_count config.seats) × IsTrue (not (is_body_size config.max_job_size))) }
        ensures bad_max_jobs { IsErrOf result CoreFault.BadMaxJobs ↔
            (IsTrue (is_seat_count config.seats && is_body_size config.max_job_size) × IsTrue (not (is_job_limit config.max_jobs))) }
    {
        judge(config)?;
        match empty_core(alloc, config) {
            Ok(core) => Ok(core),
            Err(_) => Err(CoreFault::NoMemory),
        }
    }

    /// Takes a step: what happens at a seat, at a moment in milliseconds. Afterwards `outs` holds
    /// the answers in order. Any moment, seat and step is accepted.
    pub fn step(&mut self, alloc: Global, at: Moment, seat: Seat, what: Step, outs: &mut Outs)
        requires room { self.old.machine.settings.seats < outs.old.most }
        ensures step { IsStep self.old.machine at seat what
            (record { left_out = outs.new.left_out; unshared = outs.new.unshared })
            outs.new.given self.new.machine }
        ensures comparisons { IsStepWithin self.old.machine at seat what
            (record { left_out = outs.new.left_out; unshared = outs.new.unshared }) outs.new.given self.new.machine self.old.comparisons
            self.new.comparisons }
        ensures lawful { IsLawful self.new.machine }
        ensures most { outs.new.most ≡ outs.old.most }
        ensures settings { self.new.machine.settings ≡ self.old.machine.settings }
    {
        self.step_in_place(alloc, at, seat, &what, outs);
        drop(what);
    }

    /// Does the same as `step` with a step passed by reference: it may contain a tube's name, which
    /// would have to be copied.
    pub fn step_in_place(
        &mut self,
        alloc: Global,
        at: Moment,
        seat: Seat,
        what: &Step,
        outs: &mut Outs,
    )
        requires room { self.old.machine.settings.seats < outs.old.most }
        ensures step { IsStep self.old.machine at seat what.now
            (record { left_out = outs.new.left_out; unshared = outs.new.unshared })
            outs.new.given self.new.machine }
        ensures comparisons { IsStepWithin self.old.machine at seat what.now
            (record { left_out = outs.new.left_out; unshared = outs.new.unshared }) outs.new.given self.new.machine self.old.comparisons
            self.new.comparisons }
        ensures lawful { IsLawful self.new.machine }
        ensures most { outs.new.most ≡ outs.old.most }
        ensures settings { self.new.machine.settings ≡ self.old.machine.settings }
    {
        take_step(&mut self.parts, alloc, at, seat, what, outs);
    }

    /// Returns how many keys of its jobs it has compared so far. The count stops at 2^64 - 1.
    pub fn comparisons(&self) -> u64
        ensures { result ≡ self.now.comparisons }
    {
        self.parts.store.comparisons()
    }

    /// Returns the earliest moment, in milliseconds, at which something happens by itself: a delay,
    /// a time to run or a pause ends, a wait times out, or a waiting client gets DEADLINE_SOON. A
    /// tick before that moment changes nothing but the moment.
    pub fn next_due(&mut self) -> Option<Moment>
        ensures due { result ≡ next_due self.old.machine }
        ensures same { self.new.machine ≡ self.old.machine }
        ensures comparisons { IsLookWithin self.old.machine self.old.comparisons self.new.comparisons }
    {
        timers::next_due(&mut self.parts)
    }
}

impl QueueCore for Core {
    ghost machine = { λ core. core.machine };

    ghost comparisons = { λ core. core.comparisons };

    fn new(alloc: Global, config: Config) -> Result<Core, CoreFault> {
        Core::new(alloc, config)
    }

    fn step_in_place(
        &mut self,
        alloc: Global,
        at: Moment,
        seat: Seat,
        what: &Step,
        outs: &mut Outs,
    ) {
        self.step_in_place(alloc, at, seat, what, outs);
    }

    fn next_due(&mut self) -> Option<Moment> {
        self.next_due()
    }
}
