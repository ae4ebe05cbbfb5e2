//! A core with its clock, and the moment that the clock's readings amount to.
ghost use Rattle.std.specs.Prelude.{◌≡◌, ◌<◌, ◌↔◌, ◌+◌, ◌&&◌, [], false, not, true, IfOk, IsErrOf, IsTrue};
ghost use Rattle.bq_job.specs.beside.NextDue.{is_before, next_due};
ghost use Rattle.bq_job.specs.machine.Machine.{new_machine};
ghost use Rattle.bq_core_api.specs.Limits.{are_in_range};
ghost use Rattle.bq_host.specs.Told.{HasLogged, concern_of, none_told, told_after};
ghost use Rattle.bq_host.specs.Timed.{HasHeard, KnowsDue, HearsDue, HearsIf, IsNewTimed, IsReady, LooksAndSteps, OnlyHears, PassesOver, TakesStep, is_read_for};

use crate::fault::RunFault;
use crate::notices::{Notices, concern_of};
use bq_core_api::{Config, CoreFault, Outs, QueueCore};
use bq_job::{Moment, Seat, Step};
use bq_line::clock::{Clock, Notice, moment_heard};
use std::alloc::Global;

/// A clock, and the moment that its readings so far amount to.
#[derive(Drop)]
pub struct HeardClock<C> {
    pub clock: C,
    /// The latest moment. It never falls, whatever the clock reads.
    pub moment: Moment,
}

impl<C: Clock + Drop> HeardClock<C> {
    /// Returns a clock that was not read yet: its moment is 0.
    pub fn new(clock: C) -> HeardClock<C>
        ensures clock { result.clock ≡ clock }
        ensures moment { result.moment ≡ 0 }
    {
        HeardClock { clock, moment: 0 }
    }

    /// Reads the clock once and returns the reading. The latest moment follows it.
    pub fn hear(&mut self) -> Option<Moment>
        ensures { HasHeard C.given self.old result self.new }
    {
        let reading = self.clock.now();
        self.moment = moment_heard(self.moment, reading);
        reading
    }
}

/// A core that takes each step at the moment that its clock reads then.
#[derive(Drop)]
pub struct TimedCore<C, K> {
    /// The allocator, for the steps that allocate.
    pub alloc: Global,
    pub core: K,
    /// The answers of the last step that were not taken yet.
    pub outs: Outs,
    pub time: HeardClock<C>,
    /// The next moment at which something is due.
    pub due: Option<Moment>,
    /// Whether `due` holds for the core as it is now: it was asked since its last step.
    pub is_due_known: bool,
    /// What was logged about the core's steps, or returned to be logged.
    pub notices: Notices,
}

/// Returns a new core, and room for the answers of its steps. All memory but that for jobs is
/// allocated here.
///
/// The error is `BadConfiguration` if the configuration is out of its ranges, and otherwise
/// `NoMemory`.
pub fn new_core<K: QueueCore + Drop>(alloc: Global, config: Config) -> Result<(K, Outs), RunFault>
    ensures core { IfOk result (λ new. K.machine new.0 ≡ new_machine config) }
    ensures none_compared { IfOk result (λ new. K.comparisons new.0 ≡ 0) }
    ensures none_given { IfOk result (λ new. new.1.given ≡ []) }
    ensures room { IfOk result (λ new. new.1.most ≡ config.seats + 1) }
    ensures bad_configuration { IsErrOf result RunFault.BadConfiguration ↔ IsTrue
        (not (are_in_range config)) }
    ensures no_thread { IsErrOf result RunFault.ThreadRefused ↔ ⊥ }
{
    let core = match K::new(alloc, config) {
        Ok(core) => core,
        Err(CoreFault::NoMemory) => return Err(RunFault::NoMemory),
        Err(_) => return Err(RunFault::BadConfiguration),
    };
    match Outs::new(alloc, config.seats) {
        Ok(outs) => Ok((core, outs)),
        Err(_) => Err(RunFault::NoMemory),
    }
}

impl<C: Clock + Drop, K: QueueCore + Drop> TimedCore<C, K> {
    /// Returns a new core with a clock that was not read yet. All memory but that for jobs is
    /// allocated here.
    ///
    /// The error is `BadConfiguration` if the configuration is out of its ranges, and otherwise
    /// `NoMemory`.
    pub fn new(alloc: Global, config: Config, clock: C) -> Result<TimedCore<C, K>, RunFault>
        ensures made { IfOk result (IsNewTimed K.QueueCore config clock) }
        ensures none_told { IfOk result (λ timed. timed.notices ≡ none_told) }
        ensures bad_configuration { IsErrOf result RunFault.BadConfiguration ↔ IsTrue
            (not (are_in_range config)) }
        ensures no_thread { IsErrOf result RunFault.ThreadRefused ↔ ⊥ }
    {
        let (core, outs) = new_core::<K>(alloc, config)?;
        Ok(TimedCore::over(alloc, core, outs, clock))
    }

    /// Returns this core with a clock that was not read yet.
    pub fn over(alloc: Global, core: K, outs: Outs, clock: C) -> TimedCore<C, K>
        ensures core { result.core ≡ core }
        ensures outs { result.outs ≡ outs }
        ensures clock { result.time.clock ≡ clock }
        ensures none_heard { result.time.moment ≡ 0 }
        ensures unknown { result.is_due_known ≡ false }
        ensures none_told { result.notices ≡ none_told }
    {
        TimedCore {
            alloc,
            core,
            outs,
            time: HeardClock::new(clock),
            due: None,
            is_due_known: false,
            notices: Notices::none(),
        }
    }

    /// Takes a step at the moment that the clock reads now, and logs through the clock what the
    /// operator has to see of it. The step itself is not moved.
    pub fn take_step(&mut self, seat: Seat, what: &Step)
        requires ready { IsReady K.machine self.old }
        ensures ready { IsReady K.machine self.new }
        ensures taken { TakesStep K.QueueCore C.Clock self.old seat what.now self.new }
        // What was logged before decides what is logged now, and so do the answers of this step and
        // whether an allocation of it failed.
        ensures told { HasLogged (concern_of what.now) self.new.outs self.new.time.moment
            self.old.notices self.new.notices }
    {
        if let Some(notice) = self.take_step_quietly(seat, what) {
            self.time.clock.tell(notice);
        }
    }

    /// Takes a step at the moment that the clock reads now, and returns what has to be logged about
    /// it. It is up to the caller to log that: this call never waits.
    pub fn take_step_quietly(&mut self, seat: Seat, what: &Step) -> Option<Notice>
        requires ready { IsReady K.machine self.old }
        ensures ready { IsReady K.machine self.new }
        ensures taken { TakesStep K.QueueCore C.Clock self.old seat what.now self.new }
        ensures told { (result, self.new.notices) ≡ told_after (concern_of what.now) self.new.outs self.new.time.moment
            self.old.notices }
    {
        let _reading = self.time.hear();
        self.is_due_known = false;
        self.core
            .step_in_place(self.alloc, self.time.moment, seat, what, &mut self.outs);
        let concern = concern_of(what);
        self.notices.after(concern, &self.outs, self.time.moment)
    }

    /// Returns whether something is due by now, and takes a tick then, if it may. The clock is read
    /// once, unless nothing will ever be due; the tick is taken at the moment of that reading.
    ///
    /// `is_fresh` says that the last reading is as good as a new one: if nothing was due then, the
    /// clock is not read.
    pub fn tick_if_due(&mut self, seat: Seat, is_fresh: bool, may_tick: bool) -> bool
        requires ready { IsReady K.machine self.old }
        ensures ready { IsReady K.machine self.new }
        ensures over { (may_tick && result) ≡ false → PassesOver K.QueueCore C.Clock self.old self.new }
        ensures ticked { (may_tick && result) ≡ true → LooksAndSteps K.QueueCore C.Clock self.old seat Step.Tick self.new }
        ensures read { HearsIf C.given (is_read_for is_fresh self.old.time.moment (next_due (K.machine self.old.core))) self.old.time self.new.time }
        ensures is_due { result
            ≡ not (is_before self.new.time.moment (next_due (K.machine self.old.core))) }
        ensures due { self.new.due ≡ next_due (K.machine self.old.core) }
        ensures settings { (K.machine self.new.core).settings ≡ (K.machine self.old.core).settings }
        ensures notices { self.new.notices ≡ self.old.notices }
    {
        if !self.is_due(is_fresh) {
            return false;
        }
        if may_tick {
            self.tick(seat);
        }
        true
    }

    // Takes a tick at the latest moment of the clock.
    fn tick(&mut self, seat: Seat)
        requires ready { IsReady K.machine self.old }
        ensures ready { IsReady K.machine self.new }
        ensures ticked { (first : TimedCore C K) → OnlyHears C.given first self.old → TakesStep K.QueueCore C.Clock first seat Step.Tick self.new }
        ensures time { self.new.time ≡ self.old.time }
        ensures due { self.new.due ≡ self.old.due }
        ensures settings { (K.machine self.new.core).settings ≡ (K.machine self.old.core).settings }
        ensures notices { self.new.notices ≡ self.old.notices }
    {
        self.is_due_known = false;
        self.core.step_in_place(
            self.alloc,
            self.time.moment,
            seat,
            &Step::Tick,
            &mut self.outs,
        );
    }

    // Returns whether something is due by now. The clock is read once, unless nothing will
    // ever be due, or the last reading is fresh and nothing was due then.
    fn is_due(&mut self, is_fresh: bool) -> bool
        requires ready { IsReady K.machine self.old }
        ensures ready { IsReady K.machine self.new }
        ensures over { PassesOver K.QueueCore C.Clock self.old self.new }
        ensures heard { result ≡ true → HearsDue K.QueueCore C.Clock self.old self.new }
        ensures read { HearsIf C.given (is_read_for is_fresh self.old.time.moment (next_due (K.machine self.old.core))) self.old.time self.new.time }
        ensures is_due { result
            ≡ not (is_before self.new.time.moment (next_due (K.machine self.old.core))) }
        ensures due { self.new.due ≡ next_due (K.machine self.old.core) }
        ensures same { K.machine self.new.core ≡ K.machine self.old.core }
        ensures notices { self.new.notices ≡ self.old.notices }
    {
        let Some(due) = self.next_due() else {
            return false;
        };
        if is_fresh && self.time.moment < due {
            return false;
        }
        let _reading = self.time.hear();
        due <= self.time.moment
    }

    // Returns the next moment at which something is due. The core is asked at most once after each
    // step.
    fn next_due(&mut self) -> Option<Moment>
        requires ready { IsReady K.machine self.old }
        ensures ready { IsReady K.machine self.new }
        ensures due { result ≡ next_due (K.machine self.old.core) }
        ensures known { KnowsDue K.QueueCore self.old self.new }
        ensures notices { self.new.notices ≡ self.old.notices }
    {
        if !self.is_due_known {
            self.due = self.core.next_due();
            self.is_due_known = true;
        }
        self.due
    }
}
