//! The content of the one lock of a server.
ghost use Rattle.std.specs.Prelude.{◌≡◌, ◌↔◌, ◌<◌, IfOk, IfSome, IsErrOf, IsNone, IsSome, IsTrue, length, not};
ghost use Rattle.bq_core_api.specs.Limits.{are_in_range};
ghost use Rattle.bq_job.specs.beside.NextDue.{next_due};
ghost use Rattle.bq_lock.specs.LockedState.{IsLawfulHold, new_locked, oldest_for, without_oldest};
ghost use Rattle.bq_lock.specs.LockedSteps.{TakesStep, TakesStepUnless};

mod outboxes;

use bq_core_api::{Config, Outs, QueueCore};
use bq_host::{CopySource, Journal, RunFault, SharedBodies, new_core};
use bq_job::{Answer, Entry, Moment, Seat, Step};
use outboxes::Outboxes;
use std::alloc::Global;
use std::marker::Model;

/// The content of the one lock of a server: the core, an outbox for each seat, and a journal of the
/// steps that were taken.
///
/// An outbox holds the last four answers to its seat that were not fetched yet. The size of the
/// journal is fixed when it is created; with size 0 it costs nothing.
#[derive(Drop)]
pub struct Locked<K: QueueCore> {
    alloc: Global,
    core: K,
    outs: Outs,
    outboxes: Outboxes,
    journal: Journal,
}

impl<K: QueueCore> Model for Locked<K> {
    ghost use Rattle.std.specs.Prelude.{◌<◌};
    ghost use Rattle.std.specs.Vec.{vec_capacity};
    ghost use Rattle.bq_lock.specs.LockedState.{IsLawfulHold, LockedState, locked_of};

    ghost Value = { LockedState };

    ghost view = { λ l. locked_of (K.machine l.core) l.outboxes.mails.items l.outboxes.answered.items l.journal };

    // There is room for the answers of a step.
    ghost invariant = { λ l. IsLawfulHold (locked_of (K.machine l.core) l.outboxes.mails.items l.outboxes.answered.items l.journal)
        × ((K.machine l.core).settings.seats < l.outs.most) × ((K.machine l.core).settings.seats < vec_capacity l.outboxes.answered) };
}

impl<K: QueueCore + Drop> Locked<K> {
    /// Returns a new core with empty outboxes, and room for this many entries in the journal. All
    /// memory but that for jobs and answers is allocated here.
    ///
    /// The error is `BadConfiguration` if the configuration is out of its ranges, and otherwise
    /// `NoMemory`.
    pub fn new(alloc: Global, config: Config, capacity: usize) -> Result<Locked<K>, RunFault>
        ensures made { IfOk result (λ locked. locked ≡ new_locked config capacity) }
        ensures bad_configuration { IsErrOf result RunFault.BadConfiguration ↔ IsTrue
            (not (are_in_range config)) }
        ensures no_thread { IsErrOf result RunFault.ThreadRefused ↔ ⊥ }
    {
        let (core, outs) = new_core::<K>(alloc, config)?;
        let Ok(outboxes) = Outboxes::new(alloc, config.seats) else {
            drop(outs);
            return Err(RunFault::NoMemory);
        };
        let Ok(journal) = Journal::new(alloc, capacity) else {
            drop(outs);
            drop(outboxes);
            return Err(RunFault::NoMemory);
        };
        Ok(Locked {
            alloc,
            core,
            outs,
            outboxes,
            journal,
        })
    }

    /// Takes a step at a moment. A moment below an earlier one counts as the earlier one. The
    /// answers go into the outboxes of their seats, where a fifth answer replaces the oldest.
    ///
    /// The journal gets the step's entry if it has room and another reference to the body in the
    /// step is not refused.
    pub fn step(&mut self, at: Moment, seat: Seat, what: Step)
        ensures taken { TakesStep self.old at seat what self.new }
        ensures holds { IsLawfulHold self.new }
    {
        self.step_from(&mut SharedBodies, at, seat, what);
    }

    /// Does the same with the copy of the step from this source. With room in the journal, the
    /// entry is left out only if the source refuses the copy.
    pub fn step_from<S: CopySource>(&mut self, source: &mut S, at: Moment, seat: Seat, what: Step)
        ensures taken { TakesStepUnless (S.refused source.old what) self.old at seat what self.new }
        ensures holds { IsLawfulHold self.new }
    {
        let copy = self.journal.copy(source, &what);
        self.take(at, seat, what, copy);
    }

    // Takes a step, of which there is this copy for the journal.
    fn take(&mut self, at: Moment, seat: Seat, what: Step, copy: Option<Step>)
        requires same { IfSome copy (λ step. step ≡ what) }
        requires room { IsSome copy → length self.old.journal.entries < self.old.journal.capacity }
        ensures taken { TakesStepUnless (IsNone copy) self.old at seat what self.new }
        ensures holds { IsLawfulHold self.new }
    {
        self.core
            .step_in_place(self.alloc, at, seat, &what, &mut self.outs);
        self.journal.note(at, seat, copy, &self.outs);
        self.outboxes.deliver(&mut self.outs);
        drop(what);
    }

    /// Takes the oldest answer out of a seat's outbox. Returns `None` if the outbox is empty or the
    /// seat does not exist.
    pub fn fetch(&mut self, seat: Seat) -> Option<Answer>
        ensures oldest { result ≡ oldest_for seat self.old.outboxes }
        ensures rest { self.new
            ≡ record self.old { outboxes = without_oldest seat self.old.outboxes } }
        ensures holds { IsLawfulHold self.new }
    {
        self.outboxes.fetch(seat)
    }

    /// Returns the seats that received an answer from the last step, in the order of the answers. A
    /// seat appears once for each of its answers.
    pub fn answered(&self) -> &[Seat]
        ensures { result.now ≡ self.now.answered }
    {
        self.outboxes.answered.as_slice()
    }

    /// Returns the next moment at which something is due, as reported by the core.
    pub fn next_due(&mut self) -> Option<Moment>
        ensures due { result ≡ next_due self.old.machine }
        ensures same { self.new ≡ self.old }
    {
        self.core.next_due()
    }

    /// Returns the entries so far, in the order in which their steps were taken.
    pub fn journal(&self) -> &[Entry]
        ensures entries { result.now ≡ self.now.journal.entries }
        ensures holds { IsLawfulHold self.now }
    {
        self.journal.entries()
    }

    /// Returns true if the journal is complete: it was never full when a step was taken, and each
    /// body could be shared.
    pub fn whole(&self) -> bool
        ensures whole { result ≡ self.now.journal.whole }
        ensures holds { IsLawfulHold self.now }
    {
        self.journal.whole()
    }
}
