//! A desk under a lock, where each seat is served by a thread of its own.
ghost use Rattle.std.specs.Prelude.{◌≡◌, ◌≤◌};

use crate::bells::Rings;
use crate::locked::Locked;
use crate::shared_desk::{LONGEST_REST, Look, SharedDesk};
use bq_core_api::QueueCore;
use bq_host::HeardClock;
use bq_job::{Answer, Seat, Step};
use bq_line::clock::Clock;
use std::sync::{Mutex, Wait};

/// The content of the one lock of a run: the core with its outboxes, and the clock.
#[derive(Drop)]
pub struct LockedDesk<C, K: QueueCore> {
    pub locked: Locked<K>,
    pub time: HeardClock<C>,
}

impl<C: Clock + Drop, K: QueueCore + Drop> LockedDesk<C, K> {
    ghost use Rattle.bq_job.specs.beside.NextDue.{next_due};
    ghost use Rattle.bq_lock.specs.LockedDesks.{EndsInTime, HasLooked, HasPassed, HasServed, HasTaken};
    ghost use Rattle.bq_lock.specs.Rung.{AreRung, AreRungByTick, others};

    /// Returns a new desk.
    pub fn new(locked: Locked<K>, clock: C) -> LockedDesk<C, K>
        ensures locked { result.locked ≡ locked }
        ensures clock { result.time.clock ≡ clock }
        ensures heard { result.time.moment ≡ 0 }
    {
        LockedDesk {
            locked,
            time: HeardClock::new(clock),
        }
    }

    // Takes a step at the moment that the clock reads now. Returns the seats whose bells have to be
    // rung: those that were answered, except the one whose step it is.
    fn step(&mut self, seat: Seat, what: Step) -> Rings
        ensures taken { HasTaken C.given seat what self.old self.new }
        ensures rings { AreRung (others seat self.new.locked.answered) result }
    {
        let _reading = self.time.hear();
        self.locked.step(self.time.moment, seat, what);
        Rings::but_own(self.locked.answered(), seat)
    }

    // Takes a step and then the oldest answer for its seat. No tick is needed, since the step
    // itself handles what is due.
    fn serve(&mut self, seat: Seat, what: Step) -> (Option<Answer>, Rings)
        ensures served { HasServed C.given seat what self.old result.0 self.new }
        ensures rings { AreRung (others seat self.new.locked.answered) result.1 }
    {
        let rings = self.step(seat, what);
        (self.locked.fetch(seat), rings)
    }

    // Takes a tick if one is due, and then looks for mail of a seat.
    fn look(&mut self, seat: Seat) -> (Look, Rings)
        ensures looked { HasLooked C.given seat self.old result.0 self.new }
        ensures rings { AreRungByTick (next_due self.old.locked.machine) self.new.time.moment
            (others seat self.new.locked.answered) result.1 }
    {
        let (rest, rings) = self.tick_if_due(seat);
        match self.locked.fetch(seat) {
            Some(answer) => (Look::Mail(answer), rings),
            None => (Look::Nothing(rest), rings),
        }
    }

    // Reads the clock if anything will ever be due, and takes a tick at this reading if something
    // is due by then. Returns the longest sleep of the seat in milliseconds, and the seats whose
    // bells have to be rung.
    fn tick_if_due(&mut self, seat: Seat) -> (u64, Rings)
        ensures passed { HasPassed C.given seat
            (next_due self.old.locked.machine) self.old self.new }
        ensures rest { EndsInTime (next_due self.old.locked.machine) self.new.time.moment result.0 }
        ensures most { result.0 ≤ 100 }
        ensures rings { AreRungByTick (next_due self.old.locked.machine) self.new.time.moment
            (others seat self.new.locked.answered) result.1 }
    {
        let Some(due) = self.locked.next_due() else {
            return (LONGEST_REST, Rings::none());
        };
        let _reading = self.time.hear();
        if due <= self.time.moment {
            self.locked.step(self.time.moment, seat, Step::Tick);
            return (0, Rings::but_own(self.locked.answered(), seat));
        }
        (LONGEST_REST.min(due - self.time.moment), Rings::none())
    }
}

impl<C: Clock + Drop, K: QueueCore + Drop> SharedDesk for Mutex<LockedDesk<C, K>> {
    fn step<R: Wait>(&self, rt: &R, seat: Seat, what: Step) -> Rings {
        self.lock(rt).step(seat, what)
    }

    fn serve<R: Wait>(&self, rt: &R, seat: Seat, what: Step) -> (Option<Answer>, Rings) {
        self.lock(rt).serve(seat, what)
    }

    fn look<R: Wait>(&self, rt: &R, seat: Seat) -> (Look, Rings) {
        self.lock(rt).look(seat)
    }
}
