//! The core with everything that its thread needs.
ghost use Rattle.std.specs.Prelude.{◌≡◌, ◌↔◌, ◌<◌, ◌≤◌, ◌+◌, ◌-◌, [], false, not, true, length};
ghost use Rattle.bq_job.specs.beside.NextDue.{is_before, next_due};
ghost use Rattle.bq_thread_work.specs.Rests.{longest_rest};

use crate::core_work::core_room::CoreRoom;
use crate::core_work::gone_ends::GoneEnds;
use crate::core_work::polling::Polling;
use crate::core_work::sender::Sender;
use crate::core_work::yielding::Yielding;
use bq_core_api::{Outs, QueueCore};
use bq_host::TimedCore;
use bq_job::{Seat, Step};
use bq_line::clock::Clock;
use bq_link::{CoreEnd, Intake, IntakeInvariant, NoTicks};
use std::alloc::Global;
use std::hint::spin_loop;
use std::sync::Wait;
use std::thread;
use std::time::Duration;

/// The longest sleep, in milliseconds.
const HOUR: u64 = 3_600_000;

/// The sleep while a ring is full, in milliseconds.
const RING_REST: u64 = 1;

/// The core with its clock, its end of the links, the answers that were not sent yet, and how its
/// thread waits: when it yields, and how often it polls.
#[derive(Drop)]
pub struct CoreDriver<C, K> {
    pub timed: TimedCore<C, K>,
    pub sender: Sender,
    pub gone: GoneEnds,
    pub yielding: Yielding,
    pub polling: Polling,
}

impl<C: Clock + Drop, K: QueueCore + Drop> CoreDriver<C, K> {
    ghost use Rattle.bq_job.specs.machine.Machine.{new_machine};
    ghost use Rattle.bq_link.specs.NewEnds.{IsNewCore};
    ghost use Rattle.bq_link.specs.Submissions.{MayTake};
    ghost use Rattle.bq_host.specs.Timed.{TakesStep};
    ghost use Rattle.bq_thread_work.specs.CoreWork.{IsNewRoom};
    ghost use Rattle.bq_thread_work.specs.Sending.{AreStuck};
    ghost use Rattle.bq_thread_work.specs.Worked.{
      FindsWork,
      HasTicked,
      IsAtWork,
      IsInOrder,
      IsInOrderAt,
      IsOver,
      TurnWent,
      WorkWent,
      WorksOn,
      gone_after,
      driver_state,
    };

    /// Returns a driver that has done nothing yet.
    pub fn new(
        alloc: Global,
        end: CoreEnd,
        core: K,
        outs: Outs,
        room: CoreRoom,
        clock: C,
    ) -> CoreDriver<C, K>
        requires ends { IsNewCore ((K.machine core).settings.seats + 1) end }
        requires core { K.machine core ≡ new_machine (K.machine core).settings }
        requires none_given { outs.given ≡ [] }
        requires outs { (K.machine core).settings.seats < outs.most }
        requires room { IsNewRoom ((K.machine core).settings.seats + 1) room }
        ensures order { IsInOrder K.machine result }
        ensures end { result.sender.end ≡ end }
        ensures settings { (K.machine result.timed.core).settings ≡ (K.machine core).settings }
        ensures work { IsAtWork K.QueueCore C.Clock (K.machine core).settings (K.comparisons core) clock result }
    {
        let CoreRoom {
            kept,
            aside,
            gone,
            looks,
        } = room;
        let ends = gone.len();
        CoreDriver {
            timed: TimedCore::over(alloc, core, outs, clock),
            sender: Sender {
                end,
                ends,
                kept,
                aside,
            },
            gone: GoneEnds::none(gone),
            yielding: Yielding::new(),
            polling: Polling::new(looks),
        }
    }

    /// Makes one turn: sends answers, and takes a step or waits for one. It may yield before. Returns
    /// true if everything is done.
    pub fn turn<R: Wait>(&mut self, rt: &R, intake: &Intake<NoTicks>) -> bool
        requires order { IsInOrderAt K.machine intake.now self.old }
        ensures on { WorksOn K.QueueCore C.Clock self.old self.new }
        ensures over { result ≡ true → IsOver self.new }
        ensures stuck { AreStuck self.new.sender.end self.new.sender.kept.items }
        ensures turned { result ≡ false → TurnWent K.machine self.old self.new }
    {
        let has_room = self.send_all(intake);
        if !has_room {
            self.rest(rt, intake);
            return false;
        }
        if self.is_over() {
            return true;
        }
        self.work(rt, intake);
        false
    }

    // Takes a step or a tick, or waits for a step. It may yield before.
    #[tactic(auto, using(crate::proofs::TurnLemmas::on_both, crate::proofs::TurnLemmas::work_after))]
    fn work<R: Wait>(&mut self, rt: &R, intake: &Intake<NoTicks>)
        requires order { IsInOrderAt K.machine intake.now self.old }
        requires none { self.old.timed.outs.given ≡ [] }
        ensures on { WorksOn K.QueueCore C.Clock self.old self.new }
        ensures stuck { AreStuck self.old.sender.end self.old.sender.kept.items
            → AreStuck self.new.sender.end self.new.sender.kept.items }
        ensures worked { WorkWent K.machine self.old self.new }
    {
        self.give_way(intake);
        if !self.go_on(rt, intake) {
            self.await_step(rt, intake);
        }
    }

    // Sends pending answers, as far as the rings and the room to keep answers allow. Returns true
    // if there is room for the answers of the next step.
    fn send_all(&mut self, intake: &Intake<NoTicks>) -> bool
        requires order { IsInOrder K.machine self.old }
        ensures on { WorksOn K.QueueCore C.Clock self.old self.new }
        ensures stuck { AreStuck self.new.sender.end self.new.sender.kept.items }
        ensures none { result ≡ true → self.new.timed.outs.given ≡ [] }
        ensures full { result ≡ false → length self.new.sender.kept.items ≡ self.new.sender.ends }
        ensures taken { self.new.sender.end.taken ≡ self.old.sender.end.taken }
        ensures rest { self.new
            ≡ record self.old { sender = self.new.sender; timed = record self.old.timed { outs = self.new.timed.outs } } }
    {
        self.sender.send_all(intake, &mut self.timed.outs)
    }

    // Returns true if every end has gone and has received all of its answers.
    fn is_over(&self) -> bool
        requires order { IsInOrder K.machine self.now }
        requires none { self.now.timed.outs.given ≡ [] }
        ensures { result ≡ true ↔ IsOver self.now }
    {
        self.gone.all && self.sender.kept.is_empty()
    }

    // Yields to other threads if no step waits: the thread of the next step may share this
    // processor. After a slow yield some waits begin without one. The intake passes on to the
    // seats' threads whether the last yield was slow.
    fn give_way(&mut self, intake: &Intake<NoTicks>)
        requires order { IsInOrderAt K.machine intake.now self.old }
        ensures on { WorksOn K.QueueCore C.Clock self.old self.new }
        ensures rest { self.new ≡ record self.old { timed = record self.old.timed { time = self.new.timed.time }; yielding = self.new.yielding } }
        // A wait that begins without a yield is only counted.
        ensures waits { 0 < self.old.yielding.left
            → (self.new.timed ≡ self.old.timed) × (self.new.yielding.pause ≡ self.old.yielding.pause) }
    {
        if self.is_yield_next(intake) {
            let took = self.yield_once();
            intake.note_slow_yields(self.yielding.is_slow(took));
        }
    }

    // Counts a wait if no step waits, and returns true if it begins with a yield.
    fn is_yield_next(&mut self, intake: &Intake<NoTicks>) -> bool
        requires intake { self.old.sender.end.intake ≡ intake.now.id }
        ensures left { result ≡ true → self.old.yielding.left ≡ 0 }
        ensures pause { self.new.yielding.pause ≡ self.old.yielding.pause }
        ensures rest { self.new ≡ record self.old { yielding = self.new.yielding } }
    {
        if !self.sender.end.is_empty(intake) {
            return false;
        }
        self.yielding.is_next()
    }

    // Yields to other threads, and returns how many milliseconds passed.
    fn yield_once(&mut self) -> u64
        requires order { IsInOrder K.machine self.old }
        ensures on { WorksOn K.QueueCore C.Clock self.old self.new }
        ensures took { result ≤ self.new.timed.time.moment - self.old.timed.time.moment }
        ensures rest { self.new ≡ record self.old { timed = record self.old.timed { time = self.new.timed.time } } }
    {
        self.hear_start();
        let start = self.timed.time.moment;
        thread::yield_now();
        self.hear();
        self.timed.time.moment.saturating_sub(start)
    }

    // Reads the clock before a yield. It does not if the core took a step since it was asked what is
    // due, because the clock was just read for that step.
    #[tactic(auto, using(crate::proofs::TurnLemmas::on_still))]
    fn hear_start(&mut self)
        requires order { IsInOrder K.machine self.old }
        ensures on { WorksOn K.QueueCore C.Clock self.old self.new }
        ensures moment { self.old.timed.time.moment ≤ self.new.timed.time.moment }
        ensures rest { self.new ≡ record self.old { timed = record self.old.timed { time = self.new.timed.time } } }
    {
        if self.timed.is_due_known {
            self.hear();
        }
    }

    // Reads the clock once.
    fn hear(&mut self)
        requires order { IsInOrder K.machine self.old }
        ensures on { WorksOn K.QueueCore C.Clock self.old self.new }
        ensures moment { self.old.timed.time.moment ≤ self.new.timed.time.moment }
        ensures rest { self.new ≡ record self.old { timed = record self.old.timed { time = self.new.timed.time } } }
    {
        let _reading = self.timed.time.hear();
    }

    // Takes the oldest waiting step. If there is none, it takes a tick if something is due. Returns
    // true if there was something to do.
    //
    // The contract holds for any invariant of the intake: if there was nothing to do, it held of an
    // empty intake after the last step that was taken.
    fn go_on<R: Wait, I: IntakeInvariant>(&mut self, rt: &R, intake: &Intake<I>) -> bool
        requires order { IsInOrderAt K.machine intake.now self.old }
        requires may { MayTake I.was }
        requires none { self.old.timed.outs.given ≡ [] }
        ensures on { WorksOn K.QueueCore C.Clock self.old self.new }
        ensures found { FindsWork I.was K.machine self.old self.new result }
    {
        if self.sender.end.is_empty(intake) {
            self.tick_if_due()
        } else {
            self.take_one(rt, intake)
        }
    }

    // The same when a step was seen. It is not inlined because it needs stack space for steps,
    // which a function initializes when it starts.
    #[inline(never)]
    fn take_one<R: Wait, I: IntakeInvariant>(&mut self, rt: &R, intake: &Intake<I>) -> bool
        requires order { IsInOrderAt K.machine intake.now self.old }
        requires may { MayTake I.was }
        requires none { self.old.timed.outs.given ≡ [] }
        ensures on { WorksOn K.QueueCore C.Clock self.old self.new }
        ensures found { FindsWork I.was K.machine self.old self.new result }
    {
        match self.sender.end.take(rt, intake) {
            Some(taken) => {
                self.take_step(taken.0, &taken.1);
                drop(taken);
                true
            }
            None => self.tick_if_due(),
        }
    }

    // Takes a step of an end. The step itself is not moved.
    fn take_step(&mut self, seat: Seat, what: &Step)
        requires order { IsInOrder K.machine self.old }
        ensures order { IsInOrder K.machine self.new }
        ensures taken { TakesStep K.QueueCore C.Clock self.old.timed seat what.now self.new.timed }
        ensures marked { self.new.gone.flags.items
            ≡ gone_after seat what.now self.old.gone.flags.items }
        ensures sender { self.new.sender ≡ self.old.sender }
    {
        self.gone.mark_if_gone(seat, what);
        self.timed.take_step(seat, what);
    }

    // Takes a tick if something is due by now, and returns whether it did.
    fn tick_if_due(&mut self) -> bool
        requires order { IsInOrder K.machine self.old }
        requires none { self.old.timed.outs.given ≡ [] }
        ensures sender { self.new.sender ≡ self.old.sender }
        ensures on { WorksOn K.QueueCore C.Clock self.old self.new }
        ensures due { self.new.timed.due ≡ next_due (K.machine self.old.timed.core) }
        ensures ticks { result
            ≡ not (is_before self.new.timed.time.moment (next_due (K.machine self.old.timed.core))) }
        ensures still { result ≡ false
            → K.machine self.new.timed.core ≡ K.machine self.old.timed.core }
        ensures ticked { result ≡ true → HasTicked K.machine self.old self.new }
    {
        self.timed.tick_if_due(0, false, true)
    }

    // Waits until a step arrives or something is due: it polls for a while, and sleeps if it found
    // no step.
    fn await_step<R: Wait>(&mut self, rt: &R, intake: &Intake<NoTicks>)
        requires order { IsInOrderAt K.machine intake.now self.old }
        ensures on { WorksOn K.QueueCore C.Clock self.old self.new }
        ensures rest { self.new ≡ record self.old { polling = self.new.polling } }
        ensures noted { self.new.polling.last ≡ self.old.timed.time.moment }
    {
        let looks = self.polling.begin(self.timed.time.moment);
        self.look_often(rt, intake, looks);
    }

    // Polls up to this many times, and sleeps if no step waits by then.
    fn look_often<R: Wait>(&mut self, rt: &R, intake: &Intake<NoTicks>, looks: u32)
        requires intake { self.old.sender.end.intake ≡ intake.now.id }
        ensures { self.new ≡ self.old }
    {
        for _ in 0..looks {
            if !self.sender.end.is_empty(intake) {
                return;
            }
            spin_loop();
        }
        self.rest(rt, intake);
    }

    // Sleeps until a step arrives or it is time to check again.
    fn rest<R: Wait>(&mut self, rt: &R, intake: &Intake<NoTicks>)
        ensures { self.new ≡ self.old }
    {
        let rest = Duration::from_millis(self.longest_rest());
        self.sender.end.wait(rt, intake, rest);
    }

    // Returns the longest sleep in milliseconds: until something is due. It is one millisecond
    // while answers wait for full rings, because an end does not signal that it took an answer.
    fn longest_rest(&self) -> u64
        ensures { result ≡ longest_rest self.now.sender.kept.items self.now.timed.due self.now.timed.time.moment }
    {
        if !self.sender.kept.is_empty() {
            return RING_REST;
        }
        match self.timed.due {
            None => HOUR,
            Some(due) => due.saturating_sub(self.timed.time.moment).min(HOUR),
        }
    }

    /// Returns the end, the core and the clock.
    pub fn into_parts(self) -> (CoreEnd, K, C)
        ensures { (result.0 ≡ self.sender.end) × (result.1 ≡ self.timed.core) × (result.2 ≡ self.timed.time.clock) }
    {
        let CoreDriver {
            timed,
            sender,
            gone,
            yielding: _,
            polling: _,
        } = self;
        drop(timed.outs);
        drop(sender.kept);
        drop(sender.aside);
        drop(gone);
        (sender.end, timed.core, timed.time.clock)
    }
}
