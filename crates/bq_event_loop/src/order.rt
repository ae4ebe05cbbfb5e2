//! The order in which the seats act, by readiness.
//!
//! A round consists of the control line, the doors, visits of all seats that can act, the time, and
//! the wait. A seat can act if its connection became ready, it has mail, or its last visit was cut
//! short. Of the seats that came into the queue since the last wait, all connections are read
//! first, then all steps are taken, and then all answers are written, so that each part finds its
//! code and data in the processor's caches. Seats that were in the queue before come last. Seats that
//! are woken during the last part are visited in the same round, unless a visit was cut short.
ghost use Rattle.std.specs.Prelude.{◌≡◌, ◌⊎◌, ℕ, [], true, false, None, Some, IfOk};
ghost use Rattle.bq_event_loop.specs.Keeping.{Chooses, KeepsSeats, MayChoose};
ghost use Rattle.bq_event_loop.specs.Known.{AreIdle, IsNextOf, KnowsAll, is_listed, is_trying};
ghost use Rattle.bq_event_loop.specs.Sleeping.{visited_by};
ghost use Rattle.bq_event_loop.specs.declared.order.Stage.TheVariants as stages;

use crate::seat_queue::SeatQueue;
use crate::turns::{Began, News, SoFar, Turn, Turns, TurnsFault};
use bq_core_api::QueueCore;
use bq_line::Door;
use bq_line::clock::Clock;
use bq_line::control_line::ControlInput;
use bq_line::line::Line;
use pace::Pace;
use std::alloc::Global;
use visits::{Part, Pause, Visit, VisitLimit};

mod pace;
mod visits;

/// The next part of a round.
#[derive(Clone, Copy)]
enum Stage {
    Control,
    Doors,
    /// This free seat checks for a client. The next one checks after it.
    DoorTry(usize),
    /// Connections are closed because all seats are taken.
    Away,
    /// The next visit begins.
    Visits(Part),
    /// A visit is under way.
    Visit(Part),
    /// The connection of this seat has ended during its visit, and it checks for the next one.
    VisitTry(usize, Part),
    /// The visit of this seat was cut short, and what its connection holds back is sent.
    HandOn(usize, Part),
}

/// Chooses the next seat by readiness. All of its memory is allocated when it is created.
#[derive(Drop)]
pub struct Order {
    queue: SeatQueue,
    stage: Stage,
    // What the core's clock showed when it was last read, and the pace of the round's visits.
    reading: u64,
    pace: Pace,
    // How many seats came into the queue since the last wait, and how many were visited in this
    // part of the round.
    fresh: usize,
    visited: usize,
    // Whether the last part may be made once more in this round, for seats that were woken meanwhile:
    // it was not yet, and no seat that goes on is in the queue.
    may_repeat: bool,
    // The current visit or, if the stage does not say that one is under way, the last one.
    visit: Visit,
}

impl Order {
    /// Returns an order of this many seats. Returns `NoMemory` if an allocation failed.
    pub fn new(alloc: Global, seats: u16) -> Result<Order, TurnsFault>
        // It knows each seat.
        ensures knows { IfOk result (λ order. KnowsAll seats order.queue.seats
            (is_listed order.queue (visited_by order.stage order.visit)) (is_trying order.queue)) }
    {
        let Ok(queue) = SeatQueue::new(alloc, usize::from(seats)) else {
            return Err(TurnsFault::NoMemory);
        };
        Ok(Order {
            queue,
            stage: Stage::Control,
            reading: 0,
            pace: Pace::begin(0),
            fresh: 0,
            visited: 0,
            may_repeat: true,
            visit: Visit::new(0, Part::Answers, VisitLimit::Commands),
        })
    }

    // Returns the next turn of a round.
    fn next_turn(&mut self, news: &News) -> Turn
        ensures { Chooses news.now.still news.now.free self.old.queue (visited_by self.old.stage self.old.visit) self.new result }
    {
        match self.stage {
            Stage::Control => self.control_turn(news),
            Stage::Doors => self.try_next_free(news.may_come),
            Stage::DoorTry(seat) => {
                self.note_tried(seat, news.free);
                self.try_next_free(news.may_come)
            }
            Stage::Away => self.begin_visits(),
            Stage::Visits(part) => self.begin_next(part),
            Stage::Visit(part) => self.go_on(part, news),
            Stage::VisitTry(seat, part) => {
                self.note_tried(seat, news.free);
                self.begin_next(part)
            }
            Stage::HandOn(seat, part) => {
                self.enqueue(seat);
                self.begin_next(part)
            }
        }
    }

    // Returns the turn of the control line in this round, or that of the doors if the control line
    // is not read.
    fn control_turn(&mut self, news: &News) -> Turn
        ensures { Chooses None None self.old.queue None self.new result }
    {
        match news.reads {
            Some(reads) => {
                self.stage = Stage::Doors;
                Turn::Control(reads)
            }
            None => self.try_next_free(news.may_come),
        }
    }

    // Lets one free seat check for a connection, if one may have come. Otherwise the visits begin.
    #[inline(always)]
    fn try_next_free(&mut self, may_come: bool) -> Turn
        ensures { Chooses None None self.old.queue None self.new result }
    {
        if !may_come {
            return self.begin_visits();
        }
        let Some(seat) = self.queue.next_free() else {
            self.stage = Stage::Away;
            return Turn::TurnAway;
        };
        self.stage = Stage::DoorTry(seat);
        Turn::TryOpen(seat)
    }

    // Notes the result of a check for a connection: this seat was free, or another or none. A seat
    // without a connection checks again when a client may have connected.
    fn note_tried(&mut self, seat: usize, free: Option<usize>)
        ensures { KeepsSeats None free self.old.queue (Some seat) self.new.queue None }
    {
        if is_this(free, seat) {
            self.queue.set_free(seat);
        } else {
            self.enqueue(seat);
        }
    }

    // Begins the visits of all seats that are in the queue now. Those that were in it before the
    // last wait come last, so that a visit that was cut short goes on after the seats that the
    // system reported. They have the last part only.
    #[inline(always)]
    fn begin_visits(&mut self) -> Turn
        ensures { Chooses None None self.old.queue None self.new result }
    {
        let waited = self.queue.round();
        self.queue.put_last(waited);
        self.queue.begin_round();
        self.fresh = self.queue.round().saturating_sub(waited);
        self.visited = 0;
        self.may_repeat = true;
        self.pace = Pace::begin(self.reading);
        let part = Part::first(self.fresh);
        self.begin_next(part)
    }

    // Returns the next action of the current visit, or begins the next visit.
    fn go_on(&mut self, part: Part, news: &News) -> Turn
        ensures { Chooses news.now.still news.now.free self.old.queue (Some self.old.visit.seat) self.new result }
    {
        let seat = self.visit.seat();
        let took = self.pace.note(part, seat, self.reading);
        // Mostly the visit ends so: nothing moves at its seat, which leaves the queue.
        if is_this(news.still, seat) {
            return self.begin_next(part);
        }
        self.visit.note(news.progress, took);
        match self.goes_on(part, news) {
            Some(turn) => turn,
            None => self.begin_next(part),
        }
    }

    // Returns the first action of the next visit of this part. After the last one the next part
    // begins, or the core's time passes.
    #[inline(always)]
    fn begin_next(&mut self, part: Part) -> Turn
        ensures { Chooses None None self.old.queue None self.new result }
    {
        let Some(seat) = self.next_seat(part) else {
            return self.end_part(part);
        };
        self.visit = Visit::new(seat, part, self.limit(part));
        self.visited = self.visited.saturating_add(1);
        self.stage = Stage::Visit(part);
        self.visit.turn()
    }

    // Returns the next seat of this part.
    #[tactic(auto, using(crate::proofs::KnownLemmas::next_in_round_is))]
    fn next_seat(&mut self, part: Part) -> Option<usize>
        ensures { IsNextOf result self.old.queue self.new.queue }
    {
        match part {
            Part::Answers => self.queue.take_next(),
            _ => {
                if self.visited < self.fresh {
                    self.queue.next_in_round()
                } else {
                    None
                }
            }
        }
    }

    // Returns how much the next visit of this part may do. If a step of the round took long, each
    // seat whose step was taken in the part before receives its answer before any goes on.
    fn limit(&self, part: Part) -> VisitLimit {
        let is_first = self.fresh > 1 && self.visited < self.fresh;
        match part {
            Part::Answers => {
                if is_first && (self.pace.is_held_up() || self.pace.is_late()) {
                    VisitLimit::OneAnswer
                } else if self.pace.is_late() {
                    VisitLimit::OneCommand
                } else {
                    VisitLimit::Commands
                }
            }
            Part::Reads | Part::Steps => VisitLimit::Commands,
        }
    }

    // Begins the next part of the round, or the time passes.
    #[inline(always)]
    fn end_part(&mut self, part: Part) -> Turn
        ensures { Chooses None None self.old.queue None self.new result }
    {
        match part.next() {
            Some(next) => {
                self.queue.begin_round();
                self.visited = 0;
                self.stage = Stage::Visits(next);
                Turn::Nothing
            }
            None => self.end_visits(),
        }
    }

    // Ends the last part of the round: the time passes. Seats that were woken meanwhile, mostly workers
    // by a put, are visited before it, but only once in a round.
    #[inline(always)]
    fn end_visits(&mut self) -> Turn
        ensures chooses { Chooses None None self.old.queue None self.new result }
        ensures once { result ≡ Turn.Nothing → (self.old.may_repeat ≡ true) × (self.new.may_repeat ≡ false) }
        ensures woken { result ≡ Turn.Time → (self.old.queue.queue ≡ []) ⊎ (self.old.may_repeat ≡ false) }
        ensures round { result ≡ Turn.Time → self.new.stage ≡ stages.Control }
    {
        if self.queue.is_empty() || !self.may_repeat {
            self.stage = Stage::Control;
            return Turn::Time;
        }
        self.may_repeat = false;
        self.queue.begin_round();
        self.fresh = 0;
        self.stage = Stage::Visits(Part::Answers);
        Turn::Nothing
    }

    // Returns the next turn of the visit, if it has one. Otherwise it ends here.
    #[tactic(auto, using(crate::proofs::KnownLemmas::keeps_visited))]
    fn goes_on(&mut self, part: Part, news: &News) -> Option<Turn>
        ensures { MayChoose self.old.queue (Some self.old.visit.seat) self.new result }
    {
        let visit = self.visit;
        match visit.pause(news.stands) {
            None => {
                self.stage = Stage::Visit(part);
                Some(visit.turn())
            }
            Some(pause) => self.end_visit(visit.seat(), part, pause),
        }
    }

    // Ends the visit of a seat. If its connection has ended, it checks for the next one.
    fn end_visit(&mut self, seat: usize, part: Part, pause: Pause) -> Option<Turn>
        ensures { MayChoose self.old.queue (Some seat) self.new result }
    {
        match pause {
            Pause::IsFree => {
                self.stage = Stage::VisitTry(seat, part);
                Some(Turn::TryOpen(seat))
            }
            // Answers that are held back for further ones would wait for the visits of all others.
            Pause::GoesOn => {
                self.stage = Stage::HandOn(seat, part);
                Some(Turn::HandOn(seat))
            }
            Pause::PartDone => {
                self.queue.enqueue(seat);
                self.stage = Stage::Visits(part);
                None
            }
            Pause::Stuck => {
                self.enqueue(seat);
                self.stage = Stage::Visits(part);
                None
            }
        }
    }

    // Puts a seat that goes on at the end of the queue. The system is asked before it is visited again.
    fn enqueue(&mut self, seat: usize)
        ensures keeps { KeepsSeats None None self.old.queue (Some seat) self.new.queue None }
        ensures rest { self.new ≡ record self.old { queue = self.new.queue; may_repeat = false } }
    {
        self.may_repeat = false;
        self.queue.enqueue(seat);
    }

    // Returns true if no seat acts, and none checks for a client that may have come.
    #[tactic(auto, using(crate::proofs::KnownLemmas::idle_visits, crate::proofs::KnownLemmas::idle_queue, crate::proofs::KnownLemmas::idle_free))]
    fn is_idle(&self, may_come: bool) -> bool
        ensures acts { result ≡ true → (seat : ℕ) → is_listed self.now.queue (visited_by self.now.stage self.now.visit) seat ≡ false }
        ensures checks { result ≡ true → may_come ≡ true → (seat : ℕ) → is_trying self.now.queue seat ≡ false }
        ensures busy { result ≡ false
            → AreIdle may_come (is_listed self.now.queue (visited_by self.now.stage self.now.visit)) (is_trying self.now.queue) → ⊥ }
    {
        // A visit is under way, or a seat checks for a client.
        if let Stage::DoorTry(_)
        | Stage::Visit(_)
        | Stage::VisitTry(_, _)
        | Stage::HandOn(_, _) = self.stage
        {
            return false;
        }
        if !self.queue.is_empty() {
            return false;
        }
        if may_come {
            return self.queue.is_none_free();
        }
        true
    }
}

impl Turns for Order {
    ghost seats = { λ order. order.queue.seats };

    ghost listed = { λ order. is_listed order.queue (visited_by order.stage order.visit) };

    ghost tries = { λ order. is_trying order.queue };

    // An order may be used for any run.
    ghost is_of = { λ begun. Unit {0} };

    fn next<
        L: Line + Drop,
        D: Door<Line = L>,
        C: Clock + Drop,
        I: ControlInput + Drop,
        K: QueueCore + Drop,
    >(&mut self, news: &News, _began: &Began<D, C, I>, so_far: SoFar<L, D, C, I, K>) -> Turn {
        self.reading = news.elapsed;
        self.next_turn(news)
    }

    fn wake(&mut self, seat: usize) {
        self.queue.enqueue(seat);
    }

    fn may_sleep(&mut self, may_come: bool) -> bool {
        // These are the seats that were in the queue before the wait.
        self.queue.begin_round();
        self.is_idle(may_come)
    }
}

// Returns true if there is such a seat and it is this one.
fn is_this(some: Option<usize>, seat: usize) -> bool
    ensures { result ≡ true → some ≡ Some seat }
{
    match some {
        Some(some) => some == seat,
        None => false,
    }
}
