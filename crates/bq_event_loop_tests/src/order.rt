//! Orders in which the seats of a run act.
ghost use Rattle.std.specs.Prelude.{true, false};

use crate::together::Together;
use bq_core_api::QueueCore;
use bq_event_loop::{Began, ControlReads, News, SoFar, Stands, Task, Turn, Turns};
use bq_line::Door;
use bq_line::clock::Clock;
use bq_line::control_line::ControlInput;
use bq_line::line::Line;

/// The largest number of seats in a run.
pub const MOST: usize = 8;

/// A run that takes more turns is given up.
const TURNS: u64 = 400_000;

/// A rule that chooses the next seat among those that can act.
#[derive(Clone, Copy)]
pub enum Rule {
    /// The seat with the lowest number.
    First,
    /// The seat with the highest number.
    Last,
    /// Each in its turn.
    Next,
    /// This seat only if no other can act.
    Starved(usize),
    /// Any of them, by pseudo-random numbers.
    Any,
    /// Each in its turn. A seat that rests acts only after it is woken, or its connection is ready.
    Woken,
    /// Each in its turn, with a command at a time in place of an action.
    Commands,
}

/// The next part of a round.
#[derive(Clone, Copy)]
enum Stage {
    Seats,
    Time,
    Control,
}

/// How a seat stands.
#[derive(Clone, Copy)]
struct Stood {
    /// How many of its last actions moved nothing.
    unmoved: u8,
    /// True if it is between two connections.
    is_between: bool,
    /// True if it has to try again.
    tries_again: bool,
}

impl Stood {
    // Notes what is known after a turn of the seat, and whether that moved something.
    fn note(&mut self, moved: bool, tried: bool, news: &News) {
        self.unmoved = if moved {
            0
        } else {
            self.unmoved.saturating_add(1)
        };
        self.is_between = if tried {
            news.free.is_some()
        } else {
            matches!(news.stands, Stands::Between)
        };
        self.tries_again = !tried && news.still.is_none() && news.stands != Stands::Submits;
    }
}

/// Chooses turns by a rule, until no seat can act. Then the core may take a tick, and the control
/// line is read. A seat can act unless its last two actions moved nothing.
#[derive(Drop)]
pub struct RuleOrder<'t> {
    rule: Rule,
    reads: ControlReads,
    seats: usize,
    all: &'t Together,
    stage: Stage,
    stood: [Stood; MOST],
    // The seat of the last turn, and whether it checked for a connection.
    last: Option<(usize, bool)>,
    // The seat after which the search for the next one begins.
    after: usize,
    drawn: u32,
    turns: u64,
}

impl<'t> RuleOrder<'t> {
    /// Returns an order of this many seats by this rule. The control line is read this far each time;
    /// with `ToEnd` it is read before anything else.
    pub fn new(rule: Rule, reads: ControlReads, seats: usize, all: &'t Together) -> RuleOrder<'t> {
        RuleOrder {
            rule,
            reads,
            seats,
            all,
            stage: match reads {
                ControlReads::ToEnd => Stage::Control,
                _ => Stage::Seats,
            },
            stood: [Stood {
                unmoved: 0,
                is_between: true,
                tries_again: false,
            }; MOST],
            last: None,
            after: 0,
            drawn: 1,
            turns: 0,
        }
    }

    // Notes whether the last turn moved something. If it did, every other seat can act, unless
    // seats act only after they are woken.
    fn note(&mut self, news: &News) {
        let Some((seat, tried)) = self.last else {
            return;
        };
        let moved = news.progress.has_moved();
        if moved && !matches!(self.rule, Rule::Woken) {
            self.move_all();
        }
        if let Some(stood) = self.stood.get_mut(seat) {
            stood.note(moved, tried, news);
        }
        self.last = None;
    }

    // Notes that each seat may act.
    fn move_all(&mut self) {
        for stood in &mut self.stood {
            stood.unmoved = 0;
        }
    }

    // Counts a turn. A run that takes too many is given up.
    fn count(&mut self) {
        self.turns = self.turns.saturating_add(1);
        if self.turns > TURNS {
            self.all.give_up();
        }
    }

    // Returns a pseudo-random number below 32,768.
    fn draw(&mut self) -> usize {
        self.drawn = self.drawn.wrapping_mul(1_103_515_245).wrapping_add(12_345);
        (self.drawn >> 17) as usize
    }

    // Returns where the search for the next seat begins.
    fn begin(&mut self, seats: usize) -> usize {
        match self.rule {
            Rule::First | Rule::Last => 0,
            Rule::Next | Rule::Woken | Rule::Commands => self.after.saturating_add(1),
            Rule::Starved(seat) => seat.saturating_add(1),
            Rule::Any => self.draw() % seats.max(1),
        }
    }

    // Returns the seat at this place of the search.
    fn seat_at(&self, begin: usize, place: usize, seats: usize) -> usize {
        let at = begin.saturating_add(place) % seats.max(1);
        if matches!(self.rule, Rule::Last) {
            seats.saturating_sub(1).saturating_sub(at)
        } else {
            at
        }
    }

    // Returns the next seat that can act.
    fn choose(&mut self) -> Option<usize> {
        let begin = self.begin(self.seats);
        for place in 0..self.seats {
            let seat = self.seat_at(begin, place, self.seats);
            if self.may_go_on(seat) {
                self.after = seat;
                return Some(seat);
            }
        }
        None
    }

    // Returns how a seat stands. With a number that no seat has, it is one that cannot act.
    fn stood(&self, seat: usize) -> Stood {
        match self.stood.get(seat) {
            Some(stood) => *stood,
            None => Stood {
                unmoved: 2,
                is_between: false,
                tries_again: false,
            },
        }
    }

    fn may_go_on(&self, seat: usize) -> bool {
        let stood = self.stood(seat);
        stood.unmoved < 2 || stood.tries_again || self.all.is_ready(seat)
    }

    // Returns the next turn of a seat. A seat between two connections checks for the next one.
    fn seat_turn(&mut self) -> Turn {
        let Some(seat) = self.choose() else {
            self.stage = Stage::Time;
            return Turn::Nothing;
        };
        let tries = self.stood(seat).is_between;
        self.last = Some((seat, tries));
        if tries {
            return Turn::TryOpen(seat);
        }
        match self.rule {
            Rule::Commands => Turn::Serve(seat, Task::Command),
            _ => Turn::Serve(seat, Task::Action),
        }
    }

    // Returns the next turn, after this news of the last one. It is no part of `next`, since functions
    // with many type parameters are dear to prove.
    fn next_turn(&mut self, news: &News) -> Turn {
        self.note(news);
        self.count();
        match self.stage {
            Stage::Seats => self.seat_turn(),
            Stage::Time => {
                self.stage = Stage::Control;
                Turn::Time
            }
            Stage::Control => {
                self.begin_round();
                Turn::Control(self.reads)
            }
        }
    }

    // Begins a round. With most rules it tries each seat again, since the seat's connection may be
    // ready by now. In a run that was given up each connection fails.
    fn begin_round(&mut self) {
        self.stage = Stage::Seats;
        if !matches!(self.rule, Rule::Woken) || self.all.has_given_up() {
            self.move_all();
        }
    }
}

impl<'t> Turns for RuleOrder<'t> {
    // It never sleeps, so each seat acts before it does.
    ghost seats = { λ order. 65535 };

    ghost listed = { λ order seat. true };

    ghost tries = { λ order seat. false };

    // An order may be used for any run.
    ghost is_of = { λ begun. Unit {0} };

    fn next<
        L: Line + Drop,
        D: Door<Line = L>,
        C: Clock + Drop,
        I: ControlInput + Drop,
        K: QueueCore + Drop,
    >(&mut self, news: &News, _began: &Began<D, C, I>, _so_far: SoFar<L, D, C, I, K>) -> Turn {
        self.next_turn(news)
    }

    fn wake(&mut self, seat: usize) {
        if let Some(stood) = self.stood.get_mut(seat) {
            stood.unmoved = 0;
        }
    }

    // It never sleeps, since the connections of scripts are never waited for.
    fn may_sleep(&mut self, _may_come: bool) -> bool {
        false
    }
}
