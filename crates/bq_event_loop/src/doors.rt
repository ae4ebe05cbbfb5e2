//! What a loop knows of connections that were not accepted yet, and whether they may be accepted.
ghost use Rattle.std.specs.Prelude.{◌≡◌, ◌≤◌, ◌↔◌, true, false, Some, IfSome, IsNone};
ghost use Rattle.bq_event_loop.specs.Reports.{IsPassed, may_come, rests, AfterTurningAway, IsAfterTry, IsTurnedAway, none_there, one_came};
ghost use Rattle.bq_event_loop.specs.Sleeping.{IsNoLonger};

use crate::row::Row;
use bq_line::attendant::TryOpened;
use bq_line::line::Line;
use bq_line::{Door, TurnedAway};
use std::rt;
use std::time::{Duration, Instant};

/// How many connections are closed in a round while all seats are taken.
const TURNED_AWAY: u32 = 64;

/// How long no connection is accepted after a lack of resources prevented one, in milliseconds.
const REST: u64 = 100;

/// A pause after a lack of resources.
#[derive(Clone, Copy)]
enum Rest {
    None,
    /// Until this moment, whatever happens meanwhile.
    Until(Instant),
    /// The clock could not be read: until the next wait has ended.
    OneWait,
}

// Returns this length of time in milliseconds, rounded up, or that of a pause if it is shorter.
fn at_most_rest(left: Duration) -> u64
    ensures { result ≤ 100 }
{
    let ms = left.as_nanos().div_ceil(1_000_000);
    if ms < u128::from(REST) {
        ms as u64
    } else {
        REST
    }
}

/// What a loop knows of connections that were not accepted yet. All doors share it, and one
/// listener: a check that finds no client at one would hide those of another.
#[derive(Clone, Copy)]
pub struct Doors {
    // True if a connection may have come since the last check that found none.
    may_have_come: bool,
    rest: Rest,
    // Whether more connections may wait to be closed, since all seats are taken.
    are_more_away: bool,
}

impl Doors {
    /// Returns the state at the start, when connections may have come before anything was watched.
    pub(crate) fn new() -> Doors
        ensures { may_come result ≡ true }
    {
        Doors {
            may_have_come: true,
            rest: Rest::None,
            are_more_away: false,
        }
    }

    /// Returns true if a door should be checked.
    pub(crate) fn may_come(&self) -> bool
        ensures { result ≡ may_come self.now }
    {
        self.may_have_come && matches!(self.rest, Rest::None)
    }

    /// Returns true if connections are left to be closed.
    pub(crate) fn are_more_away(&self) -> bool
        ensures { result ≡ self.now.are_more_away }
    {
        self.are_more_away
    }

    /// Notes that the system reported a connection.
    pub(crate) fn one_may_have_come(&mut self)
        ensures { self.new ≡ one_came self.old }
    {
        self.may_have_come = true;
    }

    /// Notes the result of a check for a connection, and whether one may have come before it.
    pub(crate) fn note_tried<R: rt::Clock>(&mut self, rt: &R, may_have_come: bool, tried: TryOpened)
        ensures { IsAfterTry tried may_have_come self.old self.new }
    {
        match tried {
            TryOpened::Opened | TryOpened::NoMore => {}
            TryOpened::NotYet => {
                if may_have_come {
                    self.none_there();
                }
            }
            TryOpened::Later => self.rest(rt),
        }
    }

    // Notes that all connections were accepted. The system will report the next one.
    fn none_there(&mut self)
        ensures { self.new ≡ none_there self.old }
    {
        self.may_have_come = false;
    }

    // Notes that the system lacked resources for a connection. It does not report when it has them
    // again.
    fn rest<R: rt::Clock>(&mut self, rt: &R)
        ensures rests { rests self.new.rest ≡ true }
        ensures kept { self.new ≡ record self.old { rest = self.new.rest } }
    {
        self.rest = match Instant::now(rt) {
            Ok(now) => match now.checked_add(Duration::from_millis(REST)) {
                Some(until) => Rest::Until(until),
                None => Rest::OneWait,
            },
            Err(_) => Rest::OneWait,
        };
    }

    /// Lets a door close the connections that wait although all seats are taken, if it does so.
    /// What is left after some of them is closed in the next round.
    pub(crate) fn turn_away<R: rt::Clock, L: Line + Drop, D: Door<Line = L>>(
        &mut self,
        rt: &R,
        row: &Row<L, D>,
    )
        ensures { IsTurnedAway self.old self.new }
    {
        self.note_turned_away(rt, close_some(row));
    }

    // Notes the result of the last of these closes. If it is `Closed`, more connections may wait.
    fn note_turned_away<R: rt::Clock>(&mut self, rt: &R, turned: TurnedAway)
        ensures { AfterTurningAway turned self.old self.new }
    {
        match turned {
            TurnedAway::Closed => self.are_more_away = true,
            TurnedAway::Waits => {}
            TurnedAway::NoneThere => self.none_there(),
            TurnedAway::Later => self.rest(rt),
        }
    }

    /// Notes that a wait has ended. No connections are left to be closed, and a pause ends if its
    /// time has passed.
    pub(crate) fn pass<R: rt::Clock>(&mut self, rt: &R)
        ensures away { self.new.are_more_away ≡ false }
        ensures came { self.new.may_have_come ≡ self.old.may_have_come }
        ensures rest { IsPassed self.old.rest self.new.rest }
    {
        self.are_more_away = false;
        if self.is_rested(rt) {
            self.rest = Rest::None;
        }
    }

    // Returns true if a pause ends with this wait, or there is none.
    fn is_rested<R: rt::Clock>(&self, rt: &R) -> bool
        ensures { result ≡ false → IsPassed self.now.rest self.now.rest }
    {
        match self.rest {
            Rest::Until(until) => match Instant::now(rt) {
                Ok(now) => now >= until,
                Err(_) => true,
            },
            _ => true,
        }
    }

    /// Returns how many milliseconds the loop may sleep: until something is due, or a pause of the
    /// doors ends, whichever is first. `None` is a wait without a limit.
    pub(crate) fn longest_wait<R: rt::Clock>(&self, rt: &R, due: Option<u64>) -> Option<u64>
        ensures due { IsNoLonger result due }
        ensures rest { rests self.now.rest ≡ true → IsNoLonger result (Some 100) }
    {
        match (due, self.rests_for(rt)) {
            (Some(due), Some(rest)) => Some(due.min(rest)),
            (wait, None) | (None, wait) => wait,
        }
    }

    // Returns for how many milliseconds no connection is accepted, at most 100, or `None` if
    // connections are accepted.
    fn rests_for<R: rt::Clock>(&self, rt: &R) -> Option<u64>
        ensures none { IsNone result ↔ (rests self.now.rest ≡ false) }
        ensures most { IfSome result (λ left. left ≤ 100) }
    {
        match self.rest {
            Rest::None => None,
            Rest::Until(until) => match Instant::now(rt) {
                Ok(now) => Some(at_most_rest(until.saturating_duration_since(now))),
                Err(_) => Some(REST),
            },
            Rest::OneWait => Some(REST),
        }
    }
}

// Lets a door close connections one by one, until it closes none or some were closed. Returns what
// the last try did.
fn close_some<L: Line + Drop, D: Door<Line = L>>(row: &Row<L, D>) -> TurnedAway {
    for _ in 0..TURNED_AWAY {
        let turned = row.turn_away();
        if turned != TurnedAway::Closed {
            return turned;
        }
    }
    TurnedAway::Closed
}
