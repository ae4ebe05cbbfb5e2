//! A desk that threads share, and the links to it.
ghost use Rattle.std.specs.Prelude.{◌≤◌};

use crate::bells::{Bells, Rings};
use bq_job::{Answer, Seat, Step};
use bq_line::attendant::Link;
use bq_line::control::ControlLink;
use bq_seat::NextAction;
use std::mem;
use std::sync::Wait;
use std::time::Duration;

/// How long a seat whose reserve waits sleeps before its connection is read again, in milliseconds.
/// This read notices if the client has disconnected.
pub const LONGEST_REST: u64 = 100;

/// The result of a look for mail.
#[derive(Drop)]
pub enum Look {
    /// The oldest answer for the seat.
    Mail(Answer),
    /// There is no mail. The seat may sleep for this many milliseconds before it has to look again.
    Nothing(u64),
}

/// A desk where each seat is served by a thread of its own.
pub trait SharedDesk {
    /// Takes a step of a seat, and returns the other seats that it answered.
    fn step<R: Wait>(&self, rt: &R, seat: Seat, what: Step) -> Rings;

    /// The same, and takes the oldest answer for the seat after the step.
    fn serve<R: Wait>(&self, rt: &R, seat: Seat, what: Step) -> (Option<Answer>, Rings);

    /// Takes the oldest answer for a seat, and returns the other seats that were answered by a
    /// tick.
    fn look<R: Wait>(&self, rt: &R, seat: Seat) -> (Look, Rings);
}

/// The link of a seat, or of the control line, to a desk that threads share. Other seats may act
/// between two of its calls, so its contract does not state what went over it.
#[derive(Drop)]
pub struct SharedSeat<'a, R, K> {
    pub rt: &'a R,
    pub desk: &'a K,
    pub bells: &'a Bells,
    pub seat: Seat,
    /// An answer that came with a step and that the seat has not asked for yet.
    pub at_hand: Option<Answer>,
    /// Whether the link has already reported that the last step has no answer yet. After that, a
    /// look for mail sleeps.
    pub rests: bool,
}

impl<'a, R: Wait, K: SharedDesk> SharedSeat<'a, R, K> {
    // Most steps are answered at once, and then no further call to the desk is needed for the
    // answer.
    fn serve(&mut self, step: Step) {
        let (answer, rings) = self.desk.serve(self.rt, self.seat, step);
        self.bells.ring(&rings);
        drop(mem::replace(&mut self.at_hand, answer));
    }

    fn step(&self, step: Step) {
        let rings = self.desk.step(self.rt, self.seat, step);
        self.bells.ring(&rings);
    }

    fn look(&self) -> Look {
        let (look, rings) = self.desk.look(self.rt, self.seat);
        self.bells.ring(&rings);
        look
    }

    // Sleeps for up to this many milliseconds. Returns how many to deduct from the remaining time:
    // one if the bell ended the sleep early, because the seat then sleeps again.
    fn rest(&self, most: u64) -> u64
        requires { 1 ≤ most }
        ensures some { 1 ≤ result }
        ensures most { result ≤ most }
    {
        let rung = self
            .bells
            .wait(self.rt, self.seat, Duration::from_millis(most));
        if rung { 1 } else { most }
    }

    // The first look after a step without an answer returns at once, so that bytes that the
    // connection holds back are written first. After that, the seat sleeps while there is no
    // answer, and looks again whenever its bell is rung or the core is due. One ring does not end
    // the wait, because a bell may have been rung for an answer that was taken before. If the wait
    // ended, the connection would be read, and the next answer would have to wait for as long as
    // that read does.
    fn next_answer(&mut self) -> Option<Answer> {
        if let Some(answer) = self.at_hand.take() {
            return Some(answer);
        }
        if !mem::replace(&mut self.rests, true) {
            return None;
        }
        let mut left = LONGEST_REST;
        while left > 0 {
            match self.look() {
                Look::Mail(answer) => return Some(answer),
                Look::Nothing(rest) => left -= self.rest(rest.clamp(1, left)),
            }
        }
        match self.look() {
            Look::Mail(answer) => Some(answer),
            Look::Nothing(_) => None,
        }
    }
}

impl<'a, R: Wait, K: SharedDesk> Link for SharedSeat<'a, R, K> {
    ghost is_ready = { λ l. Unit {0} };

    ghost trace = { λ first submitted taken last. Unit {0} };

    fn submit(&mut self, step: &mut Step) -> bool {
        self.rests = false;
        let step = mem::replace(step, Step::Tick);
        if self.at_hand.is_none() {
            self.serve(step);
        } else {
            self.step(step);
        }
        true
    }

    fn mail(&mut self, action: &mut NextAction) -> bool {
        match self.next_answer() {
            Some(answer) => {
                action.write(answer);
                true
            }
            None => false,
        }
    }
}

impl<'a, R: Wait, K: SharedDesk> ControlLink for SharedSeat<'a, R, K> {
    ghost is_ready = { λ l. Unit {0} };

    ghost trace = { λ first submitted last. Unit {0} };

    fn submit(&mut self, step: Step) -> Result<(), Step> {
        self.step(step);
        Ok(())
    }
}
