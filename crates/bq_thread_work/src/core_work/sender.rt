//! The core's end of the links, with the answers whose rings were full.
ghost use Rattle.std.specs.Prelude.{◌≡◌, ◌↔◌, ◌<◌, ◌≤◌, ◌+◌, ◌++◌, ◌∷◌, [], length, false, true};
ghost use Rattle.bq_job.specs.promise.Runs.{answers_to};
ghost use Rattle.bq_link.specs.EndStates.{room_for};

use bq_core_api::Outs;
use bq_job::{Answer, Seat};
use bq_link::{CoreEnd, Intake, NoTicks};
use std::alloc::Global;
use std::collections::VecDeque;
use std::mem;

/// The core's end of the links, and the answers that could not be sent because their rings were
/// full.
#[derive(Drop)]
pub struct Sender {
    pub end: CoreEnd,
    pub ends: usize,
    /// The answers that are kept, in order, and room for them while they are tried again.
    pub kept: VecDeque<(Seat, Answer), Global>,
    pub aside: VecDeque<(Seat, Answer), Global>,
}

impl Sender {
    ghost use Rattle.bq_thread_work.specs.Sending.{AreSent, AreStuck, HasPlaces, IsAtRest};

    /// Sends the answers that were kept, and then the new ones. If the ring of an answer is full,
    /// the answer is kept and the next one is tried, until there is no room to keep another.
    /// Returns true if every new answer was sent or kept.
    pub fn send_all(&mut self, intake: &Intake<NoTicks>, outs: &mut Outs) -> bool
        requires rest { IsAtRest self.old }
        ensures rest { IsAtRest self.new }
        ensures ends { self.new.ends ≡ self.old.ends }
        ensures sent { AreSent self.old.end (self.old.kept.items ++ outs.old.given) self.new.end
            (self.new.kept.items ++ outs.new.given) }
        ensures most { outs.new.most ≡ outs.old.most }
        ensures stuck { AreStuck self.new.end self.new.kept.items }
        ensures none { result ≡ true → outs.new.given ≡ [] }
        ensures full { result ≡ false → length self.new.kept.items ≡ self.new.ends }
    {
        self.try_again(intake);
        while self.kept.len() < self.ends {
            let Some((seat, answer)) = outs.take_first() else {
                return true;
            };
            self.send_or_keep(intake, seat, answer);
        }
        false
    }

    // Tries to send all kept answers. Nearly always there are none, and then nothing is moved.
    fn try_again(&mut self, intake: &Intake<NoTicks>)
        requires rest { IsAtRest self.old }
        ensures rest { IsAtRest self.new }
        ensures ends { self.new.ends ≡ self.old.ends }
        ensures sent { AreSent self.old.end self.old.kept.items self.new.end self.new.kept.items }
        ensures stuck { AreStuck self.new.end self.new.kept.items }
    {
        if self.kept.is_empty() {
            return;
        }
        mem::swap(&mut self.kept, &mut self.aside);
        while let Some((seat, answer)) = self.aside.pop_front() {
            self.send_or_keep(intake, seat, answer);
        }
    }

    // Sends an answer and wakes its end, or keeps it after the others. An answer for a seat that
    // does not exist is dropped. The check comes before the move, and the function is inlined, so
    // that an answer is moved only once.
    #[inline(always)]
    fn send_or_keep(&mut self, intake: &Intake<NoTicks>, seat: Seat, answer: Answer)
        requires places { HasPlaces self.old }
        requires room { length self.old.kept.items < self.old.ends }
        requires stuck { AreStuck self.old.end self.old.kept.items }
        ensures places { HasPlaces self.new }
        ensures sent { AreSent self.old.end
            (self.old.kept.items ++ (seat, answer) ∷ []) self.new.end self.new.kept.items }
        ensures stuck { AreStuck self.new.end self.new.kept.items }
        ensures few { length self.new.kept.items ≤ length self.old.kept.items + 1 }
        ensures ends { self.new.ends ≡ self.old.ends }
        ensures aside { self.new.aside ≡ self.old.aside }
    {
        if usize::from(seat) >= self.ends {
            drop(answer);
            return;
        }
        if self.can_send(seat) {
            self.end.push(seat, answer);
            intake.wake(seat);
        } else {
            self.kept.push_back_reserved((seat, answer));
        }
    }

    // Returns true if an answer can be sent to this end: no answer is kept for it, and its ring has
    // room.
    fn can_send(&mut self, seat: Seat) -> bool
        requires places { HasPlaces self.old }
        requires within { seat < self.old.ends }
        requires stuck { AreStuck self.old.end self.old.kept.items }
        ensures unsent { AreSent self.old.end self.old.kept.items self.new.end self.old.kept.items }
        ensures none { result ≡ true → answers_to seat self.old.kept.items ≡ [] }
        ensures room { result ≡ true → 0 < room_for self.new.end seat }
        ensures full { result ≡ false → room_for self.new.end seat ≡ 0 }
        ensures stuck { AreStuck self.new.end self.old.kept.items }
        ensures succeeds { answers_to seat self.old.kept.items ≡ []
            → 0 < room_for self.old.end seat → result ≡ true }
        ensures rest { self.new ≡ record self.old { end = self.new.end } }
    {
        if self.has_kept(seat) {
            return false;
        }
        self.end.has_room(seat)
    }

    // Returns true if an answer is kept for this end.
    fn has_kept(&self, seat: Seat) -> bool
        ensures { result ≡ false ↔ (answers_to seat self.now.kept.items ≡ []) }
    {
        for given in self.kept.iter() {
            if given.0 == seat {
                return true;
            }
        }
        false
    }
}
