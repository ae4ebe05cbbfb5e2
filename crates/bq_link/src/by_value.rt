//! The calls of the ends that return an answer, or its absence, as a value. A server looks first
//! and then calls `CoreEnd::push` or `SeatEnd::take_mail`, since an answer in a `Result` or an
//! `Option` is copied more often.
ghost use Rattle.std.specs.Prelude.{◌≡◌, ◌+◌, ◌<◌, ◌≤◌, ◌∷◌, ◌++◌, [], length};
ghost use Rattle.std.specs.Prelude.{IfErr, IfNone, IfSome, IsOk, OnErr, OnOk};
ghost use Rattle.bq_link.specs.EndChanges.{with_room, with_sent};
ghost use Rattle.bq_link.specs.EndStates.{room_for, sent_to};
ghost use mathlib.Core.List.{IsPrefix};

use crate::ends::{CoreEnd, SeatEnd};
use bq_job::{Answer, Seat};
use rtrb::PushError;

impl CoreEnd {
    /// Sends an answer to the end with this number. If its ring is full, returns the answer
    /// (refusal 402).
    #[tactic(auto, using(crate::proofs::RingLemmas::sends))]
    pub fn send(&mut self, seat: Seat, answer: Answer) -> Result<(), Answer>
        requires { seat < length self.old.rings }
        ensures sent { OnOk result
            (self.new ≡ with_room (with_sent self.old seat answer) seat (room_for self.new seat)) }
        ensures to { OnOk result (sent_to self.new seat ≡ sent_to self.old seat ++ answer ∷ []) }
        ensures handed_back { IfErr result (λ back. back ≡ answer) }
        ensures unchanged { OnErr result (self.new ≡ with_room self.old seat 0) }
        ensures room { OnOk result (room_for self.old seat ≤ room_for self.new seat + 1) }
        ensures succeeds { 0 < room_for self.old seat → IsOk result }
    {
        match self.rings[usize::from(seat)].push(answer) {
            Ok(()) => Ok(()),
            Err(PushError::Full(back)) => Err(back),
        }
    }
}

impl SeatEnd {
    /// Takes the oldest answer that was sent to this end. Returns `None` if there is none; an
    /// answer that is known to wait is always returned.
    pub fn mail(&mut self) -> Option<Answer>
        ensures taken { IfSome result (λ answer.
            self.new ≡ record self.old { taken = self.old.taken ++ answer ∷ []; waiting = self.new.waiting }) }
        ensures next { IfSome result
            (λ answer. IsPrefix self.old.waiting (answer ∷ self.new.waiting)) }
        ensures none { IfNone result ((self.old.waiting ≡ []) × (self.new ≡ self.old)) }
    {
        self.mail.pop().ok()
    }
}
