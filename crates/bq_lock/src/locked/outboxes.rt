//! The outboxes of the seats.
ghost use Rattle.std.specs.Prelude.{◌≡◌, ◌≤◌, ◌<◌, ◌∷◌, [], IfOk, length, map, replicate};
ghost use Rattle.std.specs.Vec.{vec_capacity};
ghost use Rattle.bq_job.specs.machine.Dispatch.{GivenAnswer};
ghost use Rattle.bq_lock.specs.LockedState.{AreFew, oldest_for, without_oldest};
ghost use Rattle.bq_lock.specs.LockedSteps.{AreDelivered};

use bq_core_api::Outs;
use bq_host::{Mail, new_mails};
use bq_job::{Answer, NoMemory, Seat};
use std::alloc::Global;

/// An outbox for each seat, and the seats that received an answer from the last step.
#[derive(Drop)]
pub struct Outboxes {
    pub mails: Vec<Mail, Global>,
    pub answered: Vec<Seat, Global>,
}

impl Outboxes {
    /// Allocates empty outboxes for this many seats.
    pub fn new(alloc: Global, seats: u16) -> Result<Outboxes, NoMemory>
        ensures mails { IfOk result (λ outboxes. outboxes.mails.items ≡ replicate seats []) }
        ensures answered { IfOk result (λ outboxes. outboxes.answered.items ≡ []) }
        ensures room { IfOk result (λ outboxes. seats < vec_capacity outboxes.answered) }
    {
        let Ok(mails) = new_mails(alloc, seats) else {
            return Err(NoMemory);
        };
        match Vec::with_capacity(alloc, usize::from(seats) + 1) {
            Ok(answered) => Ok(Outboxes { mails, answered }),
            Err(_) => {
                drop(mails);
                Err(NoMemory)
            }
        }
    }

    /// Puts the answers of a step into the outboxes of their seats. A fifth answer replaces the
    /// oldest.
    pub fn deliver(&mut self, outs: &mut Outs)
        requires few { AreFew self.old.mails.items }
        requires room { length outs.old.given ≤ vec_capacity self.old.answered }
        ensures delivered { AreDelivered outs.old.given self.old.mails.items self.new.mails.items }
        ensures answered { self.new.answered.items ≡ map (λ (g : GivenAnswer). g.0) outs.old.given }
        ensures room { vec_capacity self.old.answered ≤ vec_capacity self.new.answered }
        ensures taken { outs.new ≡ record outs.old { given = [] } }
    {
        self.answered.clear();
        while let Some((seat, answer)) = outs.take_first() {
            self.answered.push(seat).unwrap();
            post(&mut self.mails, seat, answer);
        }
    }

    /// Takes the oldest answer out of the outbox of a seat.
    pub fn fetch(&mut self, seat: Seat) -> Option<Answer>
        ensures oldest { result ≡ oldest_for seat self.old.mails.items }
        ensures rest { self.new.mails.items ≡ without_oldest seat self.old.mails.items }
        ensures answered { self.new.answered ≡ self.old.answered }
    {
        match self.mails.get_mut(usize::from(seat)) {
            Some(mail) => mail.take_first(),
            None => None,
        }
    }
}

// Puts an answer into the outbox of its seat. If the seat does not exist, the answer is dropped.
fn post(mails: &mut Vec<Mail, Global>, seat: Seat, answer: Answer)
    requires few { AreFew mails.old.items }
    ensures { AreDelivered ((seat, answer) ∷ []) mails.old.items mails.new.items }
{
    if let Some(mail) = mails.get_mut(usize::from(seat)) {
        mail.put_newest(answer);
    } else {
        drop(answer);
    }
}
