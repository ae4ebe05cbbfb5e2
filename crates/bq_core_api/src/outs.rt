ghost use Rattle.std.specs.Prelude.{◌≡◌, ◌↔◌, ◌+◌, ◌<◌, ◌++◌, ◌∷◌, [], false, true, length, IfOk, IsNone, IsTrue};
ghost use Rattle.std.specs.Option.{option_to_list};
ghost use Rattle.bq_core_api.specs.Answered.{has_inserted, has_out_of_memory, is_inserted};
ghost use Rattle.bq_job.specs.machine.Steps.{is_out_of_memory};

use bq_job::{Answer, NoMemory, Seat};
use std::alloc::Global;
use std::collections::VecDeque;
use std::marker::Model;

/// The answers of a step in order, each with the seat that it goes to.
#[derive(Drop)]
pub struct Outs {
    answers: VecDeque<(Seat, Answer), Global>,
    most: usize,
    left_out: bool,
    unshared: bool,
}

impl Model for Outs {
    ghost use Rattle.std.specs.Prelude.{◌≤◌};
    ghost use Rattle.std.specs.VecDeque.{deque_capacity};
    ghost use Rattle.bq_core_api.specs.Outbox.{Outbox};

    ghost Value = { Outbox };

    ghost view = { λ o. record { given = o.answers.items; most = o.most; left_out = o.left_out; unshared = o.unshared } };

    ghost invariant = { λ o. o.most ≤ deque_capacity o.answers };
}

impl Outs {
    /// Allocates room for the answers of one step of a core with at most `seats` seats. Returns
    /// `NoMemory` if the allocation fails.
    pub fn new(alloc: Global, seats: u16) -> Result<Outs, NoMemory>
        ensures { IfOk result
            (λ outs. outs
            ≡ record { given = []; most = seats + 1; left_out = false; unshared = false }) }
    {
        let most = usize::from(seats) + 1;
        match VecDeque::with_capacity(alloc, most) {
            Ok(answers) => Ok(Outs {
                answers,
                most,
                left_out: false,
                unshared: false,
            }),
            Err(_) => Err(NoMemory),
        }
    }

    /// Removes and returns the oldest answer.
    pub fn take_first(&mut self) -> Option<(Seat, Answer)>
        ensures oldest { self.old.given ≡ option_to_list result ++ self.new.given }
        ensures empty { IsNone result ↔ (self.old.given ≡ []) }
        ensures rest { self.new ≡ record self.old { given = self.new.given } }
    {
        self.answers.pop_front()
    }

    /// Returns true if no answer remains.
    pub fn is_empty(&self) -> bool
        ensures { IsTrue result ↔ (self.now.given ≡ []) }
    {
        self.answers.is_empty()
    }

    /// Returns true if one of the answers is that a job was put.
    pub fn has_inserted(&self) -> bool
        ensures { result ≡ has_inserted self.now.given }
    {
        // It is nearly always the first.
        self.is_first_inserted() || self.is_any_inserted()
    }

    // Returns true if the first answer is that a job was put.
    fn is_first_inserted(&self) -> bool
        ensures { result ≡ true → has_inserted self.now.given ≡ true }
    {
        match self.answers.front() {
            Some(given) => is_inserted(&given.1),
            None => false,
        }
    }

    #[inline(never)]
    fn is_any_inserted(&self) -> bool
        ensures { result ≡ has_inserted self.now.given }
    {
        self.answers.iter().any(|given| is_inserted(&given.1))
    }

    /// Returns true if one of the answers is `OUT_OF_MEMORY`.
    pub fn has_out_of_memory(&self) -> bool
        ensures { result ≡ has_out_of_memory self.now.given }
    {
        self.answers.iter().any(|given| is_out_of_memory(&given.1))
    }

    /// Returns true if the last step skipped its command because an allocation failed.
    pub fn left_out(&self) -> bool
        ensures { result ≡ self.now.left_out }
    {
        self.left_out
    }

    /// Returns true if a job's body could not be shared in the last step: its references can no
    /// longer be counted.
    pub fn unshared(&self) -> bool
        ensures { result ≡ self.now.unshared }
    {
        self.unshared
    }

    /// Begins a new step and drops the remaining answers of the last one.
    pub fn begin(&mut self)
        ensures { self.new
            ≡ record { given = []; most = self.old.most; left_out = false; unshared = false } }
    {
        self.answers.clear();
        self.left_out = false;
        self.unshared = false;
    }

    /// Appends an answer. The caller ensures that there is room.
    pub fn push(&mut self, seat: Seat, answer: Answer)
        requires { length self.old.given < self.old.most }
        ensures { self.new ≡ record self.old { given = self.old.given ++ (seat, answer) ∷ [] } }
    {
        self.answers.push_back_reserved((seat, answer));
    }

    /// Records that the step skipped its command because an allocation failed.
    pub fn set_left_out(&mut self)
        ensures { self.new ≡ record self.old { left_out = true } }
    {
        self.left_out = true;
    }

    /// Records that a job's body could not be shared in the step.
    pub fn set_unshared(&mut self)
        ensures { self.new ≡ record self.old { unshared = true } }
    {
        self.unshared = true;
    }
}

fn is_inserted(answer: &Answer) -> bool
    ensures { result ≡ is_inserted answer.now }
{
    matches!(answer, Answer::Inserted(_))
}

fn is_out_of_memory(answer: &Answer) -> bool
    ensures { result ≡ is_out_of_memory answer.now }
{
    matches!(answer, Answer::OutOfMemory)
}
