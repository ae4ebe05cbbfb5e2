//! The seats that have mail and were not woken for it yet.
ghost use Rattle.std.specs.Prelude.{◌≡◌, ◌<◌, ◌≤◌, ◌++◌, [], length, true, false, slice_index_or, slice_set, IfOk, IsNone, ◌↔◌};
ghost use Rattle.std.specs.Option.{option_to_list};

use bq_job::Seat;
use std::alloc::{AllocError, Global};
use std::collections::VecDeque;
use std::marker::Model;

/// A queue of the seats that have mail and were not woken for it yet. Each seat is in it at most
/// once. All memory is allocated when the queue is created.
#[derive(Drop)]
pub struct WakeQueue {
    seats: VecDeque<Seat, Global>,
    marks: Vec<bool, Global>,
}

impl Model for WakeQueue {
    ghost use Rattle.std.specs.Prelude.{false, length, ◌≤◌};
    ghost use Rattle.std.specs.VecDeque.{deque_capacity};
    ghost use Rattle.bq_host.specs.Marks.{HasMarks};
    ghost use Rattle.bq_host.specs.WakeLists.{WakeList};

    ghost Value = { WakeList };

    ghost view = { λ w. record { seats = length w.marks.items; waiting = w.seats.items } };

    ghost invariant = { λ w. HasMarks (λ mark. mark) false w.seats.items w.marks.items × (length w.marks.items ≤ deque_capacity w.seats) };
}

// Sets the mark of a seat that has none. Returns true if it did.
fn mark(marks: &mut Vec<bool, Global>, seat: usize) -> bool
    ensures marked { result ≡ true → (seat < length marks.old.items) × (slice_index_or marks.old.items seat false ≡ false)
        × (marks.new.items ≡ slice_set marks.old.items seat true) }
    ensures kept { result ≡ false → marks.new.items ≡ marks.old.items }
    ensures elsewhere { result ≡ false → seat < length marks.old.items → slice_index_or marks.old.items seat false ≡ true }
{
    if seat >= marks.len() || marks[seat] {
        return false;
    }
    marks[seat] = true;
    true
}

// Removes the mark of a seat.
fn unmark(marks: &mut Vec<bool, Global>, seat: usize)
    requires { seat < length marks.old.items }
    ensures { marks.new.items ≡ slice_set marks.old.items seat false }
{
    marks[seat] = false;
}

impl WakeQueue {
    ghost use Rattle.bq_host.specs.WakeLists.{none_waits, to_wake};

    /// Returns a queue for no seat: none is ever added. Nothing is allocated.
    pub fn none(alloc: Global) -> WakeQueue
        ensures { result ≡ none_waits 0 }
    {
        WakeQueue {
            seats: VecDeque::new(alloc),
            marks: Vec::new(alloc),
        }
    }

    /// Allocates room for this many seats.
    pub fn new(alloc: Global, seats: u16) -> Result<WakeQueue, AllocError>
        ensures { IfOk result (λ wake_queue. wake_queue ≡ none_waits seats) }
    {
        Ok(WakeQueue {
            seats: VecDeque::with_capacity(alloc, usize::from(seats))?,
            marks: Vec::from_elem(alloc, false, usize::from(seats))?,
        })
    }

    /// Adds a seat at the end, unless it is in the queue.
    pub fn add(&mut self, seat: Seat)
        ensures { self.new ≡ to_wake seat self.old }
    {
        if mark(&mut self.marks, usize::from(seat)) {
            self.seats.push_back(seat).unwrap();
        }
    }

    /// Removes and returns the first seat.
    pub fn take_first(&mut self) -> Option<Seat>
        ensures first { self.old.waiting ≡ option_to_list result ++ self.new.waiting }
        ensures none { IsNone result ↔ (self.old.waiting ≡ []) }
        ensures rest { self.new ≡ record self.old { waiting = self.new.waiting } }
    {
        let seat = self.seats.pop_front()?;
        unmark(&mut self.marks, usize::from(seat));
        Some(seat)
    }
}
