//! Which seats can act, in the order of their visits, and which of them check for a connection.
ghost use Rattle.std.specs.Prelude.{◌≡◌, ◌<◌, ◌≤◌, ◌+◌, ◌++◌, [], take, drop, ℕ, length, true, false, nat_lt, slice_get, slice_index_or};
ghost use Rattle.std.specs.Prelude.{slice_set, vec_capacity, IfOk, IfSome, IsNone, IsTrue, None, Some, ◌↔◌, if◌then◌else◌};
ghost use Rattle.std.specs.Option.{option_to_list};
ghost use Rattle.bq_event_loop.specs.Listings.{falling};

use std::alloc::{AllocError, Global};
use std::collections::VecDeque;
use std::marker::Model;

/// The list that a seat is in.
#[derive(Clone, Copy)]
enum Listed {
    Nowhere,
    /// In the queue of seats that can act.
    Queued,
    /// Among the seats that check for a connection.
    Free,
}

/// The queue of the seats that can act, in the order of their visits, and the seats that check for
/// a connection. Each seat is at most once in both lists together. All memory is allocated when the
/// queue is created.
#[derive(Drop)]
pub struct SeatQueue {
    queue: VecDeque<usize, Global>,
    free: Vec<usize, Global>,
    listed: Vec<Listed, Global>,
    // How many seats at the front of the queue are visited in this round.
    round: usize,
    // How many of them were visited in this part of the round.
    at: usize,
}

impl Model for SeatQueue {
    ghost use Rattle.std.specs.Prelude.{length, ◌≤◌, ◌+◌};
    ghost use Rattle.std.specs.Vec.{vec_capacity};
    ghost use Rattle.std.specs.VecDeque.{deque_capacity};
    ghost use Rattle.bq_event_loop.specs.Listings.{Listing, AreMarked};

    ghost Value = { Listing };

    ghost view = { λ q. record { seats = length q.listed.items; queue = q.queue.items; free = q.free.items; round = q.round; at = q.at } };

    ghost invariant = { λ q. AreMarked q.queue.items q.free.items q.listed.items
        × (length q.listed.items ≤ deque_capacity q.queue) × (length q.listed.items ≤ vec_capacity q.free)
        × (q.at ≤ q.round) × (q.round ≤ q.at + length q.queue.items) };
}

// Returns the numbers of this many seats, the first of them last.
#[tactic(auto, using(crate::proofs::ListingLemmas::falling_more))]
fn all_seats(alloc: Global, seats: usize) -> Result<Vec<usize, Global>, AllocError>
    ensures all { IfOk result (λ free. free.items ≡ falling seats) }
    ensures room { IfOk result (λ free. seats ≤ vec_capacity free) }
{
    let mut free = Vec::with_capacity(alloc, seats)?;
    for behind in 0..seats {
        free.push(seats - 1 - behind)?;
    }
    Ok(free)
}

// Sets the mark of a seat that is in no list. Returns true if it did.
fn mark(listed: &mut Vec<Listed, Global>, seat: usize, place: Listed) -> bool
    ensures marked { result ≡ true → (seat < length listed.old.items)
        × (slice_index_or listed.old.items seat Listed.Nowhere ≡ Listed.Nowhere)
        × (listed.new.items ≡ slice_set listed.old.items seat place) }
    ensures kept { result ≡ false → listed.new.items ≡ listed.old.items }
    ensures elsewhere { result ≡ false → seat < length listed.old.items
        → slice_index_or listed.old.items seat Listed.Nowhere ≡ Listed.Nowhere → ⊥ }
{
    if seat >= listed.len() {
        return false;
    }
    match listed[seat] {
        Listed::Nowhere => {
            listed[seat] = place;
            true
        }
        _ => false,
    }
}

// Notes that a seat is in no list.
fn unmark(listed: &mut Vec<Listed, Global>, seat: usize)
    requires { seat < length listed.old.items }
    ensures { listed.new.items ≡ slice_set listed.old.items seat Listed.Nowhere }
{
    listed[seat] = Listed::Nowhere;
}

impl SeatQueue {
    ghost use Rattle.bq_host.specs.Marks.{times};
    ghost use Rattle.bq_event_loop.specs.Keeping.{KeepsSeats};
    ghost use Rattle.bq_event_loop.specs.Listings.{IsDisjoint, all_free, enqueued, freed};

    /// Returns a queue of this many seats, all of which check for a connection.
    pub fn new(alloc: Global, seats: usize) -> Result<SeatQueue, AllocError>
        ensures { IfOk result (λ queue. queue ≡ all_free seats) }
    {
        Ok(SeatQueue {
            queue: VecDeque::with_capacity(alloc, seats)?,
            free: all_seats(alloc, seats)?,
            listed: Vec::from_elem(alloc, Listed::Free, seats)?,
            round: 0,
            at: 0,
        })
    }

    /// Puts a seat that can act at the end of the queue. A seat that is in a list stays where it
    /// is.
    pub fn enqueue(&mut self, seat: usize)
        ensures queue { self.new ≡ enqueued seat self.old }
        ensures keeps { KeepsSeats None None self.old (Some seat) self.new None }
    {
        if mark(&mut self.listed, seat, Listed::Queued) {
            self.queue.push_back_reserved(seat);
        }
    }

    /// Puts a seat among those that check for a connection. A seat that is in a list stays where it
    /// is.
    pub fn set_free(&mut self, seat: usize)
        ensures { self.new ≡ freed seat self.old }
    {
        if mark(&mut self.listed, seat, Listed::Free) {
            self.free.push_reserved(seat);
        }
    }

    /// Removes and returns the next seat that checks for a connection. It is then in no list.
    pub fn next_free(&mut self) -> Option<usize>
        ensures taken { self.old.free ≡ self.new.free ++ option_to_list result }
        ensures none { IsNone result ↔ (self.old.free ≡ []) }
        ensures gone { IfSome result (λ seat. times seat self.new.free ≡ 0) }
        ensures rest { self.new ≡ record self.old { free = self.new.free } }
    {
        let seat = self.free.pop()?;
        unmark(&mut self.listed, seat);
        Some(seat)
    }

    /// Returns true if no seat is in the queue.
    pub fn is_empty(&self) -> bool
        ensures { IsTrue result ↔ (self.now.queue ≡ []) }
    {
        self.queue.is_empty()
    }

    /// Returns true if no seat checks for a connection.
    pub fn is_none_free(&self) -> bool
        ensures { IsTrue result ↔ (self.now.free ≡ []) }
    {
        self.free.is_empty()
    }

    /// Puts this many seats at the front of the queue at its end, in their order. If it has no more
    /// than these, it stays as it is.
    #[inline(always)]
    pub fn put_last(&mut self, many: usize)
        ensures queue { self.new ≡ record self.old { queue = drop many self.old.queue ++ take many self.old.queue } }
        ensures same { (seat : ℕ) → times seat self.new.queue ≡ times seat self.old.queue }
    {
        // Mostly there are none.
        if many == 0 {
            return;
        }
        self.rotate(many);
    }

    // The same if there may be some.
    #[inline(never)]
    fn rotate(&mut self, many: usize)
        ensures queue { self.new ≡ record self.old { queue = drop many self.old.queue ++ take many self.old.queue } }
        ensures same { (seat : ℕ) → times seat self.new.queue ≡ times seat self.old.queue }
    {
        if many < self.queue.len() {
            self.queue.rotate_left(many);
        }
    }

    /// Begins a part of a round, which visits all seats that are in the queue now.
    pub fn begin_round(&mut self)
        ensures { self.new ≡ record self.old { round = length self.old.queue; at = 0 } }
    {
        self.round = self.queue.len();
        self.at = 0;
    }

    /// Returns how many seats are visited in this round.
    pub fn round(&self) -> usize
        ensures { result ≡ self.now.round }
    {
        self.round
    }

    /// Returns the next seat in this part of the round, and leaves it in the queue. The result is
    /// `None` after the last seat of the round.
    pub fn next_in_round(&mut self) -> Option<usize>
        ensures next { result ≡ (if nat_lt self.old.at self.old.round then slice_get self.old.queue self.old.at else None) }
        ensures rest { self.new ≡ record self.old { at = self.old.at + length (option_to_list result) } }
    {
        if self.at >= self.round {
            return None;
        }
        let seat = *self.queue.get(self.at)?;
        self.at += 1;
        Some(seat)
    }

    /// Removes the first seat from the queue and returns it. It is then in no list. The result is
    /// `None` after the last seat of the round.
    pub fn take_next(&mut self) -> Option<usize>
        ensures first { self.old.queue ≡ option_to_list result ++ self.new.queue }
        ensures none { IsNone result ↔ (self.old.round ≤ self.old.at) }
        ensures rest { self.new ≡ record self.old { queue = self.new.queue; at = self.old.at + length (option_to_list result) } }
    {
        if self.at >= self.round {
            return None;
        }
        let seat = self.queue.pop_front()?;
        self.at += 1;
        unmark(&mut self.listed, seat);
        Some(seat)
    }

    /// Each seat is at most once in both lists together.
    #[tactic(auto, using(crate::proofs::ListingLemmas::disjoint))]
    pub fn is_disjoint(&self)
        ensures { IsDisjoint self.now }
    {
        let _ = &self.queue;
    }
}
