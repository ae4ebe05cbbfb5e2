//! The seats of a run, each with its door.
ghost use Rattle.std.specs.Prelude.{◌≡◌, ◌⊎◌, ◌<◌, List, [], true, length};
ghost use Rattle.bq_job.specs.declared.answer.Answer.{Answer};
ghost use Rattle.bq_event_loop.specs.Still.{IsStill};
ghost use Rattle.bq_line.specs.Tending.{IsPlaced, Tends, door_seen};

use crate::still::{is_still, rests, stands_of};
use crate::turns::Stands;
use bq_line::attendant::{Attendant, SeatPhase, TryOpened};
use bq_line::line::{Line, ReadBuffer, Readiness};
use bq_line::{Door, TurnedAway, Watcher};
use std::alloc::Global;

/// The seats of a run, each with its door. The calls that this type offers without the core submit
/// no step and take no answer.
#[derive(Drop)]
pub struct Row<L: Line + Drop, D: Door<Line = L>> {
    pub seats: Vec<Attendant<L>, Global>,
    pub doors: Vec<D, Global>,
}

impl<L: Line + Drop, D: Door<Line = L>> Row<L, D> {
    ghost use Rattle.std.specs.Prelude.{◌⊎◌, slice_index_or};
    ghost use Rattle.bq_line.specs.declared.attendant.Attendant.{Attendant};
    ghost use Rattle.bq_event_loop.specs.Known.{ChangesOnly};
    ghost use Rattle.bq_event_loop.specs.Rows.{AreDone, AreTended, KeepsRow};

    /// Returns the number of seats.
    pub fn len(&self) -> usize
        ensures { result ≡ length self.now.seats.items }
    {
        self.seats.len()
    }

    /// Returns what a seat does next, or `Done` if it does not exist.
    pub fn stands(&self, seat: usize) -> Stands
        ensures { (a : Attendant L) → seat < length self.now.seats.items
            → (slice_index_or self.now.seats.items seat a).phase ≡ SeatPhase.Between → result ≡ Stands.Between }
    {
        match self.seats.get(seat) {
            Some(seat) => stands_of(seat),
            None => Stands::Done,
        }
    }

    /// Returns true if every seat is done.
    pub fn are_done(&self) -> bool
        ensures { result ≡ true → AreDone self.now.seats.items }
    {
        for seat in 0..self.seats.len() {
            if !self.seats[seat].is_done() {
                return false;
            }
        }
        true
    }

    /// Closes a connection that waits although every door is taken, if the doors were made to do
    /// so. No seat and no connection of a seat is touched.
    pub fn turn_away(&self) -> TurnedAway {
        match self.doors.first() {
            Some(door) => door.turn_away(),
            None => TurnedAway::Waits,
        }
    }

    /// Checks for the next connection at a door, without waiting for it, and has it watched.
    /// `may_have_come` is false if none can have come since the last check. A seat that has a
    /// connection is left alone, and the result is `TryOpened::Opened`.
    #[tactic(auto, using(crate::proofs::KnownLemmas::changed_one, crate::proofs::KnownLemmas::changed_phase))]
    pub fn try_open<W: Watcher>(
        &mut self,
        alloc: Global,
        seat: usize,
        may_have_come: bool,
        watcher: &W,
    ) -> TryOpened
        requires tended { AreTended L.Line D.Door self.old }
        ensures keeps { KeepsRow L.Line D.Door self.old self.new }
        ensures only { ChangesOnly seat self.old.seats.items self.new.seats.items }
        // Without a connection the seat is still between two connections.
        ensures none { (result ≡ TryOpened.NotYet) ⊎ (result ≡ TryOpened.Later) → (a : Attendant L)
            → (slice_index_or self.new.seats.items seat a).phase ≡ SeatPhase.Between }
    {
        if seat >= self.seats.len() {
            return TryOpened::Opened;
        }
        try_open_at(
            alloc,
            &mut self.seats[seat],
            &mut self.doors[seat],
            may_have_come,
            watcher,
        )
    }

    /// Notes what the connection of a seat is ready for, as the system reported it.
    #[tactic(auto, using(crate::proofs::KnownLemmas::changed_one, crate::proofs::KnownLemmas::changed_phase))]
    pub fn note_ready(&mut self, seat: usize, ready: Readiness)
        requires tended { AreTended L.Line D.Door self.old }
        ensures keeps { KeepsRow L.Line D.Door self.old self.new }
        ensures only { ChangesOnly seat self.old.seats.items self.new.seats.items }
        ensures between { (a : Attendant L) → (slice_index_or self.old.seats.items seat a).phase ≡ SeatPhase.Between
            → (slice_index_or self.new.seats.items seat a).phase ≡ SeatPhase.Between }
    {
        if seat < self.seats.len() {
            self.seats[seat].note_ready(ready);
        }
    }

    /// Swaps the read buffer of a seat's connection with this one, if both are empty. A seat
    /// between two connections swaps that of its door, which drops what the last connection left in
    /// it.
    #[tactic(auto, using(crate::proofs::KnownLemmas::changed_one))]
    pub fn exchange(&mut self, seat: usize, buffer: &mut ReadBuffer)
        requires tended { AreTended L.Line D.Door self.old }
        ensures keeps { KeepsRow L.Line D.Door self.old self.new }
        ensures only { ChangesOnly seat self.old.seats.items self.new.seats.items }
    {
        if seat >= self.seats.len() {
            return;
        }
        if self.seats[seat].is_between() {
            self.doors[seat].exchange(buffer);
        } else {
            self.seats[seat].exchange(buffer);
        }
    }

    /// Returns true if nothing moves at a seat until its connection is ready or it has mail;
    /// `has_none` says that it has no mail now.
    pub fn is_still(&self, seat: usize, has_none: bool) -> bool
        ensures { result ≡ true → (mail : List Answer) → (has_none ≡ true → mail ≡ []) → (a : Attendant L)
            → IsStill L.Line (slice_index_or self.now.seats.items seat a) mail }
    {
        match self.seats.get(seat) {
            Some(seat) => is_still(seat, has_none),
            None => false,
        }
    }

    /// Returns true if a seat reads a command, and no bytes have come as far as its connection knows,
    /// which then sends what it holds back.
    #[inline(always)]
    #[tactic(auto, using(crate::proofs::KnownLemmas::changed_one, crate::proofs::RowLemmas::still_there))]
    pub fn rests(&mut self, seat: usize) -> bool
        requires tended { AreTended L.Line D.Door self.old }
        ensures keeps { KeepsRow L.Line D.Door self.old self.new }
        ensures only { ChangesOnly seat self.old.seats.items self.new.seats.items }
        ensures still { result ≡ true → (mail : List Answer) (a : Attendant L)
            → IsStill L.Line (slice_index_or self.new.seats.items seat a) mail }
    {
        if seat < self.seats.len() {
            return rests(&mut self.seats[seat]);
        }
        false
    }

    /// Sends what the connection of a seat holds back in the expectation of more answers.
    #[tactic(auto, using(crate::proofs::KnownLemmas::changed_one))]
    pub fn hand_on(&mut self, seat: usize)
        requires tended { AreTended L.Line D.Door self.old }
        ensures keeps { KeepsRow L.Line D.Door self.old self.new }
        ensures only { ChangesOnly seat self.old.seats.items self.new.seats.items }
    {
        if seat < self.seats.len() {
            self.seats[seat].hand_on();
        }
    }
}

// Checks for the next connection at a door, unless its seat has a connection.
fn try_open_at<L: Line + Drop, D: Door<Line = L>, W: Watcher>(
    alloc: Global,
    seat: &mut Attendant<L>,
    door: &mut D,
    may_have_come: bool,
    watcher: &W,
) -> TryOpened
    requires placed { IsPlaced seat.old.phase (door_seen D.Door door.old) }
    ensures trace { let at = door_seen D.Door in
        Tends L.seen seat.old (at door.old) [] [] seat.new (at door.new) }
    ensures same { (first : D) → D.same first door.old → D.same first door.new }
    ensures none { (result ≡ TryOpened.NotYet) ⊎ (result ≡ TryOpened.Later) → seat.new.phase ≡ SeatPhase.Between }
{
    if !seat.is_between() {
        return TryOpened::Opened;
    }
    seat.try_open(alloc, door, may_have_come, watcher)
}
