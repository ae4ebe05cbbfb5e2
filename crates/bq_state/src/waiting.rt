//! The waiting clients, in order of their tickets.
ghost use Rattle.std.specs.{List.{position, prefix_len, slice_get}, Option.option_copied, Prelude.{IfOk, [], find, length, not, vec_len}};
ghost use Rattle.std.specs.{Prelude.{◌-◌, ◌<◌, ◌==◌, ◌≡◌, ◌≤◌}, Vec.vec_capacity};
ghost use Rattle.bq_state.specs.{Places.item_at, WaitingList.{IsRising, is_none_or_before, is_waiter_after, is_waiter_before, placed}};
ghost use Rattle.bq_state.specs.WaitingList.{once_joined, once_left, removed};

use crate::seats::{SeatRecord, Waiter};
use bq_job::{NoMemory, Seat};
use std::alloc::Global;
use std::marker::Model;

/// The waiting clients, the one that has waited longest first. `new` allocates all the
/// memory that it needs.
#[derive(Drop)]
pub struct WaitingList {
    waiters: Vec<Waiter, Global>,
}

impl Model for WaitingList {
    ghost use Rattle.std.specs.Vec.{vec_capacity};
    ghost use Rattle.bq_state.specs.WaitingList.{WaitingList};

    ghost Value = { WaitingList };

    ghost view = { λ q. record { waiters = q.waiters.items; room = vec_capacity q.waiters } };
}

// Returns true if the first waiter comes before the second.
fn is_before(waiter: Waiter, other: Waiter) -> bool
    ensures { result ≡ is_waiter_before waiter other }
{
    waiter.0 < other.0 || (waiter.0 == other.0 && waiter.1 < other.1)
}

// Returns the place of the first waiter that doesn't come before this one.
fn first_after(waiters: &[Waiter], waiter: Waiter) -> Option<usize>
    ensures { result ≡ position (λ other. not (is_waiter_before other waiter)) waiters.now }
{
    waiters.iter().position(|other| !is_before(*other, waiter))
}

// Returns true if the waiter comes after `last`, or there is no `last`.
fn is_after(waiter: Waiter, last: Option<Waiter>) -> bool
    ensures { result ≡ is_waiter_after last waiter }
{
    match last {
        None => true,
        Some(last) => is_before(last, waiter),
    }
}

// Returns the place of the first waiter that comes after `last`.
fn place_after(waiters: &[Waiter], last: Option<Waiter>) -> Option<usize>
    ensures { result ≡ position (is_waiter_after last) waiters.now }
{
    waiters.iter().position(|waiter| is_after(*waiter, last))
}

/// Returns the waiter at this place, if there is one.
pub(crate) fn waiter_at(waiters: &[Waiter], place: Option<usize>) -> Option<Waiter>
    ensures { result ≡ item_at waiters.now place }
{
    match place {
        None => None,
        Some(i) => waiters.get(i).copied(),
    }
}

// Returns true if the last waiter, if there is one, comes before this one.
fn ends_before(waiters: &[Waiter], waiter: Waiter) -> bool
    ensures { result ≡ is_none_or_before waiter (slice_get waiters.now (length waiters.now - 1)) }
{
    match waiters.last() {
        None => true,
        Some(last) => is_before(*last, waiter),
    }
}

// Returns where the waiter would be inserted. A client that begins to wait mostly comes last.
#[tactic(auto, using(crate::proofs::TubeLemmas::place_told))]
fn place_of(waiters: &[Waiter], waiter: Waiter) -> usize
    requires { IsRising is_waiter_before waiters.now }
    ensures { result ≡ prefix_len (λ other. is_waiter_before other waiter) waiters.now }
{
    if ends_before(waiters, waiter) {
        return waiters.len();
    }
    first_after(waiters, waiter).unwrap_or(waiters.len())
}

// Inserts a waiter in order. It allocates nothing.
fn place(waiters: &mut Vec<Waiter, Global>, waiter: Waiter)
    requires fits { vec_len waiters.old < vec_capacity waiters.old }
    requires rising { IsRising is_waiter_before waiters.old.items }
    ensures waiters { waiters.new.items ≡ placed is_waiter_before waiter waiters.old.items }
    ensures room { vec_capacity waiters.old ≤ vec_capacity waiters.new }
{
    let i = place_of(waiters.as_slice(), waiter);
    let _fits = waiters.insert(i, waiter);
}

// Returns the place of the waiter at this seat.
fn place_of_seat(waiters: &[Waiter], number: Seat) -> Option<usize>
    ensures { result ≡ position (λ waiter. waiter.1 == number) waiters.now }
{
    waiters.iter().position(|waiter| waiter.1 == number)
}

// Removes the waiter at this seat.
fn remove(waiters: &mut Vec<Waiter, Global>, number: Seat)
    ensures waiters { waiters.new.items ≡ removed number waiters.old.items }
    ensures room { vec_capacity waiters.new ≡ vec_capacity waiters.old }
{
    if let Some(i) = place_of_seat(waiters.as_slice(), number) {
        let _waiter = waiters.remove(i);
    }
}

impl WaitingList {
    /// Returns an empty list with room for this many clients. Returns `NoMemory` if the allocation
    /// fails.
    pub fn new(alloc: Global, room: u16) -> Result<WaitingList, NoMemory>
        ensures empty { IfOk result (λ waiting. waiting.waiters ≡ []) }
        ensures room { IfOk result (λ waiting. waiting.room ≡ room) }
    {
        match Vec::with_capacity(alloc, usize::from(room)) {
            Ok(waiters) => Ok(WaitingList { waiters }),
            Err(_) => Err(NoMemory),
        }
    }

    /// Returns the waiters, the first one first.
    pub fn as_slice(&self) -> &[Waiter]
        ensures { result.now ≡ self.now.waiters }
    {
        self.waiters.as_slice()
    }

    /// Returns the first waiter that comes after `last`; without `last`, the first of all.
    #[tactic(auto, using(crate::proofs::WalkLemmas::item_found))]
    pub fn next_after(&self, last: Option<Waiter>) -> Option<Waiter>
        ensures { result ≡ find (is_waiter_after last) self.now.waiters }
    {
        let waiters = self.waiters.as_slice();
        waiter_at(waiters, place_after(waiters, last))
    }

    /// Inserts the client, if there is one and it waits.
    #[inline(always)]
    #[tactic(auto, using(std::proofs::lemmas::Grind::common_steps, crate::proofs::WaitingLemmas::placed_length))]
    pub(crate) fn join(&mut self, client: Option<&SeatRecord>)
        requires fits { length (once_joined (option_copied client) self.old.waiters) ≤ self.old.room }
        requires rising { IsRising is_waiter_before self.old.waiters }
        ensures waiters { self.new.waiters ≡ once_joined (option_copied client.entry) self.old.waiters }
        ensures room { self.old.room ≤ self.new.room }
    {
        let Some(client) = client else {
            return;
        };
        if client.is_waiting() {
            place(&mut self.waiters, client.waiter());
        }
    }

    /// Removes the client.
    #[inline(always)]
    pub(crate) fn leave(&mut self, client: Option<&SeatRecord>)
        ensures waiters { self.new.waiters ≡ once_left (option_copied client.entry) self.old.waiters }
        ensures room { self.new.room ≡ self.old.room }
    {
        let Some(client) = client else {
            return;
        };
        if client.is_waiting() {
            remove(&mut self.waiters, client.number());
        }
    }
}
