//! The seats: what is known of each and of its client, and how that changes.
ghost use Rattle.std.specs.{List.{list_any, position}, Option.{option_copied, option_map}, Prelude.{IfOk, OnErr, length, map, true, ◌<◌}};
ghost use Rattle.std.specs.Prelude.{◌≡◌};
ghost use Rattle.bq_job.specs.{beside.NextDue.{dues_of_wait, earliest}, machine.Changes.{first_of, is_waiting}};
ghost use Rattle.bq_job.specs.machine.{Changes.seat_with, Dispatch.{is_wait_before, ticket_of}};
ghost use Rattle.bq_job.specs.machine.{Machine.{empty_seat, numbers}, TubeCommands.watching, Tubes.watches, Waits.is_timed_out_at};
ghost use Rattle.bq_state.specs.{EndingWaits.{has_waited, waiter_of}, FirstTimeouts.is_gone_in_wait, Offers.waits_at};
ghost use Rattle.bq_state.specs.SeatChanges.{AreNumbered, AtPlace, IsSetAt, fewer_watched, more_watched, seat_changed, seat_changed_at};
ghost use Rattle.bq_state.specs.{SeatChanges.watches_other, SeatWaiters.AreWaitersOf, WaitingList.passes_at, Warnings.has_waiting_holder};

use crate::waiting;
use crate::watch_list::{WatchList, numbered_default};
use bq_job::{JobState, Moment, NoMemory, Seat, TubeName};
use bq_jobs::Tube;
use std::alloc::Global;
use std::marker::Model;

/// A change of a seat.
#[derive(Drop)]
pub enum SeatChange {
    /// The client no longer waits.
    StopWaiting,
    /// The client waits, with this ticket, until this moment if there is one.
    Wait(u64, Option<Moment>),
    /// A client connects.
    Connect,
    /// The client has disconnected.
    Clear,
    /// The client sends no more.
    End,
    /// Its jobs go into this tube.
    Use(Tube),
}

#[inline(always)]
fn change(client: &mut SeatRecord, what: &SeatChange)
    ensures { client.new ≡ seat_changed what.now client.old }
{
    match what {
        SeatChange::StopWaiting => client.wait = None,
        SeatChange::Wait(ticket, until) => {
            client.wait = Some(Waiting {
                ticket: *ticket,
                until: *until,
            });
        }
        SeatChange::Connect => {
            client.clear();
            client.connected = true;
        }
        SeatChange::Clear => client.clear(),
        SeatChange::End => client.ended = true,
        SeatChange::Use(tube) => client.used = tube.copy(),
    }
}

/// Changes the seat with this number. No other seat is accessed.
#[inline(always)]
#[tactic(auto, using(std::proofs::lemmas::Option::slice_get_read, crate::proofs::PartsLemmas::changed_there))]
pub(crate) fn change_at(seats: &mut Vec<SeatRecord, Global>, number: Seat, what: &SeatChange)
    requires { AreNumbered seats.old.items }
    ensures { seats.new.items ≡ map (seat_changed_at number what.now) seats.old.items }
{
    if let Some(client) = seats.get_mut(usize::from(number)) {
        change(client, what);
    }
}

/// The client at the seat with this number watches one more tube. Returns how many it then watches.
pub(crate) fn watch(
    seats: &mut Vec<SeatRecord, Global>,
    alloc: Global,
    number: Seat,
    tube: &Tube,
) -> Result<u64, NoMemory>
    requires { number < length seats.old.items }
    ensures count { IfOk result
        (λ n. AtPlace seats.old.items number (λ s. n ≡ length (more_watched tube.now s))) }
    ensures watched { IfOk result
        (λ _. IsSetAt seats.old.items number
        (λ s. watching (more_watched tube.now s) s) seats.new.items) }
    ensures same { OnErr result (seats.new.items ≡ seats.old.items) }
{
    let client = &mut seats[usize::from(number)];
    client.watch(alloc, tube)?;
    Ok(client.watch_count() as u64)
}

/// The client at the seat with this number no longer watches a tube; it still watches another one.
/// Returns how many it then watches.
#[tactic(auto, using(std::proofs::lemmas::Grind::common_steps, std::proofs::lemmas::Option::slice_get_read))]
pub(crate) fn ignore(seats: &mut Vec<SeatRecord, Global>, number: Seat, name: &TubeName) -> u64
    requires there { number < length seats.old.items }
    requires other { AtPlace seats.old.items number (λ s. watches_other name.now s ≡ true) }
    ensures count { AtPlace seats.old.items number
        (λ s. result ≡ length (fewer_watched name.now s)) }
    ensures ignored { IsSetAt seats.old.items number
        (λ s. watching (fewer_watched name.now s) s) seats.new.items }
{
    let client = &mut seats[usize::from(number)];
    client.ignore(name);
    client.watch_count() as u64
}

/// Returns the seat with this number. No other seat is accessed.
#[tactic(auto, using(crate::proofs::SeatPlaces::found_there))]
pub fn find(seats: &[SeatRecord], number: Seat) -> Option<&SeatRecord>
    requires { AreNumbered seats.now }
    ensures { option_copied result ≡ seat_with number seats.now }
{
    seats.get(usize::from(number))
}

/// Returns true if a job in this state has a holder that waits.
pub(crate) fn holder_waits(seats: &[SeatRecord], at: JobState) -> bool
    requires { AreNumbered seats.now }
    ensures { result ≡ has_waiting_holder at seats.now }
{
    match at {
        JobState::Reserved(seat, _) => match find(seats, seat) {
            None => false,
            Some(client) => client.is_waiting(),
        },
        _ => false,
    }
}

// Returns true if this waiter waits for jobs of this tube.
fn waits_there(seats: &[SeatRecord], waiter: Waiter, tube: &TubeName) -> bool
    ensures { result ≡ passes_at (waits_at tube.now) seats.now waiter }
{
    match seats.get(usize::from(waiter.1)) {
        None => false,
        Some(client) => client.is_waiting() && client.watches(tube),
    }
}

// Returns the place of the first waiter that waits for jobs of this tube.
fn place_waiting(seats: &[SeatRecord], waiters: &[Waiter], tube: &TubeName) -> Option<usize>
    ensures { result ≡ position (passes_at (waits_at tube.now) seats.now) waiters.now }
{
    waiters
        .iter()
        .position(|waiter| waits_there(seats, *waiter, tube))
}

/// Returns the seat of the client that has waited longest for jobs of this tube. Only waiting
/// clients are checked.
#[tactic(auto, using(crate::proofs::WalkLemmas::found_first, crate::proofs::WalkLemmas::item_found))]
pub fn first_waiting(seats: &[SeatRecord], waiters: &[Waiter], tube: &TubeName) -> Option<Seat>
    requires { AreWaitersOf waiters.now seats.now }
    ensures { result
        ≡ option_map (λ s. s.number) (first_of (waits_at tube.now) is_wait_before seats.now) }
{
    match waiting::waiter_at(waiters, place_waiting(seats, waiters, tube)) {
        None => None,
        Some(waiter) => Some(waiter.1),
    }
}

// Returns true if the wait of this waiter has ended.
fn has_waited_there(seats: &[SeatRecord], waiter: Waiter, moment: Moment) -> bool
    ensures { result ≡ passes_at (has_waited moment) seats.now waiter }
{
    match seats.get(usize::from(waiter.1)) {
        None => false,
        Some(client) => client.is_waiting() && client.is_timed_out(moment),
    }
}

// Returns true if the wait of one of these waiters has ended.
fn is_one_over(seats: &[SeatRecord], waiters: &[Waiter], moment: Moment) -> bool
    ensures { result ≡ list_any (passes_at (has_waited moment) seats.now) waiters.now }
{
    waiters
        .iter()
        .any(|waiter| has_waited_there(seats, *waiter, moment))
}

/// Returns true if some wait has timed out, or its client sends no more. Only waiting clients are
/// checked.
#[tactic(auto, using(crate::proofs::WalkLemmas::any_waiter))]
pub fn is_some_wait_over(seats: &[SeatRecord], waiters: &[Waiter], moment: Moment) -> bool
    requires { AreWaitersOf waiters.now seats.now }
    ensures { result ≡ list_any (has_waited moment) seats.now }
{
    is_one_over(seats, waiters, moment)
}

// Returns true if the client of this waiter sends no more.
fn is_gone_there(seats: &[SeatRecord], waiter: Waiter) -> bool
    ensures { result ≡ passes_at is_gone_in_wait seats.now waiter }
{
    match seats.get(usize::from(waiter.1)) {
        None => false,
        Some(client) => client.is_waiting() && client.has_ended(),
    }
}

// Returns true if the client of one of these waiters sends no more.
fn is_one_gone(seats: &[SeatRecord], waiters: &[Waiter]) -> bool
    ensures { result ≡ list_any (passes_at is_gone_in_wait seats.now) waiters.now }
{
    waiters.iter().any(|waiter| is_gone_there(seats, *waiter))
}

/// Returns true if some waiting client sends no more. Only waiting clients are checked.
#[tactic(auto, using(crate::proofs::WalkLemmas::any_waiter))]
pub(crate) fn is_some_waiter_gone(seats: &[SeatRecord], waiters: &[Waiter]) -> bool
    requires { AreWaitersOf waiters.now seats.now }
    ensures { result ≡ list_any is_gone_in_wait seats.now }
{
    is_one_gone(seats, waiters)
}

/// Returns this many seats without clients. Returns `NoMemory` if an allocation fails.
#[tactic(auto, using(crate::proofs::SeatPlaces::places_more))]
pub fn free_seats(alloc: Global, count: u16) -> Result<Vec<SeatRecord, Global>, NoMemory>
    ensures { IfOk result (λ seats. seats.items ≡ map empty_seat (numbers 0 count)) }
{
    let Ok(mut seats) = Vec::with_capacity(alloc, usize::from(count)) else {
        return Err(NoMemory);
    };
    for number in 0..count {
        match SeatRecord::new(alloc, number) {
            Ok(client) => seats.push_reserved(client),
            Err(fault) => return Err(fault),
        }
    }
    Ok(seats)
}

/// A waiting client, as its ticket and its seat. Waiters are served in this order.
pub type Waiter = (u64, Seat);

/// A client that waits for a job.
#[derive(Clone, Copy)]
pub(crate) struct Waiting {
    ticket: u64,
    until: Option<Moment>,
}

impl Model for Waiting {
    ghost use Rattle.bq_job.specs.machine.Machine.{Wait};

    ghost Value = { Wait };

    ghost view = { λ w. record { ticket = w.ticket; until = w.until } };

    ghost inverse = { λ w. record { ticket = w.ticket; until = w.until } };
}

/// What is known of a seat and of the client there, if one is connected. A client that connects
/// uses and watches only the default tube.
#[derive(Drop)]
pub struct SeatRecord {
    number: Seat,
    connected: bool,
    used: Tube,
    watched: WatchList,
    wait: Option<Waiting>,
    ended: bool,
}

impl Model for SeatRecord {
    ghost use Rattle.bq_job.specs.machine.Machine.{SeatRecord};

    ghost Value = { SeatRecord };

    ghost view = { λ s. record {
      number = s.number;
      connected = s.connected;
      used = s.used;
      watched = s.watched;
      wait = s.wait;
      ended = s.ended;
    } };
}

impl SeatRecord {
    pub(crate) fn new(alloc: Global, number: Seat) -> Result<SeatRecord, NoMemory>
        ensures { IfOk result (λ client. client ≡ empty_seat number) }
    {
        let watched = WatchList::new(alloc)?;
        Ok(SeatRecord {
            number,
            connected: false,
            used: numbered_default(),
            watched,
            wait: None,
            ended: false,
        })
    }

    /// Returns its number.
    pub fn number(&self) -> Seat
        ensures { result ≡ self.now.number }
    {
        self.number
    }

    pub(crate) fn is_connected(&self) -> bool
        ensures { result ≡ self.now.connected }
    {
        self.connected
    }

    /// Returns the tube that the client's jobs go into.
    pub fn used(&self) -> &Tube
        ensures { result.now ≡ self.now.used }
    {
        &self.used
    }

    /// Returns how many tubes the client watches.
    pub fn watch_count(&self) -> usize
        ensures { result ≡ length self.now.watched }
    {
        self.watched.len()
    }

    /// Returns the tubes that the client watches, in the order in which it watched them.
    pub fn watched(&self) -> &[Tube]
        ensures { result.now ≡ self.now.watched }
    {
        self.watched.as_slice()
    }

    /// Returns true if the client watches this tube.
    pub fn watches(&self, name: &TubeName) -> bool
        ensures { result ≡ watches name.now self.now }
    {
        self.watched.has(name)
    }

    /// Returns true if the client watches another tube than this one.
    pub fn watches_other(&self, name: &TubeName) -> bool
        ensures { result ≡ watches_other name.now self.now }
    {
        self.watched.has_other(name)
    }

    /// Returns true if the client waits.
    pub fn is_waiting(&self) -> bool
        ensures { result ≡ is_waiting self.now }
    {
        self.wait.is_some()
    }

    /// Returns true if the client sends no more.
    pub(crate) fn has_ended(&self) -> bool
        ensures { result ≡ self.now.ended }
    {
        self.ended
    }

    fn ticket(&self) -> u64
        ensures { result ≡ ticket_of self.now.wait }
    {
        match &self.wait {
            None => 0,
            Some(wait) => wait.ticket,
        }
    }

    /// Returns when the client's wait times out.
    pub(crate) fn gives_up_at(&self) -> Option<Moment>
        ensures { result ≡ earliest (dues_of_wait self.now.wait) }
    {
        match &self.wait {
            None => None,
            Some(wait) => wait.until,
        }
    }

    /// Returns the client's ticket and its seat. The ticket is 0 if the client doesn't wait.
    pub fn waiter(&self) -> Waiter
        ensures { result ≡ waiter_of self.now }
    {
        (self.ticket(), self.number)
    }

    /// Returns true if a wait of this client would have ended: it has timed out, or the client
    /// sends no more.
    pub fn is_timed_out(&self, moment: Moment) -> bool
        ensures { result ≡ is_timed_out_at moment self.now }
    {
        let is_past = match &self.wait {
            None => false,
            Some(wait) => match wait.until {
                None => false,
                Some(until) => until <= moment,
            },
        };
        is_past || self.ended
    }

    /// The client watches one more tube.
    pub(crate) fn watch(&mut self, alloc: Global, tube: &Tube) -> Result<(), NoMemory>
        ensures watched { IfOk result
            (λ _. self.new ≡ watching (more_watched tube.now self.old) self.old) }
        ensures same { OnErr result (self.new ≡ self.old) }
    {
        self.watched.add(alloc, tube.copy())
    }

    /// The client no longer watches a tube; it still watches another one.
    pub(crate) fn ignore(&mut self, name: &TubeName)
        requires { watches_other name.now self.old ≡ true }
        ensures { self.new ≡ watching (fewer_watched name.now self.old) self.old }
    {
        self.watched.remove(name);
    }

    fn clear(&mut self)
        ensures { self.new ≡ empty_seat self.old.number }
    {
        self.used = numbered_default();
        self.watched.reset();
        self.wait = None;
        self.ended = false;
        self.connected = false;
    }
}
