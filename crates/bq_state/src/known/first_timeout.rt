//! When the first wait times out.
ghost use Rattle.std.specs.{Option.option_copied, Prelude.{None, fold, ◌≡◌}};
ghost use Rattle.bq_state.specs.{Dues.with_seat_due, FirstTimeouts.{AreTimeouts, keeps_timeout, timeout_after}, SeatWaiters.AreWaitersOf};
ghost use Rattle.bq_state.specs.WaitingList.{at_waiter};

use crate::known::earlier_of;
use crate::seats::{self, SeatChange, SeatRecord, Waiter};
use bq_job::Moment;

/// When the first wait times out.
#[derive(Clone, Copy)]
pub enum FirstTimeout {
    /// At this moment, if ever; and every waiting client can still send.
    Known(Option<Moment>),
    /// It has to be searched.
    Unknown,
}

// Returns true if a change of a seat keeps it.
#[inline(always)]
fn keeps(client: &SeatRecord, what: &SeatChange) -> bool
    ensures { result ≡ keeps_timeout what.now client.now }
{
    match what {
        SeatChange::StopWaiting | SeatChange::Connect | SeatChange::Clear => {
            client.gives_up_at().is_none()
        }
        SeatChange::Wait(_, until) => {
            until.is_none() && client.gives_up_at().is_none() && !client.has_ended()
        }
        SeatChange::End => !client.is_waiting(),
        SeatChange::Use(_) => true,
    }
}

impl FirstTimeout {
    /// What is known after a change of a seat; `client` is its record before.
    #[inline(always)]
    pub(crate) fn change(&mut self, client: Option<&SeatRecord>, what: &SeatChange)
        ensures { self.new ≡ timeout_after what.now (option_copied client.entry) self.old }
    {
        let Some(client) = client else {
            return;
        };
        if !keeps(client, what) {
            *self = FirstTimeout::Unknown;
        }
    }

    /// Finds it. Only waiting clients are checked.
    #[tactic(auto, using(crate::proofs::DueLemmas::all_there))]
    pub(crate) fn find(seats: &[SeatRecord], waiters: &[Waiter]) -> FirstTimeout
        requires { AreWaitersOf waiters.now seats.now }
        ensures { AreTimeouts result seats.now }
    {
        if seats::is_some_waiter_gone(seats, waiters) {
            FirstTimeout::Unknown
        } else {
            FirstTimeout::Known(first_to_give_up(seats, waiters))
        }
    }
}

// Returns the earlier of this moment and the one at which this waiter's wait times out.
fn with_end_of(best: Option<Moment>, seats: &[SeatRecord], waiter: Waiter) -> Option<Moment>
    ensures { result ≡ at_waiter with_seat_due seats.now best waiter }
{
    match seats.get(usize::from(waiter.1)) {
        None => best,
        Some(client) => earlier_of(best, client.gives_up_at()),
    }
}

// Returns when the first wait of these waiters times out.
fn first_timeout_among(seats: &[SeatRecord], waiters: &[Waiter]) -> Option<Moment>
    ensures { result ≡ fold (at_waiter with_seat_due seats.now) None waiters.now }
{
    waiters
        .iter()
        .fold(None, |best, waiter| with_end_of(best, seats, *waiter))
}

/// Returns when the first wait times out. Only waiting clients are checked.
#[tactic(auto, using(crate::proofs::DueLemmas::ends_walked))]
pub fn first_to_give_up(seats: &[SeatRecord], waiters: &[Waiter]) -> Option<Moment>
    requires { AreWaitersOf waiters.now seats.now }
    ensures { result ≡ fold with_seat_due None seats.now }
{
    first_timeout_among(seats, waiters)
}
