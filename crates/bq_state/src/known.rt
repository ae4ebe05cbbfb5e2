//! What is known of the jobs, the seats and the tubes without a search: how many there are, and
//! where something may be found, so that only that place is searched.
ghost use Rattle.std.specs.{Option.option_copied, Prelude.◌≡◌};
ghost use Rattle.bq_state.specs.{Dues.{earlier_of_both, is_end_over}, Knowledge.{with_job, with_joined}};
ghost use Rattle.bq_state.specs.{Knowledge.{with_left, with_moved, with_removal}, SeatStates.seat_passes};

use crate::seats::{SeatChange, SeatRecord};
use crate::store::Store;
use crate::tubes::Roles;
use bq_job::{Job, Moment, Seat, TubeName};
use bq_jobs::{JobMove, JobRemoval, PriAndState, TubeNumber};
pub use first_timeout::{FirstTimeout, first_to_give_up};
pub use maybe_gone::MaybeGone;
pub use tally::Tally;
pub use wanted::Wanted;
pub use warns::Warns;

mod first_timeout;
mod maybe_gone;
mod tally;
mod wanted;
mod warns;

/// What is known without a search. Each field is determined by the jobs, the seats and the tubes,
/// and is updated when these change; `specs/Knowledge.antt` states its meaning.
#[derive(Drop)]
pub struct Known {
    /// How many jobs are in each state.
    pub tally: Tally,
    /// How many clients are connected. It stops at 2^64 - 1, more than there can be seats.
    pub connected: u64,
    /// Which tubes with entries may have gone.
    pub maybe_gone: MaybeGone,
    /// Which jobs waiting clients may have.
    pub wanted: Wanted,
    /// Which waiting clients may hold a job, and so get DEADLINE_SOON when its time to run ends
    /// soon.
    pub warns: Warns,
    /// When the first wait times out.
    pub first_timeout: FirstTimeout,
}

impl Known {
    /// A job is added to the tube with this name and number. `is_wanted` says whether it is ready
    /// and a client waits for jobs of its tube; `waits` says whether its holder waits.
    #[inline(always)]
    pub(crate) fn add_job(
        &mut self,
        job: &Job,
        name: &TubeName,
        number: TubeNumber,
        is_wanted: bool,
        waits: bool,
    )
        requires { name.now ≡ job.now.tube }
        ensures { self.new ≡ with_job job.now is_wanted waits self.old }
    {
        self.tally.enter(PriAndState::of(job));
        self.maybe_gone.remove_tube(name);
        self.wanted.add_tube_if(name, number, is_wanted);
        self.warns.add_holder_if(job.state, waits);
    }

    /// The job of this report is removed from the tube with this name and number. `has_seats` says
    /// whether a client uses or watches the tube.
    pub(crate) fn count_removal(
        &mut self,
        removed: &JobRemoval,
        name: &TubeName,
        number: TubeNumber,
        has_seats: bool,
    )
        requires { name.now ≡ removed.now.tube }
        ensures { self.new ≡ with_removal removed.now has_seats self.old }
    {
        self.tally.leave(removed.at);
        if !has_seats {
            self.maybe_gone.add_tube(name, number);
        }
    }

    /// A job of the tube with this name and number is changed; the last two arguments describe it
    /// after the change.
    #[inline(always)]
    pub(crate) fn move_job(
        &mut self,
        moved: &JobMove,
        name: &TubeName,
        number: TubeNumber,
        is_wanted: bool,
        waits: bool,
    )
        requires { name.now ≡ moved.now.tube }
        ensures { self.new ≡ with_moved moved.now is_wanted waits self.old }
    {
        self.tally.leave(moved.from);
        self.tally.enter(moved.to);
        self.wanted.add_tube_if(name, number, is_wanted);
        self.warns.add_holder_if(moved.to.state, waits);
    }

    /// Notes that a seat, if there is one, is about to change. Its tubes have stopped counting it,
    /// as far as the change touches them.
    #[inline(always)]
    pub(crate) fn leave(
        &mut self,
        client: Option<&SeatRecord>,
        what: &SeatChange,
        touched: Roles,
        store: &Store,
    )
        ensures { self.new
            ≡ with_left (option_copied client.entry) what.now touched store.now.tubes self.old }
    {
        self.first_timeout.change(client, what);
        self.maybe_gone.leave(store, client, touched);
        if is_connected(client) {
            self.connected = self.connected.saturating_sub(1);
        }
    }

    /// The seat with this number, if there is one, was changed.
    #[inline(always)]
    pub(crate) fn join(&mut self, client: Option<&SeatRecord>, seat: Seat, what: &SeatChange)
        ensures { self.new ≡ with_joined (option_copied client.entry) seat what.now self.old }
    {
        self.wanted.change_seat(seat, what);
        self.warns.change_seat(seat, what);
        if is_connected(client) {
            self.connected = self.connected.saturating_add(1);
        }
    }
}

// Returns true if there is a seat and a client is connected to it.
fn is_connected(client: Option<&SeatRecord>) -> bool
    ensures { result ≡ seat_passes (λ s. s.connected) (option_copied client.entry) }
{
    match client {
        None => false,
        Some(client) => client.is_connected(),
    }
}

/// Returns the earlier of two moments, if there is one.
pub fn earlier_of(a: Option<Moment>, b: Option<Moment>) -> Option<Moment>
    ensures { result ≡ earlier_of_both a b }
{
    match (a, b) {
        (None, other) => other,
        (Some(due), None) => Some(due),
        (Some(due), Some(other)) => Some(due.min(other)),
    }
}

/// Returns true if there is a moment and it has come.
pub fn is_over(end: Option<Moment>, moment: Moment) -> bool
    ensures { result ≡ is_end_over moment end }
{
    match end {
        None => false,
        Some(end) => end <= moment,
    }
}
