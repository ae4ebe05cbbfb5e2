//! Which clients may hold a job while they wait.
ghost use Rattle.std.specs.Prelude.{if◌then◌else◌, ◌≡◌};
ghost use Rattle.bq_state.specs.Warnings.{warned_by_seat, warned_if_due, with_holder, with_holder_of, without_holder};

use crate::seats::SeatChange;
use bq_job::{JobState, Seat};

/// Which clients may hold a job while they wait, and so get DEADLINE_SOON when its time to run ends
/// soon. Only these are checked for the next due moment.
#[derive(Clone, Copy)]
pub enum Warns {
    /// None.
    Nothing,
    /// At most the client at this seat.
    Client(Seat),
    /// Any.
    Any,
}

impl Warns {
    /// The client at this seat may hold a job too, if `holds`.
    pub(crate) fn add_client_if(&mut self, seat: Seat, holds: bool)
        ensures { self.new ≡ (if holds then with_holder seat self.old else self.old) }
    {
        if !holds {
            return;
        }
        let is_alone = match *self {
            Warns::Nothing => true,
            Warns::Client(holder) => holder == seat,
            Warns::Any => false,
        };
        if is_alone {
            *self = Warns::Client(seat);
        } else {
            *self = Warns::Any;
        }
    }

    /// Adds the holder of a job in this state, if it waits.
    pub(crate) fn add_holder_if(&mut self, at: JobState, waits: bool)
        ensures { self.new ≡ (if waits then with_holder_of at self.old else self.old) }
    {
        if let JobState::Reserved(seat, _) = at {
            self.add_client_if(seat, waits);
        }
    }

    // The client at this seat no longer waits.
    fn remove_client(&mut self, seat: Seat)
        ensures { self.new ≡ without_holder seat self.old }
    {
        let is_alone = match *self {
            Warns::Client(holder) => holder == seat,
            _ => false,
        };
        if is_alone {
            *self = Warns::Nothing;
        }
    }

    /// What is known after a change of a seat.
    pub(crate) fn change_seat(&mut self, seat: Seat, what: &SeatChange)
        ensures { self.new ≡ warned_by_seat seat what.now self.old }
    {
        match what {
            SeatChange::StopWaiting | SeatChange::Clear => self.remove_client(seat),
            _ => {}
        }
    }

    /// What is known after the first of their deadlines was queried: if there is none, none of them
    /// holds a job.
    pub(crate) fn settle(&mut self, is_due: bool)
        ensures { self.new ≡ warned_if_due is_due self.old }
    {
        if !is_due {
            *self = Warns::Nothing;
        }
    }
}
