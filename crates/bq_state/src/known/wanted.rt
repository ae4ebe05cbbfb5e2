//! Which jobs waiting clients may have, as far as it is known without a search.
ghost use Rattle.std.specs.Prelude.{if◌then◌else◌, ◌≡◌};
ghost use Rattle.bq_state.specs.WantedJobs.{is_nothing, wanted_after_seat, wanted_after_tube, with_wanted};
ghost use Rattle.bq_state.specs.declared.known.wanted.Wanted.TheVariants as wanted_jobs;

use crate::seats::SeatChange;
use crate::tubes::TubeChange;
use bq_job::{Seat, TubeName};
use bq_jobs::{Tube, TubeNumber};

/// Which jobs waiting clients may have. Only these are searched when jobs are handed out. A tube
/// for whose jobs no client waits does not count.
#[derive(Drop)]
pub enum Wanted {
    /// None.
    Nothing,
    /// At most those of this tube.
    Tube(Tube),
    /// At most those that the client at this seat may have.
    Client(Seat),
    /// Any.
    Any,
}

impl Wanted {
    /// Returns true if no client may have a job.
    pub fn is_nothing(&self) -> bool
        ensures { result ≡ is_nothing self.now }
    {
        match self {
            Wanted::Nothing => true,
            _ => false,
        }
    }

    // The jobs of this tube may be had too. It is not inlined, since it is rare and copies a name.
    #[inline(never)]
    fn add_tube(&mut self, name: &TubeName, hint: TubeNumber)
        ensures { self.new ≡ with_wanted name.now self.old }
    {
        let is_alone = match &*self {
            Wanted::Nothing => true,
            Wanted::Tube(wanted) => wanted.name() == name,
            Wanted::Client(_) | Wanted::Any => false,
        };
        if is_alone {
            *self = Wanted::Tube(Tube::new(name, hint));
        } else {
            *self = Wanted::Any;
        }
    }

    /// The jobs of this tube may be had too, if `is_wanted`. It is looked for at the number `hint`
    /// first.
    pub(crate) fn add_tube_if(&mut self, name: &TubeName, hint: TubeNumber, is_wanted: bool)
        ensures { self.new ≡ (if is_wanted then with_wanted name.now self.old else self.old) }
    {
        if is_wanted {
            self.add_tube(name, hint);
        }
    }

    /// Any job may be had, if `is_wanted`.
    pub(crate) fn add_all_if(&mut self, is_wanted: bool)
        ensures { self.new ≡ (if is_wanted then wanted_jobs.Any else self.old) }
    {
        if is_wanted {
            *self = Wanted::Any;
        }
    }

    /// What may be had after a change of a seat: if its client waits, the jobs for which it waits
    /// too.
    pub(crate) fn change_seat(&mut self, seat: Seat, what: &SeatChange)
        ensures { self.new ≡ wanted_after_seat seat what.now self.old }
    {
        if let SeatChange::Wait(_, _) = what {
            *self = match &*self {
                Wanted::Nothing => Wanted::Client(seat),
                _ => Wanted::Any,
            };
        }
    }

    /// What may be had after a change of a tube: if its pause ends, its jobs too.
    pub(crate) fn change_tube(&mut self, name: &TubeName, hint: TubeNumber, what: TubeChange)
        ensures { self.new ≡ wanted_after_tube name.now what self.old }
    {
        if let TubeChange::Pause(seconds, _) = what {
            self.add_tube_if(name, hint, seconds == 0);
        }
    }
}
