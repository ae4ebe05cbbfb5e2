//! What is kept of a tube, and how the entry of a name is changed in place.
ghost use Rattle.std.specs.Prelude.{◌≡◌};
ghost use Rattle.bq_state.specs.{Crowds.{has_seats, is_none, no_crowd, recounted}, TubesSeen.ended};
ghost use Rattle.bq_state.specs.TubesSeen.{entry_changed, entry_moved, fresh_entry};
ghost use Rattle.bq_state.specs.{PauseEnds.end_of, TubesSeen.{entry_recounted, entry_with, entry_without}};

use super::pauses::PauseEnd;
use crate::job_store::later;
use crate::known::Tally;
use bq_index::Edit;
use bq_job::{Job, Moment};
use bq_jobs::{JobMove, JobRemoval, PriAndState, TubeNumber};
use std::marker::Model;

/// A pause of a tube.
#[derive(Clone, Copy)]
pub struct Pausing {
    /// How many seconds were requested.
    pub seconds: u32,
    /// When it ends.
    pub until: Moment,
}

impl Model for Pausing {
    ghost use Rattle.bq_job.specs.machine.Machine.{Pause};

    ghost Value = { Pause };

    ghost view = { λ p. record { seconds = p.seconds; until = p.until } };

    ghost inverse = { λ p. record { seconds = p.seconds; until = p.until } };
}

/// What is kept of a tube that exists, besides its name.
#[derive(Drop)]
pub struct TubeEntry {
    pause: Option<Pausing>,
    puts: u64,
    deletes: u64,
    pauses: u64,
    tally: Tally,
    crowd: Crowd,
}

impl Model for TubeEntry {
    ghost use Rattle.bq_state.specs.TubesSeen.{EntrySeen};

    ghost Value = { EntrySeen };

    ghost view = { λ t. record { pause = t.pause; puts = t.puts; deletes = t.deletes; pauses = t.pauses; tally = t.tally; crowd = t.crowd } };
}

/// A change of a tube.
#[derive(Clone, Copy)]
pub enum TubeChange {
    /// A put to the tube was accepted.
    CountPut,
    /// A job of the tube was deleted.
    CountDelete,
    /// It is paused for this many seconds from this moment on.
    Pause(u32, Moment),
}

impl TubeEntry {
    /// Returns the entry of a tube of which nothing is known.
    pub fn new() -> TubeEntry
        ensures { result ≡ fresh_entry }
    {
        TubeEntry {
            pause: None,
            puts: 0,
            deletes: 0,
            pauses: 0,
            tally: Tally::none(),
            crowd: Crowd::none(),
        }
    }

    /// Returns how many jobs were put into the tube.
    pub fn puts(&self) -> u64
        ensures { result ≡ self.now.puts }
    {
        self.puts
    }

    /// Returns how many of its jobs were deleted.
    pub fn deletes(&self) -> u64
        ensures { result ≡ self.now.deletes }
    {
        self.deletes
    }

    /// Returns how often it was paused.
    pub fn pauses(&self) -> u64
        ensures { result ≡ self.now.pauses }
    {
        self.pauses
    }

    /// Returns its pause, if there is one.
    pub fn pause(&self) -> Option<Pausing>
        ensures { result ≡ self.now.pause }
    {
        self.pause
    }

    /// Returns the counts of its jobs.
    pub fn tally(&self) -> Tally
        ensures { result ≡ self.now.tally }
    {
        self.tally
    }

    /// Returns the counts of its clients.
    pub fn crowd(&self) -> Crowd
        ensures { result ≡ self.now.crowd }
    {
        self.crowd
    }

    /// Returns the end of its pause, with the number of the tube.
    pub(crate) fn end(&self, number: TubeNumber) -> Option<PauseEnd>
        ensures { result ≡ end_of number self.now.pause }
    {
        match &self.pause {
            None => None,
            Some(pause) => Some(PauseEnd {
                until: pause.until,
                number,
            }),
        }
    }

    // Counts an event, or begins or ends a pause.
    fn change(&mut self, what: TubeChange)
        ensures { self.new ≡ entry_changed what self.old }
    {
        match what {
            TubeChange::CountPut => self.puts = self.puts.saturating_add(1),
            TubeChange::CountDelete => self.deletes = self.deletes.saturating_add(1),
            TubeChange::Pause(seconds, moment) => {
                self.pauses = self.pauses.saturating_add(1);
                self.pause = if seconds == 0 {
                    None
                } else {
                    Some(Pausing {
                        seconds,
                        until: later(moment, seconds),
                    })
                };
            }
        }
    }
}

impl Edit<TubeEntry, ()> for TubeChange {
    ghost edited = { entry_changed };

    ghost told = { λ _ _. tt };

    fn edit(&self, entry: &mut TubeEntry) {
        entry.change(*self);
    }
}

/// The timer of a pause fires at this moment, if the pause is due.
#[derive(Clone, Copy)]
pub(crate) struct PauseTimer {
    pub(crate) moment: Moment,
}

impl Edit<TubeEntry, ()> for PauseTimer {
    ghost edited = { λ timer. ended timer.moment };

    ghost told = { λ _ _. tt };

    fn edit(&self, entry: &mut TubeEntry) {
        let Some(pause) = entry.pause else {
            return;
        };
        if pause.until <= self.moment {
            entry.pause = None;
        }
    }
}

/// A client with these roles is counted at a tube, or no longer counted.
#[derive(Clone, Copy)]
pub(crate) struct RolesChange {
    pub(crate) how: AddOrRemove,
    pub(crate) roles: Roles,
}

impl Edit<TubeEntry, ()> for RolesChange {
    ghost edited = { λ c. entry_recounted c.how c.roles };

    ghost told = { λ _ _. tt };

    fn edit(&self, entry: &mut TubeEntry) {
        entry.crowd.recount(self.how, self.roles);
    }
}

// A new job is counted in its tube.
impl Edit<TubeEntry, ()> for Job {
    ghost edited = { entry_with };

    ghost told = { λ _ _. tt };

    fn edit(&self, entry: &mut TubeEntry) {
        entry.change(TubeChange::CountPut);
        entry.tally.enter(PriAndState::of(self));
    }
}

// A removed job is no longer counted in its tube, and its deletion is. This returns whether a
// client uses or watches the tube.
impl Edit<TubeEntry, bool> for JobRemoval {
    ghost edited = { entry_without };

    ghost told = { λ _ t. has_seats t.crowd };

    fn edit(&self, entry: &mut TubeEntry) -> bool {
        entry.change(TubeChange::CountDelete);
        entry.tally.leave(self.at);
        entry.crowd.has_seats()
    }
}

// A changed job is counted in its new state.
impl Edit<TubeEntry, ()> for JobMove {
    ghost edited = { entry_moved };

    ghost told = { λ _ _. tt };

    fn edit(&self, entry: &mut TubeEntry) {
        entry.tally.leave(self.from);
        entry.tally.enter(self.to);
    }
}

/// The roles of a client at a tube: whether it uses it, watches it, and waits for its jobs.
#[derive(Clone, Copy)]
pub(crate) struct Roles {
    pub(crate) using: bool,
    pub(crate) watching: bool,
    pub(crate) waiting: bool,
}

/// How many clients use a tube, watch it, and wait for its jobs. A count stops at 2^64 - 1, more
/// than there can be seats.
#[derive(Clone, Copy, PartialEq, Eq)]
pub struct Crowd {
    pub using: u64,
    pub watching: u64,
    pub waiting: u64,
}

/// Whether a client is counted at a tube, or no longer counted.
#[derive(Clone, Copy)]
pub(crate) enum AddOrRemove {
    Add,
    Remove,
}

impl Roles {
    /// Returns true if there is no role.
    pub(crate) fn is_none(self) -> bool
        ensures { result ≡ is_none self }
    {
        !self.using && !self.watching && !self.waiting
    }
}

impl Crowd {
    /// Counts of no clients.
    pub(crate) fn none() -> Crowd
        ensures { result ≡ no_crowd }
    {
        Crowd {
            using: 0,
            watching: 0,
            waiting: 0,
        }
    }

    /// Returns true if a client uses or watches the tube.
    pub(crate) fn has_seats(&self) -> bool
        ensures { result ≡ has_seats self.now }
    {
        self.using > 0 || self.watching > 0
    }

    /// Counts a client with these roles, or stops counting it.
    pub(crate) fn recount(&mut self, how: AddOrRemove, roles: Roles)
        ensures { self.new ≡ recounted how roles self.old }
    {
        match how {
            AddOrRemove::Add => {
                if roles.using {
                    self.using = self.using.saturating_add(1);
                }
                if roles.watching {
                    self.watching = self.watching.saturating_add(1);
                }
                if roles.waiting {
                    self.waiting = self.waiting.saturating_add(1);
                }
            }
            AddOrRemove::Remove => {
                if roles.using {
                    self.using = self.using.saturating_sub(1);
                }
                if roles.watching {
                    self.watching = self.watching.saturating_sub(1);
                }
                if roles.waiting {
                    self.waiting = self.waiting.saturating_sub(1);
                }
            }
        }
    }
}
