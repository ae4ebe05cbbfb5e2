//! How many jobs are in each state.
ghost use Rattle.std.specs.Prelude.{[], ◌≡◌};
ghost use Rattle.bq_state.specs.Tallies.{has_jobs, tally_entered, tally_left, tally_of};

use bq_job::{JobState, Pri};
use bq_jobs::PriAndState;

/// Ready jobs with a priority below this are urgent.
const URGENT_BELOW: Pri = 1024;

/// How many jobs are in each state. Urgent jobs count as ready too. A count stops at 2^64 - 1, more
/// than there can be jobs.
#[derive(Clone, Copy, PartialEq, Eq)]
pub struct Tally {
    pub urgent: u64,
    pub ready: u64,
    pub reserved: u64,
    pub delayed: u64,
    pub buried: u64,
}

impl Tally {
    /// Counts of no jobs.
    pub(crate) fn none() -> Tally
        ensures { result ≡ tally_of [] }
    {
        Tally {
            urgent: 0,
            ready: 0,
            reserved: 0,
            delayed: 0,
            buried: 0,
        }
    }

    /// Returns true if a job is counted.
    pub(crate) fn has_jobs(&self) -> bool
        ensures { result ≡ has_jobs self.now }
    {
        self.ready > 0 || self.reserved > 0 || self.delayed > 0 || self.buried > 0
    }

    /// Counts a job in this state.
    pub(crate) fn enter(&mut self, at: PriAndState)
        ensures { self.new ≡ tally_entered at self.old }
    {
        match at.state {
            JobState::Ready => {
                self.ready = self.ready.saturating_add(1);
                if at.pri < URGENT_BELOW {
                    self.urgent = self.urgent.saturating_add(1);
                }
            }
            JobState::Reserved(..) => self.reserved = self.reserved.saturating_add(1),
            JobState::Delayed(_) => self.delayed = self.delayed.saturating_add(1),
            JobState::Buried(_) => self.buried = self.buried.saturating_add(1),
        }
    }

    /// Stops counting a job in this state.
    pub(crate) fn leave(&mut self, at: PriAndState)
        ensures { self.new ≡ tally_left at self.old }
    {
        match at.state {
            JobState::Ready => {
                self.ready = self.ready.saturating_sub(1);
                if at.pri < URGENT_BELOW {
                    self.urgent = self.urgent.saturating_sub(1);
                }
            }
            JobState::Reserved(..) => self.reserved = self.reserved.saturating_sub(1),
            JobState::Delayed(_) => self.delayed = self.delayed.saturating_sub(1),
            JobState::Buried(_) => self.buried = self.buried.saturating_sub(1),
        }
    }
}
