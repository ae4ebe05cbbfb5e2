//! What is logged about the core's steps.
ghost use Rattle.std.specs.Prelude.{◌≡◌, ◌||◌, None, false};
ghost use Rattle.bq_host.specs.Told.{after_drain, after_full, after_put, after_refusal, after_stored};
ghost use Rattle.bq_host.specs.Told.{calmed, concern_of, none_unlogged, noted, told_after};

use bq_core_api::Outs;
use bq_job::{Moment, Refusal, Request, Step};
use bq_line::clock::{Clock, Notice};

/// A shortage of memory ends with a put that succeeds when no allocation has failed for this many
/// milliseconds.
const CALM: u64 = 1_000;

/// The number of jobs counts as below its limit again with a put that succeeds when none met the
/// limit for this many milliseconds. It is longer because the limit may be reached all day long.
const CALM_BELOW_LIMIT: u64 = 60_000;

/// The kind of a step, as far as the log is concerned.
#[derive(Clone, Copy)]
pub enum Concern {
    /// Draining begins.
    Drain,
    /// The allocation of a body failed at the seat.
    Refused,
    /// The step allocates.
    Put,
    /// The step may allocate, but its success does not end a shortage of memory.
    Other,
}

/// What was reported and is not reported again.
#[derive(Clone, Copy)]
pub struct Notices {
    is_draining: bool,
    // The moment of the latest failed allocation during a shortage of memory.
    refused: Option<Moment>,
    // The moment of the latest put that met the limit on jobs, while the limit counts as reached.
    full: Option<Moment>,
}

impl Notices {
    /// Returns a state in which nothing was logged.
    pub fn none() -> Notices
        ensures { result ≡ record { is_draining = false; refused = None; full = None } }
    {
        Notices {
            is_draining: false,
            refused: None,
            full: None,
        }
    }

    /// Returns what to log after a step with these answers at this moment.
    pub fn after(&mut self, concern: Concern, outs: &Outs, at: Moment) -> Option<Notice>
        ensures { (result, self.new) ≡ told_after concern outs.now at self.old }
    {
        match concern {
            Concern::Drain => self.after_drain(),
            Concern::Refused => self.after_refusal(at),
            Concern::Put => {
                if is_refused(outs) {
                    self.after_refusal(at)
                } else {
                    self.after_put(outs, at)
                }
            }
            Concern::Other => {
                if is_refused(outs) {
                    self.after_refusal(at)
                } else {
                    None
                }
            }
        }
    }

    fn after_drain(&mut self) -> Option<Notice>
        ensures { (result, self.new) ≡ after_drain self.old }
    {
        if self.is_draining {
            return None;
        }
        self.is_draining = true;
        Some(Notice::Draining)
    }

    fn after_refusal(&mut self, at: Moment) -> Option<Notice>
        ensures { (result, self.new) ≡ after_refusal self.old.refused at self.old }
    {
        match self.refused.replace(at) {
            Some(_) => None,
            None => Some(Notice::MemoryRefused),
        }
    }

    // A put for which no allocation failed.
    fn after_put(&mut self, outs: &Outs, at: Moment) -> Option<Notice>
        ensures { (result, self.new) ≡ after_put outs.now.given at self.old }
    {
        self.calm(at);
        if outs.has_inserted() {
            self.after_stored(at)
        } else if outs.has_out_of_memory() {
            self.after_full(at)
        } else {
            None
        }
    }

    fn calm(&mut self, at: Moment)
        ensures { self.new ≡ calmed self.old.refused at self.old }
    {
        if let Some(last) = self.refused {
            if at.saturating_sub(last) >= CALM {
                self.refused = None;
            }
        }
    }

    fn after_stored(&mut self, at: Moment) -> Option<Notice>
        ensures { (result, self.new) ≡ after_stored self.old.full at self.old }
    {
        let last = self.full?;
        if at.saturating_sub(last) < CALM_BELOW_LIMIT {
            return None;
        }
        self.full = None;
        Some(Notice::BelowJobLimit)
    }

    fn after_full(&mut self, at: Moment) -> Option<Notice>
        ensures { (result, self.new) ≡ after_full self.old.full at self.old }
    {
        match self.full.replace(at) {
            Some(_) => None,
            None => Some(Notice::JobLimitReached),
        }
    }
}

/// The notices that are still to be logged: each kind at most once.
#[derive(Clone, Copy)]
pub struct Unlogged {
    drain: bool,
    refusal: bool,
    full: bool,
    below: bool,
}

impl Unlogged {
    /// Returns a state in which nothing is to be logged.
    pub fn none() -> Unlogged
        ensures { result ≡ none_unlogged }
    {
        Unlogged {
            drain: false,
            refusal: false,
            full: false,
            below: false,
        }
    }

    /// Notes a notice, if there is one.
    pub fn note(&mut self, notice: Option<Notice>)
        ensures { self.new ≡ noted notice self.old }
    {
        match notice {
            None => {}
            Some(Notice::Draining) => self.drain = true,
            Some(Notice::MemoryRefused) => self.refusal = true,
            Some(Notice::JobLimitReached) => self.full = true,
            Some(Notice::BelowJobLimit) => self.below = true,
        }
    }

    /// Passes all of these notices to the clock. Nothing is then left to be logged.
    pub fn log_all<C: Clock>(&mut self, clock: &C)
        ensures { self.new ≡ none_unlogged }
    {
        self.log(clock);
        *self = Unlogged::none();
    }

    /// Passes all of these notices to the clock, and keeps them.
    pub fn log<C: Clock>(&self, clock: &C) {
        if self.drain {
            clock.tell(Notice::Draining);
        }
        if self.refusal {
            clock.tell(Notice::MemoryRefused);
        }
        // The limit may be reached again right after the number of jobs fell below it. The other way
        // round there is a minute between them.
        if self.below {
            clock.tell(Notice::BelowJobLimit);
        }
        if self.full {
            clock.tell(Notice::JobLimitReached);
        }
    }
}

// Returns true if an allocation of the step failed.
fn is_refused(outs: &Outs) -> bool
    ensures { result ≡ (outs.now.left_out || outs.now.unshared) }
{
    outs.left_out() || outs.unshared()
}

/// Returns the kind of a step, as far as the log is concerned.
pub fn concern_of(what: &Step) -> Concern
    ensures { result ≡ concern_of what.now }
{
    match what {
        Step::Drain => Concern::Drain,
        Step::Ask(Request::Put { .. }) => Concern::Put,
        Step::Ask(Request::Refused(Refusal::OutOfMemory)) => Concern::Refused,
        _ => Concern::Other,
    }
}
