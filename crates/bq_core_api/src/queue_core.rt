//! The trait of a core, which takes one step after another.
ghost use Rattle.std.specs.Prelude.{ℕ, ◌≡◌, ◌<◌, ◌↔◌, ◌&&◌, not, IsTrue, IfOk, IsErrOf};
ghost use Rattle.bq_job.specs.beside.Lawful.{IsLawful};
ghost use Rattle.bq_job.specs.beside.NextDue.{next_due};
ghost use Rattle.bq_job.specs.machine.Machine.{Machine, new_machine};
ghost use Rattle.bq_job.specs.machine.Steps.{IsStep};
ghost use Rattle.bq_core_api.specs.Cost.{IsLookWithin, IsStepWithin};
ghost use Rattle.bq_core_api.specs.Limits.{is_body_size, is_job_limit, is_seat_count};

use crate::config::{Config, CoreFault};
use crate::outs::Outs;
use bq_job::{Moment, Seat, Step};
use std::alloc::Global;

/// A core: it represents the one-list model and takes its steps.
pub trait QueueCore: Sized {
    /// The model that the core represents.
    ghost machine: { Self → Machine };

    /// How many keys of its jobs it has compared so far.
    ghost comparisons: { Self → ℕ };

    /// Makes a core with no jobs and with all seats free. Returns the first setting that is out of
    /// range, or `NoMemory` if an allocation fails.
    fn new(alloc: Global, config: Config) -> Result<Self, CoreFault>
        ensures made { IfOk result (λ core. machine core ≡ new_machine config) }
        ensures none_compared { IfOk result (λ core. comparisons core ≡ 0) }
        ensures bad_seats { IsErrOf result CoreFault.BadSeats ↔ IsTrue
            (not (is_seat_count config.seats)) }
        ensures bad_max_job_size { IsErrOf result CoreFault.BadMaxJobSize ↔
            (IsTrue (is_seat_count config.seats) × IsTrue (not (is_body_size config.max_job_size))) }
        ensures bad_max_jobs { IsErrOf result CoreFault.BadMaxJobs ↔
            (IsTrue (is_seat_count config.seats && is_body_size config.max_job_size) × IsTrue (not (is_job_limit config.max_jobs))) };

    /// Takes a step: what happens at a seat, at a moment in milliseconds. Afterwards `outs` holds
    /// the answers in order. Any moment, seat and step is accepted. The step is passed by reference
    /// because it may contain a tube's name, which would have to be copied.
    fn step_in_place(&mut self, alloc: Global, at: Moment, seat: Seat, what: &Step, outs: &mut Outs)
        requires room { (machine self.old).settings.seats < outs.old.most }
        ensures step { IsStep (machine self.old) at seat what.now
            (record { left_out = outs.new.left_out; unshared = outs.new.unshared })
            outs.new.given (machine self.new) }
        ensures comparisons { IsStepWithin (machine self.old) at seat what.now
            (record { left_out = outs.new.left_out; unshared = outs.new.unshared }) outs.new.given (machine self.new) (comparisons self.old)
            (comparisons self.new) }
        ensures lawful { IsLawful (machine self.new) }
        ensures most { outs.new.most ≡ outs.old.most }
        ensures settings { (machine self.new).settings ≡ (machine self.old).settings };

    /// Returns the earliest moment, in milliseconds, at which something happens by itself: a delay,
    /// a time to run or a pause ends, a wait times out, or a waiting client gets DEADLINE_SOON. A
    /// tick before that moment changes nothing but the moment. The model stays the same.
    fn next_due(&mut self) -> Option<Moment>
        ensures due { result ≡ next_due (machine self.old) }
        ensures same { machine self.new ≡ machine self.old }
        ensures comparisons { IsLookWithin (machine self.old)
            (comparisons self.old) (comparisons self.new) };
}
