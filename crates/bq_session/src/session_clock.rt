//! The clock of a session.
ghost use Rattle.std.specs.Prelude.{◌≡◌, []};

use bq_job::Moment;
use bq_line::clock::{Clock, MachineClock};
use std::rt;

/// The clock of a session: the computer's, or one that always reads 0. It keeps the computer's
/// clock in both cases, so that the caller gets it back.
#[derive(Drop)]
pub struct SessionClock<K> {
    pub machine: MachineClock<K>,
    /// True if it always reads 0.
    pub is_still: bool,
}

impl<K: rt::Clock> Clock for SessionClock<K> {
    ghost use Rattle.std.proofs.Common.{append-nil, sym, refl, arith};
    ghost use Rattle.bq_session.specs.Sessions.{HasGiven};

    ghost given = { λ before readings after. (after.is_still ≡ before.is_still)
        × HasGiven before.is_still before.machine readings after.machine };

    ghost none_given = { λ clock. (
      refl,
      record {
        still = λ is k d below. absurd (omega (arith, below));
        machine = λ is. sym (append-nil clock.machine.given);
      },
    ) };

    fn now(&mut self) -> Option<Moment> {
        if self.is_still {
            Some(0)
        } else {
            self.machine.now()
        }
    }

    fn elapsed(&self) -> u64 {
        self.machine.elapsed()
    }
}
