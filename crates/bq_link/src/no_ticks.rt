//! The invariant of a run's intake.

use crate::ends::IntakeInvariant;

/// No submitted step is a tick; only the core lets time pass.
pub struct NoTicks;

impl IntakeInvariant for NoTicks {
    ghost use Rattle.std.specs.Prelude.{◌++◌};
    ghost use Rattle.bq_link.specs.Ticks.{IsTickless};

    ghost was = { λ taken waiting. IsTickless (taken ++ waiting) };
}
