//! An invariant that places no condition on an intake.

use crate::ends::IntakeInvariant;

/// Places no condition on what an intake holds, so links with this invariant accept any step. Use
/// it if you need only the links: `links::<Anything>(alloc, seats)`.
pub struct Anything;

impl IntakeInvariant for Anything {
    ghost use Rattle.std.specs.Prelude.{⊤};

    ghost was = { λ taken waiting. ⊤ };
}
