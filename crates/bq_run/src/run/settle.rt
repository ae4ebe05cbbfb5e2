//! The ends of a run after all its threads have ended: each is compared with the core's.
ghost use Rattle.std.specs.Prelude.{◌≡◌};
ghost use Rattle.bq_link.specs.EndStates.{IsPair};
ghost use Rattle.bq_run.specs.Linked.{ArePaired, AreSettled, AreStill, IsCoreStill, IsEndStill, IsSettled};

use bq_link::{CoreEnd, Intake, NoTicks, SeatEnd};

/// Compares each end with the core's. The steps that an end submitted are those that the core took
/// and those that still wait. The answers that were sent to an end are those that it took and those
/// that wait for it.
#[tactic(auto, using(crate::proofs::SettleLemmas::pair_at))]
pub fn settle(intake: &Intake<NoTicks>, core: &mut CoreEnd, ends: &mut [SeatEnd])
    requires of_intake { core.old.intake ≡ intake.now.id }
    requires pairs { ArePaired core.old ends.old }
    ensures core { IsCoreStill core.old core.new }
    ensures ends { AreStill ends.old ends.new }
    ensures settled { AreSettled core.new ends.new }
{
    for place in 0..ends.len() {
        settle_one(intake, core, &mut ends[place]);
    }
}

fn settle_one(intake: &Intake<NoTicks>, core: &mut CoreEnd, end: &mut SeatEnd)
    requires of_intake { core.old.intake ≡ intake.now.id }
    requires pair { IsPair core.old end.old }
    ensures core { IsCoreStill core.old core.new }
    ensures end { IsEndStill end.old end.new }
    ensures settled { IsSettled core.new end.old.number end.new }
{
    core.compare(intake, end);
    core.left(end);
}
