//! Wake-ups: a waiting thread is woken up by what it waits for, even if that came before it waited.
ghost use Rattle.std.specs.Prelude.{◌≡◌};

use crate::links::ends::{Shared, refused, taken};
use bq_job::Step;
use bq_link::{CoreEnd, SeatEnd};
use std::sync::Wait;
use std::time::{Clock, Duration, Instant};

// Far longer than any wait of these tests that is woken up.
fn long() -> Duration {
    Duration::from_secs(20)
}

fn was_woken<R: Clock>(rt: &R, start: Instant) -> bool {
    match start.elapsed(rt) {
        Ok(passed) => passed < Duration::from_secs(10),
        Err(_) => false,
    }
}

// Returns true if the core waits and then takes a step.
fn takes_after_a_wait<R: Wait>(rt: &R, intake: &Shared, core: &mut CoreEnd) -> bool
    requires { core.old.intake ≡ intake.now.id }
    ensures { core.new.intake ≡ core.old.intake }
{
    core.wait(rt, intake, long());
    taken(rt, intake, core).is_some()
}

// Submits a step in place.
fn submits_in_place<R: Wait>(rt: &R, intake: &Shared, end: &mut SeatEnd) -> bool
    requires { end.old.intake ≡ intake.now.id }
{
    let mut step = Step::Tick;
    let is_submitted = end.submit_in_place(rt, intake, &mut step);
    drop(step);
    is_submitted
}

// An end waits after it was woken up.
fn hears<R: Wait>(rt: &R, intake: &Shared, end: &mut SeatEnd) {
    intake.wake(end.number());
    end.wait(rt, intake, long());
}

/// Returns true if each wait ends long before its time: the core waits after a step of each of two
/// ends, one of which submits it in place, and each end after it was woken up.
pub fn end_waits<R: Clock + Wait>(
    rt: &R,
    intake: &Shared,
    core: &mut CoreEnd,
    first: &mut SeatEnd,
    second: &mut SeatEnd,
) -> bool
    requires core { core.old.intake ≡ intake.now.id }
    requires first { first.old.intake ≡ intake.now.id }
    requires second { second.old.intake ≡ intake.now.id }
{
    let Ok(start) = Instant::now(rt) else {
        return false;
    };
    let are_heard = refused(rt, intake, first, Step::Tick).is_none()
        && takes_after_a_wait(rt, intake, core)
        && submits_in_place(rt, intake, second)
        && takes_after_a_wait(rt, intake, core);
    hears(rt, intake, first);
    hears(rt, intake, second);
    // There is no such seat.
    intake.wake(7);
    are_heard && was_woken(rt, start)
}
