//! The work of the core's thread, which serves the other ends of the links.
ghost use Rattle.std.specs.Prelude.{◌≡◌, ◌<◌, ◌+◌, []};
ghost use Rattle.bq_job.specs.machine.Machine.{new_machine};
ghost use Rattle.bq_link.specs.EndStates.{IsSameCore};
ghost use Rattle.bq_link.specs.NewEnds.{IsNewCore};
ghost use Rattle.bq_thread_work.specs.CoreWork.{IsNewRoom, RanToEnd};

pub use core_room::CoreRoom;
pub use polling::most_looks;

mod core_driver;
mod core_room;
mod gone_ends;
mod polling;
mod sender;
mod yielding;

use bq_core_api::{Outs, QueueCore};
use bq_line::clock::Clock;
use bq_link::{CoreEnd, Intake, NoTicks};
use core_driver::CoreDriver;
use std::alloc::Global;
use std::sync::Wait;

/// Takes the steps that arrive at the core's end of the links, takes ticks when something is due,
/// and sends each end its answers, until no end has more to submit.
///
/// It takes every waiting step, polls for a while for more, and then sleeps until a step arrives or
/// something is due. If the ring of an end is full, its answers are kept and tried again while
/// others are served. There is room to keep as many answers as there are ends.
pub fn core_work<R: Wait, C: Clock + Drop, K: QueueCore + Drop>(
    rt: &R,
    alloc: Global,
    intake: &Intake<NoTicks>,
    end: CoreEnd,
    core: K,
    outs: Outs,
    room: CoreRoom,
    clock: C,
) -> (CoreEnd, K, C)
    requires intake { end.intake ≡ intake.now.id }
    requires ends { IsNewCore ((K.machine core).settings.seats + 1) end }
    requires core { K.machine core ≡ new_machine (K.machine core).settings }
    requires none_given { outs.given ≡ [] }
    requires outs { (K.machine core).settings.seats < outs.most }
    requires room { IsNewRoom ((K.machine core).settings.seats + 1) room }
    ensures end { IsSameCore end result.0 }
    // The comparisons stayed within the bounds of each step, and of one query for the next due
    // moment before each step and after the last.
    ensures ran { RanToEnd C.given (K.machine core).settings clock result.0 (K.machine result.1) result.2 (K.comparisons core)
        (K.comparisons result.1) }
{
    let mut driver = CoreDriver::new(alloc, end, core, outs, room, clock);
    for _ in rt.forever() {
        if driver.turn(rt, intake) {
            return driver.into_parts();
        }
    }
    unreachable!()
}
