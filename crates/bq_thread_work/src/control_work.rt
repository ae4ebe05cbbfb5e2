//! The work of the thread that reads the control line.
ghost use Rattle.std.specs.Prelude.{◌≡◌, ◌||◌, [], true, IsTrue};
ghost use Rattle.bq_job.specs.promise.ControlDid.{IsControlDone};
ghost use Rattle.bq_line.specs.ControlRead.{IsReadToEnd};
ghost use Rattle.bq_link.specs.EndStates.{IsSameSeat};
ghost use Rattle.bq_thread_work.specs.Ends.{IsNewEnd};

use crate::seat_work::control_at;
use bq_line::control_line::{ControlLine, ControlReader};
use bq_link::{Intake, NoTicks, SeatEnd};
use std::sync::Wait;

/// Reads the control line to its end or until a read fails. It submits a drain for each line that
/// says `drain`, and `Gone` at the end. It returns the end of the links, and the control line with
/// what was read.
pub fn control_work<R: Wait, I: ControlReader + Drop>(
    rt: &R,
    intake: &Intake<NoTicks>,
    end: SeatEnd,
    control: I,
) -> (SeatEnd, ControlLine<I>)
    requires intake { end.intake ≡ intake.now.id }
    requires end { IsNewEnd end }
    ensures end { IsSameSeat end result.0 }
    ensures over { IsTrue (result.1.ended || result.1.failed) }
    ensures read { IsReadToEnd (I.remaining control)
        (I.remaining result.1.reader) result.1.read result.1.failed }
    // It failed only if a read of the reader may fail.
    ensures fault { result.1.failed ≡ true → I.may_fail control ≡ true }
    ensures done { IsControlDone result.1.read result.1.failed result.0.submitted }
    // The core sends it no answers.
    ensures none_taken { result.0.taken ≡ [] }
{
    let mut end = end;
    let control = control_at(rt, intake, &mut end, ControlLine::new(control));
    (end, control)
}
