//! The run by an event loop over epoll.
ghost use Rattle.std.specs.Prelude.{◌≡◌, ◌↔◌, ◌&&◌, ◌==◌, true, false, not, IfErr, IfOk, IsTrue, vec_len};
ghost use Rattle.std.specs.List.{All};
ghost use Rattle.bq_core_api.specs.Limits.{are_in_range};
ghost use Rattle.bq_job.specs.laws.TheHeadline.{AreJobsServedIn};
ghost use Rattle.bq_line.specs.Tending.{AreSame, IsNewDoor, door_seen};
ghost use Rattle.bq_event_loop.specs.EventLoopRuns.{IsEventLoopRun, IsEventLoopSoFar};
ghost use Rattle.bq_event_loop.specs.Refused.{IsRefusedBy};

use crate::order::Order;
use crate::run::{EventLoopRun, RunRefused, run_turns};
use crate::watch::Watch;
use bq_core_api::{Config, QueueCore};
use bq_host::RunFault;
use bq_line::Door;
use bq_line::clock::Clock;
use bq_line::control_line::ControlReader;
use bq_line::line::Line;
use std::alloc::Global;
use std::net::Net;
use std::os::fd::RawFd;
use std::rt;

/// Serves the connections of all doors, each door at a seat of its own, until no more connections
/// come at any of them. The calling thread does everything, as epoll reports that connections are
/// ready. It also reads the control line, where each line `drain` starts draining. It reads it when
/// epoll reports `control_source`, its descriptor, as ready. If there is no descriptor, or it is
/// that of a file, the control line is read to its end before any door is checked.
///
/// Doors must not block when they are checked, and share one listener. The errors are those of
/// `run_turns`, and `ThreadRefused` if the doors have several listeners, or the system refused epoll
/// or to watch the listener or the control line. With any error the doors come back, and none was
/// opened.
pub fn run_event_loop<
    R: Net + rt::Clock,
    L: Line + Drop,
    D: Door<Line = L> + Drop,
    C: Clock + Drop,
    I: ControlReader + Drop,
    K: QueueCore + Drop,
>(
    rt: &R,
    alloc: Global,
    config: Config,
    doors: Vec<D, Global>,
    clock: C,
    control: I,
    control_source: Option<RawFd>,
) -> Result<EventLoopRun<L, D, C, I, K>, RunRefused<D>>
    // No door has a connection that is open or was served, and no door is at its end.
    requires new { All
        (λ door. IsNewDoor (door_seen D.Door door)) doors.items }
    // There is one history of the steps of all clients and of the control line, each at the moment
    // of a reading of the clock. The one-list model takes this history, the core represents the
    // model after it, and each connection received exactly the bytes that the history prescribes
    // for it.
    ensures served { IfOk result (λ run. run.is_over ≡ true →
        IsEventLoopRun C.given D.lines_over I.remaining I.may_fail K.machine K.comparisons config clock control run) }
    // The same so far, however the run ended. Each open connection has received a beginning of what
    // the history prescribes for it.
    ensures so_far { IfOk result
        (IsEventLoopSoFar C.given L.seen D.lines_over D.is_out D.same I.remaining I.may_fail K.machine K.comparisons
        config doors.items clock control) }
    // Along either history, each job that is handed out is the least one that the client may have.
    // An undisturbed job is handed out at most once and in order. No job is lost before its
    // deletion. Once draining has begun, no put is accepted.
    ensures headline { IfOk result
        (λ run. (served : IsEventLoopRun C.given D.lines_over I.remaining I.may_fail K.machine K.comparisons
        config clock control run) → AreJobsServedIn served.history.run) }
    ensures headline_so_far { IfOk result
        (λ run. (so_far : IsEventLoopSoFar C.given L.seen D.lines_over D.is_out D.same I.remaining I.may_fail K.machine K.comparisons
        config doors.items clock control run) → AreJobsServedIn so_far.history.run) }
    ensures at_end { IfOk result (λ run. run.is_over ≡ true →
        All (λ door. (D.is_out door ≡ false) × (D.is_at_end door ≡ true)) run.doors.items) }
    // The doors are those that were passed in, in the same order.
    ensures same { IfOk result (λ run. AreSame D.same doors.items run.doors.items) }
    // The core can be used further.
    ensures settings { IfOk result (λ run. (K.machine run.core).settings ≡ config) }
    // A run that did not begin opened no door.
    ensures unopened { IfErr result (λ refused. refused.doors ≡ doors) }
    ensures bad_configuration { IsRefusedBy result RunFault.BadConfiguration
        ↔ IsTrue (not (are_in_range config && vec_len doors == config.seats)) }
{
    let turns = Order::new(alloc, config.seats);
    let sleeper = Watch::new(rt, alloc, doors.as_slice(), control_source);
    run_turns(alloc, config, doors, clock, control, turns, sleeper)
}
