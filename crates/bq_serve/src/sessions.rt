//! The run over doors by threads, with the core of `bq_core`.
ghost use Rattle.std.specs.Prelude.{◌≡◌, ◌↔◌, ◌&&◌, ◌==◌, false, true, not, IfOk, IsErrOf, IsTrue, vec_len};
ghost use Rattle.std.specs.List.{All};
ghost use Rattle.bq_core_api.specs.Limits.{are_in_range};
ghost use Rattle.bq_job.specs.laws.TheHeadline.{AreJobsServedIn};
ghost use Rattle.bq_line.specs.Tending.{AreSame, IsNewDoor, door_seen};
ghost use Rattle.bq_run.specs.ThreadRuns.{IsRunOf};

use bq_core::{Config, Core};
use bq_core_api::QueueCore;
use bq_host::RunFault;
use bq_line::Door;
use bq_line::clock::Clock;
use bq_line::control_line::ControlReader;
use bq_line::line::Line;
use std::alloc::Global;
use std::sync::Wait;
use std::thread::Threads;

/// A run over doors that has ended: the doors with their connections, the clock and the control
/// line as they were left, the core, and the links between them.
pub type Run<D, C, I> = bq_run::Run<D, C, I, Core>;

/// Serves the connections of all doors, each at a seat and in a thread of its own, until no more
/// connections come at any of them. Another thread runs the core with its clock. The calling thread
/// reads the control line, where each line `drain` starts draining.
///
/// The error is `BadConfiguration` if the configuration is out of its ranges or the number of doors
/// is not the number of seats. Otherwise it is `NoMemory` if an allocation failed, or
/// `ThreadRefused` if a thread could not be started. After any error no door was opened, and the
/// doors are dropped.
pub fn run_sessions<
    R: Threads + Wait + Sync,
    L: Line + Drop + Send,
    D: Door<Line = L> + Drop + Send,
    C: Clock + Drop + Send,
    I: ControlReader + Drop,
>(
    rt: &R,
    alloc: Global,
    config: Config,
    doors: Vec<D, Global>,
    clock: C,
    control: I,
) -> Result<Run<D, C, I>, RunFault>
    // No door has a connection that is open or was served, and no door is at its end.
    requires new { All
        (λ door. IsNewDoor (door_seen D.Door door)) doors.items }
    // There is one history of the steps of all clients and of the control line, each at the moment
    // of a reading of the clock. The one-list model takes this history, the core represents the
    // model after it, and each connection received exactly the bytes that the history prescribes
    // for it. The ends of the links submitted these steps and took these answers.
    ensures served { IfOk result (IsRunOf C.given D.lines_over I.remaining I.may_fail ⟦<Core as QueueCore>⟧.machine
        ⟦<Core as QueueCore>⟧.comparisons config clock control) }
    // Along this history, each job that is handed out is the least one that the client may have. An
    // undisturbed job is handed out at most once and in order. No job is lost before its deletion.
    // Once draining has begun, no put is accepted.
    ensures headline { IfOk result (λ run. (served : IsRunOf C.given D.lines_over I.remaining I.may_fail
        ⟦<Core as QueueCore>⟧.machine ⟦<Core as QueueCore>⟧.comparisons config clock control run)
        → AreJobsServedIn served.history.run) }
    ensures at_end { IfOk result
        (λ run. All (λ door. (D.is_out door ≡ false) × (D.is_at_end door ≡ true)) run.doors.items) }
    // The doors are those that were passed in, in the same order.
    ensures same { IfOk result (λ run. AreSame D.same doors.items run.doors.items) }
    // The core can be used further.
    ensures settings { IfOk result (λ run. run.core.machine.settings ≡ config) }
    ensures bad_configuration { IsErrOf result RunFault.BadConfiguration
        ↔ IsTrue (not (are_in_range config && vec_len doors == config.seats)) }
{
    bq_run::run_sessions(rt, alloc, config, doors, clock, control)
}
