//! A run around one lock, with a thread for each door.
ghost use Rattle.std.specs.Prelude.{◌≡◌, ◌↔◌, ◌&&◌, ◌==◌, not, IfOk, IsErrOf, IsTrue, vec_len};
ghost use Rattle.std.specs.List.{All};
ghost use Rattle.bq_core_api.specs.Limits.{are_in_range};
ghost use Rattle.bq_lock.specs.LockedRuns.{IsServedToEnd};
ghost use Rattle.bq_lock.specs.LockedState.{IsLawfulHold};
ghost use Rattle.bq_line.specs.Tending.{AreSame, IsNewDoor, door_seen};

use crate::doors_served::serve_at_desk;
use crate::locked::Locked;
use crate::locked_desk::LockedDesk;
use bq_core_api::{Config, QueueCore};
use bq_host::RunFault;
use bq_line::Door;
use bq_line::clock::Clock;
use bq_line::control_line::ControlReader;
use bq_line::line::Line;
use std::alloc::Global;
use std::sync::{Mutex, Wait};
use std::thread::Threads;

/// A run around one lock that has ended: the doors and the clock as they were left, and the content
/// of the lock.
#[derive(Drop)]
pub struct LockedRun<D, C, K: QueueCore> {
    pub doors: Vec<D, Global>,
    pub clock: C,
    pub locked: Locked<K>,
}

/// Serves the connections of all doors, each at a seat and in a thread of its own, until no more
/// connections come at any of them. The calling thread reads the control line, where each line
/// `drain` starts draining. One lock protects the core and the clock, with a journal that has room
/// for this many entries.
///
/// The error is `BadConfiguration` if the configuration is out of its ranges or the number of doors
/// is not the number of seats. Otherwise it is `NoMemory` if an allocation failed, or
/// `ThreadRefused` if a thread could not be started. After any error no door was opened, and the
/// doors are dropped.
pub fn run_locked<
    R: Threads + Wait + Sync,
    L: Line + Drop + Send,
    D: Door<Line = L> + Drop + Send,
    C: Clock + Drop + Send,
    I: ControlReader + Drop,
    K: QueueCore + Drop + Send,
>(
    rt: &R,
    alloc: Global,
    config: Config,
    doors: Vec<D, Global>,
    clock: C,
    control: I,
    capacity: usize,
) -> Result<LockedRun<D, C, K>, RunFault>
    // No door has a connection that is open or was served, and no door is at its end.
    requires new { All
        (λ door. IsNewDoor (door_seen D.Door door)) doors.items }
    // Each door was served to its end: the steps of its connections were submitted, and each
    // connection received the answers that were taken for it. No clause states how these relate to
    // the steps of the core.
    ensures served { IfOk result (λ run. All (λ door. IsServedToEnd config.max_job_size (door_seen D.Door door))
        run.doors.items) }
    // The doors are those that were passed in, in the same order.
    ensures same { IfOk result (λ run. AreSame D.same doors.items run.doors.items) }
    ensures many { IfOk result (λ run. vec_len run.doors ≡ config.seats) }
    ensures holds { IfOk result (λ run. IsLawfulHold run.locked) }
    ensures bad_configuration { IsErrOf result RunFault.BadConfiguration
        ↔ IsTrue (not (are_in_range config && vec_len doors == config.seats)) }
{
    if doors.len() != usize::from(config.seats) {
        drop(doors);
        return Err(RunFault::BadConfiguration);
    }
    let locked = Locked::new(alloc, config, capacity)?;
    let desk = Mutex::new(LockedDesk::new(locked, clock));
    let served = serve_at_desk(rt, alloc, config.max_job_size, doors, &desk, control);
    let doors = match served {
        Ok(doors) => doors,
        Err(fault) => {
            drop(desk);
            return Err(fault);
        }
    };
    let desk = desk.into_inner();
    Ok(LockedRun {
        doors,
        clock: desk.time.clock,
        locked: desk.locked,
    })
}
