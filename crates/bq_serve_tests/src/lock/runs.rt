//! The run around a lock.

use super::journal::is_whole;
use crate::cases::{Came, Case};
use crate::doors::CountedDoor;
use crate::scene::Scene;
use bq_host::RunFault;
use bq_job::{Answer, Step};
use bq_line::clock::ScriptClock;
use bq_scenes::drains::put;
use bq_serve::{Locked, LockedRun, run_locked};
use std::alloc::Global;
use std::sync::Wait;
use std::sync::atomic::{AtomicU64, Ordering};
use std::thread::Threads;

// Returns true if the core under the lock, to which no client is connected, answers a put as
// wanted.
fn answers_so(locked: &mut Locked, put: Step, drains: bool) -> bool {
    locked.step(0, 0, Step::Connect);
    let is_silent = locked.answered().is_empty();
    locked.step(0, 0, put);
    let answer = locked.fetch(0);
    let is_right = match &answer {
        Some(Answer::Draining) => drains,
        Some(Answer::Inserted(_)) => !drains,
        _ => false,
    };
    drop(answer);
    is_silent && is_right
}

// Returns true if the core under the lock rejects or accepts a put as wanted.
fn is_left_so(alloc: Global, locked: &mut Locked, drains: Option<bool>) -> bool {
    let Some(drains) = drains else {
        return true;
    };
    match put(alloc) {
        Ok(put) => answers_so(locked, put, drains),
        Err(_) => false,
    }
}

// Returns how a run came out in which the doors were opened this many times.
fn came(
    alloc: Global,
    case: &Case,
    run: &mut LockedRun<CountedDoor<'_>, ScriptClock>,
    opened: u64,
) -> Came {
    let is_whole = is_whole(alloc, case, &run.locked, run.doors.as_slice());
    let is_kept = is_left_so(alloc, &mut run.locked, case.drains) && is_whole;
    case.came(run.doors.as_slice(), opened, is_kept)
}

/// Makes a run, and returns how it came out.
pub fn around_a_lock<R: Threads + Wait + Sync>(rt: &R, alloc: Global, case: &Case) -> Came {
    let opened = AtomicU64::new(0);
    let Ok(scene) = Scene::new(alloc, case, &opened) else {
        return Came::Failed(RunFault::NoMemory);
    };
    let Scene {
        doors,
        clock,
        control,
    } = scene;
    match run_locked(
        rt,
        alloc,
        case.config,
        doors.all,
        clock,
        control,
        case.journal,
    ) {
        Ok(mut run) => {
            let came = came(alloc, case, &mut run, opened.load(Ordering::SeqCst));
            drop(run);
            came
        }
        Err(fault) => case.failed(fault, opened.load(Ordering::SeqCst)),
    }
}
