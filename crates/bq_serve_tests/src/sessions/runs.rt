//! The run by threads over links.
ghost use Rattle.std.specs.Prelude.{◌≡◌, ◌<◌};

use crate::cases::{Came, Case};
use crate::doors::CountedDoor;
use crate::scene::Scene;
use bq_core::{Core, Outs};
use bq_host::RunFault;
use bq_job::{Answer, Step};
use bq_line::clock::ScriptClock;
use bq_scenes::control::Control;
use bq_scenes::drains::put;
use bq_serve::{Run, run_sessions};
use std::alloc::Global;
use std::sync::Wait;
use std::sync::atomic::{AtomicU64, Ordering};
use std::thread::Threads;

// Returns true if a core to which no client is connected answers a put as wanted.
fn answers_so(alloc: Global, core: &mut Core, outs: &mut Outs, put: Step, drains: bool) -> bool
    requires { core.old.machine.settings.seats < outs.old.most }
{
    core.step(alloc, 0, 0, Step::Connect, outs);
    let is_silent = outs.is_empty();
    core.step(alloc, 0, 0, put, outs);
    let answer = outs.take_first();
    let is_right = match &answer {
        Some((0, Answer::Draining)) => drains,
        Some((0, Answer::Inserted(_))) => !drains,
        _ => false,
    };
    drop(answer);
    is_silent && is_right
}

// Returns true if a core with this many seats rejects or accepts a put as wanted.
fn is_left_so(alloc: Global, core: &mut Core, seats: u16, drains: Option<bool>) -> bool
    requires { core.old.machine.settings.seats ≡ seats }
{
    let Some(drains) = drains else {
        return true;
    };
    let Ok(mut outs) = Outs::new(alloc, seats) else {
        return false;
    };
    let is_right = match put(alloc) {
        Ok(put) => answers_so(alloc, core, &mut outs, put, drains),
        Err(_) => false,
    };
    drop(outs);
    is_right
}

// Returns how a run came out in which the doors were opened this many times.
fn came(
    alloc: Global,
    case: &Case,
    run: &mut Run<CountedDoor<'_>, ScriptClock, Control>,
    opened: u64,
) -> Came
    requires { run.old.core.machine.settings.seats ≡ case.now.config.seats }
{
    let is_kept = is_left_so(alloc, &mut run.core, case.config.seats, case.drains);
    case.came(run.doors.as_slice(), opened, is_kept)
}

/// Makes a run, and returns how it came out.
pub fn by_threads<R: Threads + Wait + Sync>(rt: &R, alloc: Global, case: &Case) -> Came {
    let opened = AtomicU64::new(0);
    let Ok(scene) = Scene::new(alloc, case, &opened) else {
        return Came::Failed(RunFault::NoMemory);
    };
    let Scene {
        doors,
        clock,
        control,
    } = scene;
    match run_sessions(rt, alloc, case.config, doors.all, clock, control) {
        Ok(mut run) => {
            let came = came(alloc, case, &mut run, opened.load(Ordering::SeqCst));
            drop(run);
            came
        }
        Err(fault) => case.failed(fault, opened.load(Ordering::SeqCst)),
    }
}
