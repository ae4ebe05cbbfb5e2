//! Clients that wait for one another, and a control line that waits for all of them. A run would
//! never end if it served two doors with one thread, ran the core in a door's thread, or read the
//! control line to its end before it serves.
ghost use Rattle.std.specs.Prelude.{IfOk};
ghost use Rattle.std.specs.List.{All};
ghost use Rattle.bq_line.specs.Tending.{IsNewDoor, door_seen};

pub mod awaited;
mod guest;
mod guest_control;
mod guest_door;

use awaited::Meeting;
use bq_core::Core;
use bq_job::{NoMemory, USUAL_BODY};
use bq_line::Door;
use bq_line::clock::ScriptClock;
use bq_run::Run;
use bq_scenes::clients::clock;
use bq_scenes::settings::config;
use bq_serve::run_sessions;
use guest::{GUESTS, Guest};
use guest_control::GuestControl;
use guest_door::GuestDoor;
use std::alloc::Global;
use std::io::BufReader;
use std::sync::Wait;
use std::sync::atomic::Ordering;
use std::thread::Threads;

/// How often each run is repeated.
const TIMES: usize = 5;

fn doors<'m>(
    alloc: Global,
    meeting: &'m Meeting,
    chosen: u16,
) -> Result<Vec<GuestDoor<'m>, Global>, NoMemory>
    ensures { IfOk result (λ doors. All (λ door. IsNewDoor (door_seen ⟦<GuestDoor<'m> as Door>⟧ door)) doors.items) }
{
    let mut doors: Vec<GuestDoor<'m>> = Vec::new(alloc);
    for place in 0..GUESTS {
        // How many others have their answers before this client begins.
        let others = if place == chosen { GUESTS - 1 } else { 0 };
        let guest = Guest::new(alloc, meeting, u64::from(others));
        let door = GuestDoor::new(place, guest);
        let Ok(()) = doors.push(door) else {
            drop(doors);
            return Err(NoMemory);
        };
    }
    Ok(doors)
}

fn are_served(doors: Vec<GuestDoor<'_>, Global>, chosen: u16) -> bool {
    let mut place: u16 = 0;
    let mut are_right = doors.len() == usize::from(GUESTS);
    for door in doors {
        are_right = door.is_served(place == chosen) && are_right;
        place = place.saturating_add(1);
    }
    are_right
}

// Returns true if each client of a run was served.
fn is_left_so(
    run: Run<GuestDoor<'_>, ScriptClock, BufReader<GuestControl<'_>>, Core>,
    chosen: u16,
) -> bool {
    let Run {
        doors,
        clock,
        control,
        core,
        intake,
        core_end,
        ends,
    } = run;
    drop(clock);
    drop(control);
    drop(core);
    drop(intake);
    drop(core_end);
    drop(ends);
    are_served(doors, chosen)
}

// Makes a run in which the chosen client waits until the others have their answers. Returns true if
// the clients met, and each was served.
fn do_all_meet<R: Threads + Wait + Sync>(rt: &R, alloc: Global, chosen: u16) -> bool {
    let meeting = Meeting::new();
    let Ok(control) = BufReader::new(alloc, GuestControl::new(&meeting)) else {
        return false;
    };
    let Ok(clock) = clock(alloc, "0") else {
        drop(control);
        return false;
    };
    let Ok(doors) = doors(alloc, &meeting, chosen) else {
        drop(control);
        drop(clock);
        return false;
    };
    let config = config(GUESTS, USUAL_BODY);
    match run_sessions(rt, alloc, config, doors, clock, control) {
        Ok(run) => is_left_so(run, chosen) && !meeting.has_failed.load(Ordering::SeqCst),
        Err(_) => false,
    }
}

#[test]
fn each_waits_for_the_others(rt: HostRuntime) {
    for chosen in 0..GUESTS {
        for _ in 0..TIMES {
            assert!(rt; do_all_meet(&rt, rt.alloc(), chosen));
        }
    }
}
