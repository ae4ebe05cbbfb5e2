//! A control line whose reader holds bytes before the run begins.
ghost use Rattle.std.specs.Prelude.{IfOk};
ghost use Rattle.std.specs.List.{All};
ghost use Rattle.bq_line.specs.Tending.{IsNewDoor, door_seen};

use bq_core::Core;
use bq_event_loop::{EventLoopRun, RunRefused, run_event_loop};
use bq_job::{NoMemory, USUAL_BODY};
use bq_line::clock::ScriptClock;
use bq_line::line::MemLine;
use bq_line::{Door, MemDoor};
use bq_scenes::settings::config;
use std::alloc::Global;
use std::collections::VecDeque;
use std::net::{Net, TcpListener, TcpStream};
use std::os::fd::AsRawFd;
use std::rt;

type Ran = EventLoopRun<MemLine, MemDoor, ScriptClock, &'static [u8], Core>;

// Returns one door, where no client connects.
fn no_clients(alloc: Global) -> Result<Vec<MemDoor, Global>, NoMemory>
    ensures { IfOk result (λ doors. All (λ door. IsNewDoor (door_seen ⟦<MemDoor as Door>⟧ door)) doors.items) }
{
    let door = MemDoor::new(alloc, VecDeque::new(alloc))?;
    match Vec::from_array(alloc, [door]) {
        Ok(doors) => Ok(doors),
        Err(_) => Err(NoMemory),
    }
}

// Runs a loop without clients. Its control line is all in the reader, and the system reports nothing
// of its descriptor. Returns true if the run ends: the control line is then read to its end.
fn ends_by_held_bytes<R: Net<Listener = TcpListener, Stream = TcpStream> + rt::Clock>(
    rt: &R,
    alloc: Global,
) -> bool {
    let Ok(silent) = TcpListener::bind(rt, "127.0.0.1:0") else {
        return false;
    };
    let Ok(doors) = no_clients(alloc) else {
        drop(silent);
        return false;
    };
    let clock = ScriptClock::new(Vec::new(alloc));
    let control: &'static [u8] = b"drain\n";
    let source = Some(silent.as_raw_fd());
    let ran: Result<Ran, RunRefused<MemDoor>> = run_event_loop(
        rt,
        alloc,
        config(1, USUAL_BODY),
        doors,
        clock,
        control,
        source,
    );
    let is_over = match &ran {
        Ok(run) => run.is_over,
        Err(_) => false,
    };
    drop(ran);
    drop(silent);
    is_over
}

#[test]
fn control_line_held_by_its_reader(rt: HostRuntime) {
    assert!(rt; ends_by_held_bytes(&rt, rt.alloc()));
}
