//! Serving clients over connections: everything that a caller needs, in one place.
//!
//! There are four runs. [`run_one`] serves one connection on one thread, [`run_sessions`] serves
//! many doors with a thread for each, [`run_event_loop`] serves them all on one thread, and
//! [`run_locked`] has a thread for each door around one lock. This crate also exports the
//! connections, doors and clocks that they use, and the work of each thread of `run_sessions` as a
//! function. Each part is defined in a crate of its own, so that a crate that uses one part does
//! not wait for the proofs of the others.
#![tactic(auto)]

pub use bq_core::{Config, Core, CoreFault, Outs};
pub use bq_event_loop::{EventLoopRun, RunRefused, run_event_loop};
pub use bq_host::RunFault;
pub use bq_job::{Entry, LineEnd, Moment, NoMemory, Seat, Step};
pub use bq_line::clock::{Clock, MachineClock, Notice, ScriptClock};
pub use bq_line::control_line::{ControlInput, ControlLine, ControlReader, Heard, next_of};
pub use bq_line::line::{
    Connection, Duplex, IoLine, Line, MemLine, NotWatched, Part, ReadBuffer, Readiness, Socket,
};
pub use bq_line::{
    Door, DoorFault, FreeDoors, Listen, ListenDoor, MemDoor, OpenDoors, Opening, Refusals, Reports,
    TcpDoor, Watcher,
};
pub use bq_link::{Anything, CoreEnd, Intake, IntakeInvariant, NoTicks, SeatEnd, links};
pub use bq_run_one::{One, run_one};
pub use bq_seat::SeatMachine;
pub use bq_thread_work::control_work::control_work;
pub use bq_thread_work::core_work::{CoreRoom, core_work};
pub use bq_thread_work::seat_work::seat_work;
pub use locked::{Locked, LockedRun, run_locked};
pub use sessions::{Run, run_sessions};

mod locked;
mod sessions;
