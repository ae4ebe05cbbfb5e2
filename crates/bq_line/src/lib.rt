//! Connections to clients, the doors at which clients connect, the clocks that a run reads, and a
//! seat at work: it serves the connections of a door one after another. Through its link to a core
//! it submits steps and checks its mail. The control line has a link too.
//!
//! Connections, doors and clocks are traits, whose contracts are all that a run knows of them. Each
//! has an implementation in memory and one by the operating system. Nothing here depends on what a
//! link is connected to.
#![tactic(auto)]

pub use door::{
    Door, DoorFault, FreeDoors, Listen, ListenDoor, MemDoor, OpenDoors, Opening, Refusals, Reports,
    TcpDoor, TurnedAway,
};
pub use line::Watcher;

pub mod attendant;
pub mod buffers;
pub mod clock;
pub mod control;
pub mod control_line;
pub mod control_steps;
mod door;
pub mod line;
