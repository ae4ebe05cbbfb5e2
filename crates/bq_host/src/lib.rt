//! What the runs of the server share: the threads of a run and why it does not begin, its seats and their
//! mail, a core with its clock, what is logged about the core's steps, and a journal of them. Also a hub, at
//! which one thread serves seats.
#![tactic(auto)]

pub use crew::{Member, serve_crew, serve_crew_beside};
pub use fault::RunFault;
pub use hub::Hub;
pub use journal::{CopySource, Journal, SharedBodies};
pub use mail::{Mail, new_mails};
pub use notices::Notices;
pub use seats::new_seats;
pub use timed_core::{HeardClock, TimedCore, new_core};
pub use wake_queue::WakeQueue;

mod crew;
mod fault;
mod hub;
pub mod hub_seat;
mod journal;
mod mail;
mod notices;
mod seats;
mod start;
mod timed_core;
mod wake_queue;
