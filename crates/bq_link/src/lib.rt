//! The lock-free links between the seats of a server and its core.
//!
//! Steps go into one intake, a queue that all seats share. Answers come back through one ring per
//! seat. Each thread owns an end. In contracts, the steps and answers that an end submitted, took
//! or sent are lists.
#![tactic(auto)]

pub use anything::Anything;
pub use ends::{CoreEnd, Intake, IntakeInvariant, SeatEnd};
pub use laws::{empty_looks_are_of_empty_intakes, pairs_stay, refusals_are_of_full_intakes};
pub use making::links;
pub use no_ticks::NoTicks;

mod anything;
mod by_value;
mod ends;
mod laws;
mod making;
mod no_ticks;
