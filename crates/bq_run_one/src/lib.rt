//! A run of one connection by one thread, which owns the core: a hub with one seat.
#![tactic(auto)]

pub use one::{One, run_one};

mod one;
