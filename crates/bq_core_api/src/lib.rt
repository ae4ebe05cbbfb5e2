//! What the core of the work queue shares with the crates that drive it: its settings, the answers
//! of a step, and its trait.
//!
//! A crate that drives a core depends on this crate only, so it can be checked before the core is
//! proved.
#![tactic(auto)]

pub use config::{Config, CoreFault};
pub use outs::Outs;
pub use queue_core::QueueCore;

mod config;
mod outs;
mod queue_core;
