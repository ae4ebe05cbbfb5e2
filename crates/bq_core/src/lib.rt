//! The core of the work queue: it takes one step after another, and each of them is a step of the
//! one-list model that `bq_job` defines.
//!
//! `bq_state` contains its state and the operations on it. This crate decides what happens when.
#![tactic(auto)]

pub use bq_core_api::{Config, CoreFault, Outs};
pub use step::Core;

mod acts;
mod answering;
mod dispatch;
mod job_acts;
mod kicks;
mod statistics_acts;
mod step;
mod texts;
mod timers;
mod tube_acts;
mod waits;
