//! A run around one lock: each door is served by a thread of its own. The lock protects the core,
//! with an outbox for each seat and a journal of its steps.
#![tactic(auto)]

pub use locked::Locked;
pub use locked_run::{LockedRun, run_locked};

mod bell;
mod bells;
mod doors_served;
mod locked;
mod locked_desk;
mod locked_run;
mod post;
mod shared_desk;
