//! The work of each kind of thread of a run, each as one function: for a seat, which serves a door,
//! for the control line, and for the core.
#![tactic(auto)]

pub mod control_work;
pub mod core_work;
pub mod seat_work;
