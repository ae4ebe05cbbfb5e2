//! A run that serves each door with a thread of its own, and the core with another thread, over the
//! links of `bq_link`. What each thread does is in `bq_thread_work`.
#![tactic(auto)]

pub use run::{Run, run_sessions};

mod run;
