//! The program `bq`: the session of a lone client.
#![tactic(auto)]

pub use console::Console;
pub use program::run_bq;
pub use session::{Served, serve_client};

mod console;
mod program;
mod session;
mod session_clock;
mod told;
