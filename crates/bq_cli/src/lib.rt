//! The server `bqd`, from the words of its command line to its status. The options and the reports of both programs are
//! those of `bq_program`.
#![tactic(auto)]

pub use bq_program::{
    Fault, LogForm, Need, OptionFault, Options, Program, Stop, options, tell_cannot_listen,
    tell_fault,
};
pub use descriptors::open_standard_descriptors;
pub use ending::Ending;
pub use foreground::ForegroundInput;
pub use program::run_bqd;
pub use server::{
    DoorsTell, TcpLine, run_by_threads, run_loop, serve, serve_doors, serve_doors_by_loop,
    status_of_loop, status_of_threads,
};

mod descriptors;
mod ending;
mod foreground;
mod journal;
mod listening;
mod log;
mod logging;
mod lone_watch;
mod program;
mod server;
mod shared;
mod telling_clock;
mod watched;
