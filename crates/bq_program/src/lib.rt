//! What both programs have in common: their options, read from the words of a command line, and what they report to
//! whoever started them.
#![tactic(auto)]

pub use address::{names_port, with_usual_port};
pub use arguments::words;
pub use chosen::{BqOptions, BqdOptions, OptionFault, Options, WhenFull};
pub use command_line::{bq_options, bqd_options, options};
pub use fault::{Fault, Need, Stop, fault_of_end, fault_of_loop};
pub use log_form::{LogForm, Severity};
pub use program::Program;
pub use told::{tell_cannot_listen, tell_fault, tell_server, tell_stop};

mod address;
mod arguments;
mod chosen;
mod command_line;
mod fault;
mod log_form;
mod program;
mod told;
