//! The server: a work queue for many clients over TCP.
#![tactic(auto)]

use bq_cli::{ForegroundInput, open_standard_descriptors, run_bqd};
use std::process::ExitCode;

fn main(rt: HostRuntime) -> ExitCode {
    open_standard_descriptors();
    ExitCode::from(run_bqd(&rt, ForegroundInput::new(rt.stdin())))
}
