//! Serves one client of the work queue over standard input and output.
#![tactic(auto)]

use bq_session::{Console, run_bq};
use std::process::ExitCode;

fn main(rt: HostRuntime) -> ExitCode {
    let console = Console::new(rt.stdin(), rt.stdout());
    ExitCode::from(run_bq(&rt, console))
}
