//! What `bq` reports about its client.
ghost use Rattle.std.specs.Prelude.{◌≡◌};
ghost use Rattle.bq_program.specs.Statuses.{status_of_end};
ghost use Rattle.bq_session.specs.Clients.{IsStatusOfClient};

use crate::session::Served;
use bq_job::LineEnd;
use bq_program::{LogForm, Program, Stop, fault_of_end, tell_fault, tell_stop};
use std::io::{Eprint, Print};

// Reports the fault by which a connection ended, if there is one. Returns the status.
fn tell_end<R: Eprint>(rt: &R, end: LineEnd) -> u8
    ensures { result ≡ status_of_end end }
{
    match fault_of_end(end) {
        None => 0,
        Some(fault) => tell_fault(rt, Program::Bq, LogForm::Plain, fault),
    }
}

/// Reports how the session of a client ended, and returns the status of `bq`.
pub(crate) fn tell_client<R: Print + Eprint, S, K>(rt: &R, came: &Result<Served<S, K>, Stop>) -> u8
    ensures { IsStatusOfClient came.now result }
{
    match came {
        Ok(served) => tell_end(rt, served.end),
        Err(stop) => tell_stop(rt, Program::Bq, LogForm::Plain, stop),
    }
}
