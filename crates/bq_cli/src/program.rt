//! The program `bqd`, from the words of its command line to its status.
ghost use Rattle.std.specs.Prelude.{◌≤◌, IfOk};
ghost use Rattle.bq_program.specs.Ranges.{IsForBqd};
ghost use Rattle.bq_cli.specs.Servers.{IsStatusOfProgram};
ghost use Rattle.bq_cli.specs.declared.logging.Logging.{Logging};

use crate::journal::log_form;
use crate::watched::listen_and_serve;
use bq_core::Core;
use bq_core_api::QueueCore;
use bq_line::control_line::ControlReader;
use bq_program::{BqdOptions, OptionFault, Program, Stop, bqd_options, tell_stop, words};
use std::fs::Files;
use std::io::{BufReader, Eprint, Print, Read};
use std::net::{Net, TcpListener, TcpStream};
use std::rt::{Clock, Env};
use std::sync::Wait;
use std::thread::Threads;

/// Does all that `bqd` does: serves the clients that connect to the address in the program's words, with the input as the
/// control line, and reports how that ended. Returns the status of the program.
///
/// The input has to be the standard input of the program: an event loop waits for it by that descriptor.
pub fn run_bqd<
    R: AllocGlobal
        + Env
        + Files
        + Net<Listener = TcpListener, Stream = TcpStream>
        + Threads
        + Wait
        + Clock
        + Print
        + Eprint
        + Copy
        + Send
        + Sync
        + 'static,
    I: Read + Drop + Send + 'static,
>(rt: &R, input: I) -> u8
    // The status is one that some words lead to: by their fault, or by the server that they choose, with a control line
    // over this input. No clause says which words were given, and every status up to 2 is possible for some words.
    ensures status { IsStatusOfProgram (Logging R) ⟦<BufReader<I> as Read>⟧.remaining ⟦<BufReader<I> as ControlReader>⟧.may_fail
        ⟦<Core as QueueCore>⟧ (I.remaining input) result }
    ensures at_most { result ≤ 2 }
{
    let form = log_form(rt);
    match server_options(rt) {
        Ok(options) => listen_and_serve(rt, rt.alloc(), form, options, input),
        Err(fault) => tell_stop(rt, Program::Bqd, form, &Stop::Options(fault)),
    }
}

fn server_options<R: AllocGlobal + Env>(rt: &R) -> Result<BqdOptions, OptionFault>
    ensures { IfOk result (λ chosen. IsForBqd chosen) }
{
    let words = words(rt)?;
    bqd_options(rt.alloc(), words.as_slice())
}
