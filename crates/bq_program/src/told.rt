//! What a program reports to whoever started it: a status, and a text on standard output or standard error. No clause
//! says what was written there.
ghost use Rattle.std.specs.Prelude.{◌≡◌};
ghost use Rattle.bq_program.specs.Statuses.{IsStatusOfOptionFault, IsStatusOfStop, status_of_server};

use crate::chosen::OptionFault;
use crate::fault::{Fault, Need, Stop};
use crate::log_form::{LogForm, Severity};
use crate::program::Program;
use std::io;
use std::io::{Eprint, Print};

/// Reports a fault on standard error, if that can be written: a line after the program's name, and for some faults a
/// second one with the detail. Returns the status, 1.
pub fn tell_fault<R: Eprint>(rt: &R, program: Program, form: LogForm, fault: Fault) -> u8
    ensures { result ≡ 1 }
{
    let (name, text) = (program.name(), fault.text());
    let first = form.prefix(Severity::Error);
    let _told = match fault.detail() {
        None => eprintln!(rt; "{first}{name}: {text}"),
        Some(detail) => eprintln!(rt; "{first}{name}: {text}\n{first}{name}: {detail}"),
    };
    1
}

/// Reports that the program can't listen, as `tell_fault` does. The second line has the address and the system's
/// reason. Returns the status, 1.
pub fn tell_cannot_listen<R: Eprint>(
    rt: &R,
    program: Program,
    form: LogForm,
    address: &str,
    error: &io::Error,
) -> u8
    ensures { result ≡ 1 }
{
    let (name, text) = (program.name(), Fault::CannotListen.text());
    let first = form.prefix(Severity::Error);
    let _told = eprintln!(rt; "{first}{name}: {text}\n{first}{name}: {address}: {error}");
    1
}

// Help goes to standard output, errors in the options to standard error.
fn tell_option_fault<R: Print + Eprint>(
    rt: &R,
    program: Program,
    form: LogForm,
    fault: &OptionFault,
) -> u8
    ensures { IsStatusOfOptionFault fault.now result }
{
    match fault {
        OptionFault::AskedHelp(text) => match print!(rt; "{text}") {
            Ok(()) => 0,
            Err(_) => tell_fault(rt, program, form, Fault::WriteFailed),
        },
        OptionFault::BadOptions(text) => {
            tell_bad_options(rt, form, text.as_str());
            2
        }
        OptionFault::NoMemory => tell_fault(rt, program, form, Fault::NoMemory(Need::Options)),
    }
}

// Reports what is wrong with the options. The journal reads a priority in each line.
fn tell_bad_options<R: Eprint>(rt: &R, form: LogForm, text: &str) {
    match form {
        LogForm::Plain => {
            let _told = eprint!(rt; "{text}");
        }
        LogForm::Journal => {
            let first = form.prefix(Severity::Error);
            for line in text.lines() {
                let _told = eprintln!(rt; "{first}{line}");
            }
        }
    }
}

/// Reports why the program stops. Returns its status.
pub fn tell_stop<R: Print + Eprint>(rt: &R, program: Program, form: LogForm, stop: &Stop) -> u8
    ensures { IsStatusOfStop stop.now result }
{
    match stop {
        Stop::Options(fault) => tell_option_fault(rt, program, form, fault),
        Stop::Fault(fault) => tell_fault(rt, program, form, *fault),
    }
}

/// Reports the fault of a server, if there is one. Returns the status of `bqd`.
pub fn tell_server<R: Eprint>(rt: &R, form: LogForm, came: Result<(), Fault>) -> u8
    ensures { result ≡ status_of_server came }
{
    match came {
        Ok(()) => 0,
        Err(fault) => tell_fault(rt, Program::Bqd, form, fault),
    }
}
