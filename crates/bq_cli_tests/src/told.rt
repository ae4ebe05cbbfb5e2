//! What the programs report on standard error in cases that no run of them can bring about.

use crate::heard::Heard;
use bq_program::{
    Fault, LogForm, Need, OptionFault, Program, Stop, tell_cannot_listen, tell_fault, tell_stop,
};
use std::alloc::Global;
use std::io;
use std::io::ErrorKind;
use std::sync::Wait;

/// Each fault of a program.
static FAULTS: &[(Program, Fault)] = &[
    (Program::Bq, Fault::ReadFailed),
    (Program::Bq, Fault::WriteFailed),
    (Program::Bq, Fault::NoMemory(Need::Options)),
    (Program::Bq, Fault::NoMemory(Need::Queue)),
    (Program::Bqd, Fault::CannotListen),
    (Program::Bqd, Fault::NoMemory(Need::ControlLine)),
    (Program::Bqd, Fault::NoMemory(Need::Doors)),
    (Program::Bqd, Fault::NoMemory(Need::Queue)),
    (Program::Bqd, Fault::ThreadRefused),
    (Program::Bqd, Fault::EpollRefused),
    (Program::Bqd, Fault::BadConfiguration),
    (Program::Bqd, Fault::NotAccepted),
    (Program::Bqd, Fault::TooManyTurns),
];

// The reports of these faults, of two of them for a journal, and of an address that is in use.
// sd-daemon(3) has the priority of an error, 3.
static REPORTS: &str = "bq: read failed\n\
    bq: write failed\n\
    bq: no memory\nbq: could not allocate memory for the options\n\
    bq: no memory\nbq: could not allocate memory for the queue and its seats\n\
    bqd: cannot listen\n\
    bqd: no memory\nbqd: could not allocate memory for the control line\n\
    bqd: no memory\nbqd: could not allocate memory for the buffers of the seats\n\
    bqd: no memory\nbqd: could not allocate memory for the queue and its seats\n\
    bqd: a thread was refused\n\
    bqd: epoll was refused\nbqd: could not watch the listener and standard input\n\
    bqd: bad configuration\n\
    bqd: a connection could not be accepted\n\
    bqd: too many turns\n\
    <3>bqd: write failed\n\
    <3>bqd: epoll was refused\n<3>bqd: could not watch the listener and standard input\n\
    bqd: cannot listen\nbqd: 127.0.0.1:11300: address in use\n";

// Returns true if exactly this text is on standard error, and nothing on standard output.
fn has_told<R: Wait>(heard: &Heard<R>, text: &str) -> bool {
    heard.has_errors(text) && !heard.has_printed()
}

// Reports what `REPORTS` has. Returns the last status.
fn tell_all<R: Wait>(heard: &Heard<R>) -> u8 {
    for (program, fault) in FAULTS {
        let _status = tell_fault(heard, *program, LogForm::Plain, *fault);
    }
    for fault in [Fault::WriteFailed, Fault::EpollRefused] {
        let _status = tell_fault(heard, Program::Bqd, LogForm::Journal, fault);
    }
    let error = io::Error::from(ErrorKind::AddrInUse);
    tell_cannot_listen(
        heard,
        Program::Bqd,
        LogForm::Plain,
        "127.0.0.1:11300",
        &error,
    )
}

// Words that are no options, and what is wrong with them.
static UNREADABLE: &str = "error: the port is none\n\nFor more information, try '--help'.\n";

// The reports of them, without and with the priority of each line.
static UNREAD: &str = "error: the port is none\n\nFor more information, try '--help'.\n\
    <3>error: the port is none\n<3>\n<3>For more information, try '--help'.\n";

// Reports these words. Returns the status, or 0 if an allocation fails.
fn tell_words<R: Wait>(heard: &Heard<R>, alloc: Global, form: LogForm) -> u8 {
    let Ok(words) = String::from_str(alloc, UNREADABLE) else {
        return 0;
    };
    let stop = Stop::Options(OptionFault::BadOptions(words));
    let status = tell_stop(heard, Program::Bqd, form, &stop);
    drop(stop);
    status
}

fn are_told<R: Wait>(heard: &Heard<R>, alloc: Global) -> bool {
    tell_words(heard, alloc, LogForm::Plain) == 2
        && tell_words(heard, alloc, LogForm::Journal) == 2
        && has_told(heard, UNREAD)
}

#[test]
fn faults_are_told(rt: HostRuntime) {
    let heard = Heard::new(rt, rt.alloc());
    let are_faults_told = tell_all(&heard) == 1 && has_told(&heard, REPORTS);
    drop(heard);
    let heard = Heard::new(rt, rt.alloc());
    let are_words_told = are_told(&heard, rt.alloc());
    drop(heard);
    assert!(rt; are_faults_told && are_words_told);
}
