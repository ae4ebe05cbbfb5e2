//! A system that reports nothing.
ghost use Rattle.std.specs.Prelude.{false};

use crate::together::Together;
use bq_core_api::QueueCore;
use bq_event_loop::{ControlReads, ControlStands, Doors, Report, Row, Sleeper, SoFar, Turns};
use bq_host::Mail;
use bq_line::Door;
use bq_line::clock::Clock;
use bq_line::control_line::ControlInput;
use bq_line::line::Line;
use std::alloc::Global;
use std::os::fd::RawFd;
use std::time::Duration;
use std::{io, rt};

/// A clock that always shows the same.
#[derive(Clone, Copy)]
pub struct Stopped;

impl rt::Clock for Stopped {
    fn monotonic(&self) -> io::Result<Duration> {
        Ok(Duration::ZERO)
    }

    fn since_1970(&self) -> io::Result<Duration> {
        Ok(Duration::ZERO)
    }
}

/// A system that reports nothing, and in which nothing waits. The conditions of its `sleep` are what
/// counts: the loop meets them for every order. Calls of it are counted.
#[derive(Drop)]
pub struct Nobody<'t> {
    clock: Stopped,
    // Whether the control line has ended.
    awaits_control: bool,
    all: &'t Together,
}

impl<'t> Nobody<'t> {
    /// Returns such a system.
    pub fn new(all: &'t Together) -> Nobody<'t> {
        Nobody {
            clock: Stopped,
            awaits_control: false,
            all,
        }
    }
}

impl<'t> Sleeper for Nobody<'t> {
    type System = Stopped;

    ghost awaits_control = { λ nobody. nobody.awaits_control };

    fn system(&self) -> &Stopped {
        &self.clock
    }

    fn watch(&self, _fd: RawFd, _seat: usize) -> io::Result<()> {
        Ok(())
    }

    fn control_reads(&self, _stands: ControlStands) -> Option<ControlReads> {
        if self.awaits_control {
            None
        } else {
            Some(ControlReads::Once)
        }
    }

    fn watch_control(&mut self, stands: ControlStands) {
        self.awaits_control = stands == ControlStands::Over;
    }

    fn sleep<
        T: Turns,
        L: Line + Drop,
        D: Door<Line = L>,
        C: Clock + Drop,
        I: ControlInput + Drop,
        K: QueueCore + Drop,
    >(
        &mut self,
        _turns: &T,
        _row: &Row<L, D>,
        _mails: &Vec<Mail, Global>,
        _so_far: &SoFar<L, D, C, I, K>,
        _doors: &Doors,
        _due: Option<u64>,
        _most: Option<u64>,
    ) {
        self.all.note_slept();
    }

    fn ask<T: Turns>(
        &mut self,
        _turns: &T,
        _doors: &Doors,
        _due: Option<u64>,
        _stands: ControlStands,
        _reads: Option<ControlReads>,
    ) {}

    fn reports(&self) -> usize {
        0
    }

    fn report(&mut self, _number: usize) -> Report {
        Report::Nothing
    }
}
