//! When the control line is read, and how far.
ghost use Rattle.std.specs.Prelude.{◌≡◌, None, Some, IfOk, IfSome, IsOk, pos};
ghost use Rattle.std.specs.IoError.{raw_os_error};
ghost use Rattle.bq_event_loop.specs.ControlWatching.{IsNewWatch, after_report, after_turn, reads_at, reads_of};
ghost use Rattle.bq_event_loop.specs.Sleeping.{IsControlStill};

use crate::turns::{ControlReads, ControlStands, TurnsFault};
use mio::unix::SourceFd;
use mio::{Interest, Registry, Token};
use os::EpollEvent;
use std::io;
use std::os::fd::RawFd;

/// The token of the control line.
pub const CONTROL: Token = Token(usize::MAX);

/// The Linux error number that means that a descriptor cannot be watched, as that of a file: EPERM.
const IS_FILE: i32 = 1;

/// A report of the control line: a read of its descriptor does not block. Only an event of the
/// system makes one.
#[derive(Clone, Copy)]
pub struct ControlCame {
    token: u64,
}

impl ControlCame {
    /// Returns the report that this event is, if it is one of the control line.
    pub fn of(event: &EpollEvent) -> Option<ControlCame>
        ensures event { IfSome result (λ came. came.token ≡ event.now.data) }
        ensures control { IfSome result (λ came. came.token ≡ 18446744073709551615) }
    {
        let token = event.data;
        if token == CONTROL.0 as u64 {
            Some(ControlCame { token })
        } else {
            None
        }
    }
}

/// What is known of a control line that the system reports.
#[derive(Clone, Copy)]
pub enum ControlKnown {
    /// Its reader may hold bytes that it was handed in with.
    New,
    /// The system reported bytes or the end.
    HasCome(ControlCame),
    /// Everything was read that was there. The system reports when there is more.
    Waits,
}

/// What is known about the control line. Its descriptor is never switched to non-blocking mode,
/// since other processes may share it. So a read that may block is made only after the system
/// reported that it would not.
#[derive(Clone, Copy)]
pub enum ControlWatch {
    /// The system cannot report when there is more, so the control line is read to its end at once.
    Whole,
    /// The system reports bytes or the end.
    Watched { fd: RawFd, known: ControlKnown },
    /// The control line has ended.
    Over,
}

impl ControlWatch {
    /// Registers the descriptor, and returns the initial state. Without a descriptor, or with one
    /// of a file, the control line cannot be watched. Any other error is returned as `Refused`: a
    /// pipe that was taken for a file would be read until its other end is closed, before any
    /// client is served.
    pub fn new(registry: &Registry, source: Option<RawFd>) -> Result<ControlWatch, TurnsFault>
        ensures { IfOk result (IsNewWatch source) }
    {
        let Some(fd) = source else {
            return Ok(ControlWatch::Whole);
        };
        match registry.register(&mut SourceFd(&fd), CONTROL, Interest::READABLE) {
            Ok(()) => Ok(ControlWatch::Watched {
                fd,
                known: ControlKnown::New,
            }),
            Err(e) => whole_if_file(&e),
        }
    }

    /// Notes that the system reported bytes or the end.
    pub fn more_came(&mut self, came: ControlCame)
        ensures { self.new ≡ after_report came self.old }
    {
        if let ControlWatch::Watched { fd, .. } = *self {
            *self = ControlWatch::Watched {
                fd,
                known: ControlKnown::HasCome(came),
            };
        }
    }

    /// Returns how far the control line is read in this round, if at all.
    pub fn reads(&self, stands: ControlStands) -> Option<ControlReads>
        ensures reads { result ≡ reads_of self.now stands }
        ensures still { result ≡ None → IsControlStill self.now stands }
    {
        match *self {
            ControlWatch::Whole => Some(ControlReads::ToEnd),
            ControlWatch::Watched { known, .. } => reads_at(known, stands),
            ControlWatch::Over => None,
        }
    }

    /// Notes that the control line was read. If there is more, the system reports that again. At
    /// the end the descriptor is deregistered, because the system would report the end of a pipe
    /// again and again.
    pub fn watch_on(&mut self, registry: &Registry, stands: ControlStands)
        ensures { self.new ≡ after_turn self.old stands }
    {
        if let ControlWatch::Watched { fd, .. } = *self {
            let mut source = SourceFd(&fd);
            if stands == ControlStands::Over {
                let _gone = registry.deregister(&mut source);
            } else {
                let _watched = registry.reregister(&mut source, CONTROL, Interest::READABLE);
            }
        }
        *self = self.after(stands);
    }

    fn after(self, stands: ControlStands) -> ControlWatch
        ensures { result ≡ after_turn self stands }
    {
        if stands == ControlStands::Over {
            return ControlWatch::Over;
        }
        match self {
            ControlWatch::Watched { fd, .. } => ControlWatch::Watched {
                fd,
                known: ControlKnown::Waits,
            },
            other => other,
        }
    }
}

// Returns how far a control line that is watched is read, if at all.
fn reads_at(known: ControlKnown, stands: ControlStands) -> Option<ControlReads>
    ensures { result ≡ reads_at known stands }
{
    match known {
        ControlKnown::HasCome(_) => Some(ControlReads::Once),
        ControlKnown::New => Some(ControlReads::Buffered),
        ControlKnown::Waits => {
            if stands == ControlStands::Owes {
                Some(ControlReads::Buffered)
            } else {
                None
            }
        }
    }
}

// Returns the state of a control line whose descriptor the system refused to watch, if it is that
// of a file.
fn whole_if_file(e: &io::Error) -> Result<ControlWatch, TurnsFault>
    ensures file { IsOk result → raw_os_error e.now ≡ Some (pos 1) }
    ensures whole { IfOk result (λ watch. watch ≡ ControlWatch.Whole) }
{
    if e.raw_os_error() == Some(IS_FILE) {
        Ok(ControlWatch::Whole)
    } else {
        Err(TurnsFault::Refused)
    }
}
