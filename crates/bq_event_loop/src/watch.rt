//! The system as epoll (`mio`) reports it.
ghost use Rattle.std.specs.Prelude.{◌≡◌, None, IfOk, IfSome};
ghost use Rattle.bq_event_loop.specs.Reports.{IsReportOf};
ghost use Rattle.bq_event_loop.specs.Sleeping.{is_awaited, timeout_of};

use crate::control_watch::{ControlCame, ControlWatch};
use crate::doors::Doors;
use crate::row::Row;
use crate::sleeper::{Report, Sleeper};
use crate::turns::{ControlReads, ControlStands, SoFar, Turns, TurnsFault};
use bq_core_api::QueueCore;
use bq_host::Mail;
use bq_line::Door;
use bq_line::clock::Clock;
use bq_line::control_line::ControlInput;
use bq_line::line::{Line, Readiness};
use libc::net::{EPOLLERR, EPOLLHUP, EPOLLIN, EPOLLOUT, EPOLLPRI, EPOLLRDHUP};
use mio::unix::SourceFd;
use mio::{Interest, Poll, Registry, Token};
use os::EpollEvent;
use std::alloc::Global;
use std::net::Net;
use std::os::fd::{AsRawFd, RawFd};
use std::{io, rt};

/// The token of the doors. The token of a connection is the number of its seat.
const DOORS: Token = Token(usize::MAX - 1);

/// How many events one wait takes from the system.
const EVENTS: usize = 256;

/// Waits for connections, doors and the control line by epoll. All of its memory is allocated when
/// it is created.
#[derive(Drop)]
pub struct Watch<'r, R> {
    rt: &'r R,
    poll: Poll,
    // What the last wait or question gave, at the front, and how many.
    events: Vec<EpollEvent, Global>,
    came: usize,
    control: ControlWatch,
}

impl<'r, R: Net> Watch<'r, R> {
    /// Returns what watches these doors and the control line. `control` is the descriptor of the
    /// control line. If it is `None`, or epoll rejects it because it belongs to a file, the control
    /// line is read to its end before any door is checked.
    ///
    /// Returns `NoMemory` if an allocation failed. Returns `Refused` if the system refused epoll or
    /// does not report a door or the control line, since that would never be looked at, and if the
    /// doors have more than one listener.
    pub fn new<L: Line + Drop, D: Door<Line = L>>(
        rt: &'r R,
        alloc: Global,
        doors: &[D],
        control: Option<RawFd>,
    ) -> Result<Watch<'r, R>, TurnsFault> {
        let unused = EpollEvent { events: 0, data: 0 };
        let Ok(events) = Vec::from_elem(alloc, unused, EVENTS) else {
            return Err(TurnsFault::NoMemory);
        };
        let Ok(poll) = Poll::new(rt) else {
            return Err(TurnsFault::Refused);
        };
        watch_doors(poll.registry(), doors)?;
        let control = ControlWatch::new(poll.registry(), control)?;
        Ok(Watch {
            rt,
            poll,
            events,
            came: 0,
            control,
        })
    }
}

impl<'r, R> Watch<'r, R> {
    // Waits for at most this many milliseconds, or without a limit if they are negative. A failed
    // wait gives nothing. `Poll::poll` would copy each event, and divide the timeout.
    fn wait(&mut self, most: i32)
        ensures control { self.new.control ≡ self.old.control }
    {
        self.came = os::epoll_wait(self.poll.as_raw_fd(), &mut self.events, most);
    }
}

impl<'r, R: rt::Clock> Sleeper for Watch<'r, R> {
    type System = R;

    ghost awaits_control = { λ watch. is_awaited watch.control };

    fn system(&self) -> &R {
        self.rt
    }

    // Urgent data is reported too: a read stops at it, and the bytes after it would stay unread.
    fn watch(&self, fd: RawFd, seat: usize) -> io::Result<()> {
        let all = Interest::READABLE | Interest::WRITABLE | Interest::PRIORITY;
        self.poll
            .registry()
            .register(&mut SourceFd(&fd), Token(seat), all)
    }

    fn control_reads(&self, stands: ControlStands) -> Option<ControlReads> {
        self.control.reads(stands)
    }

    fn watch_control(&mut self, stands: ControlStands) {
        self.control.watch_on(self.poll.registry(), stands);
    }

    fn sleep<
        T: Turns,
        L: Line + Drop,
        D: Door<Line = L>,
        C: Clock + Drop,
        I: ControlInput + Drop,
        K: QueueCore + Drop,
    >(
        &mut self,
        _turns: &T,
        _row: &Row<L, D>,
        _mails: &Vec<Mail, Global>,
        _so_far: &SoFar<L, D, C, I, K>,
        _doors: &Doors,
        _due: Option<u64>,
        most: Option<u64>,
    ) {
        self.wait(timeout_of(most));
    }

    fn ask<T: Turns>(
        &mut self,
        _turns: &T,
        _doors: &Doors,
        _due: Option<u64>,
        _stands: ControlStands,
        _reads: Option<ControlReads>,
    ) {
        self.wait(0);
    }

    fn reports(&self) -> usize {
        self.came
    }

    fn report(&mut self, number: usize) -> Report {
        if number >= self.came {
            return Report::Nothing;
        }
        let Some(event) = self.events.get(number) else {
            return Report::Nothing;
        };
        if let Some(came) = ControlCame::of(event) {
            self.control.more_came(came);
            return Report::Nothing;
        }
        report_of(event)
    }
}

// Registers the listener of the doors. They have to share it: what is known of connections that
// wait is known of one listener.
fn watch_doors<L: Line + Drop, D: Door<Line = L>>(
    registry: &Registry,
    doors: &[D],
) -> Result<(), TurnsFault> {
    let mut watched = None;
    for door in doors {
        if let Some(fd) = door.source() {
            watch_listener(registry, watched, fd)?;
            watched = Some(fd);
        }
    }
    Ok(())
}

// Registers the listener of a door, unless it is the one that is registered. Another one is
// refused.
fn watch_listener(registry: &Registry, watched: Option<RawFd>, fd: RawFd) -> Result<(), TurnsFault>
    ensures one { IfOk result (λ done. IfSome watched (λ first. fd ≡ first)) }
{
    if let Some(first) = watched {
        return if fd == first {
            Ok(())
        } else {
            Err(TurnsFault::Refused)
        };
    }
    match registry.register(&mut SourceFd(&fd), DOORS, Interest::READABLE) {
        Ok(()) => Ok(()),
        Err(_) => Err(TurnsFault::Refused),
    }
}

// Returns the report that an event of a door or a connection is.
fn report_of(event: &EpollEvent) -> Report
    ensures { IsReportOf event.now.data result }
{
    let token = event.data as usize;
    if token == DOORS.0 {
        return Report::Doors;
    }
    Report::Line(token, readiness_of(event.events))
}

// Returns what these flags of `epoll(7)` say.
fn readiness_of(flags: u32) -> Readiness {
    let is_ended = flags & EPOLLIN != 0 && flags & EPOLLRDHUP != 0;
    Readiness {
        reads: flags & (EPOLLIN | EPOLLPRI | EPOLLHUP | EPOLLERR) != 0,
        writes: flags & (EPOLLOUT | EPOLLERR) != 0,
        is_closing: flags & (EPOLLHUP | EPOLLERR | EPOLLPRI) != 0 || is_ended,
    }
}

// Returns the limit of a wait in the form that epoll takes: -1 for none, and 24 days at most.
fn timeout_of(most: Option<u64>) -> i32
    ensures { result ≡ timeout_of most }
{
    match most {
        Some(most) => most.min(i32::MAX as u64) as i32,
        None => -1,
    }
}
