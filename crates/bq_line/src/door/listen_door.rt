ghost use Rattle.std.specs.Prelude.{◌≡◌, ◌⊎◌, ◌↔◌, [], IfOk, IsNone, IsSome, OnErr, OnOk, Some, false, true};
ghost use Rattle.bq_line.specs.Accepts.{most_failures};
ghost use Rattle.bq_line.specs.Doors.{IfLine, IfOpened, IsNoMore, IsNoneFound, IsOpened, IsTryOpened, MayOpen};
ghost use Rattle.bq_line.specs.InAll.{in_all};
ghost use Rattle.bq_line.specs.Streams.{IsSureLine};
ghost use Rattle.bq_line.specs.Watched.{IsWatched};

use super::accept::{NotAccepted, accept, accept_now, close_next};
use super::failures::Failures;
use super::line_record::LineRecord;
use super::reports::Reports;
use super::{Door, DoorFault, Listen, Opening, TurnedAway};
use crate::line::{BufferedLine, Connection, Line, ReadBuffer, Socket, Watcher};
use bq_job::LineEnd;
use std::io::Eprint;
use std::mem;
use std::os::fd::RawFd;
use std::rt::Clock;

/// A door for the connections that a listener accepts. Several doors can share a listener; each
/// connection goes to one door.
#[derive(Drop)]
pub struct ListenDoor<'l, R, T> {
    rt: &'l R,
    listener: &'l T,
    reports: Reports<'l>,
    // How many more connections come; `None` for no limit.
    left: Option<u32>,
    // The read buffer of the next connection. It is lent to an open connection, and comes back with
    // it.
    buffer: Option<ReadBuffer>,
    is_out: bool,
    is_at_end: bool,
    met_fault: bool,
    // How many accepts in a row had failed when `open` gave up.
    failures: Failures,
    // True if an accept that does not wait met a shortage since the last connection.
    met_shortage: bool,
    // True if the listener was set not to wait, which the first try does.
    never_waits: bool,
    // For proofs only.
    over: LineRecord,
    ghost lent: { is_out ≡ false → IsSome buffer },
    // The door has ended because of a fault, or after all connections that may come.
    ghost ended: { is_at_end ≡ true → met_fault ≡ false → left ≡ Some 0 },
}

impl<'l, R: Clock + Eprint, S: Socket + Drop + Send, T: Listen<Stream = S>> ListenDoor<'l, R, T> {
    /// Returns a door for `sessions` connections of the listener, or for connections without limit
    /// if it is `None`. They are read through `buffer`, one after another. The door reports
    /// through `reports`.
    pub fn new(
        rt: &'l R,
        listener: &'l T,
        sessions: Option<u32>,
        buffer: ReadBuffer,
        reports: Reports<'l>,
    ) -> ListenDoor<'l, R, T>
        ensures inside { ⟦<ListenDoor<'l, R, T> as Door>⟧.is_out result ≡ false }
        ensures more { ⟦<ListenDoor<'l, R, T> as Door>⟧.is_at_end result ≡ false }
        ensures none_over { ⟦<ListenDoor<'l, R, T> as Door>⟧.lines_over result ≡ [] }
        ensures at { result.listener ≡ listener.entry }
        ensures reports { result.reports ≡ reports.entry }
        ensures allowed { result.left ≡ sessions }
        ensures no_fault { result.met_fault ≡ false }
    {
        ListenDoor {
            rt,
            listener,
            reports,
            left: sessions,
            buffer: Some(buffer),
            is_out: false,
            is_at_end: false,
            met_fault: false,
            failures: Failures::none(),
            met_shortage: false,
            never_waits: false,
            over: LineRecord::new(),
        }
    }
}

impl<'l, R: Clock + Eprint, T> ListenDoor<'l, R, T> {
    /// Returns true if the door has ended because a connection could not be accepted.
    pub fn met_fault(&self) -> bool
        ensures { result ≡ self.now.met_fault }
    {
        self.met_fault
    }

    fn tell_taken(&self) {
        if let Some(free) = self.reports.free {
            free.take(self.rt);
        }
    }

    // A door that takes no more connections isn't free again.
    fn tell_free(&self) {
        if self.left == Some(0) {
            return;
        }
        if let Some(free) = self.reports.free {
            free.give_back(self.rt);
        }
    }

    fn tell_fault(&self) {
        if let Some(free) = self.reports.free {
            free.leave();
        }
        if let Some(doors) = self.reports.open {
            doors.fail();
        }
    }

    fn tell_end(&self) {
        if let Some(doors) = self.reports.open {
            doors.close();
        }
    }

    // Counts a connection that goes out, and lends it the buffer.
    fn lend(&mut self) -> ReadBuffer
        requires more { self.old.left ≡ Some 0 → ⊥ }
        requires inside { self.old.is_out ≡ false }
        ensures out { self.new.is_out ≡ true }
        ensures counted { in_all self.new.left true self.new.over
            ≡ in_all self.old.left false self.old.over }
        ensures listener { self.new.listener ≡ self.old.listener }
        ensures at_end { self.new.is_at_end ≡ self.old.is_at_end }
        ensures fault { self.new.met_fault ≡ self.old.met_fault }
        ensures over { self.new.over ≡ self.old.over }
        ensures waits { self.new.never_waits ≡ self.old.never_waits }
    {
        self.is_out = true;
        if let Some(left) = self.left {
            self.left = Some(left - 1);
        }
        let Some(buffer) = self.buffer.take() else {
            unreachable!()
        };
        buffer
    }
}

impl<'l, R, T: Listen> ListenDoor<'l, R, T> {
    ghost use Rattle.bq_line.specs.ListenDoors.{KeepsDoor};

    // Sets the listener not to wait. Returns false if that fails.
    fn stop_waiting(&mut self) -> bool
        ensures set { result ≡ self.new.never_waits }
        // Only a successful switch changes the recorded state.
        ensures made { self.new.never_waits ≡ true → self.old.never_waits ≡ false →
            T.is_nonblocking self.old.listener.now ≡ true }
        ensures kept { KeepsDoor self.old self.new }
    {
        if !self.never_waits {
            if let Err(_) = self.listener.set_nonblocking(true) {
                return false;
            }
            self.never_waits = true;
        }
        true
    }
}

impl<'l, R: Clock + Eprint, S: Socket + Drop + Send, T: Listen<Stream = S>> Door
    for ListenDoor<'l, R, T> {
    ghost use Rattle.std.proofs.Common.{refl};

    type Line = BufferedLine<Connection<S>>;

    ghost is_out = { λ door. door.is_out };

    ghost is_at_end = { λ door. door.is_at_end };

    ghost lines_over = { λ door. door.over };

    // It has the same listener, and the same total number of connections.
    ghost same = { λ first last. (last.listener ≡ first.listener) ×
        (in_all last.left last.is_out last.over ≡ in_all first.left first.is_out first.over) };

    ghost may_fail = { λ door. T.streams_may_fail door.listener.now };

    ghost same_self = { λ door. (refl, refl) };

    ghost same_streams = { λ first last same i. T.streams_may_fail (same.0 i).now };

    fn open(&mut self) -> Result<Option<BufferedLine<Connection<S>>>, DoorFault>
        requires more { MayOpen self.old.is_out self.old.is_at_end }
        ensures opened { IsOpened ⟦<BufferedLine<Connection<S>> as Line>⟧.seen
            self.new.is_out self.new.is_at_end result }
        ensures sure { T.streams_may_fail self.old.listener.now ≡ false
            → IfOpened result (IsSureLine ⟦<BufferedLine<Connection<S>> as Line>⟧.lies_over) }
        ensures over { self.new.over ≡ self.old.over }
        ensures same { (first : _) → ⟦<ListenDoor<'l, R, T> as Door>⟧.same first self.old →
            ⟦<ListenDoor<'l, R, T> as Door>⟧.same first self.new }
        // A fault comes from the listener, or 2^64 - 1 accepts in a row have failed. It is kept for
        // `met_fault`.
        ensures of_listener { OnErr result ((T.may_fail self.old.listener.now ≡ true)
            ⊎ (self.new.failures ≡ most_failures)) }
        ensures fault { OnErr result (self.new.met_fault ≡ true) }
        ensures no_fault { OnOk result (self.new.met_fault ≡ self.old.met_fault) }
        // There is no connection if and only if all connections that may come were opened.
        ensures none { IfOk result (λ line. IsNone line ↔ (self.old.left ≡ Some 0)) }
        ensures left { OnErr result (self.old.left ≡ Some 0 → ⊥) }
    {
        if self.left == Some(0) {
            self.is_at_end = true;
            self.tell_end();
            return Ok(None);
        }
        match accept(self.rt, self.listener, self.reports.refusals) {
            Ok(stream) => {
                self.tell_taken();
                let buffer = self.lend();
                Ok(Some(BufferedLine::new(stream, buffer)))
            }
            Err(failures) => {
                self.is_at_end = true;
                self.met_fault = true;
                self.failures = failures;
                self.tell_fault();
                Err(DoorFault)
            }
        }
    }

    // The first try sets the listener not to wait.
    fn try_open<W: Watcher>(
        &mut self,
        may_have_come: bool,
        watcher: &W,
    ) -> Result<Opening<BufferedLine<Connection<S>>>, DoorFault>
        requires more { MayOpen self.old.is_out self.old.is_at_end }
        ensures opened { IsTryOpened ⟦<BufferedLine<Connection<S>> as Line>⟧.seen
            self.new.is_out self.new.is_at_end result }
        ensures sure { T.streams_may_fail self.old.listener.now ≡ false
            → IfLine result (IsSureLine ⟦<BufferedLine<Connection<S>> as Line>⟧.lies_over) }
        ensures over { self.new.over ≡ self.old.over }
        ensures same { (first : _) → ⟦<ListenDoor<'l, R, T> as Door>⟧.same first self.old →
            ⟦<ListenDoor<'l, R, T> as Door>⟧.same first self.new }
        // No call on the connection waits. Of each call that it leaves out, the system reports when
        // to make it.
        ensures watched { IfLine result (λ line. IsWatched S.Socket line.line.stream.ready line.line.stream.stream) }
        // A connection that the system refuses to watch is not opened.
        ensures registered { IfLine result (λ line. W.watches watcher.now (S.descriptor line.line.stream.stream) ≡ true) }
        // Unless it is recorded that the listener was set not to wait, it is not asked. Only a
        // successful switch records it.
        ensures quiet { self.new.never_waits ≡ false → IsNoneFound result }
        ensures made { self.new.never_waits ≡ true → self.old.never_waits ≡ false →
            T.is_nonblocking self.old.listener.now ≡ true }
        ensures of_listener { OnErr result (T.may_fail self.old.listener.now ≡ true) }
        ensures fault { OnErr result (self.new.met_fault ≡ true) }
        ensures no_fault { OnOk result (self.new.met_fault ≡ self.old.met_fault) }
        // No more connections come if and only if all connections that may come were opened.
        ensures none { IfOk result (λ opening. IsNoMore opening ↔ (self.old.left ≡ Some 0)) }
        ensures left { OnErr result (self.old.left ≡ Some 0 → ⊥) }
    {
        if self.left == Some(0) {
            self.is_at_end = true;
            self.tell_end();
            return Ok(Opening::NoMore);
        }
        if !may_have_come {
            return Ok(Opening::NotYet);
        }
        if !self.stop_waiting() {
            return Ok(Opening::Later);
        }
        match accept_now(
            self.rt,
            self.listener,
            self.reports.refusals,
            &mut self.met_shortage,
            watcher,
        ) {
            Ok(stream) => {
                self.tell_taken();
                let buffer = self.lend();
                Ok(Opening::Line(BufferedLine::new(stream, buffer)))
            }
            Err(NotAccepted::NoneYet) => Ok(Opening::NotYet),
            Err(NotAccepted::OfPeer | NotAccepted::Passing) => Ok(Opening::Later),
            Err(NotAccepted::OfListener) => {
                self.is_at_end = true;
                self.met_fault = true;
                self.tell_fault();
                Err(DoorFault)
            }
        }
    }

    fn source(&self) -> Option<RawFd> {
        Some(self.listener.source())
    }

    // A door that is taken has tried to open a connection, unless it waits for clients.
    fn turn_away(&self) -> TurnedAway {
        if !self.never_waits {
            return TurnedAway::Waits;
        }
        let Some(free) = self.reports.free else {
            return TurnedAway::Waits;
        };
        if !free.closes_more() {
            return TurnedAway::Waits;
        }
        let turned = close_next(self.listener);
        if turned == TurnedAway::Closed {
            free.note_closed(self.rt);
        }
        turned
    }

    fn exchange(&mut self, buffer: &mut ReadBuffer) {
        if let Some(own) = &mut self.buffer {
            mem::swap(own, buffer);
            buffer.clear();
        }
    }

    // Data that the system still gathers is sent first: closing a socket with unread input discards
    // it. Dropping the stream closes the connection, and the buffer is kept for the next one.
    fn shut(&mut self, mut line: BufferedLine<Connection<S>>, end: LineEnd) {
        line.expect_more(false);
        self.tell_free();
        self.is_out = false;
        self.over.note(&line, end);
        self.buffer = Some(line.into_buffer());
    }
}
