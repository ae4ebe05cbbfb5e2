//! A connection: the stream of a client over a socket, with what is known of its readiness.
ghost use Rattle.std.specs.Prelude.{◌≡◌, IfOk, None, OnErr, OnOk, ◌++◌, false, not, true};
ghost use Rattle.std.specs.Option.{option_map};
ghost use Rattle.bq_line.specs.Ready.{KeepsReports, both};
ghost use Rattle.bq_line.specs.Streams.{FailsIf, KeepsWaits, MovesNothing, ReadsFrom, WritesTo, stream_seen};
ghost use Rattle.bq_line.specs.Watched.{IsWatched, StaysWatched};

use super::socket::write_slices_once;
use super::{Duplex, Readiness, Socket, StreamError, Watcher, found_nothing, in_brief};
use std::io;

/// Why a stream is not watched.
#[derive(Drop)]
pub enum NotWatched {
    /// It can't be set to send at once and not to wait, which happens if the peer has disconnected.
    HasGone,
    /// The system refuses to watch it.
    Refused(io::Error),
}

/// A connection. Its reads and writes wait as long as it takes; `read_now` doesn't wait. Writes go
/// out at once, except that the system may gather them while more is expected. The stream is
/// switched only if its last call was of the other kind.
#[derive(Drop)]
pub struct Connection<S> {
    stream: S,
    // True if calls of the stream wait.
    waits: bool,
    // True if the system may gather writes.
    gathers: bool,
    // For a watched connection, what its stream is ready for. None of its calls waits, and those
    // that would be in vain make no system call.
    ready: Option<Readiness>,
}

impl<S: Socket> Connection<S> {
    /// Returns a connection over a stream that waits, as accepted streams do, and that gathers
    /// nothing.
    pub fn new(stream: S) -> Connection<S>
        ensures { result
            ≡ record { stream = stream; waits = true; gathers = false; ready = None } }
    {
        Connection {
            stream,
            waits: true,
            gathers: false,
            ready: None,
        }
    }

    /// Sets the stream to send each write at once and not to wait, has the system watch it, and
    /// returns a connection over it. The event loop records here what the stream is ready for. On
    /// error the stream is dropped.
    pub fn watched<W: Watcher>(mut stream: S, watcher: &W) -> Result<Connection<S>, NotWatched>
    where
        S: Drop,
        // Only a successful switch and a successful registration make a watched connection.
        ensures watched { IfOk result (λ c. IsWatched S.Socket c.ready c.stream) }
        ensures registered { IfOk result (λ c. W.watches watcher.now (S.descriptor c.stream) ≡ true) }
        ensures gathers { IfOk result (λ c. c.gathers ≡ false) }
        ensures moves { let at = stream_seen S.remaining S.contents S.may_fail in IfOk result (λ c. MovesNothing (at stream) (at c.stream)) }
    {
        let Ok(()) = stream.set_nodelay(true) else {
            return Err(NotWatched::HasGone);
        };
        let Ok(()) = stream.set_nonblocking(true) else {
            return Err(NotWatched::HasGone);
        };
        match stream.watch(watcher) {
            Ok(()) => Ok(Connection {
                stream,
                waits: false,
                gathers: false,
                ready: Some(Readiness::NEW),
            }),
            Err(e) => Err(NotWatched::Refused(e)),
        }
    }

    // Reads the stream once. A watched one is read only if it is ready; for any other, `waits` says
    // whether the read waits.
    #[inline(always)]
    #[tactic(auto, using(crate::proofs::ReadyLemmas::read_stays, crate::proofs::ReadyLemmas::stays_same))]
    fn read_by(&mut self, buf: &mut [u8], waits: bool) -> Result<usize, StreamError>
        ensures reads { let at = stream_seen S.remaining S.contents S.may_fail in ReadsFrom (at self.old.stream) result buf.new (at self.new.stream) }
        ensures waits { self.old.ready ≡ None → OnOk result (self.new.waits ≡ waits) }
        ensures watched { StaysWatched S.Socket self.old.ready self.old.stream self.new.ready self.new.stream }
    {
        let Some(ready) = self.ready else {
            self.set_waits(waits)?;
            return in_brief(self.stream.read(buf));
        };
        if !ready.reads {
            return Err(StreamError::NotYet);
        }
        let came = in_brief(self.stream.read(buf));
        self.ready = Some(ready.after_read(&came, buf.len()));
        came
    }

    // Sets whether calls of the stream wait.
    fn set_waits(&mut self, waits: bool) -> Result<(), StreamError>
        ensures switched { OnOk result (self.new.waits ≡ waits) }
        // Only a successful switch changes the recorded state.
        ensures made { OnOk result ((self.old.waits ≡ waits → ⊥) → S.is_nonblocking (not waits) self.new.stream ≡ true) }
        ensures kept { OnErr result (self.new.waits ≡ self.old.waits) }
        ensures gathers { self.new.gathers ≡ self.old.gathers }
        ensures moves { let at = stream_seen S.remaining S.contents S.may_fail in MovesNothing (at self.old.stream) (at self.new.stream) }
        ensures fault { FailsIf (S.may_fail self.old.stream) result }
    {
        if self.waits != waits {
            in_brief(self.stream.set_nonblocking(!waits))?;
            self.waits = waits;
        }
        Ok(())
    }

    // Sets whether the stream may hold small writes back.
    fn set_gathers(&mut self, gathers: bool) -> Result<(), StreamError>
        ensures switched { OnOk result (self.new.gathers ≡ gathers) }
        ensures made { OnOk result ((self.old.gathers ≡ gathers → ⊥) → S.is_nodelay (not gathers) self.new.stream) }
        ensures kept { OnErr result (self.new.gathers ≡ self.old.gathers) }
        ensures waits { self.new.waits ≡ self.old.waits }
        ensures moves { let at = stream_seen S.remaining S.contents S.may_fail in MovesNothing (at self.old.stream) (at self.new.stream) }
        ensures quiet { KeepsWaits S.is_nonblocking self.old.stream self.new.stream }
        ensures reports { KeepsReports S.reports_bytes S.reports_room self.old.stream self.new.stream }
        ensures ready { self.new.ready ≡ self.old.ready }
    {
        if self.gathers != gathers {
            in_brief(self.stream.set_nodelay(!gathers))?;
            self.gathers = gathers;
        }
        Ok(())
    }
}

// Each successful call was made on a stream that waits, or on one that does not, as the clause
// `waits` says. A watched connection stays watched, as the clauses `watched` say: its stream does
// not wait, and a call is left out only if the system reports when it is worth making.
impl<S: Socket> Duplex for Connection<S> {
    ghost use Rattle.bq_line.specs.Ready.{may_give, may_take};

    ghost remaining = { λ connection. S.remaining connection.stream };

    ghost contents = { λ connection. S.contents connection.stream };

    ghost may_fail = { λ connection. S.may_fail connection.stream };

    ghost may_give = { λ connection. may_give connection.ready };

    ghost may_take = { λ connection. may_take connection.ready };

    #[inline(always)]
    fn read(&mut self, buf: &mut [u8]) -> Result<usize, StreamError>
        ensures reads { let at = stream_seen S.remaining S.contents S.may_fail in ReadsFrom (at self.old.stream) result buf.new (at self.new.stream) }
        ensures waits { self.old.ready ≡ None → OnOk result (self.new.waits ≡ true) }
        ensures watched { StaysWatched S.Socket self.old.ready self.old.stream self.new.ready self.new.stream }
    {
        self.read_by(buf, true)
    }

    fn read_now(&mut self, buf: &mut [u8]) -> Result<usize, StreamError>
        ensures reads { let at = stream_seen S.remaining S.contents S.may_fail in ReadsFrom (at self.old.stream) result buf.new (at self.new.stream) }
        ensures waits { self.old.ready ≡ None → OnOk result (self.new.waits ≡ false) }
        ensures watched { StaysWatched S.Socket self.old.ready self.old.stream self.new.ready self.new.stream }
    {
        self.read_by(buf, false)
    }

    // Mostly there is still room after a write, as was known.
    #[inline(always)]
    #[tactic(auto, using(crate::proofs::ReadyLemmas::write_stays, crate::proofs::ReadyLemmas::room_stays, crate::proofs::ReadyLemmas::stays_same))]
    fn write(&mut self, buf: &[u8]) -> Result<usize, StreamError>
        ensures writes { let at = stream_seen S.remaining S.contents S.may_fail in WritesTo (at self.old.stream) result buf.now buf.now (at self.new.stream) }
        ensures waits { self.old.ready ≡ None → OnOk result (self.new.waits ≡ true) }
        ensures watched { StaysWatched S.Socket self.old.ready self.old.stream self.new.ready self.new.stream }
    {
        let Some(ready) = self.ready else {
            // The last read may not have waited.
            self.set_waits(true)?;
            return in_brief(self.stream.write(buf));
        };
        if !ready.writes {
            return Err(StreamError::NotYet);
        }
        let took = in_brief(self.stream.write(buf));
        if found_nothing(&took) {
            self.ready = Some(ready.after_write(&took));
            return took;
        }
        took
    }

    #[tactic(auto, using(crate::proofs::ReadyLemmas::write_stays, crate::proofs::ReadyLemmas::stays_same))]
    fn write_together(
        &mut self,
        first: &[u8],
        second: &[u8],
        third: &[u8],
    ) -> Result<usize, StreamError>
        ensures writes { let at = stream_seen S.remaining S.contents S.may_fail in
            WritesTo (at self.old.stream) result first.now (first.now ++ second.now ++ third.now) (at self.new.stream) }
        ensures waits { self.old.ready ≡ None → OnOk result (self.new.waits ≡ true) }
        ensures watched { StaysWatched S.Socket self.old.ready self.old.stream self.new.ready self.new.stream }
    {
        let Some(ready) = self.ready else {
            self.set_waits(true)?;
            return write_slices_once(&mut self.stream, first, second, third);
        };
        if !ready.writes {
            return Err(StreamError::NotYet);
        }
        let took = write_slices_once(&mut self.stream, first, second, third);
        self.ready = Some(ready.after_write(&took));
        took
    }

    // A socket has no buffer of its own.
    fn flush(&mut self) -> Result<(), StreamError> {
        Ok(())
    }

    fn expect_more(&mut self, more: bool)
        ensures moves { let at = stream_seen S.remaining S.contents S.may_fail in MovesNothing (at self.old.stream) (at self.new.stream) }
        ensures watched { StaysWatched S.Socket self.old.ready self.old.stream self.new.ready self.new.stream }
    {
        // A stream that can't be switched stays as it was, and is tried again at the next hint.
        let _switched = self.set_gathers(more);
    }

    fn may_give(&self) -> bool {
        match self.ready {
            Some(ready) => ready.reads,
            None => true,
        }
    }

    fn may_take(&self) -> bool {
        match self.ready {
            Some(ready) => ready.writes,
            None => true,
        }
    }

    fn note_ready(&mut self, ready: Readiness)
        ensures noted { self.new.ready ≡ option_map (λ known. both known ready) self.old.ready }
        ensures moves { let at = stream_seen S.remaining S.contents S.may_fail in MovesNothing (at self.old.stream) (at self.new.stream) }
        ensures watched { StaysWatched S.Socket self.old.ready self.old.stream self.new.ready self.new.stream }
    {
        if let Some(known) = self.ready {
            self.ready = Some(known.and(ready));
        }
    }
}
