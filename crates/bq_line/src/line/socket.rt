//! The socket of a connection, and the system's TCP stream as one.
ghost use Rattle.std.specs.Prelude.{◌≡◌, ℕ, ℤ, Bool, List, None, OnErr, OnOk, Option, ◌++◌, length, true};
ghost use Rattle.std.specs.Io.Slices.{io_slices_bytes};
ghost use Rattle.bq_line.specs.LineCalls.{in_brief};
ghost use Rattle.bq_line.specs.Ready.{KeepsReports, ReportsAfterRead, ReportsAfterWrite};
ghost use Rattle.bq_line.specs.Streams.{FailsIf, KeepsWaits, MovesNothing, ReadsFrom, WritesTo, stream_seen};

use super::{StreamError, Watcher, in_brief};
use std::io;
use std::io::{IoSlice, Read, Write};
use std::net::TcpStream;
use std::os::fd::AsRawFd;

/// The socket of a connection. Each function stands for one call of the system, so it takes and
/// returns what that call does.
pub trait Socket {
    /// The bytes that reads will return from here on, if they are known.
    ghost remaining: { Self → Option (List ℕ) } = { λ _. None };

    /// The bytes that were written, if they are known.
    ghost contents: { Self → Option (List ℕ) } = { λ _. None };

    /// Whether a call of it may fail.
    ghost may_fail: { Self → Bool };

    /// True if its calls were last set to return at once, or to wait. Only a successful switch
    /// establishes this.
    ghost is_nonblocking: { Bool → Self → Bool } = { λ nonblocking socket. true };

    /// The descriptor by which the system knows it.
    ghost descriptor: { Self → ℤ };

    /// It was set to send each write at once, or to hold small ones back. Only a successful switch
    /// establishes this.
    ghost is_nodelay: { Bool → Self → Type 0 } = { λ nodelay socket. Unit {0} };

    /// True if the system reports when a read would return something. The first argument says
    /// whether it reported before that the input has ended or that urgent data came. Only a
    /// successful registration and a read that found all bytes establish this.
    ghost reports_bytes: { Bool → Self → Bool } = { λ is_closing socket. true };

    /// True if the system reports when a write has room. Only a successful registration and a write
    /// that found no room establish this.
    ghost reports_room: { Self → Bool } = { λ socket. true };

    /// Reads as `std::io::Read` does.
    fn read(&mut self, buf: &mut [u8]) -> io::Result<usize>
        ensures reads { let at = stream_seen remaining contents may_fail in ReadsFrom (at self.old) (in_brief result) buf.new (at self.new) }
        ensures reports { ReportsAfterRead reports_bytes reports_room self.old (in_brief result) (length buf.new) self.new }
        ensures waits { KeepsWaits is_nonblocking self.old self.new };

    /// Writes as `std::io::Write` does.
    fn write(&mut self, buf: &[u8]) -> io::Result<usize>
        ensures writes { let at = stream_seen remaining contents may_fail in WritesTo (at self.old) (in_brief result) buf.now buf.now (at self.new) }
        ensures reports { ReportsAfterWrite reports_bytes reports_room self.old (in_brief result) self.new }
        ensures waits { KeepsWaits is_nonblocking self.old self.new };

    /// Writes a first part of several texts, as `write` does for the text that they form together.
    fn write_slices(&mut self, slices: &[IoSlice<'_>]) -> io::Result<usize>
        ensures writes { let at = stream_seen remaining contents may_fail in let bytes = io_slices_bytes slices.now in
            WritesTo (at self.old) (in_brief result) bytes bytes (at self.new) }
        ensures reports { ReportsAfterWrite reports_bytes reports_room self.old (in_brief result) self.new }
        ensures waits { KeepsWaits is_nonblocking self.old self.new };

    /// Sets whether calls return `WouldBlock` in place of waiting for bytes or for room.
    fn set_nonblocking(&mut self, nonblocking: bool) -> io::Result<()>
        ensures switched { OnOk result (is_nonblocking nonblocking self.new ≡ true) }
        ensures kept { OnErr result (KeepsWaits is_nonblocking self.old self.new) }
        ensures moves { let at = stream_seen remaining contents may_fail in MovesNothing (at self.old) (at self.new) }
        ensures fault { FailsIf (may_fail self.old) (in_brief result) }
        ensures reports { KeepsReports reports_bytes reports_room self.old self.new };

    /// Sets whether each write is sent at once. If not, small writes may be held back, so that they
    /// go out together. Setting it sends those that are held back.
    fn set_nodelay(&mut self, nodelay: bool) -> io::Result<()>
        ensures switched { OnOk result (is_nodelay nodelay self.new) }
        ensures moves { let at = stream_seen remaining contents may_fail in MovesNothing (at self.old) (at self.new) }
        ensures reports { KeepsReports reports_bytes reports_room self.old self.new }
        ensures waits { KeepsWaits is_nonblocking self.old self.new };

    /// Has the system report when the socket is ready.
    fn watch<W: Watcher>(&mut self, watcher: &W) -> io::Result<()>
        ensures watched { OnOk result (W.watches watcher.now (descriptor self.new) ≡ true) }
        ensures bytes { OnOk result ((is_closing : Bool) → reports_bytes is_closing self.new ≡ true) }
        ensures room { OnOk result (reports_room self.new ≡ true) }
        ensures moves { let at = stream_seen remaining contents may_fail in MovesNothing (at self.old) (at self.new) }
        ensures waits { KeepsWaits is_nonblocking self.old self.new };
}

/// Nothing is assumed about the bytes that go over the system's sockets, so no clause says which
/// call a function makes, or with which arguments. Each makes the call of its name with its own
/// arguments, which has to be read.
impl Socket for TcpStream {
    ghost use Rattle.std.specs.Prelude.{true};
    ghost use Rattle.std.specs.Net.Tcp.{stream_raw_fd};

    ghost may_fail = { λ socket. true };

    ghost descriptor = { λ socket. stream_raw_fd socket };

    fn read(&mut self, buf: &mut [u8]) -> io::Result<usize> {
        Read::read(self, buf)
    }

    fn write(&mut self, buf: &[u8]) -> io::Result<usize> {
        Write::write(self, buf)
    }

    // The stream's own method: that of `Write` makes a call for each slice.
    fn write_slices(&mut self, slices: &[IoSlice<'_>]) -> io::Result<usize> {
        TcpStream::write_vectored(self, slices)
    }

    fn set_nonblocking(&mut self, nonblocking: bool) -> io::Result<()> {
        TcpStream::set_nonblocking(self, nonblocking)
    }

    fn set_nodelay(&mut self, nodelay: bool) -> io::Result<()> {
        TcpStream::set_nodelay(self, nodelay)
    }

    fn watch<W: Watcher>(&mut self, watcher: &W) -> io::Result<()> {
        watcher.watch(self.as_raw_fd())
    }
}

// Writes three texts to the socket by one call.
#[tactic(auto, using(crate::proofs::SocketLemmas::slices_in_brief))]
pub(super) fn write_slices_once<S: Socket>(
    socket: &mut S,
    first: &[u8],
    second: &[u8],
    third: &[u8],
) -> Result<usize, StreamError>
    ensures writes { let at = stream_seen S.remaining S.contents S.may_fail in
        WritesTo (at socket.old) result first.now (first.now ++ second.now ++ third.now) (at socket.new) }
    ensures reports { ReportsAfterWrite S.reports_bytes S.reports_room socket.old result socket.new }
    ensures waits { KeepsWaits S.is_nonblocking socket.old socket.new }
{
    in_brief(socket.write_slices(&[
        IoSlice::new(first),
        IoSlice::new(second),
        IoSlice::new(third),
    ]))
}
