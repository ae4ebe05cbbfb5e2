//! What a door needs from a listener.
ghost use Rattle.std.specs.Prelude.{◌≡◌, Bool, IfErr, IfOk, OnOk, true};
ghost use Rattle.bq_line.specs.Accepts.{ends_listener};

use crate::line::Socket;
use std::io;
use std::net::{SocketAddr, TcpListener, TcpStream};
use std::os::fd::{AsRawFd, RawFd};

/// A listener, which accepts one connection after another.
pub trait Listen {
    /// The stream of a connection. Its calls wait.
    type Stream: Socket + Drop;

    /// True if the listener may break.
    ghost may_fail: { Self → Bool };

    /// True if the streams of its connections may fail.
    ghost streams_may_fail: { Self → Bool };

    /// True if it was set not to wait for a connection. Only a successful switch establishes this.
    ghost is_nonblocking: { Self → Bool };

    /// Waits for the next connection, unless it was set not to, and returns the connection with its
    /// peer's address. An error means that this connection could not be accepted, or that the
    /// listener is broken and accepts no more (`ends_listener`). Only a listener that may break
    /// returns an error of the second kind.
    fn accept(&self) -> io::Result<(Self::Stream, SocketAddr)>
        ensures fault { IfErr result (λ e. ends_listener e ≡ true → may_fail self.now ≡ true) }
        ensures stream { IfOk result (λ came. Self.Stream.may_fail came.0 ≡ streams_may_fail self.now) };

    /// Sets whether `accept` returns `WouldBlock` in place of waiting. A call that fails changes
    /// nothing.
    fn set_nonblocking(&self, nonblocking: bool) -> io::Result<()>
        ensures { OnOk result (nonblocking ≡ true → is_nonblocking self.now ≡ true) };

    /// Returns the descriptor on which the system reports that a client has connected.
    fn source(&self) -> RawFd;
}

/// Nothing is assumed about the system's sockets: any of them may break at once. Each function makes
/// the call of its name with its own arguments.
impl Listen for TcpListener {
    ghost use Rattle.std.specs.Prelude.{true};

    type Stream = TcpStream;

    ghost may_fail = { λ listener. true };

    ghost streams_may_fail = { λ listener. true };

    ghost is_nonblocking = { λ listener. true };

    fn accept(&self) -> io::Result<(TcpStream, SocketAddr)> {
        TcpListener::accept(self)
    }

    fn set_nonblocking(&self, nonblocking: bool) -> io::Result<()> {
        TcpListener::set_nonblocking(self, nonblocking)
    }

    fn source(&self) -> RawFd {
        self.as_raw_fd()
    }
}
