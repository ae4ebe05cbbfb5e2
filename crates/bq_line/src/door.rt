//! Doors, at which clients connect one after another.
ghost use Rattle.std.specs.Prelude.{◌≡◌, Bool, List, [], ◌∷◌, ◌++◌, true, false};
ghost use Rattle.bq_job.specs.promise.History.{LineOver};
ghost use Rattle.bq_line.specs.Doors.{IfLine, IfOpened, IsOpened, IsTryOpened, MayOpen};
ghost use Rattle.bq_line.specs.Streams.{IsSureLine};

pub use free_doors::FreeDoors;
pub use listen::Listen;
pub use listen_door::ListenDoor;
pub use mem_door::MemDoor;
pub use open_doors::OpenDoors;
pub use refusals::Refusals;
pub use reports::Reports;
pub use turned_away::TurnedAway;

mod accept;
mod failures;
mod free_doors;
mod line_record;
mod listen;
mod listen_door;
mod mem_door;
mod open_doors;
mod refusals;
mod reports;
mod turned_away;

use crate::line::{Line, ReadBuffer, Watcher};
use bq_job::LineEnd;
use std::net::TcpListener;
use std::os::fd::RawFd;
use thiserror::Error;

/// A door for TCP connections.
pub type TcpDoor<'l, R> = ListenDoor<'l, R, TcpListener>;

/// No further connection could be opened.
#[derive(Clone, Copy, Debug, PartialEq, Eq, Error)]
#[error("a connection could not be accepted")]
pub struct DoorFault;

impl DoorFault {
    /// Returns the number of this fault, 504.
    pub fn code(self) -> u16
        ensures { result ≡ 504 }
    {
        504
    }
}

/// The result of opening the next connection without waiting.
#[derive(Drop)]
pub enum Opening<L> {
    /// The next connection.
    Line(L),
    /// No client has connected yet. The system reports when one has.
    NotYet,
    /// No connection can be accepted for a while, because the system lacks a resource. It does not
    /// report when that ends.
    Later,
    /// No more connections come.
    NoMore,
}

/// A door, which opens connections one after another, one at a time.
pub trait Door {
    type Line: Line + Drop;

    /// True if a connection was opened and not shut yet.
    ghost is_out: { Self → Bool };

    /// True if no more connections come.
    ghost is_at_end: { Self → Bool };

    /// The connections that have ended, in the order in which they were shut.
    ghost lines_over: { Self → List LineOver };

    /// The second door is the first one at a later moment: everything that identifies the door is
    /// unchanged.
    ghost same: { Self → Self → Type 0 };

    /// True if the stream of a connection that it opens may fail.
    ghost may_fail: { Self → Bool };

    /// Waits for the next connection and opens it. `None` means that no more connections come, and
    /// so does an error.
    fn open(&mut self) -> Result<Option<Self::Line>, DoorFault>
        requires more { MayOpen (is_out self.old) (is_at_end self.old) }
        ensures opened { IsOpened Self.Line.seen (is_out self.new) (is_at_end self.new) result }
        ensures sure { may_fail self.old ≡ false → IfOpened result (IsSureLine Self.Line.lies_over) }
        ensures over { lines_over self.new ≡ lines_over self.old }
        ensures same { (first : Self) → same first self.old → same first self.new };

    /// Opens the next connection without waiting for it. `may_have_come` is false if no client can
    /// have connected since the last call, so that no system call is needed. The connection is
    /// watched by `watcher`, or it is not opened. After an error no more connections come.
    fn try_open<W: Watcher>(
        &mut self,
        may_have_come: bool,
        watcher: &W,
    ) -> Result<Opening<Self::Line>, DoorFault>
        requires more { MayOpen (is_out self.old) (is_at_end self.old) }
        ensures opened { IsTryOpened Self.Line.seen (is_out self.new) (is_at_end self.new) result }
        ensures sure { may_fail self.old ≡ false → IfLine result (IsSureLine Self.Line.lies_over) }
        ensures over { lines_over self.new ≡ lines_over self.old }
        ensures same { (first : Self) → same first self.old → same first self.new };

    /// Returns the descriptor on which the system reports that a client may have connected, if
    /// there is one.
    fn source(&self) -> Option<RawFd> {
        None
    }

    /// Closes a connection that waits although every door of its listener is taken, if the door was
    /// made to do so. It accepts that connection for this alone, so no connection that a door has
    /// opened is touched. It does not wait. By default connections wait for a door.
    fn turn_away(&self) -> TurnedAway {
        TurnedAway::Waits
    }

    /// Swaps the door's own read buffer with this one, and drops the bytes that the last connection
    /// left in it. A door without a buffer, or whose connection has it, does nothing.
    fn exchange(&mut self, _buffer: &mut ReadBuffer)
        ensures inside { is_out self.new ≡ is_out self.old }
        ensures at_end { is_at_end self.new ≡ is_at_end self.old }
        ensures over { lines_over self.new ≡ lines_over self.old }
        ensures same { (first : Self) → same first self.old → same first self.new }
    {}

    /// Takes back the open connection, which has ended in this way.
    fn shut(&mut self, line: Self::Line, end: LineEnd)
        requires { is_out self.old ≡ true }
        ensures inside { is_out self.new ≡ false }
        ensures at_end { is_at_end self.new ≡ is_at_end self.old }
        ensures over { lines_over self.new
            ≡ lines_over self.old ++ record { seen = Self.Line.seen line; over = end } ∷ [] }
        ensures same { (first : Self) → same first self.old → same first self.new };

    /// A door that did not change is the same door.
    ghost same_self: { (door : Self) → same door door };

    /// A door opens connections over streams of the same kind for ever.
    ghost same_streams: { (first last : Self) → same first last → may_fail last ≡ may_fail first };
}
