//! Connections to clients (`Line`), and what is known of the stream of a connection that never
//! waits: whether a read or a write is worth a system call.
ghost use Rattle.std.specs.Prelude.{◌≡◌, ◌≤◌, ◌<◌, ℕ, Bool, true, false, List, None, length, min, not, take, ◌++◌};
ghost use Rattle.std.specs.Io.{ReadsAtMost, WritesAtMost};
ghost use Rattle.bq_job.specs.promise.LineSteps.{LineSeen};
ghost use Rattle.bq_line.specs.LineCalls.{after_fill, after_flush, after_read, after_take, after_write, first_fault, found_nothing};
ghost use Rattle.bq_line.specs.Ready.{both, found_all};
ghost use Rattle.bq_line.specs.Streams.{StaysOver, StreamSeen};

pub use connection::{Connection, NotWatched};
pub use io_line::{BufferedLine, ByteRecord, IoLine};
pub use mem_line::{MemLine, Part};
pub use socket::Socket;
pub use stream::{Duplex, READ_ROOM, ReadBuffer};
pub use stream_error::{StreamError, in_brief};
pub use watcher::Watcher;

mod connection;
mod io_line;
mod mem_line;
mod socket;
mod stream;
mod stream_error;
mod watcher;

use bq_job::LineFault;

/// A connection to one client. It records the bytes that its reads returned and its writes took
/// since it was made, whether its input has ended, and the first fault that a call returned.
pub trait Line {
    /// What the connection records.
    ghost seen: { Self → LineSeen };

    /// True if the connection is over the stream that had this state before the connection was
    /// made. No call of a connection changes its stream for another.
    ghost lies_over: { StreamSeen → Self → Type 0 };

    /// The bytes in the connection's own buffer, which came and were not read yet.
    ghost unread: { Self → List ℕ };

    /// False if a read would only report that there are no bytes yet, as far as the connection
    /// knows.
    ghost may_give: { Self → Bool } = { λ line. true };

    /// False if a write would only report that there is no room yet, as far as the connection
    /// knows.
    ghost may_take: { Self → Bool } = { λ line. true };

    /// Reads at most as many bytes as the buffer has room for, as `std::io::Read` does. A result of
    /// 0 is the end of the input. `NotYet` and `Interrupted` mean that there are no bytes yet; a
    /// `Fault` is a read fault. It may wait for bytes without limit.
    fn read(&mut self, buf: &mut [u8]) -> Result<usize, StreamError>
        requires { 0 < length buf.old }
        ensures bound { ReadsAtMost result buf.new }
        ensures seen { seen self.new ≡ after_read result buf.new (seen self.old) }
        ensures stays { StaysOver lies_over self.old self.new };

    /// Reads as `read` does, but does not wait: without bytes it returns `NotYet`, if the
    /// connection can do that.
    fn read_now(&mut self, buf: &mut [u8]) -> Result<usize, StreamError>
        requires { 0 < length buf.old }
        ensures bound { ReadsAtMost result buf.new }
        ensures seen { seen self.new ≡ after_read result buf.new (seen self.old) }
        ensures stays { StaysOver lies_over self.old self.new };

    /// If the connection's own buffer is empty, reads into it once; `waits` says whether that may
    /// wait. A connection without a buffer does nothing. Errors are those of `read`. The bytes do
    /// not count as read yet.
    fn fill(&mut self, waits: bool) -> Result<(), StreamError>
        ensures seen { seen self.new ≡ after_fill result (seen self.old) }
        ensures stays { StaysOver lies_over self.old self.new }
    {
        Ok(())
    }

    /// Returns the bytes in the connection's own buffer.
    fn unread(&self) -> &[u8]
        ensures { result.now ≡ unread self.now };

    /// Marks the first `count` bytes of the connection's own buffer as read, and removes them.
    fn take_unread(&mut self, count: usize)
        requires { count ≤ length (unread self.old) }
        ensures seen { seen self.new ≡ after_take count (unread self.old) (seen self.old) }
        ensures stays { StaysOver lies_over self.old self.new };

    /// Writes a first part of the buffer and returns its length, as `std::io::Write` does. `NotYet`
    /// and `Interrupted` mean that there is no room yet, and leave the connection as it was. A
    /// `Fault` is a write fault, and so is a write that took no bytes.
    fn write(&mut self, buf: &[u8]) -> Result<usize, StreamError>
        requires { 0 < length buf.now }
        ensures bound { WritesAtMost result buf.now }
        ensures seen { seen self.new ≡ after_write result buf.now (seen self.old) }
        ensures stays { StaysOver lies_over self.old self.new };

    /// Writes three texts as if they were one. By default it writes from the first text only; a
    /// connection that supports gathered writes does not copy them.
    fn write_together(
        &mut self,
        first: &[u8],
        second: &[u8],
        third: &[u8],
    ) -> Result<usize, StreamError>
        requires { 0 < length first.now }
        ensures bound { WritesAtMost result (first.now ++ second.now ++ third.now) }
        ensures seen { seen self.new
            ≡ after_write result (first.now ++ second.now ++ third.now) (seen self.old) }
        ensures stays { StaysOver lies_over self.old self.new }
    {
        self.write(first)
    }

    /// Sends what is held back, if anything is. An error is a write fault.
    fn flush(&mut self) -> Result<(), StreamError>
        ensures seen { seen self.new ≡ after_flush result (seen self.old) }
        ensures stays { StaysOver lies_over self.old self.new };

    /// Returns true if the connection has buffered bytes, so that the next read returns them
    /// without waiting.
    fn has_unread(&self) -> bool {
        false
    }

    /// A hint: if `more`, more will be written soon, so that small writes may go out together;
    /// otherwise everything that was written is sent. A connection that can't use it does nothing.
    fn expect_more(&mut self, more: bool)
        ensures seen { seen self.new ≡ seen self.old }
        ensures stays { StaysOver lies_over self.old self.new }
    {}

    /// Returns false if a read would only report that there are no bytes yet, as far as the
    /// connection knows.
    fn may_give(&self) -> bool
        ensures { result ≡ false → may_give self.now ≡ false }
    {
        true
    }

    /// Returns false if a write would only report that there is no room yet, as far as the
    /// connection knows.
    fn may_take(&self) -> bool
        ensures { result ≡ false → may_take self.now ≡ false }
    {
        true
    }

    /// Swaps the connection's own read buffer with this one if both are empty. A connection without
    /// a buffer does nothing. So many connections can share one buffer, and a connection keeps one
    /// only while it has bytes in it.
    fn exchange(&mut self, _buffer: &mut ReadBuffer)
        ensures seen { seen self.new ≡ seen self.old }
        ensures stays { StaysOver lies_over self.old self.new }
    {}

    /// Records what the system reported about the connection's readiness. A connection that is not
    /// watched does nothing.
    fn note_ready(&mut self, _ready: Readiness)
        ensures seen { seen self.new ≡ seen self.old }
        ensures stays { StaysOver lies_over self.old self.new }
    {}

    /// A connection over a stream that may not fail has met no fault.
    ghost no_fault: { (first : StreamSeen) (line : Self) → lies_over first line → first.may_fail ≡ false
        → (seen line).fault ≡ None };
}

/// What a stream is ready for, as far as that is known.
#[derive(Clone, Copy, PartialEq, Eq)]
pub struct Readiness {
    /// There may be bytes to read, or the end of the input.
    pub reads: bool,
    /// There may be room for bytes.
    pub writes: bool,
    /// A read that leaves room in its buffer may not have taken all that came. The client sends no
    /// more, so that the end of the input follows; or it sent urgent data, at which a read stops.
    pub is_closing: bool,
}

impl Readiness {
    /// The state of a stream before its first event: it has room for bytes.
    pub const NEW: Readiness = Readiness {
        reads: false,
        writes: true,
        is_closing: false,
    };

    /// Combines what is known with what was reported now. Once the end of the input or urgent data
    /// is reported, a read is worth a call.
    pub fn and(self, more: Readiness) -> Readiness
        ensures { result ≡ both self more }
    {
        Readiness {
            reads: self.reads || more.reads || more.is_closing,
            writes: self.writes || more.writes,
            is_closing: self.is_closing || more.is_closing,
        }
    }

    /// Returns what is known after a read into a buffer of this many bytes. A read that leaves room
    /// took all bytes that there were. A read that was interrupted took nothing, and no event
    /// follows it, so it has to be repeated.
    pub fn after_read(self, came: &Result<usize, StreamError>, room: usize) -> Readiness
        ensures bytes { result.reads ≡ not (found_all self.is_closing came.now room) }
        ensures rest { result ≡ record self { reads = result.reads } }
    {
        let took_all = match came {
            Ok(count) => *count < room && !self.is_closing,
            Err(_) => found_nothing(came),
        };
        Readiness {
            reads: !took_all,
            writes: self.writes,
            is_closing: self.is_closing,
        }
    }

    /// Returns what is known after a write. A write that was interrupted left the room as it was,
    /// and has to be repeated.
    pub fn after_write(self, took: &Result<usize, StreamError>) -> Readiness
        ensures room { result.writes ≡ not (found_nothing took.now) }
        ensures rest { result ≡ record self { writes = result.writes } }
    {
        let found_no_room = found_nothing(took);
        Readiness {
            reads: self.reads,
            writes: !found_no_room,
            is_closing: self.is_closing,
        }
    }
}

// Returns true if a call found no bytes or no room.
fn found_nothing(came: &Result<usize, StreamError>) -> bool
    ensures { result ≡ found_nothing came.now }
{
    matches!(came, Err(StreamError::NotYet))
}

// Records the first fault of a connection; later ones are dropped.
fn note_fault(first: &mut Option<LineFault>, fault: LineFault)
    ensures { first.new ≡ first_fault first.old fault }
{
    if first.is_none() {
        *first = Some(fault);
    }
}

// Copies as many bytes as there is room for, and returns how many.
fn copy_first(bytes: &[u8], buf: &mut [u8]) -> usize
    ensures count { result ≡ min (length bytes.now) (length buf.old) }
    ensures copied { take result buf.new ≡ take result bytes.now }
{
    let count = bytes.len().min(buf.len());
    buf[..count].copy_from_slice(&bytes[..count]);
    count
}
