//! Streams in both directions: what a connection is built on, and how a stream is read into a
//! buffer.
ghost use Rattle.std.specs.Prelude.{◌≡◌, ℕ, [], Bool, OnErr, OnOk, List, None, Option, ◌++◌};
ghost use Rattle.std.specs.Prelude.{drop, false, length, min, take, true};
ghost use Rattle.std.specs.Io.KnownBytes.{IsAtEnd};
ghost use Rattle.bq_line.specs.Streams.{FailsIf, MovesNothing, ReadsFrom, WritesTo, behind, stream_seen};

use super::{Readiness, StreamError, copy_first};
use bq_seat::ByteBuffer;

/// A stream that is read and written, with independent directions: a read does not change what was
/// written, and a write does not change what is left to read. The contracts of the standard
/// library's `Read` and `Write` cover one direction each.
pub trait Duplex {
    /// The bytes that reads will return from here on, if they are known.
    ghost remaining: { Self → Option (List ℕ) } = { λ _. None };

    /// The bytes that were written, if they are known.
    ghost contents: { Self → Option (List ℕ) } = { λ _. None };

    /// Whether a call of it may fail.
    ghost may_fail: { Self → Bool };

    /// False if a read would only report that there are no bytes yet, as far as the stream knows.
    ghost may_give: { Self → Bool } = { λ _. true };

    /// False if a write would only report that there is no room yet, as far as the stream knows.
    ghost may_take: { Self → Bool } = { λ _. true };

    /// Reads as `std::io::Read` does.
    fn read(&mut self, buf: &mut [u8]) -> Result<usize, StreamError>
        ensures { let at = stream_seen remaining contents may_fail in ReadsFrom (at self.old) result buf.new (at self.new) };

    /// Reads as `read` does, but returns `NotYet` where that would wait for bytes. A stream
    /// without such a read uses `read`, so the caller must be prepared to wait.
    fn read_now(&mut self, buf: &mut [u8]) -> Result<usize, StreamError>
        ensures { let at = stream_seen remaining contents may_fail in ReadsFrom (at self.old) result buf.new (at self.new) }
    {
        self.read(buf)
    }

    /// Writes as `std::io::Write` does.
    fn write(&mut self, buf: &[u8]) -> Result<usize, StreamError>
        ensures { let at = stream_seen remaining contents may_fail in WritesTo (at self.old) result buf.now buf.now (at self.new) };

    /// Writes a first part of three texts, as `write` does for the text that they form together. By
    /// default it writes from the first text only; a stream with gathered writes does not copy
    /// them.
    fn write_together(
        &mut self,
        first: &[u8],
        second: &[u8],
        third: &[u8],
    ) -> Result<usize, StreamError>
        ensures { let at = stream_seen remaining contents may_fail in
            WritesTo (at self.old) result first.now (first.now ++ second.now ++ third.now) (at self.new) }
    {
        self.write(first)
    }

    /// Sends what is held back, as `std::io::Write` does.
    fn flush(&mut self) -> Result<(), StreamError>
        ensures moves { let at = stream_seen remaining contents may_fail in MovesNothing (at self.old) (at self.new) }
        ensures fault { OnErr result (may_fail self.old ≡ true) };

    /// A hint whether more will be written soon, so that small writes may go out together. It does
    /// not change which bytes were written, and a stream that can't use it does nothing.
    fn expect_more(&mut self, more: bool)
        ensures { let at = stream_seen remaining contents may_fail in MovesNothing (at self.old) (at self.new) }
    {}

    /// Returns false if a read would only report that there are no bytes yet, as far as the stream
    /// knows.
    fn may_give(&self) -> bool
        ensures { result ≡ false → may_give self.now ≡ false }
    {
        true
    }

    /// Returns false if a write would only report that there is no room yet, as far as the stream
    /// knows.
    fn may_take(&self) -> bool
        ensures { result ≡ false → may_take self.now ≡ false }
    {
        true
    }

    /// Records what the system reported about the stream's readiness. A stream that is not watched
    /// does nothing.
    fn note_ready(&mut self, _ready: Readiness)
        ensures { let at = stream_seen remaining contents may_fail in MovesNothing (at self.old) (at self.new) }
    {}
}

/// Reads a stream once; `waits` says whether that may wait for bytes.
#[inline(always)]
pub fn read_by<S: Duplex>(stream: &mut S, buf: &mut [u8], waits: bool) -> Result<usize, StreamError>
    ensures { let at = stream_seen S.remaining S.contents S.may_fail in ReadsFrom (at stream.old) result buf.new (at stream.new) }
{
    if waits {
        stream.read(buf)
    } else {
        stream.read_now(buf)
    }
}

/// The largest number of bytes that one read of a stream takes into a buffer.
pub const READ_ROOM: usize = 65536;

/// Bytes that a stream returned and no caller has taken yet.
pub type ReadBuffer = ByteBuffer<READ_ROOM>;

/// Reads the stream into the buffer once if the buffer is empty. `waits` says whether that may wait
/// for bytes.
#[inline(always)]
pub fn fill<S: Duplex>(
    buffer: &mut ReadBuffer,
    stream: &mut S,
    waits: bool,
) -> Result<(), StreamError>
    ensures moves { let at = stream_seen S.remaining S.contents S.may_fail in
        MovesNothing (behind buffer.old (at stream.old)) (behind buffer.new (at stream.new)) }
    ensures end { OnOk result (buffer.new ≡ [] → IsAtEnd (S.remaining stream.new)) }
    ensures fault { FailsIf (S.may_fail stream.old) result }
{
    if buffer.is_empty() {
        refill(buffer, stream, waits)
    } else {
        Ok(())
    }
}

/// Reads from the buffer. If it is empty, reads the stream once, past the buffer.
pub fn read_through<S: Duplex>(
    buffer: &mut ReadBuffer,
    stream: &mut S,
    buf: &mut [u8],
    waits: bool,
) -> Result<usize, StreamError>
    ensures { let at = stream_seen S.remaining S.contents S.may_fail in
        ReadsFrom (behind buffer.old (at stream.old)) result buf.new (behind buffer.new (at stream.new)) }
{
    if buffer.is_empty() {
        read_by(stream, buf, waits)
    } else {
        Ok(give(buffer, buf))
    }
}

// Moves as many bytes as possible from the front of the buffer into `buf`, and returns how many.
fn give(buffer: &mut ReadBuffer, buf: &mut [u8]) -> usize
    ensures count { result ≡ min (length buffer.old) (length buf.old) }
    ensures given { take result buf.new ≡ take result buffer.old }
    ensures left { buffer.new ≡ drop result buffer.old }
{
    let count = copy_first(buffer.as_slice(), buf);
    buffer.drop_front(count);
    count
}

// Reads the stream into the whole room of an empty buffer, and keeps what came.
fn refill<S: Duplex>(
    buffer: &mut ReadBuffer,
    stream: &mut S,
    waits: bool,
) -> Result<(), StreamError>
    requires { buffer.old ≡ [] }
    ensures moves { let at = stream_seen S.remaining S.contents S.may_fail in MovesNothing (at stream.old) (behind buffer.new (at stream.new)) }
    ensures end { OnOk result (buffer.new ≡ [] → IsAtEnd (S.remaining stream.new)) }
    ensures fault { FailsIf (S.may_fail stream.old) result }
{
    buffer.make_full();
    match read_by(stream, buffer.as_mut_slice(), waits) {
        Ok(count) => {
            buffer.truncate(count);
            Ok(())
        }
        Err(e) => {
            buffer.clear();
            Err(e)
        }
    }
}
