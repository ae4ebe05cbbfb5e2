ghost use Rattle.std.specs.Prelude.{◌≡◌, ◌<◌, [], None, OnErr, false, if◌then◌else◌, length, take, true, ◌++◌};
ghost use Rattle.std.specs.Io.{ReadsAtMost};
ghost use Rattle.bq_line.specs.LineCalls.{after_flush, after_read, after_write, is_nothing_yet, with_line_fault};
ghost use Rattle.bq_line.specs.Streams.{MovesNothing, ReadsFrom, StaysOver, WritesTo, stream_seen};

use crate::line::stream::{Duplex, ReadBuffer, fill, read_by, read_through};
use crate::line::{Line, Readiness, StreamError, note_fault};
use boxcar::tag::{Names, Tag};
use bq_job::LineFault;
use std::marker::Model;
use std::mem;

/// A connection over any stream. Besides the stream it keeps two flags, and records of the bytes
/// that the stream's reads returned and its writes took; these records take no memory.
#[derive(Drop)]
pub struct IoLine<S> {
    stream: S,
    ended: bool,
    fault: Option<LineFault>,
    read: ByteRecord,
    written: ByteRecord,
}

impl<S: Duplex> IoLine<S> {
    /// Returns an unused connection over this stream.
    pub fn new(stream: S) -> IoLine<S>
        ensures new { result
            ≡ record { stream = stream; ended = false; fault = None; read = []; written = [] } }
        ensures over { ⟦<IoLine<S> as Line>⟧.lies_over (stream_seen S.remaining S.contents S.may_fail stream) result }
    {
        IoLine {
            stream,
            ended: false,
            fault: None,
            read: ByteRecord::new(),
            written: ByteRecord::new(),
        }
    }

    // Records the result of a read.
    fn note_read(&mut self, came: &Result<usize, StreamError>, buf: &[u8])
        requires { ReadsAtMost came.now buf.now }
        ensures seen { ⟦<IoLine<S> as Line>⟧.seen self.new
            ≡ after_read came.now buf.now (⟦<IoLine<S> as Line>⟧.seen self.old) }
        ensures stream { self.new.stream ≡ self.old.stream }
    {
        match came {
            Ok(0) => self.ended = true,
            Ok(count) => self.read.note(&buf[..*count]),
            Err(e) => self.note_error(*e, LineFault::Read),
        }
    }

    // Records that a call failed, unless there were merely no bytes yet, or no room yet.
    fn note_error(&mut self, e: StreamError, fault: LineFault)
        ensures seen { ⟦<IoLine<S> as Line>⟧.seen self.new ≡ (if is_nothing_yet e then ⟦<IoLine<S> as Line>⟧.seen self.old
            else with_line_fault fault (⟦<IoLine<S> as Line>⟧.seen self.old)) }
        ensures stream { self.new.stream ≡ self.old.stream }
    {
        if !e.is_nothing_yet() {
            note_fault(&mut self.fault, fault);
        }
    }

    // Reads the stream once; `waits` says whether that may wait.
    fn read_by(&mut self, buf: &mut [u8], waits: bool) -> Result<usize, StreamError>
        requires { 0 < length buf.old }
        ensures seen { ⟦<IoLine<S> as Line>⟧.seen self.new
            ≡ after_read result buf.new (⟦<IoLine<S> as Line>⟧.seen self.old) }
        ensures stream { let at = stream_seen S.remaining S.contents S.may_fail in ReadsFrom (at self.old.stream) result buf.new (at self.new.stream) }
        ensures stays { StaysOver ⟦<IoLine<S> as Line>⟧.lies_over self.old self.new }
    {
        let result = read_by(&mut self.stream, buf, waits);
        self.note_read(&result, buf);
        result
    }
}

impl<S> IoLine<S> {
    /// Returns the stream, whatever was done on the connection.
    pub fn into_stream(self) -> S
        ensures { result ≡ self.stream }
    {
        self.stream
    }
}

// The `stream` clauses tie each call to the stream: if the stream's remaining and written bytes are
// known, a connection that returns other bytes than its stream, or does not call it, violates them.
// The `stays` clauses tie the whole connection to the stream that it was made over, and its fault
// too: a connection that reports one without its stream violates them.
impl<S: Duplex> Line for IoLine<S> {
    ghost use Rattle.std.specs.Prelude.{[]};
    ghost use Rattle.bq_line.specs.Streams.{LiesOver};

    ghost seen = { λ line. record { read = line.read; written = line.written; ended = line.ended; fault = line.fault } };

    ghost lies_over = { λ first line. LiesOver first
        (record { read = line.read; written = line.written; ended = line.ended; fault = line.fault })
        (stream_seen S.remaining S.contents S.may_fail line.stream) };

    // It has no buffer of its own.
    ghost unread = { λ line. [] };

    ghost may_give = { λ line. S.may_give line.stream };

    ghost may_take = { λ line. S.may_take line.stream };

    fn read(&mut self, buf: &mut [u8]) -> Result<usize, StreamError>
        requires { 0 < length buf.old }
        ensures seen { ⟦<IoLine<S> as Line>⟧.seen self.new
            ≡ after_read result buf.new (⟦<IoLine<S> as Line>⟧.seen self.old) }
        ensures stream { let at = stream_seen S.remaining S.contents S.may_fail in ReadsFrom (at self.old.stream) result buf.new (at self.new.stream) }
        ensures stays { StaysOver ⟦<IoLine<S> as Line>⟧.lies_over self.old self.new }
    {
        self.read_by(buf, true)
    }

    fn read_now(&mut self, buf: &mut [u8]) -> Result<usize, StreamError>
        requires { 0 < length buf.old }
        ensures seen { ⟦<IoLine<S> as Line>⟧.seen self.new
            ≡ after_read result buf.new (⟦<IoLine<S> as Line>⟧.seen self.old) }
        ensures stream { let at = stream_seen S.remaining S.contents S.may_fail in ReadsFrom (at self.old.stream) result buf.new (at self.new.stream) }
        ensures stays { StaysOver ⟦<IoLine<S> as Line>⟧.lies_over self.old self.new }
    {
        self.read_by(buf, false)
    }

    fn unread(&self) -> &[u8] {
        &[]
    }

    fn take_unread(&mut self, _count: usize) {}

    #[inline(always)]
    fn write(&mut self, buf: &[u8]) -> Result<usize, StreamError>
        requires { 0 < length buf.now }
        ensures seen { ⟦<IoLine<S> as Line>⟧.seen self.new
            ≡ after_write result buf.now (⟦<IoLine<S> as Line>⟧.seen self.old) }
        ensures stream { let at = stream_seen S.remaining S.contents S.may_fail in WritesTo (at self.old.stream) result buf.now buf.now (at self.new.stream) }
        ensures stays { StaysOver ⟦<IoLine<S> as Line>⟧.lies_over self.old self.new }
    {
        let result = self.stream.write(buf);
        match &result {
            Ok(0) => note_fault(&mut self.fault, LineFault::Write),
            Ok(count) => self.written.note(&buf[..*count]),
            Err(e) => self.note_error(*e, LineFault::Write),
        }
        result
    }

    fn write_together(
        &mut self,
        first: &[u8],
        second: &[u8],
        third: &[u8],
    ) -> Result<usize, StreamError>
        requires { 0 < length first.now }
        ensures seen { ⟦<IoLine<S> as Line>⟧.seen self.new
            ≡ after_write result (first.now ++ second.now ++ third.now) (⟦<IoLine<S> as Line>⟧.seen self.old) }
        ensures stream { let at = stream_seen S.remaining S.contents S.may_fail in
            WritesTo (at self.old.stream) result first.now (first.now ++ second.now ++ third.now) (at self.new.stream) }
        ensures stays { StaysOver ⟦<IoLine<S> as Line>⟧.lies_over self.old self.new }
    {
        let result = self.stream.write_together(first, second, third);
        match &result {
            Ok(0) => note_fault(&mut self.fault, LineFault::Write),
            Ok(count) => self.written.note_together(*count, first, second, third),
            Err(e) => self.note_error(*e, LineFault::Write),
        }
        result
    }

    fn flush(&mut self) -> Result<(), StreamError>
        ensures seen { ⟦<IoLine<S> as Line>⟧.seen self.new
            ≡ after_flush result (⟦<IoLine<S> as Line>⟧.seen self.old) }
        ensures stream { let at = stream_seen S.remaining S.contents S.may_fail in MovesNothing (at self.old.stream) (at self.new.stream) }
        ensures fault { OnErr result (S.may_fail self.old.stream ≡ true) }
        ensures stays { StaysOver ⟦<IoLine<S> as Line>⟧.lies_over self.old self.new }
    {
        let result = self.stream.flush();
        if result.is_err() {
            note_fault(&mut self.fault, LineFault::Write);
        }
        result
    }

    fn expect_more(&mut self, more: bool)
        ensures seen { ⟦<IoLine<S> as Line>⟧.seen self.new ≡ ⟦<IoLine<S> as Line>⟧.seen self.old }
        ensures stream { let at = stream_seen S.remaining S.contents S.may_fail in MovesNothing (at self.old.stream) (at self.new.stream) }
        ensures stays { StaysOver ⟦<IoLine<S> as Line>⟧.lies_over self.old self.new }
    {
        self.stream.expect_more(more);
    }

    fn may_give(&self) -> bool {
        self.stream.may_give()
    }

    fn may_take(&self) -> bool {
        self.stream.may_take()
    }

    fn note_ready(&mut self, ready: Readiness)
        ensures seen { ⟦<IoLine<S> as Line>⟧.seen self.new ≡ ⟦<IoLine<S> as Line>⟧.seen self.old }
        ensures stream { let at = stream_seen S.remaining S.contents S.may_fail in MovesNothing (at self.old.stream) (at self.new.stream) }
        ensures stays { StaysOver ⟦<IoLine<S> as Line>⟧.lies_over self.old self.new }
    {
        self.stream.note_ready(ready);
    }

    ghost no_fault = { λ first line over. over.fault };
}

/// A connection over a stream that can be read through a buffer of the connection's own. Buffered
/// bytes are lent to the caller, so that they need not be copied. The stream is read only if the
/// buffer is empty: into it by `fill`, for as many bytes as fit, and past it by `read`. Writes go to
/// the stream at once.
#[derive(Drop)]
pub struct BufferedLine<S> {
    line: IoLine<S>,
    came: ReadBuffer,
}

impl<S: Duplex> BufferedLine<S> {
    /// Returns an unused connection over this stream. The contents of the buffer are dropped.
    #[tactic(auto, using(crate::proofs::StreamLemmas::over_buffered))]
    pub fn new(stream: S, mut came: ReadBuffer) -> BufferedLine<S>
        ensures new { result ≡ record {
          line = record { stream = stream; ended = false; fault = None; read = []; written = [] };
          came = [];
        } }
        ensures over { ⟦<BufferedLine<S> as Line>⟧.lies_over (stream_seen S.remaining S.contents S.may_fail stream) result }
    {
        came.clear();
        BufferedLine {
            line: IoLine::new(stream),
            came,
        }
    }

    // Reads from the buffer once or, if it is empty, from the stream past it.
    fn read_by(&mut self, buf: &mut [u8], waits: bool) -> Result<usize, StreamError>
        requires { 0 < length buf.old }
        ensures bound { ReadsAtMost result buf.new }
        ensures seen { ⟦<BufferedLine<S> as Line>⟧.seen self.new
            ≡ after_read result buf.new (⟦<BufferedLine<S> as Line>⟧.seen self.old) }
        ensures stays { StaysOver ⟦<BufferedLine<S> as Line>⟧.lies_over self.old self.new }
    {
        let result = read_through(&mut self.came, &mut self.line.stream, buf, waits);
        self.line.note_read(&result, buf);
        result
    }
}

impl<S> BufferedLine<S> {
    /// Returns the buffer, whatever was done on the connection, and drops the stream.
    pub fn into_buffer(self) -> ReadBuffer
    where
        S: Drop,
        ensures { result ≡ self.came }
    {
        self.came
    }
}

impl<S: Duplex> Line for BufferedLine<S> {
    ghost use Rattle.std.specs.Prelude.{◌==◌, ◌||◌, not};
    ghost use Rattle.bq_line.specs.Streams.{LiesOver, behind};

    ghost seen = { λ line. ⟦<IoLine<S> as Line>⟧.seen line.line };

    // The buffered bytes come before those that the stream has left.
    ghost lies_over = { λ first line. LiesOver first (⟦<IoLine<S> as Line>⟧.seen line.line)
        (behind line.came (stream_seen S.remaining S.contents S.may_fail line.line.stream)) };

    ghost unread = { λ line. line.came };

    ghost may_give = { λ line. not (length line.came == 0) || S.may_give line.line.stream };

    ghost may_take = { λ line. S.may_take line.line.stream };

    fn read(&mut self, buf: &mut [u8]) -> Result<usize, StreamError> {
        self.read_by(buf, true)
    }

    fn read_now(&mut self, buf: &mut [u8]) -> Result<usize, StreamError> {
        self.read_by(buf, false)
    }

    fn fill(&mut self, waits: bool) -> Result<(), StreamError> {
        let result = fill(&mut self.came, &mut self.line.stream, waits);
        if let Err(e) = &result {
            self.line.note_error(*e, LineFault::Read);
        }
        result
    }

    fn unread(&self) -> &[u8] {
        self.came.as_slice()
    }

    fn take_unread(&mut self, count: usize) {
        let came = self.came.as_slice();
        self.line.read.note(&came[..count]);
        self.came.drop_front(count);
    }

    #[inline(always)]
    fn write(&mut self, buf: &[u8]) -> Result<usize, StreamError> {
        self.line.write(buf)
    }

    fn write_together(
        &mut self,
        first: &[u8],
        second: &[u8],
        third: &[u8],
    ) -> Result<usize, StreamError> {
        self.line.write_together(first, second, third)
    }

    fn flush(&mut self) -> Result<(), StreamError> {
        self.line.flush()
    }

    fn has_unread(&self) -> bool {
        !self.came.is_empty()
    }

    fn expect_more(&mut self, more: bool) {
        self.line.expect_more(more);
    }

    fn may_give(&self) -> bool {
        !self.came.is_empty() || self.line.may_give()
    }

    fn may_take(&self) -> bool {
        self.line.may_take()
    }

    // Buffered bytes would be lost with the buffer.
    fn exchange(&mut self, buffer: &mut ReadBuffer) {
        if self.came.is_empty() && buffer.is_empty() {
            mem::swap(&mut self.came, buffer);
        }
    }

    fn note_ready(&mut self, ready: Readiness) {
        self.line.note_ready(ready);
    }

    ghost no_fault = { λ first line over. over.fault };
}

/// The bytes that went over a connection, for proofs: it takes no memory, and its methods do
/// nothing at run time.
#[derive(Drop)]
pub struct ByteRecord {
    tag: Tag,
}

impl Model for ByteRecord {
    ghost use Rattle.std.specs.Prelude.{List, ℕ};

    ghost Value = { List ℕ };

    ghost view = { λ r. r.tag.numbers };
}

impl ByteRecord {
    /// Returns a record without bytes.
    pub fn new() -> ByteRecord
        ensures { result ≡ [] }
    {
        ByteRecord { tag: Tag::empty() }
    }

    /// Adds bytes that went over the connection.
    pub fn note(&mut self, bytes: &[u8])
        ensures { self.new ≡ self.old ++ bytes.now }
    {
        self.tag = with_bytes(&self.tag, bytes);
    }

    // Adds the first `count` bytes of three texts that went over the connection.
    #[tactic(auto, using(crate::proofs::TogetherLemmas::taken_together))]
    fn note_together(&mut self, count: usize, first: &[u8], second: &[u8], third: &[u8])
        ensures { self.new ≡ self.old ++ take count (first.now ++ second.now ++ third.now) }
    {
        let behind_first = count.saturating_sub(first.len());
        let behind_second = behind_first.saturating_sub(second.len());
        self.note(first_bytes(count, first));
        self.note(first_bytes(behind_first, second));
        self.note(first_bytes(behind_second, third));
    }
}

// Returns the first `count` bytes, or all if there are fewer.
fn first_bytes(count: usize, bytes: &[u8]) -> &[u8]
    ensures { result.now ≡ take count bytes.now }
{
    &bytes[..count.min(bytes.len())]
}

// A tag and more numbers.
#[derive(Clone, Copy)]
struct Longer<'a> {
    tag: &'a Tag,
    bytes: &'a [u8],
}

struct Joined;

impl<'a> Names<Longer<'a>> for Joined {
    ghost use Rattle.std.specs.Prelude.{◌++◌};

    ghost numbers = { λ l. l.tag.now.numbers ++ l.bytes.now };
}

fn with_bytes(tag: &Tag, bytes: &[u8]) -> Tag
    ensures { result.numbers ≡ tag.now.numbers ++ bytes.now }
{
    Tag::of::<Longer<'_>, Joined>(&Longer { tag, bytes })
}
