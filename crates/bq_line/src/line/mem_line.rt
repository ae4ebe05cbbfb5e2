ghost use Rattle.std.specs.Prelude.{◌≡◌, ◌≤◌, ◌<◌, ◌+◌, length, vec_len, min, slice_get, IfOk, IsOk, IsErr, IfSome, false, true};
ghost use Rattle.std.specs.Io.{ReadsAtMost, WritesAtMost};
ghost use Rattle.std.specs.Vec.{vec_capacity};
ghost use Rattle.bq_line.specs.LineCalls.{after_flush, after_read, after_write, new_line};
ghost use Rattle.bq_line.specs.LineParts.{IsAnsweredBy, bytes_up_to, is_over, open_place, place_after};
ghost use Rattle.bq_line.specs.Streams.{StaysOver};

use super::{Line, StreamError, copy_first, note_fault};
use bq_job::{LineFault, NoMemory};
use std::alloc::Global;

/// A part of what a client in memory does.
#[derive(Drop)]
pub enum Part {
    /// It sends these bytes. A part without bytes is skipped; it does not end the input.
    Bytes(Vec<u8, Global>),
    /// It sends no more until this many bytes were written to it.
    AfterWritten(usize),
    /// Its connection fails: one read returns a fault.
    Fault,
}

/// A connection to a client in memory: a list of parts, after which the input ends, and room for
/// the bytes that are written.
#[derive(Drop)]
pub struct MemLine {
    parts: Vec<Part, Global>,
    // How many parts are done, and how many bytes of the next one were read.
    place: usize,
    offset: usize,
    written: Vec<u8, Global>,
    // How many bytes can still be written.
    room: usize,
    ended: bool,
    fault: Option<LineFault>,
    ghost fits: { vec_len written + room ≤ vec_capacity written },
    // Its input has ended only if no part is left.
    ghost none_left: { ended ≡ true → vec_len parts ≤ place },
}

impl MemLine {
    ghost use Rattle.bq_line.specs.MemDoors.{KeepsPartsAndRoom};

    /// Returns a connection with these parts, to which `room` bytes can be written. Returns
    /// `NoMemory` if the allocation of that room fails.
    #[tactic(auto, using(crate::proofs::PartLemmas::at_first))]
    pub fn new(alloc: Global, parts: Vec<Part, Global>, room: usize) -> Result<MemLine, NoMemory>
        ensures parts { IfOk result (λ line. line.parts ≡ parts) }
        ensures room { IfOk result (λ line. line.room ≡ room) }
        ensures unused { IfOk result (λ line. ⟦<MemLine as Line>⟧.seen line ≡ new_line) }
        ensures at_first { IfOk result (λ line. (line.place ≡ 0) × (line.offset ≡ 0)) }
    {
        match Vec::with_capacity(alloc, room) {
            Ok(written) => Ok(MemLine {
                parts,
                place: 0,
                offset: 0,
                written,
                room,
                ended: false,
                fault: None,
            }),
            Err(_) => Err(NoMemory),
        }
    }

    /// Returns the bytes that were written to the connection.
    pub fn written(&self) -> &[u8]
        ensures { result.now ≡ self.now.written.items }
    {
        self.written.as_slice()
    }

    // Skips the parts that are done.
    fn pass_parts(&mut self)
        ensures seen { ⟦<MemLine as Line>⟧.seen self.new ≡ ⟦<MemLine as Line>⟧.seen self.old }
        ensures open { IfSome (slice_get self.new.parts.items self.new.place)
            (λ part. is_over self.new.offset (vec_len self.new.written) part ≡ false) }
        ensures place { self.new.place
            ≡ open_place self.old.parts.items self.old.place self.old.offset
            (vec_len self.old.written) }
        ensures kept { KeepsPartsAndRoom self.old self.new }
    {
        let (place, offset) = next_open(&self.parts, self.place, self.offset, self.written.len());
        self.place = place;
        self.offset = offset;
    }

    // Reads from the next part, which isn't done.
    #[tactic(auto, using(crate::proofs::PartLemmas::reads))]
    fn read_part(&mut self, buf: &mut [u8]) -> Result<usize, StreamError>
        requires some { 0 < length buf.old }
        requires open { IfSome (slice_get self.old.parts.items self.old.place)
            (λ part. is_over self.old.offset (vec_len self.old.written) part ≡ false) }
        ensures bound { ReadsAtMost result buf.new }
        ensures seen { ⟦<MemLine as Line>⟧.seen self.new
            ≡ after_read result buf.new (⟦<MemLine as Line>⟧.seen self.old) }
        ensures answered { IsAnsweredBy (slice_get self.old.parts.items self.old.place) result }
        ensures place { self.new.place
            ≡ place_after (slice_get self.old.parts.items self.old.place) self.old.place }
        ensures kept { KeepsPartsAndRoom self.old self.new }
    {
        match self.parts.get(self.place) {
            None => {
                self.ended = true;
                Ok(0)
            }
            Some(Part::Bytes(bytes)) => {
                let count = copy_first(&bytes[self.offset..], buf);
                self.offset += count;
                Ok(count)
            }
            Some(Part::AfterWritten(_)) => Err(StreamError::NotYet),
            Some(Part::Fault) => {
                self.place += 1;
                self.offset = 0;
                note_fault(&mut self.fault, LineFault::Read);
                Err(StreamError::Fault)
            }
        }
    }
}

impl Line for MemLine {
    ghost use Rattle.std.specs.Prelude.{[], Some};
    ghost use Rattle.bq_line.specs.Streams.{not_both};
    ghost use Rattle.bq_line.specs.LineParts.{all_bytes};
    ghost use Rattle.bq_line.specs.MemDoors.{ReadsNextPart, seen_of};

    ghost seen = { λ line. seen_of line };

    // Its stream consists of the bytes of its parts, and nothing had been written to it. A part may be
    // a fault.
    ghost lies_over = { λ first line. first ≡ record { left = Some (all_bytes line.parts.items); held = Some []; may_fail = true } };

    // It has no buffer of its own.
    ghost unread = { λ line. [] };

    fn read(&mut self, buf: &mut [u8]) -> Result<usize, StreamError>
        requires { 0 < length buf.old }
        ensures bound { ReadsAtMost result buf.new }
        ensures seen { ⟦<MemLine as Line>⟧.seen self.new
            ≡ after_read result buf.new (⟦<MemLine as Line>⟧.seen self.old) }
        ensures stays { StaysOver ⟦<MemLine as Line>⟧.lies_over self.old self.new }
        ensures next { ReadsNextPart self.old result self.new }
    {
        self.pass_parts();
        self.read_part(buf)
    }

    // A client in memory never has to be waited for.
    fn read_now(&mut self, buf: &mut [u8]) -> Result<usize, StreamError>
        requires { 0 < length buf.old }
        ensures bound { ReadsAtMost result buf.new }
        ensures seen { ⟦<MemLine as Line>⟧.seen self.new
            ≡ after_read result buf.new (⟦<MemLine as Line>⟧.seen self.old) }
        ensures stays { StaysOver ⟦<MemLine as Line>⟧.lies_over self.old self.new }
        ensures next { ReadsNextPart self.old result self.new }
    {
        self.read(buf)
    }

    fn unread(&self) -> &[u8] {
        &[]
    }

    fn take_unread(&mut self, _count: usize) {}

    fn write(&mut self, buf: &[u8]) -> Result<usize, StreamError>
        requires { 0 < length buf.now }
        ensures bound { WritesAtMost result buf.now }
        ensures seen { ⟦<MemLine as Line>⟧.seen self.new
            ≡ after_write result buf.now (⟦<MemLine as Line>⟧.seen self.old) }
        ensures stays { StaysOver ⟦<MemLine as Line>⟧.lies_over self.old self.new }
        // As many bytes as fit are taken. A write fails only if no byte fits.
        ensures taken { IfOk result
            (λ count. (count ≡ min (length buf.now) self.old.room)
            × (self.new.room + count ≡ self.old.room)) }
        ensures full { IsErr result → (self.old.room ≡ 0) × (self.new.room ≡ 0) }
        ensures parts { (self.new.parts ≡ self.old.parts)
            × (self.new.place ≡ self.old.place) × (self.new.offset ≡ self.old.offset) }
    {
        let count = buf.len().min(self.room);
        if count == 0 {
            note_fault(&mut self.fault, LineFault::Write);
            return Err(StreamError::Fault);
        }
        let _fits = self.written.extend_from_slice(&buf[..count]);
        self.room -= count;
        Ok(count)
    }

    fn flush(&mut self) -> Result<(), StreamError>
        ensures seen { ⟦<MemLine as Line>⟧.seen self.new
            ≡ after_flush result (⟦<MemLine as Line>⟧.seen self.old) }
        ensures stays { StaysOver ⟦<MemLine as Line>⟧.lies_over self.old self.new }
        ensures nothing { IsOk result × (self.new ≡ self.old) }
    {
        Ok(())
    }

    ghost no_fault = { λ first line is never. not_both first.may_fail (λ i. (is i).may_fail) never };
}

// Returns true if a part is done, given how many of its bytes were read and how many bytes were
// written to the connection.
fn is_over(part: &Part, offset: usize, written: usize) -> bool
    ensures { result ≡ is_over offset written part.now }
{
    match part {
        Part::Bytes(bytes) => bytes.len() <= offset,
        Part::AfterWritten(count) => *count <= written,
        Part::Fault => false,
    }
}

// Returns the place and the offset at which the connection continues, after skipping parts that are
// done.
#[tactic(auto, using(crate::proofs::PartLemmas::skips))]
fn next_open(parts: &[Part], place: usize, offset: usize, written: usize) -> (usize, usize)
    ensures same { bytes_up_to parts.now result.0 result.1 ≡ bytes_up_to parts.now place offset }
    ensures open { IfSome (slice_get parts.now result.0)
        (λ part. is_over result.1 written part ≡ false) }
    ensures place { result.0 ≡ open_place parts.now place offset written }
{
    let mut at = place;
    let mut from = offset;
    while at < parts.len() && is_over(&parts[at], from, written) {
        at += 1;
        from = 0;
    }
    (at, from)
}
