//! How a seat reads its connection and writes answers to it: the buffers of a seat, from which
//! answers are written, and into which the connection is read.
ghost use Rattle.std.specs.Prelude.{ℕ, List, [], ◌≡◌, ◌<◌, ◌≤◌, ◌+◌, ◌++◌, drop, length, take, false, true, if◌then◌else◌};
ghost use Rattle.std.specs.Io.{ReadsAtMost, WritesAtMost};
ghost use Rattle.bq_job.specs.promise.LineSteps.{IsBeginning, LineSeen};
ghost use Rattle.bq_job.specs.texts.AnswerText.{answer_text};
ghost use Rattle.bq_line.specs.LineCalls.{after_fill, after_read, after_write, is_nothing_yet};
ghost use Rattle.bq_line.specs.Streams.{StaysOver};
ghost use Rattle.bq_line.specs.Carried.{Carried, ReadsLine};
ghost use Rattle.bq_seat.specs.Pieces.{missing_in};
ghost use Rattle.bq_line.specs.Writing.{Resumes, WritesOn, with_written};

use crate::attendant::Progress;
use crate::line::{Line, StreamError};
use bq_job::Answer;
use bq_seat::{Action, NextAction, PIECE_ROOM, SeatMachine};
use bq_wire::{HeadBuf, answer_body, answer_head, answer_tail};
use std::alloc::Global;

/// The buffers of a seat. They are made once per run, since new ones would be filled with zeros
/// first.
#[derive(Drop)]
pub struct Buffers {
    /// Most answers with a body are joined here, and a connection is read into it, except for the
    /// rest of a long body.
    pub piece: [u8; PIECE_ROOM],
    /// For the head of an answer.
    pub head: HeadBuf,
}

impl Buffers {
    /// Returns buffers whose contents have no meaning.
    pub fn new() -> Buffers {
        Buffers {
            piece: [0; PIECE_ROOM],
            head: HeadBuf::new(),
        }
    }
}

/// How many bytes of an answer one action writes before other seats have their turn. The largest
/// answers have many megabytes.
const MOST_WRITTEN: usize = 262_144;

/// How far the writing of a text got.
#[derive(Clone, Copy, PartialEq, Eq)]
pub enum Wrote {
    /// All of it is written.
    Whole,
    /// As many bytes as one action writes are written, and there may be room for more.
    Part,
    /// There is no room for the rest yet.
    NotYet,
    /// A write failed.
    Fault,
}

/// Writes the rest of the text of an answer, of which `sent` bytes were written before, and flushes
/// the connection.
///
/// It goes out in one write if the connection takes all of it. The contents of the buffers have no
/// meaning before and after. If there is no room yet for all of it, or it is long, `sent` becomes the
/// number of bytes written so far.
pub fn write_answer<L: Line>(
    line: &mut L,
    answer: &Answer,
    sent: &mut usize,
    buffers: &mut Buffers,
) -> Wrote
    ensures text { Resumes (answer_text answer.now) sent.old (L.seen line.old) result sent.new (L.seen line.new) }
    ensures stays { StaysOver L.lies_over line.old line.new }
{
    match write_text(line, answer, sent, buffers) {
        Wrote::Whole => flush(line),
        Wrote::Part => Wrote::Part,
        Wrote::NotYet => Wrote::NotYet,
        Wrote::Fault => Wrote::Fault,
    }
}

// Flushes the connection after all of a text was written.
fn flush<L: Line>(line: &mut L) -> Wrote
    ensures text { (text : List ℕ) (first : LineSeen) (sent : ℕ) → L.seen line.old ≡ with_written text first
        → WritesOn text first result sent (L.seen line.new) }
    ensures stays { StaysOver L.lies_over line.old line.new }
{
    match line.flush() {
        Ok(()) => Wrote::Whole,
        Err(_) => Wrote::Fault,
    }
}

// Most texts have few or no bytes after the head. These are appended to the head's own buffer, so
// that no other is needed.
fn write_text<L: Line>(
    line: &mut L,
    answer: &Answer,
    sent: &mut usize,
    buffers: &mut Buffers,
) -> Wrote
    ensures text { Resumes (answer_text answer.now) sent.old (L.seen line.old) result sent.new (L.seen line.new) }
    ensures stays { StaysOver L.lies_over line.old line.new }
{
    answer_head(answer, &mut buffers.head);
    let body = answer_body(answer);
    let tail = answer_tail(answer);
    if have_room(&buffers.head, body, tail) {
        write_behind(line, &mut buffers.head, body, tail, sent)
    } else {
        write_long(
            line,
            &mut buffers.piece,
            buffers.head.as_slice(),
            body,
            tail,
            sent,
        )
    }
}

// Returns true if the head's buffer has room for the other parts.
fn have_room(head: &HeadBuf, body: &[u8], tail: &[u8]) -> bool
    ensures { result ≡ true → length head.now + length body.now + length tail.now ≤ 256 }
{
    let left = head.left();
    body.len() <= left && tail.len() <= left - body.len()
}

// Appends the other parts to the head, and writes the rest of them together.
fn write_behind<L: Line>(
    line: &mut L,
    head: &mut HeadBuf,
    body: &[u8],
    tail: &[u8],
    sent: &mut usize,
) -> Wrote
    requires { length head.old + length body.now + length tail.now ≤ 256 }
    ensures text { Resumes (head.old ++ body.now ++ tail.now) sent.old (L.seen line.old) result sent.new (L.seen line.new) }
    ensures stays { StaysOver L.lies_over line.old line.new }
{
    append(head, body, tail);
    write_rest(line, head.as_slice(), sent)
}

// Appends both parts to the head. Most answers have neither.
#[tactic(auto, using(crate::proofs::WritingLemmas::nothing_appended))]
fn append(head: &mut HeadBuf, body: &[u8], tail: &[u8])
    requires { length head.old + length body.now + length tail.now ≤ 256 }
    ensures { head.new ≡ head.old ++ body.now ++ tail.now }
{
    if body.is_empty() && tail.is_empty() {
        return;
    }
    head.push(body);
    push_tail(head, tail);
}

// Appends the tail to the head. Mostly it has two bytes, which are copied without a call.
#[inline(always)]
fn push_tail(head: &mut HeadBuf, tail: &[u8])
    requires { length head.old + length tail.now ≤ 256 }
    ensures { head.new ≡ head.old ++ tail.now }
{
    match tail {
        [first, second] => head.push(&[*first, *second]),
        _ => head.push(tail),
    }
}

// Most other texts are joined in the room. A longer one is written from where its parts are, since
// copying a large body costs more than a gathered write.
#[inline(never)]
fn write_long<L: Line>(
    line: &mut L,
    room: &mut [u8],
    head: &[u8],
    body: &[u8],
    tail: &[u8],
    sent: &mut usize,
) -> Wrote
    requires few { length head.now + length tail.now ≤ 258 }
    ensures text { Resumes (head.now ++ body.now ++ tail.now) sent.old (L.seen line.old) result sent.new (L.seen line.new) }
    ensures stays { StaysOver L.lies_over line.old line.new }
{
    if fits(room.len(), head, body, tail) {
        write_joined(line, room, head, body, tail, sent)
    } else {
        write_parts(line, head, body, tail, sent)
    }
}

// Joins the parts of a text, which fit into the room, and writes the rest of it.
fn write_joined<L: Line>(
    line: &mut L,
    room: &mut [u8],
    head: &[u8],
    body: &[u8],
    tail: &[u8],
    sent: &mut usize,
) -> Wrote
    requires { length head.now + length body.now + length tail.now ≤ length room.old }
    ensures text { Resumes (head.now ++ body.now ++ tail.now) sent.old (L.seen line.old) result sent.new (L.seen line.new) }
    ensures stays { StaysOver L.lies_over line.old line.new }
{
    let behind_head = put(room, 0, head);
    let behind_body = put(room, behind_head, body);
    let end = put(room, behind_body, tail);
    write_rest(line, &room[..end], sent)
}

// Writes the rest of three parts, as much at a time as one call takes, until one action has written
// enough.
fn write_parts<L: Line>(
    line: &mut L,
    head: &[u8],
    body: &[u8],
    tail: &[u8],
    sent: &mut usize,
) -> Wrote
    requires few { length head.now + length tail.now ≤ 258 }
    ensures text { Resumes (head.now ++ body.now ++ tail.now) sent.old (L.seen line.old) result sent.new (L.seen line.new) }
    ensures stays { StaysOver L.lies_over line.old line.new }
{
    let mut done = *sent;
    let enough = sent.saturating_add(MOST_WRITTEN);
    while !is_whole(head, body, tail, done) {
        if done >= enough {
            *sent = done;
            return Wrote::Part;
        }
        match write_some(line, head, body, tail, done) {
            Ok(count) => {
                if count == 0 {
                    return Wrote::Fault;
                }
                done += count;
            }
            Err(e) => {
                *sent = done;
                return after_error(e);
            }
        }
    }
    Wrote::Whole
}

// Returns true if `done` bytes are all of the three parts.
fn is_whole(head: &[u8], body: &[u8], tail: &[u8], done: usize) -> bool
    ensures whole { result ≡ true → length (head.now ++ body.now ++ tail.now) ≤ done }
    ensures more { result ≡ false → done < length (head.now ++ body.now ++ tail.now) }
{
    done >= head.len()
        && done - head.len() >= body.len()
        && done - head.len() - body.len() >= tail.len()
}

// Makes one write from what follows the first `done` bytes of three parts.
#[tactic(auto, using(crate::proofs::WritingLemmas::behind_first_of_three, crate::proofs::WritingLemmas::from_same))]
fn write_some<L: Line>(
    line: &mut L,
    head: &[u8],
    body: &[u8],
    tail: &[u8],
    done: usize,
) -> Result<usize, StreamError>
    requires { done < length (head.now ++ body.now ++ tail.now) }
    ensures bound { WritesAtMost result (drop done (head.now ++ body.now ++ tail.now)) }
    ensures seen { L.seen line.new
        ≡ after_write result (drop done (head.now ++ body.now ++ tail.now)) (L.seen line.old) }
    ensures stays { StaysOver L.lies_over line.old line.new }
{
    if done < head.len() {
        write_first(line, behind(done, head), body, tail)
    } else {
        write_of_two(line, body, tail, done - head.len())
    }
}

// Makes one write from three parts. One with a long body takes a first piece of it.
fn write_first<L: Line>(
    line: &mut L,
    head: &[u8],
    body: &[u8],
    tail: &[u8],
) -> Result<usize, StreamError>
    requires { 0 < length head.now }
    ensures bound { WritesAtMost result (head.now ++ body.now ++ tail.now) }
    ensures seen { L.seen line.new
        ≡ after_write result (head.now ++ body.now ++ tail.now) (L.seen line.old) }
    ensures stays { StaysOver L.lies_over line.old line.new }
{
    if body.len() > MOST_WRITTEN {
        line.write_together(head, first_piece(body), &[])
    } else {
        line.write_together(head, body, tail)
    }
}

// Makes one write from what follows the first `done` bytes of two parts.
fn write_of_two<L: Line>(
    line: &mut L,
    body: &[u8],
    tail: &[u8],
    done: usize,
) -> Result<usize, StreamError>
    requires { done < length (body.now ++ tail.now) }
    ensures bound { WritesAtMost result (drop done (body.now ++ tail.now)) }
    ensures seen { L.seen line.new
        ≡ after_write result (drop done (body.now ++ tail.now)) (L.seen line.old) }
    ensures stays { StaysOver L.lies_over line.old line.new }
{
    if done < body.len() {
        write_body(line, behind(done, body), tail)
    } else {
        line.write(behind(done - body.len(), tail))
    }
}

// Makes one write from two parts. One from a long body takes a first piece of it.
fn write_body<L: Line>(line: &mut L, body: &[u8], tail: &[u8]) -> Result<usize, StreamError>
    requires { 0 < length body.now }
    ensures bound { WritesAtMost result (body.now ++ tail.now) }
    ensures seen { L.seen line.new ≡ after_write result (body.now ++ tail.now) (L.seen line.old) }
    ensures stays { StaysOver L.lies_over line.old line.new }
{
    if body.len() > MOST_WRITTEN {
        line.write(first_piece(body))
    } else {
        line.write_together(body, tail, &[])
    }
}

// As many bytes of a text as one action writes.
#[tactic(auto, using(crate::proofs::WritingLemmas::take_begins))]
fn first_piece(bytes: &[u8]) -> &[u8]
    ensures begins { IsBeginning result.now bytes.now }
    ensures some { 0 < length bytes.now → 0 < length result.now }
{
    &bytes[..bytes.len().min(MOST_WRITTEN)]
}

// The bytes after the first `count`.
fn behind(count: usize, bytes: &[u8]) -> &[u8]
    ensures { result.now ≡ drop count bytes.now }
{
    &bytes[count.min(bytes.len())..]
}

// Returns true if `room` bytes hold all three parts.
fn fits(room: usize, head: &[u8], body: &[u8], tail: &[u8]) -> bool
    ensures { result ≡ true → length head.now + length body.now + length tail.now ≤ room }
{
    head.len() <= room
        && body.len() <= room - head.len()
        && tail.len() <= room - head.len() - body.len()
}

// Copies the bytes to this place of the room, and returns where they end.
fn put(room: &mut [u8], at: usize, bytes: &[u8]) -> usize
    requires { at + length bytes.now ≤ length room.old }
    ensures end { result ≡ at + length bytes.now }
    ensures held { take result room.new ≡ take at room.old ++ bytes.now }
    ensures len { length room.new ≡ length room.old }
{
    let end = at + bytes.len();
    room[at..end].copy_from_slice(bytes);
    end
}

// Writes the bytes after the first `sent`, until all are written, there is no room yet, or a write
// fails.
#[inline(always)]
fn write_rest<L: Line>(line: &mut L, bytes: &[u8], sent: &mut usize) -> Wrote
    ensures text { Resumes bytes.now sent.old (L.seen line.old) result sent.new (L.seen line.new) }
    ensures stays { StaysOver L.lies_over line.old line.new }
{
    let mut done = *sent;
    while done < bytes.len() {
        match line.write(&bytes[done..]) {
            Ok(count) => {
                if count == 0 {
                    return Wrote::Fault;
                }
                done += count;
            }
            Err(e) => {
                *sent = done;
                return after_error(e);
            }
        }
    }
    Wrote::Whole
}

fn after_error(e: StreamError) -> Wrote
    ensures { result ≡ (if is_nothing_yet e then Wrote.NotYet else Wrote.Fault) }
{
    if e.is_nothing_yet() {
        Wrote::NotYet
    } else {
        Wrote::Fault
    }
}

/// Reads the connection once and passes what came to the seat machine, which puts its next action
/// into `next`. Mostly the connection is read into `piece`. It is read through its own buffer if that
/// has bytes, or a body lacks more than a piece; these bytes are passed on without copying them.
pub fn read<L: Line>(
    alloc: Global,
    machine: &mut SeatMachine,
    next: &mut NextAction,
    line: &mut L,
    piece: &mut [u8],
) -> Progress
    requires { length piece.old ≡ PIECE_ROOM }
    ensures { ReadsLine L.seen L.lies_over result machine.old line.old machine.new line.new next.new }
{
    if line.has_unread() || machine.missing() > PIECE_ROOM {
        read_buffered(alloc, machine, next, line, piece)
    } else {
        read_piece(alloc, machine, next, line, piece)
    }
}

// Reads the connection through its own buffer.
#[inline(never)]
fn read_buffered<L: Line>(
    alloc: Global,
    machine: &mut SeatMachine,
    next: &mut NextAction,
    line: &mut L,
    piece: &mut [u8],
) -> Progress
    requires { length piece.old ≡ PIECE_ROOM }
    ensures { ReadsLine L.seen L.lies_over result machine.old line.old machine.new line.new next.new }
{
    match fill_line(machine, line) {
        Ok(()) => hand_on(alloc, machine, next, line, piece),
        Err(e) => tell_error(alloc, machine, next, e),
    }
}

// If the connection's own buffer is empty, it has none or its input has ended. The rest of a long
// body is passed on at once, and other bytes piece by piece.
fn hand_on<L: Line>(
    alloc: Global,
    machine: &mut SeatMachine,
    next: &mut NextAction,
    line: &mut L,
    piece: &mut [u8],
) -> Progress
    requires { length piece.old ≡ PIECE_ROOM }
    ensures { ReadsLine L.seen L.lies_over result machine.old line.old machine.new line.new next.new }
{
    let came = line.unread().len();
    if came > PIECE_ROOM && machine.missing() > PIECE_ROOM {
        return hand_on_body(alloc, machine, next, line);
    }
    let count = came.min(PIECE_ROOM);
    if count == 0 {
        return read_piece(alloc, machine, next, line, piece);
    }
    machine.bytes(alloc, &line.unread()[..count], next);
    line.take_unread(count);
    Progress::Moved
}

// Passes on as many bytes as the body lacks, or all that there are.
fn hand_on_body<L: Line>(
    alloc: Global,
    machine: &mut SeatMachine,
    next: &mut NextAction,
    line: &mut L,
) -> Progress
    requires some { 0 < missing_in machine.old }
    requires bytes { 0 < length (L.unread line.old) }
    ensures { ReadsLine L.seen L.lies_over result machine.old line.old machine.new line.new next.new }
{
    let rest = body_at_hand(machine, line);
    machine.body_bytes(alloc, &line.unread()[..rest], next);
    line.take_unread(rest);
    Progress::Moved
}

// Returns how many bytes of the body that is being read have come.
#[tactic(auto, using(crate::proofs::BufferLemmas::some_of_both))]
fn body_at_hand<L: Line>(machine: &SeatMachine, line: &L) -> usize
    requires some { 0 < missing_in machine.now }
    requires bytes { 0 < length (L.unread line.now) }
    ensures some { result ≡ 0 → ⊥ }
    ensures within { result ≤ length (L.unread line.now) }
    ensures lacks { result ≤ missing_in machine.now }
{
    line.unread().len().min(machine.missing())
}

// Reads the connection into the piece.
fn read_piece<L: Line>(
    alloc: Global,
    machine: &mut SeatMachine,
    next: &mut NextAction,
    line: &mut L,
    piece: &mut [u8],
) -> Progress
    requires { length piece.old ≡ PIECE_ROOM }
    ensures { ReadsLine L.seen L.lies_over result machine.old line.old machine.new line.new next.new }
{
    match read_line(machine, line, piece) {
        Ok(0) => {
            machine.end_of_input(next);
            Progress::Moved
        }
        Ok(count) => {
            machine.bytes(alloc, &piece[..count], next);
            Progress::Moved
        }
        Err(e) => tell_error(alloc, machine, next, e),
    }
}

// There are no bytes yet, or the read failed.
fn tell_error(
    alloc: Global,
    machine: &mut SeatMachine,
    next: &mut NextAction,
    e: StreamError,
) -> Progress
    ensures { (seen : LineSeen)
        → Carried result machine.old seen Action.Read machine.new
        (after_fill (Err e) seen) next.new [] [] }
{
    if e.is_nothing_yet() {
        machine.nothing_yet(next);
        Progress::NoBytes
    } else {
        machine.read_fault(next);
        Progress::Moved
    }
}

// Reading waits only if no answer is outstanding. All answers so far are sent before.
fn fill_line<L: Line>(machine: &SeatMachine, line: &mut L) -> Result<(), StreamError>
    ensures seen { L.seen line.new ≡ after_fill result (L.seen line.old) }
    ensures stays { StaysOver L.lies_over line.old line.new }
{
    if !line.has_unread() {
        line.expect_more(false);
    }
    line.fill(!machine.has_outstanding())
}

// Reads a connection into the piece, and waits and sends in the same way.
fn read_line<L: Line>(
    machine: &SeatMachine,
    line: &mut L,
    piece: &mut [u8],
) -> Result<usize, StreamError>
    requires { 0 < length piece.old }
    ensures bound { ReadsAtMost result piece.new }
    ensures seen { L.seen line.new ≡ after_read result piece.new (L.seen line.old) }
    ensures stays { StaysOver L.lies_over line.old line.new }
{
    line.expect_more(false);
    if machine.has_outstanding() {
        line.read_now(piece)
    } else {
        line.read(piece)
    }
}
