//! The reader of requests: its state, and how it continues with more bytes.
ghost use Rattle.std.specs.Prelude.{◌≡◌, ◌≤◌, ◌<◌, ◌+◌, ◌++◌, ℕ, List, [], length, take};
ghost use Rattle.std.specs.Prelude.{IfOk, OnOk, IfNone, IfSome, None, false, true, if◌then◌else◌};
ghost use Rattle.std.specs.List.{flat_map};
ghost use Rattle.bq_job.specs.reading.Line.{first_line};
ghost use Rattle.bq_job.specs.reading.LineRead as line_read;
ghost use Rattle.bq_job.specs.reading.Reading.{IsPutRequest, Reads, is_quit};
ghost use Rattle.bq_wire.specs.Asked.{asked_by, put_line_of};
ghost use Rattle.bq_wire.specs.HasRead.{HasRead, HasReadText, ReadsOn};
ghost use Rattle.bq_wire.specs.LineEnds.{last_is_cr, line_end_after};
ghost use Rattle.bq_wire.specs.PutBodies.{HasBodyRoom, IsBodySoFar};
ghost use Rattle.bq_wire.specs.Standing.{IsFed, IsOver, IsSoundPlace, IsSoundReader, Stands, StandsAt, Feeds};
ghost use Rattle.bq_wire.specs.Standing.{Keeps, IsLineAsking, TakesMissing};
ghost use Rattle.bq_wire.specs.Standing.{Waits, HandsRequest, but_last, missing_at, request_in};
ghost use Rattle.bq_wire.specs.declared.reader.ReaderPlace.TheVariants.{InLine, InLongLine, InBody, Over};

use crate::command::{is, put_in};
use crate::frequent::{EndedLine, frequent_line};
use crate::line_read::{LONGEST_LINE, LineRead, PutLine, ends_in_cr, line_end_after, read_line};
use crate::put_body::PutBody;
use bq_job::{Body, LARGEST_BODY, NoMemory, Refusal, Request};
use std::alloc::Global;
use std::marker::Model;
use std::mem;

/// The state of a reader.
#[derive(Drop)]
pub struct ReaderState {
    /// The largest size of a body, in bytes.
    pub max_job_size: u32,
    /// The bytes of an unfinished command line.
    pub kept: KeptLine,
    pub place: ReaderPlace,
}

/// What a reader is in the middle of.
#[derive(Drop)]
pub enum ReaderPlace {
    /// A command line whose bytes are kept.
    InLine,
    /// A command line that is too long. Only whether its last byte is a CR is kept.
    InLongLine(bool),
    /// The body of a put, or the two bytes after it.
    InBody(PutBody),
    /// A quit was read.
    Over,
}

/// The largest number of bytes kept of a command line: the longest command line and a CR.
pub const MOST_KEPT: usize = LONGEST_LINE + 1;

/// The bytes of an unfinished command line. `new` allocates all the memory that it needs.
#[derive(Drop)]
pub struct KeptLine {
    bytes: Vec<u8, Global>,
}

impl Model for KeptLine {
    ghost use Rattle.std.specs.Prelude.{List, ℕ, ◌≤◌, vec_len};
    ghost use Rattle.std.specs.Vec.{vec_capacity};
    ghost use Rattle.bq_wire.specs.declared.reader.TheConstants.{MOST_KEPT};

    ghost Value = { List ℕ };

    ghost view = { λ k. k.bytes.items };

    ghost invariant = { λ k. (MOST_KEPT ≤ vec_capacity k.bytes) × (vec_len k.bytes ≤ MOST_KEPT) };
}

impl KeptLine {
    /// Returns an empty line. Returns `NoMemory` if the allocation fails.
    pub fn new(alloc: Global) -> Result<KeptLine, NoMemory>
        ensures { IfOk result (λ kept. kept ≡ []) }
    {
        match Vec::with_capacity(alloc, MOST_KEPT) {
            Ok(bytes) => Ok(KeptLine { bytes }),
            Err(_) => Err(NoMemory),
        }
    }

    /// Returns how many more bytes can be kept.
    pub fn room(&self) -> usize
        ensures { result + length self.now ≡ MOST_KEPT }
    {
        MOST_KEPT - self.bytes.len()
    }

    /// Returns the bytes.
    pub fn as_slice(&self) -> &[u8]
        ensures { result.now ≡ self.now }
    {
        self.bytes.as_slice()
    }

    /// Appends these bytes. It allocates nothing; the caller ensures that they fit.
    pub fn push_slice(&mut self, bytes: &[u8])
        requires { length self.old + length bytes.now ≤ MOST_KEPT }
        ensures { self.new ≡ self.old ++ bytes.now }
    {
        let _fits = self.bytes.extend_from_slice(bytes);
    }

    /// Removes all bytes.
    pub fn clear(&mut self)
        ensures { self.new ≡ [] }
    {
        self.bytes.clear();
    }
}

/// Reads requests from bytes that arrive in pieces.
#[derive(Drop)]
pub struct RequestReader {
    state: ReaderState,
}

impl Model for RequestReader {
    ghost use Rattle.bq_wire.specs.declared.reader.ReaderState.{ReaderState};

    ghost Value = { ReaderState };

    ghost use Rattle.bq_wire.specs.Standing.{IsSoundReader};

    ghost view = { λ r. r.state };

    ghost invariant = { λ r. IsSoundReader r.state };
}

/// How far a reader got in a piece of bytes.
#[derive(Clone, Copy)]
pub struct Taken {
    /// How many bytes it took.
    pub count: usize,
    /// True if these bytes complete a request.
    pub is_request: bool,
}

impl RequestReader {
    /// Returns a reader that has read nothing. Bodies of jobs may have at most `max_job_size`
    /// bytes. Returns `NoMemory` if the allocation for command lines fails.
    pub fn new(alloc: Global, max_job_size: u32) -> Result<RequestReader, NoMemory>
        requires { (1 ≤ max_job_size) × (max_job_size ≤ LARGEST_BODY) }
        ensures stands { IfOk result (λ reader. Stands reader []) }
        ensures reads { IfOk result (λ reader. HasRead reader [] []) }
        ensures limit { IfOk result (λ reader. reader.max_job_size ≡ max_job_size) }
    {
        let kept = KeptLine::new(alloc)?;
        Ok(RequestReader {
            state: ReaderState {
                max_job_size,
                kept,
                place: ReaderPlace::InLine,
            },
        })
    }

    /// Forgets everything that was read, including a quit. It allocates nothing.
    pub fn restart(&mut self)
        ensures stands { Stands self.new [] }
        ensures reads { HasRead self.new [] [] }
        ensures limit { self.new.max_job_size ≡ self.old.max_job_size }
    {
        self.state.kept.clear();
        self.state.place = ReaderPlace::InLine;
    }

    /// Returns how many bytes the put that is being read still lacks: of its body, and of the two
    /// bytes after it. Returns 0 if the reader is not in a body.
    pub fn missing(&self) -> usize
        ensures { result ≡ missing_at self.now.place }
    {
        match &self.state.place {
            ReaderPlace::InBody(body) => body.missing(),
            _ => 0,
        }
    }

    /// Takes bytes up to and including the last byte of the first complete request, or all of them.
    /// Returns how many bytes it took, and whether they complete a request, which is then in `place`.
    /// Without one, the content of `place` has no meaning. After a quit it takes none until `restart`.
    /// It allocates only the body of a put, when the put's command line is complete; if that fails,
    /// the put becomes a rejected request.
    #[tactic(auto, using(crate::proofs::HasReadLemmas::reads_on))]
    pub fn take(&mut self, alloc: Global, piece: &[u8], place: &mut Request) -> Taken
        ensures within { result.count ≤ length piece.now }
        ensures progress { IfSome (request_in result place.new) (λ _. 0 < result.count) }
        // If there is no request: for every text that the reader represented, no first part of that
        // text and the piece is a request, the whole piece was taken, and the reader now represents
        // that text and the piece.
        ensures waits { request_in result place.new ≡ None → (text : List ℕ)
            → Stands self.old text → Waits self.new text piece.now result.count }
        // If there is a request: for every text that the reader represented, that text and the
        // bytes taken are this one request, and the reader now represents the empty text, or none
        // after a quit.
        ensures hands_out { IfSome (request_in result place.new)
            (λ asked. (text : List ℕ) → Stands self.old text → HandsRequest self.new text piece.now result.count asked) }
        // So from all bytes taken since it was made or restarted, the reader returns the requests,
        // whatever pieces the bytes came in.
        ensures reads { ReadsOn self.old self.new piece.now result.count (request_in result place.new) }
        ensures over { IsOver self.old
            → (result.count ≡ 0) × (request_in result place.new ≡ None) × (self.new ≡ self.old) }
        // A piece with no more bytes than the put lacks is taken whole.
        ensures missing { TakesMissing self.old.place piece.now result.count }
        ensures limit { self.new.max_job_size ≡ self.old.max_job_size }
    {
        feed_state(alloc, &mut self.state, piece, place)
    }
}

fn feed_state(alloc: Global, state: &mut ReaderState, piece: &[u8], place: &mut Request) -> Taken
    requires { IsSoundReader state.old }
    ensures fed { IsFed state.old state.new piece.now result.count (request_in result place.new) }
    ensures feeds { Feeds (Stands state.old) state.new piece.now result.count (request_in result place.new) }
    ensures over { IsOver state.old
        → (result.count ≡ 0) × (request_in result place.new ≡ None) × (state.new ≡ state.old) }
    ensures missing { TakesMissing state.old.place piece.now result.count }
{
    match state.place {
        ReaderPlace::InLine => feed_line(alloc, state, piece, place),
        _ => feed_taken(alloc, state, piece, place),
    }
}

// Takes what the reader is in the middle of out of it, and feeds that.
#[inline(never)]
fn feed_taken(alloc: Global, state: &mut ReaderState, piece: &[u8], place: &mut Request) -> Taken
    requires { IsSoundReader state.old }
    ensures fed { IsFed state.old state.new piece.now result.count (request_in result place.new) }
    ensures feeds { Feeds (Stands state.old) state.new piece.now result.count (request_in result place.new) }
    ensures over { IsOver state.old
        → (result.count ≡ 0) × (request_in result place.new ≡ None) × (state.new ≡ state.old) }
    ensures missing { TakesMissing state.old.place piece.now result.count }
{
    match mem::replace(&mut state.place, ReaderPlace::InLine) {
        ReaderPlace::InLine => feed_line(alloc, state, piece, place),
        ReaderPlace::InLongLine(after_cr) => feed_long_line(state, after_cr, piece, place),
        ReaderPlace::InBody(body) => feed_body(state, body, piece, place),
        ReaderPlace::Over => {
            state.place = ReaderPlace::Over;
            Taken {
                count: 0,
                is_request: false,
            }
        }
    }
}

// Feeds a command line whose bytes are kept.
fn feed_line(alloc: Global, state: &mut ReaderState, piece: &[u8], place: &mut Request) -> Taken
    requires { state.old.place ≡ InLine }
    ensures fed { IsFed state.old state.new piece.now result.count (request_in result place.new) }
    ensures feeds { Feeds (StandsAt state.old InLine) state.new piece.now result.count (request_in result place.new) }
{
    match line_in(&mut state.kept, piece, place) {
        None => {
            state.place = keep(&mut state.kept, piece);
            Taken {
                count: piece.len(),
                is_request: false,
            }
        }
        Some(line) => after_line(alloc, state, line.read, piece, line.end, place),
    }
}

// Returns the command line that ends in the piece, if one does. A complete request is put into
// `place`.
#[inline(always)]
fn line_in(kept: &mut KeptLine, piece: &[u8], place: &mut Request) -> Option<EndedLine>
    ensures none { IfNone result ((kept.new ≡ kept.old) × (line_end_after (last_is_cr false kept.old) piece.now ≡ None)) }
    ensures some { IfSome result (λ line. 0 < line.end) }
    ensures within { IfSome result (λ line. line.end ≤ length piece.now) }
    ensures cleared { IfSome result (λ line. kept.new ≡ []) }
    ensures asks { IfSome result (λ line. first_line kept.old ≡ None
        → IsLineAsking (asked_by line.read place.new) (kept.old ++ take line.end piece.now)) }
{
    if kept.as_slice().is_empty() {
        if let Some(line) = frequent_line(piece, place) {
            return Some(line);
        }
    }
    any_line_in(kept, piece, place)
}

// The same for any line.
#[inline(never)]
#[tactic(auto, using(crate::proofs::ReaderLemmas::some_byte, crate::proofs::ReaderLemmas::kept_line))]
fn any_line_in(kept: &mut KeptLine, piece: &[u8], place: &mut Request) -> Option<EndedLine>
    ensures none { IfNone result ((kept.new ≡ kept.old) × (line_end_after (last_is_cr false kept.old) piece.now ≡ None)) }
    ensures some { IfSome result (λ line. 0 < line.end) }
    ensures within { IfSome result (λ line. line.end ≤ length piece.now) }
    ensures cleared { IfSome result (λ line. kept.new ≡ []) }
    ensures asks { IfSome result (λ line. first_line kept.old ≡ None
        → IsLineAsking (asked_by line.read place.new) (kept.old ++ take line.end piece.now)) }
{
    let end = line_end_after(ends_in_cr(false, kept.as_slice()), piece)?;
    let read = whole_line(kept, &piece[..end - 1], place);
    Some(EndedLine { end, read })
}

// Keeps the bytes of an unfinished command line, or none if the line is too long.
#[tactic(auto, using(std::proofs::lemmas::Grind::common_steps, crate::proofs::LineEndLemmas::last_is_cr_append))]
fn keep(kept: &mut KeptLine, piece: &[u8]) -> ReaderPlace
    ensures { Keeps kept.old kept.new result piece.now }
{
    let after_cr = ends_in_cr(ends_in_cr(false, kept.as_slice()), piece);
    let room = kept.room();
    if piece.len() < room || (piece.len() == room && after_cr) {
        kept.push_slice(piece);
        ReaderPlace::InLine
    } else {
        kept.clear();
        ReaderPlace::InLongLine(after_cr)
    }
}

// Returns what the line that ends now requests. `last` is the line's last bytes without the LF. A
// complete request is put into `place`.
fn whole_line(kept: &mut KeptLine, last: &[u8], place: &mut Request) -> LineRead
    requires { 0 < length kept.old + length last.now }
    ensures cleared { kept.new ≡ [] }
    ensures read { asked_by result place.new
        ≡ line_read.read_line (but_last (kept.old ++ last.now)) }
{
    if kept.as_slice().is_empty() {
        return read_line(&last[..last.len() - 1], place);
    }
    if last.len() > kept.room() {
        kept.clear();
        refuse(place, Refusal::BadFormat);
        return LineRead::Whole;
    }
    kept.push_slice(last);
    let line = kept.as_slice();
    let read = read_line(&line[..line.len() - 1], place);
    kept.clear();
    read
}

// Rejects a request. A separate function, because its caller would otherwise initialize room for a
// request on every path.
#[inline(never)]
fn refuse(place: &mut Request, why: Refusal)
    ensures { place.new ≡ Request.Refused why }
{
    put_in(place, Request::Refused(why));
}

// Continues after a complete command line, which ends in the piece.
fn after_line(
    alloc: Global,
    state: &mut ReaderState,
    read: LineRead,
    piece: &[u8],
    end: usize,
    place: &mut Request,
) -> Taken
    requires place { state.old.place ≡ InLine }
    requires some { 0 < end }
    requires within { end ≤ length piece.now }
    ensures fed { IsFed state.old state.new piece.now result.count (request_in result place.new) }
    ensures feeds { (asked : line_read.LineRead) → asked_by read place.old ≡ asked → state.old.kept ≡ []
        → Feeds (λ text. IsLineAsking asked (text ++ take end piece.now)) state.new piece.now result.count (request_in result place.new) }
{
    match read {
        LineRead::Whole => {
            end_at_quit(&mut state.place, place);
            Taken {
                count: end,
                is_request: true,
            }
        }
        LineRead::PutWaits(put) => {
            let taken = feed_put(alloc, state, put, &piece[end..], place);
            Taken {
                count: end + taken.count,
                is_request: taken.is_request,
            }
        }
    }
}

// Continues after the command line of a put. Mostly the whole body came with it.
fn feed_put(
    alloc: Global,
    state: &mut ReaderState,
    put: PutLine,
    piece: &[u8],
    place: &mut Request,
) -> Taken
    requires { state.old.place ≡ InLine }
    ensures fed { IsFed state.old state.new piece.now result.count (request_in result place.new) }
    ensures feeds { state.old.kept ≡ []
        → Feeds (IsLineAsking (line_read.PutWaits (put_line_of put))) state.new piece.now result.count (request_in result place.new) }
{
    if is_at_hand(put, state.max_job_size, piece) {
        let size = put.bytes as usize;
        whole_put(alloc, put, &piece[..size], &piece[size..size + 2], place);
        return Taken {
            count: size + 2,
            is_request: true,
        };
    }
    let body = begun_body(alloc, put, state.max_job_size);
    feed_body(state, body, piece, place)
}

// Returns true if the body of a put is not too big, and is in the piece with its end.
fn is_at_hand(put: PutLine, max_job_size: u32, piece: &[u8]) -> bool
    ensures small { result ≡ true → put.bytes ≤ max_job_size }
    ensures whole { result ≡ true → put.bytes + 2 ≤ length piece.now }
{
    put.bytes <= max_job_size && put.bytes as usize + 2 <= piece.len()
}

// Puts the request of a put into `place`, given its body and the two bytes after it. If the allocation
// for the body fails, the answer is OUT_OF_MEMORY, whatever the bytes are.
#[tactic(auto, using(std::proofs::lemmas::Grind::common_steps, std::proofs::lemmas::Bool::Decides::nat_tests))]
fn whole_put(alloc: Global, put: PutLine, body: &[u8], end: &[u8], place: &mut Request)
    requires { length body.now ≡ put.bytes }
    ensures { (max_job_size : ℕ) → put.bytes ≤ max_job_size
        → IsPutRequest max_job_size (put_line_of put) (body.now ++ end.now) place.new }
{
    let Ok(stored) = Body::new(alloc, body) else {
        return refuse(place, Refusal::OutOfMemory);
    };
    if !is(end, b"\r\n") {
        return refuse(place, Refusal::ExpectedCrlf);
    }
    let whole = Request::Put {
        pri: put.pri,
        delay: put.delay,
        ttr: put.ttr,
        body: stored,
    };
    put_in(place, whole);
}

// Returns the body of a put whose command line is complete. Nothing is allocated if it is too big.
fn begun_body(alloc: Global, put: PutLine, max_job_size: u32) -> PutBody
    ensures put { result.put ≡ put }
    ensures nothing { IsBodySoFar result [] }
    ensures room { HasBodyRoom result }
    ensures taken { result.taken ≡ 0 }
    ensures unstored { max_job_size < put.bytes → result.store ≡ None }
{
    if put.bytes > max_job_size {
        PutBody::too_big(put)
    } else {
        PutBody::new(alloc, put)
    }
}

// No more is read after a quit.
fn end_at_quit(place: &mut ReaderPlace, request: &Request)
    requires { place.old ≡ InLine }
    ensures sound { IsSoundPlace place.new }
    ensures behind { place.new ≡ (if is_quit request.now then Over else InLine) }
{
    if let Request::Quit = request {
        *place = ReaderPlace::Over;
    }
}

// Feeds a command line that is too long.
fn feed_long_line(
    state: &mut ReaderState,
    after_cr: bool,
    piece: &[u8],
    place: &mut Request,
) -> Taken
    ensures fed { IsFed state.old state.new piece.now result.count (request_in result place.new) }
    ensures feeds { Feeds
        (StandsAt state.old (InLongLine after_cr)) state.new piece.now result.count (request_in result place.new) }
{
    match line_end_after(after_cr, piece) {
        None => {
            state.place = ReaderPlace::InLongLine(ends_in_cr(after_cr, piece));
            Taken {
                count: piece.len(),
                is_request: false,
            }
        }
        Some(end) => {
            state.place = ReaderPlace::InLine;
            refuse(place, Refusal::BadFormat);
            Taken {
                count: end,
                is_request: true,
            }
        }
    }
}

// Feeds the body of a put.
fn feed_body(state: &mut ReaderState, body: PutBody, piece: &[u8], place: &mut Request) -> Taken
    requires room { HasBodyRoom body }
    requires not_whole { body.taken < body.put.bytes + 2 }
    ensures fed { IsFed state.old state.new piece.now result.count (request_in result place.new) }
    ensures feeds { Feeds
        (StandsAt state.old (InBody body)) state.new piece.now result.count (request_in result place.new) }
    ensures missing { TakesMissing (InBody body) piece.now result.count }
{
    let mut body = body;
    let taken = body.take(piece);
    if body.is_whole() {
        state.place = ReaderPlace::InLine;
        put_in(place, body.into_request(state.max_job_size));
        Taken {
            count: taken,
            is_request: true,
        }
    } else {
        state.place = ReaderPlace::InBody(body);
        Taken {
            count: taken,
            is_request: false,
        }
    }
}

/// Returns the requests of a text that arrives in these pieces: those of the whole text, however it
/// was cut.
pub fn requests_of(
    alloc: Global,
    max_job_size: u32,
    pieces: &[Vec<u8, Global>],
) -> Result<Vec<Request, Global>, NoMemory>
    requires { (1 ≤ max_job_size) × (max_job_size ≤ LARGEST_BODY) }
    ensures { IfOk result (λ requests. (rest : List ℕ)
        × Reads max_job_size (flat_map (λ piece. piece.items) pieces.now) requests.items rest) }
{
    let mut reader = RequestReader::new(alloc, max_job_size)?;
    let mut requests = Vec::new(alloc);
    for piece in pieces {
        feed_all(alloc, &mut reader, piece.as_slice(), &mut requests)?;
    }
    Ok(requests)
}

// Feeds a whole piece, or up to a quit, and appends its requests.
fn feed_all(
    alloc: Global,
    reader: &mut RequestReader,
    piece: &[u8],
    requests: &mut Vec<Request, Global>,
) -> Result<(), NoMemory>
    ensures reads { OnOk result ((taken : List ℕ) → HasRead reader.old taken requests.old.items →
        HasReadText reader.new (taken ++ piece.now) requests.new.items) }
    ensures over { OnOk result
        (IsOver reader.old
        → (reader.new ≡ reader.old) × (requests.new.items ≡ requests.old.items)) }
    ensures limit { reader.new.max_job_size ≡ reader.old.max_job_size }
{
    let mut from = 0;
    loop {
        let (taken, request) = reader.feed(alloc, &piece[from..]);
        let Some(request) = request else {
            return Ok(());
        };
        from += taken;
        let Ok(()) = requests.push(request) else {
            return Err(NoMemory);
        };
    }
}

/// What a reader has read since it was made or restarted is a reading of the bytes that it took.
#[tactic(auto, using(crate::proofs::HasReadLemmas::was_read))]
pub fn what_was_read_is_a_reading()
    ensures { (reader : ReaderState) (taken : List ℕ) (requests : List Request) → HasRead reader taken requests
        → (rest : List ℕ) × Reads reader.max_job_size taken requests rest }
{}
