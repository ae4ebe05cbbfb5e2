//! The state machine of a connection.
ghost use Rattle.std.specs.Prelude.{◌≡◌, ◌==◌, ◌≤◌, [], false, length, not, true, IfOk, if◌then◌else◌};
ghost use Rattle.bq_job.specs.declared.request.Request.{Request};
ghost use Rattle.bq_seat.specs.SeatParts.{AsksOrReads, IsTaken, asking_stage, request_of};
ghost use Rattle.bq_wire.specs.Standing.{Stands};

use crate::byte_buffer::ByteBuffer;
use crate::next_action::{Does, NextAction};
use bq_job::{Answer, LARGEST_BODY, LineEnd, NoMemory, Request, Step};
use bq_wire::{RequestReader, Taken};
use std::alloc::Global;

/// What happened at a connection in answer to the machine's last action.
#[derive(Drop)]
pub enum Event<'a> {
    /// A connection was opened.
    Opened,
    /// The step was submitted.
    Submitted,
    /// These bytes were read, at most 4,096.
    Bytes(&'a [u8]),
    /// There was nothing to read, or no mail.
    NothingYet,
    /// The client sends no more.
    EndOfInput,
    /// A read of the connection failed.
    ReadFault,
    /// This answer came.
    Mail(Answer),
    /// The whole answer was written.
    WriteDone,
    /// A write to the connection failed.
    WriteFault,
}

/// What to do next for a connection.
#[derive(Drop)]
pub enum Action {
    /// Submit this step of the connection.
    Submit(Step),
    /// Read from the connection.
    Read,
    /// Check whether an answer has come.
    PollMail,
    /// Write the text of this answer to the connection.
    Write(Answer),
    /// The connection has ended. The next one may be opened.
    LineOver(LineEnd),
    /// The event does not answer the last action. Nothing was changed.
    Stray,
}

/// What the machine did last, and thus which events answer it.
#[derive(Clone, Copy)]
enum Stage {
    /// No connection is open; the machine waits for one.
    Between,
    /// The client's connect is being submitted.
    Connecting,
    /// The connection is being read, and no answer is outstanding.
    Reading,
    /// A request is being submitted. If `waits`, it is a reserve, whose answer may take long.
    Asking { waits: bool },
    /// The machine polls for the answer to a request. If `waits`, it is a reserve.
    Polling { waits: bool },
    /// The connection is being read while a reserve waits.
    ReadingOn,
    /// The end of the client's input is being submitted.
    TellingEnd,
    /// An answer is being written.
    Writing,
    /// A quit is being submitted.
    AskingQuit,
    /// The close is being submitted.
    Closing(LineEnd),
    /// The machine polls for the answer to the close, and drops other mail.
    Leaving(LineEnd),
}

/// The state machine of a seat, which serves one connection after another.
#[derive(Drop)]
pub struct SeatMachine {
    reader: RequestReader,
    /// Bytes that came after the submitted requests.
    kept: ByteBuffer<PIECE_ROOM>,
    stage: Stage,
    /// True if the end of the client's input was submitted.
    end_told: bool,
}

impl SeatMachine {
    ghost use Rattle.bq_seat.specs.Past.{Awaited};
    ghost use Rattle.bq_job.specs.declared.answer.Answer.{Answer};
    ghost use Rattle.bq_job.specs.machine.OneClient.{is_closed_answer};
    ghost use Rattle.bq_seat.specs.Outstanding.{ReadsWith};
    ghost use Rattle.bq_seat.specs.SeatMoves.{IsAnswered, IsMove};
    ghost use Rattle.bq_seat.specs.SeatParts.{GoesOn, asking_stage, is_asking, between, holding, in_stage, reads_beside, reads_on, would_read};
    ghost use Rattle.bq_job.specs.declared.line_end.LineEnd.{LineEnd};
    ghost use Rattle.bq_seat.specs.SeatStands.{awaited, kept_bytes};
    ghost use Rattle.bq_seat.specs.Pieces.{HasRoomFor, HasRoomIn, missing_in};

    /// Returns a machine that waits for its first connection. It rejects bodies of more than
    /// `max_job_size` bytes, which must be 1 to 1,048,576. Everything except bodies is allocated
    /// here; returns `NoMemory` if that fails.
    pub fn new(alloc: Global, max_job_size: u32) -> Result<SeatMachine, NoMemory>
        requires { (1 ≤ max_job_size) × (max_job_size ≤ LARGEST_BODY) }
        ensures awaits { IfOk result (λ machine. awaited machine ≡ Awaited.ALine) }
        ensures limit { IfOk result (λ machine. machine.reader.max_job_size ≡ max_job_size) }
    {
        let reader = RequestReader::new(alloc, max_job_size)?;
        let Ok(kept) = ByteBuffer::new(alloc) else {
            drop(reader);
            return Err(NoMemory);
        };
        Ok(SeatMachine {
            reader,
            kept,
            stage: Stage::Between,
            end_told: false,
        })
    }

    /// Returns true if a request waits for its answer while the connection is read. A blocking read
    /// would then keep the answer from the client.
    #[tactic(auto, using(crate::proofs::NextByPastLemmas::reads_alone, crate::proofs::NextByPastLemmas::reads_with_one))]
    pub fn has_outstanding(&self) -> bool
        ensures steps { ReadsWith result self.now }
        ensures stage { result ≡ reads_beside self.now.stage }
    {
        match self.stage {
            Stage::ReadingOn => true,
            _ => false,
        }
    }

    /// Returns true if its next action, or the one after a poll that finds no mail, is a read.
    pub fn would_read(&self) -> bool
        ensures { result ≡ would_read self.now }
    {
        match self.stage {
            Stage::ReadingOn | Stage::Reading => true,
            Stage::Polling { waits } => self.reads_on(waits),
            _ => false,
        }
    }

    /// Returns true if the machine keeps bytes that came after the submitted requests.
    pub fn has_unread(&self) -> bool
        ensures { result ≡ not (length (kept_bytes self.now) == 0) }
    {
        !self.kept.is_empty()
    }

    /// Returns how many bytes the put that is being read still lacks, which can be passed to
    /// `body_bytes` at once. Returns 0 if the machine does not read the body of a put.
    pub fn missing(&self) -> usize
        ensures { result ≡ missing_in self.now }
    {
        match self.stage {
            Stage::Reading => self.reader.missing(),
            _ => 0,
        }
    }

    /// A connection was opened. Like the calls for the other events below, this writes the next
    /// action to `next`, so that the action and what it carries are not copied. The previous
    /// content of `next`, which may be the last action, is ignored.
    ///
    /// An event that does not answer the last action changes nothing, and `next` becomes `Stray`.
    pub fn opened(&mut self, next: &mut NextAction)
        ensures { IsMove self.old Event.Opened next.new self.new }
    {
        match self.stage {
            Stage::Between => {
                self.reader.restart();
                self.kept.clear();
                self.end_told = false;
                self.stage = Stage::Connecting;
                next.submit(Step::Connect);
            }
            _ => stray(next),
        }
    }

    /// The step was submitted. Like `bytes` and `write_done` it allocates only the body of a put.
    pub fn submitted(&mut self, alloc: Global, next: &mut NextAction)
        ensures { IsMove self.old Event.Submitted next.new self.new }
    {
        match self.stage {
            Stage::Connecting => self.go_on(alloc, next),
            Stage::Asking { waits } => self.poll(waits, next),
            Stage::TellingEnd => self.poll(true, next),
            Stage::AskingQuit => self.close(LineEnd::Quit, next),
            Stage::Closing(end) => self.leave(end, next),
            _ => stray(next),
        }
    }

    /// These bytes were read, at most 4,096.
    pub fn bytes(&mut self, alloc: Global, bytes: &[u8], next: &mut NextAction)
        requires { length bytes.now ≤ PIECE_ROOM }
        ensures { IsMove self.old (Event.Bytes bytes.entry) next.new self.new }
    {
        self.came(alloc, bytes, next);
    }

    /// These bytes were read, at most as many as the put that is being read still lacks. So a long
    /// body need not be passed in piece by piece.
    pub fn body_bytes(&mut self, alloc: Global, bytes: &[u8], next: &mut NextAction)
        requires { length bytes.now ≤ missing_in self.old }
        ensures { IsMove self.old (Event.Bytes bytes.entry) next.new self.new }
    {
        self.came(alloc, bytes, next);
    }

    // These bytes were read.
    #[inline(always)]
    fn came(&mut self, alloc: Global, bytes: &[u8], next: &mut NextAction)
        requires { HasRoomFor self.old (length bytes.now) }
        ensures { IsMove self.old (Event.Bytes bytes.entry) next.new self.new }
    {
        match self.stage {
            Stage::Reading => self.take_in(alloc, bytes, next),
            Stage::ReadingOn => self.keep(bytes, next),
            _ => stray(next),
        }
    }

    // These bytes came while a reserve waits. A separate function, so that its caller needs no room
    // on the stack.
    #[inline(never)]
    fn keep(&mut self, bytes: &[u8], next: &mut NextAction)
        requires { length bytes.now ≤ PIECE_ROOM }
        ensures action { next.new ≡ Action.PollMail }
        ensures after { self.new ≡ in_stage (Stage.Polling true) (holding bytes.now self.old) }
    {
        self.kept.replace(bytes);
        self.poll(true, next);
    }

    /// There was nothing to read, or no mail.
    pub fn nothing_yet(&mut self, next: &mut NextAction)
        ensures { IsMove self.old Event.NothingYet next.new self.new }
    {
        match self.stage {
            Stage::Reading => next.set(Does::Read),
            Stage::ReadingOn => self.poll(true, next),
            Stage::Polling { waits } => self.no_mail_yet(waits, next),
            Stage::Leaving(_) => next.set(Does::PollMail),
            _ => stray(next),
        }
    }

    /// The client sends no more.
    pub fn end_of_input(&mut self, next: &mut NextAction)
        ensures { IsMove self.old Event.EndOfInput next.new self.new }
    {
        match self.stage {
            Stage::Reading => self.close(LineEnd::EndOfInput, next),
            Stage::ReadingOn => {
                self.end_told = true;
                self.stage = Stage::TellingEnd;
                next.submit(Step::End);
            }
            _ => stray(next),
        }
    }

    /// A read of the connection failed.
    pub fn read_fault(&mut self, next: &mut NextAction)
        ensures { IsMove self.old Event.ReadFault next.new self.new }
    {
        match self.stage {
            Stage::Reading => self.close(LineEnd::ReadFault, next),
            Stage::ReadingOn => self.close(LineEnd::ReadFault, next),
            _ => stray(next),
        }
    }

    /// An answer came. It must already be in `next` as a `Write`; if it is to be written, it stays
    /// there. If it ends the connection, the memory for a body that did not come whole is freed.
    pub fn mail(&mut self, next: &mut NextAction)
        ensures moved { (answer : Answer) → next.old ≡ Action.Write answer
            → IsMove self.old (Event.Mail answer) next.new self.new }
        ensures freed { (answer : Answer) (end : LineEnd) → next.old ≡ Action.Write answer
            → next.new ≡ Action.LineOver end → Stands self.new.reader [] }
    {
        match self.stage {
            Stage::Polling { .. } => self.stage = Stage::Writing,
            Stage::Leaving(end) => self.mail_after_close(end, next),
            _ => stray(next),
        }
    }

    /// Returns true if the machine submits a request.
    pub fn is_asking(&self) -> bool
        ensures { result ≡ is_asking self.now.stage }
    {
        matches!(self.stage, Stage::Asking { .. })
    }

    /// The request was submitted, and then its answer came: `submitted` and `mail` in one call. The
    /// answer must already be in `next` as a `Write`, and stays there.
    pub fn answered(&mut self, next: &mut NextAction)
        requires asking { is_asking self.old.stage ≡ true }
        ensures moved { (answer : Answer) → next.old ≡ Action.Write answer → IsAnswered self.old answer next.new self.new }
    {
        self.stage = Stage::Writing;
    }

    /// The whole answer was written.
    #[inline(always)]
    pub fn write_done(&mut self, alloc: Global, next: &mut NextAction)
        ensures { IsMove self.old Event.WriteDone next.new self.new }
    {
        match self.stage {
            Stage::Writing => self.go_on(alloc, next),
            _ => stray(next),
        }
    }

    /// A write to the connection failed.
    pub fn write_fault(&mut self, next: &mut NextAction)
        ensures { IsMove self.old Event.WriteFault next.new self.new }
    {
        match self.stage {
            Stage::Writing => self.close(LineEnd::WriteFault, next),
            _ => stray(next),
        }
    }

    // No answer is outstanding: submits the next request in the kept bytes. If they contain none,
    // it reads more, or closes the connection if the client sends no more.
    fn go_on(&mut self, alloc: Global, next: &mut NextAction)
        ensures { GoesOn self.old next.new self.new }
    {
        if self.end_told {
            return self.close(LineEnd::EndOfInput, next);
        }
        if self.kept.is_empty() {
            return self.read(next);
        }
        self.go_on_with_kept(alloc, next)
    }

    // Does the same if bytes are kept. A separate function, because its caller would otherwise
    // initialize room for a request on every path.
    #[inline(never)]
    fn go_on_with_kept(&mut self, alloc: Global, next: &mut NextAction)
        requires { self.old.end_told ≡ false }
        ensures { GoesOn self.old next.new self.new }
    {
        let taken = take_to(alloc, &mut self.reader, self.kept.as_slice(), next);
        self.kept.drop_front(taken.count);
        self.ask_or_read(taken.is_request, next);
    }

    // Does the same if no bytes are kept and these bytes came. It parses the request directly from
    // `bytes`, and keeps only the bytes after it.
    fn take_in(&mut self, alloc: Global, bytes: &[u8], next: &mut NextAction)
        requires { HasRoomIn self.old.reader.place (length bytes.now) }
        ensures { GoesOn (holding bytes.now self.old) next.new self.new }
    {
        if self.end_told {
            return self.close(LineEnd::EndOfInput, next);
        }
        let taken = take_to(alloc, &mut self.reader, bytes, next);
        self.kept.replace_by_rest(bytes, taken.count);
        self.ask_or_read(taken.is_request, next);
    }

    // Submits the request in `next`, or reads the connection if there is none.
    #[inline(always)]
    fn ask_or_read(&mut self, is_request: bool, next: &mut NextAction)
        ensures { (request : Request) → next.old ≡ Action.Submit (Step.Ask request)
            → AsksOrReads is_request request self.old next.new self.new }
    {
        if !is_request {
            return self.read(next);
        }
        if let Step::Ask(request) = next.step() {
            self.stage = stage_of(request);
        }
    }

    fn read(&mut self, next: &mut NextAction)
        ensures action { next.new ≡ Action.Read }
        ensures after { self.new ≡ in_stage Stage.Reading self.old }
    {
        self.stage = Stage::Reading;
        next.set(Does::Read);
    }

    fn poll(&mut self, waits: bool, next: &mut NextAction)
        ensures action { next.new ≡ Action.PollMail }
        ensures after { self.new ≡ in_stage (Stage.Polling waits) self.old }
    {
        self.stage = Stage::Polling { waits };
        next.set(Does::PollMail);
    }

    // Returns true if the connection is read while an answer is outstanding.
    fn reads_on(&self, waits: bool) -> bool
        ensures { result ≡ reads_on waits self.now }
    {
        waits && !self.end_told && self.kept.is_empty()
    }

    // No answer has come yet. While a reserve waits, the connection is read if no bytes are kept.
    fn no_mail_yet(&mut self, waits: bool, next: &mut NextAction)
        ensures action { next.new
            ≡ (if reads_on waits self.old then Action.Read else Action.PollMail) }
        ensures after { self.new
            ≡ (if reads_on waits self.old then in_stage Stage.ReadingOn self.old else self.old) }
    {
        if self.reads_on(waits) {
            self.stage = Stage::ReadingOn;
            next.set(Does::Read);
        } else {
            next.set(Does::PollMail);
        }
    }

    fn close(&mut self, end: LineEnd, next: &mut NextAction)
        ensures action { next.new ≡ Action.Submit Step.Close }
        ensures after { self.new ≡ in_stage (Stage.Closing end) self.old }
    {
        self.stage = Stage::Closing(end);
        next.submit(Step::Close);
    }

    fn leave(&mut self, end: LineEnd, next: &mut NextAction)
        ensures action { next.new ≡ Action.PollMail }
        ensures after { self.new ≡ in_stage (Stage.Leaving end) self.old }
    {
        self.stage = Stage::Leaving(end);
        next.set(Does::PollMail);
    }

    // The answer to the close ends the connection. Other mail is dropped. A body that did not come
    // whole is freed here, since the next connection may come much later.
    #[inline(never)]
    fn mail_after_close(&mut self, end: LineEnd, next: &mut NextAction)
        ensures action { (answer : Answer) → next.old ≡ Action.Write answer
            → next.new ≡ (if is_closed_answer answer then Action.LineOver end else Action.PollMail) }
        ensures after { (answer : Answer) → next.old ≡ Action.Write answer
            → self.new ≡ (if is_closed_answer answer then between self.new.reader self.old else self.old) }
        ensures limit { self.new.reader.max_job_size ≡ self.old.reader.max_job_size }
        ensures freed { (over : LineEnd) → next.new ≡ Action.LineOver over → Stands self.new.reader [] }
    {
        match next.answer() {
            Answer::Closed => {
                self.reader.restart();
                self.stage = Stage::Between;
                next.set(Does::LineOver(end));
            }
            _ => next.set(Does::PollMail),
        }
    }
}

// The event does not answer the last action. A separate function, so that its
// callers save no registers for it: the last action has to be dropped.
#[inline(never)]
fn stray(next: &mut NextAction)
    ensures { next.new ≡ Action.Stray }
{
    next.set(Does::Stray);
}

// Reads the next request from these bytes. It is made in `next`, as the step that submits it, so that
// it is not copied.
#[inline(always)]
fn take_to(alloc: Global, reader: &mut RequestReader, bytes: &[u8], next: &mut NextAction) -> Taken
    ensures asks { next.new ≡ Action.Submit (Step.Ask (request_of next.new)) }
    ensures taken { IsTaken reader.old reader.new bytes.now result (request_of next.new) }
{
    next.submit_request();
    next.take_request(alloc, reader, bytes)
}

fn stage_of(request: &Request) -> Stage
    ensures { result ≡ asking_stage request.now }
{
    match request {
        Request::Quit => Stage::AskingQuit,
        Request::Reserve | Request::ReserveWithTimeout { .. } => Stage::Asking { waits: true },
        _ => Stage::Asking { waits: false },
    }
}

/// The largest piece of bytes that can be passed in at once.
pub const PIECE_ROOM: usize = 4096;
