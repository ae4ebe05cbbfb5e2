//! A seat that attends to a door: it serves the door's connections one after another, one action at
//! a time. Also its link to the core, and how one action is carried out at its connection and its
//! link.
ghost use Rattle.std.specs.Prelude.{◌≡◌, ◌⊎◌, ◌≤◌, ◌↔◌, [], false, true, not, IfOk, IsTrue, ℕ, List};
ghost use Rattle.bq_seat.specs.Outstanding.{ReadsWith};
ghost use Rattle.bq_seat.specs.Past.{Awaited};
ghost use Rattle.bq_seat.specs.SeatStands.{awaited};
ghost use Rattle.bq_seat.specs.declared.machine.SeatMachine.{SeatMachine};
ghost use Rattle.bq_line.specs.Doors.{MayOpen};
ghost use Rattle.bq_line.specs.Tending.{DoorSeen, GoesOn, IsPlaced, MayEndAt, MovesAt, StaysOpenOver, StaysSure, Tends, Uses, UsesAt, attendant, door_seen};
ghost use Rattle.bq_line.specs.Tending.{is_polling, is_submitting, is_writing};
ghost use Rattle.bq_job.specs.declared.answer.Answer.{Answer};
ghost use Rattle.bq_job.specs.declared.step.Step.{Step};
ghost use Rattle.bq_line.specs.Streams.{StaysOver};
ghost use Rattle.bq_line.specs.Carried.{Carried, CarriedPart, HasGone};
ghost use Rattle.bq_line.specs.Lacking.{Lacks, LacksAt};
ghost use Rattle.bq_line.specs.Links.{Calls, SubmitsInPlace, TakesFurther, TakesInPlace};
ghost use Rattle.bq_line.specs.Submitting.{HasSubmitted, HasSubmittedOn, TakesOrWaits};

use crate::buffers::{Buffers, Wrote, read, write_answer};
use crate::door::{Door, Opening};
use crate::line::{Line, ReadBuffer, Readiness, Watcher};
use bq_job::{LARGEST_BODY, LineEnd, NoMemory, Step};
use bq_seat::{Action, Does, NextAction, SeatMachine};
use std::alloc::Global;
use std::mem;

/// A seat's link to the core. Steps and answers are passed by reference, so they are not copied.
pub trait Link {
    /// The core and the link are ready for a call.
    ghost is_ready: { Self → Type 0 };

    /// From the first link, the seat submitted these steps and took these answers, and the second
    /// link is what remained.
    ghost trace: { Self → List Step → List Answer → Self → Type 0 };

    /// The first link did not accept this step, and the second link is what remained.
    ghost refused: { Self → Step → Self → Type 0 } = { λ _ _ _. Unit {0} };

    /// The first link had no answer to take, and the second link is what remained.
    ghost had_none: { Self → Self → Type 0 } = { λ _ _. Unit {0} };

    /// Submits the step and returns true; `step` then has no meaning. If there is no room for it
    /// now, leaves it as it was and returns false.
    fn submit(&mut self, step: &mut Step) -> bool
        requires ready { is_ready self.old }
        ensures ready { is_ready self.new }
        ensures trace { SubmitsInPlace trace self.old step.old result step.new self.new }
        ensures refused { result ≡ false → refused self.old step.old self.new };

    /// Takes the oldest waiting answer, makes `action` one that writes it, and returns true. If
    /// there is none, leaves `action` as it was and returns false. A link between
    /// threads may sleep here for up to a second, until an answer comes.
    fn mail(&mut self, action: &mut NextAction) -> bool
        requires ready { is_ready self.old }
        ensures ready { is_ready self.new }
        ensures trace { TakesInPlace trace self.old action.old result action.new self.new }
        ensures none { result ≡ false → had_none self.old self.new };

    /// Takes the oldest waiting answer as `mail` does, but never sleeps. By default it takes none:
    /// the seat then calls `mail` for it.
    fn mail_at_once(&mut self, action: &mut NextAction) -> bool
        requires ready { is_ready self.old }
        ensures ready { is_ready self.new }
        ensures trace { TakesFurther trace self.old action.old result action.new self.new }
    {
        false
    }
}

/// Whether an action of a seat moved something. Unless it is `Moved`, the seat submitted no step and
/// took no answer, and the value says what remains to be done or what was missing.
#[derive(Clone, Copy, PartialEq, Eq)]
pub enum Progress {
    /// Something moved.
    Moved,
    /// A part of an answer was written, and the rest remains to be written. There may be room for
    /// more, so the seat can act again at once.
    Part,
    /// The link did not accept the step. The same step is submitted again.
    NotAccepted,
    /// No answer has come.
    NoMail,
    /// The connection has no bytes yet.
    NoBytes,
    /// The connection has no room yet for the rest of the answer, which remains to be written.
    NoRoom,
    /// There was nothing to do.
    NothingToDo,
}

impl Progress {
    /// Returns true if an action was carried out whole.
    pub fn has_moved(self) -> bool
        ensures { IsTrue result ↔ (self ≡ Progress.Moved) }
    {
        matches!(self, Progress::Moved)
    }
}

/// The phase of a seat: between two connections, at one, or done.
#[derive(Drop)]
pub enum SeatPhase<L> {
    /// The next connection has to be opened.
    Between,
    /// This connection is open, and the action is its next one. If the action writes an answer, the
    /// number says how many bytes of it were written already.
    On(L, NextAction, usize),
    /// No more connections come, which has to be submitted.
    Leaving,
    /// It was submitted that no more connections come.
    Done,
}

/// The result of opening the next connection without waiting.
#[derive(Clone, Copy, PartialEq, Eq)]
pub enum TryOpened {
    /// A connection was opened.
    Opened,
    /// No client has connected yet. The system reports when one has.
    NotYet,
    /// No connection can be accepted for a while. The system does not report when that ends.
    Later,
    /// No more connections come.
    NoMore,
}

/// A seat, and its phase at its door.
#[derive(Drop)]
pub struct Attendant<L> {
    pub machine: SeatMachine,
    pub phase: SeatPhase<L>,
}

impl<L: Line + Drop> Attendant<L> {
    /// Returns a seat whose door has not been opened. Bodies may have at most `max_job_size` bytes.
    /// Everything except bodies is allocated here; returns `NoMemory` if that fails.
    pub fn new(alloc: Global, max_job_size: u32) -> Result<Attendant<L>, NoMemory>
        requires { (1 ≤ max_job_size) × (max_job_size ≤ LARGEST_BODY) }
        ensures phase { IfOk result (λ a. a.phase ≡ SeatPhase.Between) }
        ensures awaits { IfOk result (λ a. awaited a.machine ≡ Awaited.ALine) }
        ensures limit { IfOk result (λ a. a.machine.reader.max_job_size ≡ max_job_size) }
    {
        let machine = SeatMachine::new(alloc, max_job_size)?;
        Ok(Attendant {
            machine,
            phase: SeatPhase::Between,
        })
    }

    /// Returns true if its door has ended and that was submitted.
    pub fn is_done(&self) -> bool
        ensures { IsTrue result ↔ (self.now.phase ≡ SeatPhase.Done) }
    {
        matches!(self.phase, SeatPhase::Done)
    }

    /// Returns true if the seat is blocked on input: it wants to read and has no outstanding
    /// answer.
    pub fn awaits_line(&self) -> bool
        ensures reads { IsTrue result
            → (line : L) × (sent : ℕ) × (self.now.phase ≡ SeatPhase.On line Action.Read sent) }
        ensures outstanding { (line : L) (sent : ℕ) → self.now.phase ≡ SeatPhase.On line Action.Read sent
            → ReadsWith (not result) self.now.machine }
    {
        self.reads() && !self.machine.has_outstanding()
    }

    /// Returns true if it wants to read while an answer is outstanding.
    pub fn reads_on(&self) -> bool
        ensures reads { IsTrue result
            → (line : L) × (sent : ℕ) × (self.now.phase ≡ SeatPhase.On line Action.Read sent) }
        ensures outstanding { (line : L) (sent : ℕ) → self.now.phase ≡ SeatPhase.On line Action.Read sent
            → ReadsWith result self.now.machine }
    {
        self.reads() && self.machine.has_outstanding()
    }

    /// Returns true if it wants to read its connection.
    pub fn reads(&self) -> bool
        ensures { IsTrue result ↔ ((line : L) × (sent : ℕ) × (self.now.phase ≡ SeatPhase.On line Action.Read sent)) }
    {
        match &self.phase {
            SeatPhase::On(_, next, _) => next.is_read(),
            _ => false,
        }
    }

    /// Returns true if it wants to submit a step, possibly again.
    pub fn submits(&self) -> bool
        ensures { result ≡ is_submitting self.now.phase }
    {
        match &self.phase {
            SeatPhase::On(_, next, _) => matches!(next.does(), Does::Submit),
            SeatPhase::Leaving => true,
            _ => false,
        }
    }

    /// Returns true if it wants to check its mail for an answer.
    pub fn polls_mail(&self) -> bool
        ensures { result ≡ is_polling self.now.phase }
    {
        match &self.phase {
            SeatPhase::On(_, next, _) => matches!(next.does(), Does::PollMail),
            _ => false,
        }
    }

    /// Returns true if it wants to write an answer.
    pub fn writes(&self) -> bool
        ensures { result ≡ is_writing self.now.phase }
    {
        match &self.phase {
            SeatPhase::On(_, next, _) => matches!(next.does(), Does::Write),
            _ => false,
        }
    }

    /// Returns true if its next connection has to be opened.
    pub fn is_between(&self) -> bool
        ensures { IsTrue result ↔ (self.now.phase ≡ SeatPhase.Between) }
    {
        matches!(self.phase, SeatPhase::Between)
    }

    /// Records what the system reported about the connection's readiness. A seat between two
    /// connections stays as it is.
    #[tactic(auto, using(crate::proofs::TendingLemmas::tends_told))]
    pub fn note_ready(&mut self, ready: Readiness)
        ensures trace { (door : DoorSeen) → Tends L.seen self.old door [] [] self.new door }
        ensures between { self.old.phase ≡ SeatPhase.Between → self.new.phase ≡ SeatPhase.Between }
    {
        if let SeatPhase::On(line, _, _) = &mut self.phase {
            line.note_ready(ready);
        }
    }

    /// Swaps the read buffer of the open connection with this one if both are empty.
    #[tactic(auto, using(crate::proofs::TendingLemmas::tends_told))]
    pub fn exchange(&mut self, buffer: &mut ReadBuffer)
        ensures { (door : DoorSeen) → Tends L.seen self.old door [] [] self.new door }
    {
        if let SeatPhase::On(line, _, _) = &mut self.phase {
            line.exchange(buffer);
        }
    }

    /// Sends what the connection holds back for further answers.
    #[tactic(auto, using(crate::proofs::TendingLemmas::tends_told))]
    pub fn hand_on(&mut self)
        ensures { (door : DoorSeen) → Tends L.seen self.old door [] [] self.new door }
    {
        if let SeatPhase::On(line, _, _) = &mut self.phase {
            line.expect_more(false);
        }
    }

    /// Opens the next connection without waiting for it, and has it watched. `may_have_come` is
    /// false if no client can have connected since the last call.
    pub fn try_open<D: Door<Line = L>, W: Watcher>(
        &mut self,
        alloc: Global,
        door: &mut D,
        may_have_come: bool,
        watcher: &W,
    ) -> TryOpened
        requires between { self.old.phase ≡ SeatPhase.Between }
        requires more { MayOpen (D.is_out door.old) (D.is_at_end door.old) }
        ensures trace { let at = door_seen D.Door in
            Tends L.seen self.old (at door.old) [] [] self.new (at door.new) }
        ensures same { (first : D) → D.same first door.old → D.same first door.new }
        ensures sure { StaysSure L.lies_over D.lines_over D.may_fail self.old.phase door.old self.new.phase door.new }
        // Without a connection it is still between two connections.
        ensures none { (result ≡ TryOpened.NotYet) ⊎ (result ≡ TryOpened.Later) → self.new.phase ≡ SeatPhase.Between }
    {
        match door.try_open(may_have_come, watcher) {
            Ok(Opening::Line(line)) => {
                let action = self.machine.open();
                set_phase(&mut self.phase, SeatPhase::On(line, action, 0));
                TryOpened::Opened
            }
            Ok(Opening::NotYet) => TryOpened::NotYet,
            Ok(Opening::Later) => TryOpened::Later,
            Ok(Opening::NoMore) => {
                set_phase(&mut self.phase, SeatPhase::Leaving);
                TryOpened::NoMore
            }
            Err(_) => {
                set_phase(&mut self.phase, SeatPhase::Leaving);
                TryOpened::NoMore
            }
        }
    }

    /// Carries out one action of the seat. If that submits a step and the link has the answer at
    /// once, the seat takes it too. A step that was not accepted is submitted again at the next
    /// call.
    pub fn go_on<D: Door<Line = L>, K: Link>(
        &mut self,
        alloc: Global,
        door: &mut D,
        link: &mut K,
        buffers: &mut Buffers,
    ) -> Progress
        requires placed { IsPlaced self.old.phase
            (door_seen D.Door door.old) }
        requires ready { K.is_ready link.old }
        ensures ready { K.is_ready link.new }
        // The result is one that this phase can have. Unless something moved, the seat submitted
        // nothing and took nothing.
        ensures progress { MayEndAt result self.old.phase }
        ensures still { (result ≡ Progress.Moved → ⊥) → Calls K.trace link.old [] [] link.new }
        // It reports a step that was not accepted, or that no answer has come, only if the link did so
        // in this call.
        ensures lacks { LacksAt K.refused K.had_none result link.old self.old.phase link.new }
        // If a connection was to be opened or shut, or no more were to come, that was done.
        ensures moves { MovesAt result self.old.phase self.new.phase }
        // If a step was to be submitted or an answer to be taken, and it says so, that was done.
        ensures uses { UsesAt K.trace result link.old self.old.phase link.new }
        // Whatever it did before, it continued with the steps that it submitted and the answers
        // that it took.
        ensures trace { let at = door_seen D.Door in
            GoesOn K.trace link.old link.new L.seen self.old (at door.old) self.new (at door.new) }
        ensures stays { StaysOpenOver L.lies_over self.old.phase self.new.phase }
        // No connection of a door whose streams may not fail meets a fault.
        ensures sure { StaysSure L.lies_over D.lines_over D.may_fail self.old.phase door.old self.new.phase door.new }
        // The door is still the same.
        ensures same { (first : D) → D.same first door.old → D.same first door.new }
    {
        // An open connection stays in place until it ends.
        match &mut self.phase {
            SeatPhase::On(line, action, sent) => match action.does() {
                Does::LineOver(end) => {
                    shut_line(&mut self.phase, door, end);
                    Progress::Moved
                }
                Does::Submit => submit_and_take(alloc, &mut self.machine, action, sent, link),
                _ => carry_out(alloc, &mut self.machine, action, sent, line, link, buffers),
            },
            _ => self.go_on_without(alloc, door, link),
        }
    }

    // Does the same for a seat that has no connection.
    #[inline(never)]
    fn go_on_without<D: Door<Line = L>, K: Link>(
        &mut self,
        alloc: Global,
        door: &mut D,
        link: &mut K,
    ) -> Progress
        requires placed { IsPlaced self.old.phase
            (door_seen D.Door door.old) }
        requires ready { K.is_ready link.old }
        requires without { (line : L) (action : Action) (sent : ℕ) → self.old.phase ≡ SeatPhase.On line action sent → ⊥ }
        ensures ready { K.is_ready link.new }
        ensures progress { MayEndAt result self.old.phase }
        ensures still { (result ≡ Progress.Moved → ⊥) → Calls K.trace link.old [] [] link.new }
        ensures lacks { LacksAt K.refused K.had_none result link.old self.old.phase link.new }
        ensures moves { MovesAt result self.old.phase self.new.phase }
        ensures uses { UsesAt K.trace result link.old self.old.phase link.new }
        ensures trace { let at = door_seen D.Door in
            GoesOn K.trace link.old link.new L.seen self.old (at door.old) self.new (at door.new) }
        ensures sure { StaysSure L.lies_over D.lines_over D.may_fail self.old.phase door.old self.new.phase door.new }
        ensures same { (first : D) → D.same first door.old → D.same first door.new }
    {
        match &mut self.phase {
            SeatPhase::Between => {
                open_in_place(alloc, &mut self.machine, &mut self.phase, door);
                Progress::Moved
            }
            SeatPhase::Leaving => leave(&mut self.phase, link),
            SeatPhase::Done => Progress::NothingToDo,
            SeatPhase::On(..) => Progress::NothingToDo,
        }
    }
}

// Opens the next connection in the phase, or learns that no more come. A separate function, because
// its caller would otherwise reserve and initialize room for a connection on every path.
#[inline(never)]
fn open_in_place<L: Line + Drop, D: Door<Line = L>>(
    alloc: Global,
    machine: &mut SeatMachine,
    phase: &mut SeatPhase<L>,
    door: &mut D,
)
    requires more { MayOpen (D.is_out door.old) (D.is_at_end door.old) }
    ensures opened { phase.new ≡ SeatPhase.Between → ⊥ }
    ensures trace { let at = door_seen D.Door in
        Tends L.seen (attendant machine.old SeatPhase.Between) (at door.old) [] [] (attendant machine.new phase.new) (at door.new) }
    ensures sure { StaysSure L.lies_over D.lines_over D.may_fail SeatPhase.Between door.old phase.new door.new }
    ensures same { (first : D) → D.same first door.old → D.same first door.new }
{
    match door.open() {
        Ok(Some(line)) => {
            let action = machine.open();
            set_phase(phase, SeatPhase::On(line, action, 0));
        }
        Ok(None) => set_phase(phase, SeatPhase::Leaving),
        Err(_) => set_phase(phase, SeatPhase::Leaving),
    }
}

// Replaces the phase of a seat. It is a call, so that what drops the last one is proved once.
fn set_phase<L: Line + Drop>(phase: &mut SeatPhase<L>, next: SeatPhase<L>)
    ensures { phase.new ≡ next }
{
    drop(mem::replace(phase, next));
}

// Shuts the connection, and ends its phase. A separate function, because its caller would
// otherwise reserve and initialize room for a connection on every path.
#[inline(never)]
fn shut_line<L: Line + Drop, D: Door<Line = L>>(
    phase: &mut SeatPhase<L>,
    door: &mut D,
    end: LineEnd,
)
    requires over { (line : L) × (sent : ℕ) × (phase.old ≡ SeatPhase.On line (Action.LineOver end) sent) }
    requires placed { IsPlaced phase.old (door_seen D.Door door.old) }
    ensures shut { phase.new ≡ SeatPhase.Between }
    ensures trace { let at = door_seen D.Door in
        (machine : SeatMachine) → Tends L.seen (attendant machine phase.old) (at door.old) [] [] (attendant machine phase.new) (at door.new) }
    ensures sure { StaysSure L.lies_over D.lines_over D.may_fail phase.old door.old phase.new door.new }
    ensures same { (first : D) → D.same first door.old → D.same first door.new }
{
    if let SeatPhase::On(line, action, _) = mem::replace(phase, SeatPhase::Between) {
        drop(action);
        door.shut(line, end);
    }
}

// Submits that no more connections come.
fn leave<L: Line + Drop, K: Link>(phase: &mut SeatPhase<L>, link: &mut K) -> Progress
    requires leaving { phase.old ≡ SeatPhase.Leaving }
    requires ready { K.is_ready link.old }
    ensures ready { K.is_ready link.new }
    ensures progress { MayEndAt result phase.old }
    ensures left { (phase.new ≡ SeatPhase.Leaving) ⊎ (phase.new ≡ SeatPhase.Done) }
    ensures moves { MovesAt result phase.old phase.new }
    ensures uses { Uses K.trace result link.old (Action.Submit Step.Gone) link.new }
    ensures still { (result ≡ Progress.Moved → ⊥) → K.trace link.old [] [] link.new }
    ensures lacks { Lacks K.refused K.had_none result link.old (Action.Submit Step.Gone) link.new }
    ensures trace { (machine : SeatMachine) (door : DoorSeen)
        → GoesOn K.trace link.old link.new L.seen (attendant machine phase.old) door (attendant machine phase.new) door }
{
    let mut step = Step::Gone;
    let is_submitted = link.submit(&mut step);
    drop(step);
    if is_submitted {
        set_phase(phase, SeatPhase::Done);
        Progress::Moved
    } else {
        Progress::NotAccepted
    }
}

/// Carries out one action of a seat machine, and replaces it by the next one. An action that ends
/// the connection does nothing here. The contents of `buffers` have no meaning before or after.
///
/// If the action writes an answer, `sent` is the number of its bytes that were written before.
/// Bytes for which the connection has no room remain to be written, and so do those of a long
/// answer after the first 256 KB.
///
/// The result says what moved or what was missing: a step was not accepted, there was no mail, or
/// the connection had no bytes or no room yet. The same action can then be tried again later. After
/// a part of an answer it can be continued at once.
pub fn carry_out<L: Line, K: Link>(
    alloc: Global,
    machine: &mut SeatMachine,
    action: &mut NextAction,
    sent: &mut usize,
    line: &mut L,
    link: &mut K,
    buffers: &mut Buffers,
) -> Progress
    requires ready { K.is_ready link.old }
    ensures ready { K.is_ready link.new }
    ensures carried { (submitted : List Step) × (taken : List Answer) × HasGone K.trace link.old action.old submitted taken link.new
        × CarriedPart result machine.old (L.seen line.old) action.old sent.old machine.new (L.seen line.new) action.new sent.new submitted taken }
    ensures lacks { Lacks K.refused K.had_none result link.old action.old link.new }
    ensures stays { StaysOver L.lies_over line.old line.new }
{
    match action.does() {
        Does::Write => {
            expect_answers(machine, line);
            match write_answer(line, action.answer(), sent, buffers) {
                Wrote::Whole => {
                    *sent = 0;
                    machine.write_done(alloc, action);
                    Progress::Moved
                }
                Wrote::Part => Progress::Part,
                Wrote::NotYet => Progress::NoRoom,
                Wrote::Fault => {
                    *sent = 0;
                    machine.write_fault(action);
                    Progress::Moved
                }
            }
        }
        _ => {
            *sent = 0;
            act(alloc, machine, action, line, link, buffers)
        }
    }
}

// Does the same for an action that writes nothing.
fn act<L: Line, K: Link>(
    alloc: Global,
    machine: &mut SeatMachine,
    action: &mut NextAction,
    line: &mut L,
    link: &mut K,
    buffers: &mut Buffers,
) -> Progress
    requires ready { K.is_ready link.old }
    ensures ready { K.is_ready link.new }
    ensures carried { (submitted : List Step) × (taken : List Answer) × HasGone K.trace link.old action.old submitted taken link.new ×
        Carried result machine.old (L.seen line.old) action.old machine.new (L.seen line.new) action.new submitted taken }
    ensures lacks { Lacks K.refused K.had_none result link.old action.old link.new }
    ensures stays { StaysOver L.lies_over line.old line.new }
{
    match action.does() {
        Does::Submit => submit(alloc, machine, action, link),
        Does::Read => read(alloc, machine, action, line, &mut buffers.piece),
        Does::PollMail => {
            if link.mail(action) {
                machine.mail(action);
                Progress::Moved
            } else {
                // The answer may take long.
                line.expect_more(false);
                machine.nothing_yet(action);
                Progress::NoMail
            }
        }
        Does::Write => Progress::NoRoom,
        Does::LineOver(_) => Progress::NothingToDo,
        Does::Stray => Progress::NothingToDo,
    }
}

// Submits the step of an action.
fn submit<K: Link>(
    alloc: Global,
    machine: &mut SeatMachine,
    action: &mut NextAction,
    link: &mut K,
) -> Progress
    requires ready { K.is_ready link.old }
    ensures ready { K.is_ready link.new }
    ensures submitted { (step : Step) → action.old ≡ Action.Submit step
        → HasSubmitted K.trace link.old link.new result machine.old step machine.new action.new }
    ensures lacks { Lacks K.refused K.had_none result link.old action.old link.new }
{
    match action.does() {
        Does::Submit => {
            if link.submit(action.step_mut()) {
                machine.submitted(alloc, action);
                Progress::Moved
            } else {
                Progress::NotAccepted
            }
        }
        _ => Progress::NothingToDo,
    }
}

// Submits the step of an action. If it is a request and the link has the answer at once, the seat
// takes it.
fn submit_and_take<K: Link>(
    alloc: Global,
    machine: &mut SeatMachine,
    action: &mut NextAction,
    sent: &mut usize,
    link: &mut K,
) -> Progress
    requires ready { K.is_ready link.old }
    ensures ready { K.is_ready link.new }
    ensures none_sent { sent.new ≡ 0 }
    ensures submitted { (step : Step) → action.old ≡ Action.Submit step
        → HasSubmittedOn K.trace link.old link.new result machine.old step machine.new action.new }
    ensures lacks { Lacks K.refused K.had_none result link.old action.old link.new }
{
    *sent = 0;
    match action.does() {
        Does::Submit => {
            if !link.submit(action.step_mut()) {
                return Progress::NotAccepted;
            }
            take_or_wait(alloc, machine, action, link);
            Progress::Moved
        }
        _ => Progress::NothingToDo,
    }
}

// The step of a seat was submitted. Takes the answer to a request if the link has it at once.
#[inline(always)]
fn take_or_wait<K: Link>(
    alloc: Global,
    machine: &mut SeatMachine,
    action: &mut NextAction,
    link: &mut K,
)
    requires ready { K.is_ready link.old }
    ensures ready { K.is_ready link.new }
    ensures took { TakesOrWaits K.trace link.old link.new machine.old machine.new action.new }
{
    if machine.is_asking() && link.mail_at_once(action) {
        machine.answered(action);
    } else {
        machine.submitted(alloc, action);
    }
}

// Another answer is written soon if more bytes came after the command whose answer is written now.
fn expect_answers<L: Line>(machine: &SeatMachine, line: &mut L)
    ensures seen { L.seen line.new ≡ L.seen line.old }
    ensures stays { StaysOver L.lies_over line.old line.new }
{
    if machine.has_unread() || line.has_unread() {
        line.expect_more(true);
    }
}
