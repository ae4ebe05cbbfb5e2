//! The work of a seat's thread at its end of the links. The control line works in the same way.
ghost use Rattle.std.specs.Prelude.{◌≡◌, ◌<◌, [], List, false, length, true};
ghost use Rattle.bq_seat.specs.Past.{Awaited};
ghost use Rattle.bq_seat.specs.SeatStands.{awaited};
ghost use Rattle.bq_line.specs.Tending.{IsDoorServed, IsNewDoor, door_seen, GoesOn, IsPlaced, MayEndAt};
ghost use Rattle.bq_link.specs.EndStates.{IsSameSeat, WasFull};
ghost use Rattle.bq_thread_work.specs.Ends.{IsNewEnd, EndTrace, LinkTrace, Polls};
ghost use Rattle.bq_job.specs.promise.ControlDid.{IsControlDone};
ghost use Rattle.bq_job.specs.promise.History.{is_tick};
ghost use Rattle.bq_job.specs.declared.step.Step.{Step};
ghost use Rattle.bq_line.specs.ControlRead.{IsOver, IsReadToEnd};
ghost use Rattle.bq_line.specs.ControlSeen.{new_control};
ghost use Rattle.bq_line.specs.Links.{SubmitsInPlace, TakesInPlace};
ghost use Rattle.bq_link.specs.Submissions.{MaySubmit};

use bq_job::{Request, Step};
use bq_line::Door;
use bq_line::attendant::{Attendant, Link, Progress, SeatPhase};
use bq_line::buffers::Buffers;
use bq_line::control::{ControlLink, submit_control};
use bq_line::control_line::ControlInput;
use bq_line::line::Line;
use bq_link::{Intake, IntakeInvariant, NoTicks, SeatEnd};
use bq_seat::{NextAction, SeatMachine};
use std::alloc::Global;
use std::hint::spin_loop;
use std::sync::Wait;
use std::thread;
use std::time::Duration;

/// How long a seat sleeps, in milliseconds, when its connection had no bytes or no room and the
/// call did not wait for any.
const LINE_REST: u64 = 10;

/// How long a seat sleeps, in milliseconds, when the intake was full. It soon has room again.
const INTAKE_REST: u64 = 1;

/// Serves the connections of a door one after another, until no more come. Steps are submitted at
/// an end of the links, which also delivers their answers.
#[tactic(auto, using(bq_line::proofs::TendingLemmas::tended_new, crate::proofs::SeatWorkLemmas::tended_on))]
pub fn seat_work<R: Wait, L: Line + Drop, D: Door<Line = L> + Drop>(
    rt: &R,
    alloc: Global,
    intake: &Intake<NoTicks>,
    end: SeatEnd,
    machine: SeatMachine,
    door: D,
) -> (SeatEnd, D)
    requires intake { end.intake ≡ intake.now.id }
    requires end { IsNewEnd end }
    requires machine { awaited machine ≡ Awaited.ALine }
    requires door { IsNewDoor (door_seen D.Door door) }
    ensures end { IsSameSeat end result.0 }
    // The steps submitted and the answers taken at the end are what the door's connections asked
    // for and received.
    ensures served { let at = door_seen D.Door in
        IsDoorServed machine.reader.max_job_size (at result.1) result.0.submitted result.0.taken }
    // It is still the same door.
    ensures same { D.same door result.1 }
{
    let mut end = end;
    let mut door = door;
    let mut attendant = Attendant {
        machine,
        phase: SeatPhase::Between,
    };
    let mut buffers = Buffers::new();
    let mut pace = Pace::new();
    for _ in rt.forever() {
        if attendant.is_done() {
            drop(attendant);
            drop(buffers);
            return (end, door);
        }
        let progress = attend_at(
            rt,
            alloc,
            intake,
            &mut end,
            &mut attendant,
            &mut door,
            &mut buffers,
            &mut pace,
        );
        let most = pause_after(progress, attendant.awaits_line());
        pause(rt, intake, &mut end, most);
    }
    unreachable!()
}

// Returns how many milliseconds a seat sleeps after an action. If no answer has come, its next poll
// of its mail sleeps.
fn pause_after(progress: Progress, awaits_line: bool) -> u64 {
    match progress {
        Progress::NotAccepted => INTAKE_REST,
        Progress::NoBytes => rest_without_bytes(awaits_line),
        Progress::NoRoom => LINE_REST,
        Progress::Moved | Progress::Part | Progress::NoMail | Progress::NothingToDo => 0,
    }
}

// The same if no bytes have come. If an answer is outstanding, the seat does not only await its
// connection, and polls its mail next.
fn rest_without_bytes(awaits_line: bool) -> u64 {
    if awaits_line { LINE_REST } else { 0 }
}

fn pause<R: Wait>(rt: &R, intake: &Intake<NoTicks>, end: &mut SeatEnd, most: u64)
    ensures { end.new ≡ end.old }
{
    if most > 0 {
        end.wait(rt, intake, Duration::from_millis(most));
    }
}

/// The first sleep of a seat whose answer has not arrived, in milliseconds. After it, the
/// connection of a seat with a waiting reserve is read again, to notice that its client has
/// disconnected.
const FIRST_REST: u64 = 100;

/// The longest sleep, in milliseconds. Each sleep is twice as long as the one before: a client that
/// has waited for long seldom disconnects, and many may wait.
const LONGEST_REST: u64 = 1_000;

/// How many times a seat polls for an answer before it sleeps, if the answer before came while it
/// polled. The core's thread then runs on another processor, and answers within a few microseconds.
const LOOKS: u32 = 1_000;

/// How many times it polls if the answer before had come when it yielded. The core's thread then
/// mostly shares the processor, where polls are of little use.
const SOME_LOOKS: u32 = 40;

/// How many times it polls if it had to sleep for the answer before: the core's thread then sleeps
/// between two commands, and takes longer to wake.
const FEW_LOOKS: u32 = 2;

/// After this many sleeps for answers in a row it polls `LOOKS` times once, because the core's thread
/// may be awake between two commands by now.
const TRY_AFTER: u8 = 8;

/// How the last answer came.
#[derive(Clone, Copy)]
enum Arrival {
    /// It was there when the seat had yielded.
    AfterYield,
    /// While the seat polled.
    WhilePolling,
    /// After a sleep. The number says how many sleeps in a row came before that one.
    AfterSleep(u8),
}

impl Arrival {
    // Returns how many times a seat polls for its next answer.
    fn looks(self) -> u32 {
        match self {
            Arrival::AfterYield => SOME_LOOKS,
            Arrival::WhilePolling => LOOKS,
            Arrival::AfterSleep(TRY_AFTER) => LOOKS,
            Arrival::AfterSleep(_) => FEW_LOOKS,
        }
    }

    // Returns what is noted of the next answer if the seat sleeps for it.
    fn after_sleep(self) -> Arrival {
        match self {
            Arrival::AfterSleep(many) if many < TRY_AFTER => Arrival::AfterSleep(many + 1),
            _ => Arrival::AfterSleep(0),
        }
    }
}

/// How a seat waits for its next answer.
#[derive(Clone, Copy)]
pub struct Pace {
    // How many milliseconds it sleeps before it polls; 0 after a step was submitted.
    rest: u64,
    // How many times it polls.
    looks: u32,
    // Whether it sleeps and polls once more if it found nothing. After a reserve, whose answer may
    // take long, it does not: the miss is returned at once, so that bytes that the connection holds
    // back are written first.
    sleeps: bool,
    // How the last answer came.
    last: Arrival,
}

impl Pace {
    /// Returns the pace of a seat that has not submitted a step.
    pub fn new() -> Pace {
        Pace {
            rest: 0,
            looks: 1,
            sleeps: false,
            last: Arrival::AfterSleep(0),
        }
    }

    // Returns the pace after this step was submitted.
    fn after(self, step: &Step) -> Pace {
        Pace {
            rest: 0,
            looks: self.last.looks(),
            sleeps: !may_wait(step),
            last: self.last,
        }
    }

    // Returns the pace after a poll. The caller notes it if the seat does not sleep for its answer.
    fn after_look(self) -> Pace {
        Pace {
            rest: self.rest.saturating_mul(2).clamp(FIRST_REST, LONGEST_REST),
            looks: 1,
            sleeps: false,
            last: self.last.after_sleep(),
        }
    }

    // Notes an answer that was there before the seat polled, at this pace.
    fn note_yield(&mut self, now: Pace) {
        if !now.rests() {
            self.last = Arrival::AfterYield;
        }
    }

    /// Returns true if it sleeps before it polls.
    pub fn rests(self) -> bool {
        self.rest > 0
    }
}

// Returns true if the answer to a step may take long.
fn may_wait(step: &Step) -> bool {
    matches!(
        step,
        Step::Ask(Request::Reserve) | Step::Ask(Request::ReserveWithTimeout { .. })
    )
}

/// The end of a seat, or of the control line, with the intake to which it submits.
#[derive(Drop)]
pub struct SeatLink<'a, R> {
    rt: &'a R,
    intake: &'a Intake<NoTicks>,
    end: &'a mut SeatEnd,
    pace: Pace,
}

impl<'a, R: Wait> Link for SeatLink<'a, R> {
    ghost is_ready = { λ l. l.end.now.intake ≡ l.intake.now.id };

    ghost trace = { LinkTrace };

    fn submit(&mut self, step: &mut Step) -> bool {
        self.pace = self.pace.after(step);
        submit_at(self.rt, self.intake, self.end, step)
    }

    // It may sleep for up to a second, and wakes when an answer arrives.
    fn mail(&mut self, action: &mut NextAction) -> bool
        requires ready { self.old.end.now.intake ≡ self.old.intake.now.id }
        ensures ready { self.new.end.now.intake ≡ self.new.intake.now.id }
        ensures trace { TakesInPlace LinkTrace self.old action.old result action.new self.new }
        // It finds none only if none was known to wait.
        ensures none { result ≡ false → self.old.end.now.waiting ≡ [] }
    {
        mail_at(self.rt, self.intake, self.end, &mut self.pace, action)
    }
}

impl<'a, R: Wait> ControlLink for SeatLink<'a, R> {
    ghost is_ready = { λ l. l.end.now.intake ≡ l.intake.now.id };

    ghost trace = { λ first submitted last. LinkTrace first submitted [] last };

    fn submit(&mut self, mut step: Step) -> Result<(), Step> {
        if submit_at(self.rt, self.intake, self.end, &mut step) {
            drop(step);
            Ok(())
        } else {
            Err(step)
        }
    }
}

// Submits the step in `step`, and leaves it there if the intake is full. A tick is never submitted
// by a seat and is dropped.
//
// The contract holds for any invariant of the intake: if the step was not submitted, it held of a
// full intake after the last step that this end submitted.
fn submit_at<R: Wait, I: IntakeInvariant>(
    rt: &R,
    intake: &Intake<I>,
    end: &mut SeatEnd,
    step: &mut Step,
) -> bool
    requires intake { end.old.intake ≡ intake.now.id }
    requires may { is_tick step.old ≡ false
        → MaySubmit I.was intake.now.places end.old.number step.old }
    ensures intake { end.new.intake ≡ intake.now.id }
    ensures trace { SubmitsInPlace EndTrace end.old step.old result step.new end.new }
    ensures full { result ≡ false → WasFull I.was intake.now.places end.old }
{
    if matches!(step, Step::Tick) {
        return true;
    }
    end.submit_in_place(rt, intake, step)
}

// Takes the oldest answer that arrived at an end, as an action that writes it. The end sleeps as
// its pace says, until it is woken or the time has passed.
fn mail_at<R: Wait>(
    rt: &R,
    intake: &Intake<NoTicks>,
    end: &mut SeatEnd,
    pace: &mut Pace,
    action: &mut NextAction,
) -> bool
    ensures { Polls end.old action.old result action.new end.new }
{
    let now = *pace;
    *pace = now.after_look();
    sleep_or_yield(rt, intake, end, now.rest);
    if look(end, action) {
        pace.note_yield(now);
        return true;
    }
    if now.rests() {
        return false;
    }
    if look_after_yield(intake, end, now.looks, pace, action) {
        return true;
    }
    look_again(rt, intake, end, now.sleeps, action)
}

// Sleeps for up to this many milliseconds. If it is 0, a step was just submitted, and it yields to
// other threads once: the core's thread may share this processor. It does not while the core's thread
// finds that yields are slow.
fn sleep_or_yield<R: Wait>(rt: &R, intake: &Intake<NoTicks>, end: &mut SeatEnd, most: u64)
    ensures { end.new ≡ end.old }
{
    if most > 0 {
        end.wait(rt, intake, Duration::from_millis(most));
    } else if !intake.are_yields_slow() {
        thread::yield_now();
    }
}

// Polls up to this many times after a second yield. If many threads share the processor, the first
// one may end before the core's thread had its turn. To poll there is of no use, and to sleep and be
// woken costs more than to yield.
fn look_after_yield(
    intake: &Intake<NoTicks>,
    end: &mut SeatEnd,
    looks: u32,
    pace: &mut Pace,
    action: &mut NextAction,
) -> bool
    ensures { Polls end.old action.old result action.new end.new }
{
    if !intake.are_yields_slow() {
        thread::yield_now();
    }
    if look(end, action) {
        pace.last = Arrival::AfterYield;
        return true;
    }
    look_for_long(end, looks, pace, action)
}

// Polls up to this many times, and notes it if that found an answer.
fn look_for_long(end: &mut SeatEnd, looks: u32, pace: &mut Pace, action: &mut NextAction) -> bool
    ensures { Polls end.old action.old result action.new end.new }
{
    let found = look_often(end, looks, action);
    if found {
        pace.last = Arrival::WhilePolling;
    }
    found
}

// Polls once more, after a sleep if `sleeps` is true. An answer that was found without a sleep
// leaves its wake-up behind, which would end the next sleep at once; a sleep of 0 ms consumes it.
fn look_again<R: Wait>(
    rt: &R,
    intake: &Intake<NoTicks>,
    end: &mut SeatEnd,
    sleeps: bool,
    action: &mut NextAction,
) -> bool
    ensures { Polls end.old action.old result action.new end.new }
{
    let most = if sleeps { FIRST_REST } else { 0 };
    end.wait(rt, intake, Duration::from_millis(most));
    look(end, action)
}

// Polls an end up to this many times, and at least once.
fn look_often(end: &mut SeatEnd, looks: u32, action: &mut NextAction) -> bool
    ensures { Polls end.old action.old result action.new end.new }
{
    for _ in 1..looks {
        if end.has_mail() {
            take_mail_to(end, action);
            return true;
        }
        spin_loop();
    }
    look(end, action)
}

// Polls an end once.
fn look(end: &mut SeatEnd, action: &mut NextAction) -> bool
    ensures { Polls end.old action.old result action.new end.new }
{
    if !end.has_mail() {
        return false;
    }
    take_mail_to(end, action);
    true
}

// Takes the oldest answer, which is known to wait, as an action that writes it. Not inlined, because
// it reserves and initializes room for answers, which a poll that finds none does not need.
#[inline(never)]
fn take_mail_to(end: &mut SeatEnd, action: &mut NextAction)
    requires { 0 < length end.old.waiting }
    ensures { TakesInPlace EndTrace end.old action.old true action.new end.new }
{
    action.write(end.take_mail());
}

/// Does one action of a seat that attends to a door, at its end of the links. Returns what moved or
/// what was missing. The pace is kept from one action to the next.
pub fn attend_at<R: Wait, L: Line + Drop, D: Door<Line = L>>(
    rt: &R,
    alloc: Global,
    intake: &Intake<NoTicks>,
    end: &mut SeatEnd,
    attendant: &mut Attendant<L>,
    door: &mut D,
    buffers: &mut Buffers,
    pace: &mut Pace,
) -> Progress
    requires intake { end.old.intake ≡ intake.now.id }
    requires placed { IsPlaced attendant.old.phase
        (door_seen D.Door door.old) }
    ensures same { IsSameSeat end.old end.new }
    // The result is one that this phase can have. Unless something moved, the seat submitted
    // nothing and took nothing.
    ensures progress { MayEndAt result attendant.old.phase }
    ensures still { (result ≡ Progress.Moved → ⊥) → EndTrace end.old [] [] end.new }
    ensures trace { let at = door_seen D.Door in
        GoesOn EndTrace end.old end.new L.seen attendant.old (at door.old) attendant.new (at door.new) }
    ensures door { (first : D) → D.same first door.old → D.same first door.new }
{
    let mut link = SeatLink {
        rt,
        intake,
        end,
        pace: *pace,
    };
    let progress = attendant.go_on(alloc, door, &mut link, buffers);
    *pace = link.pace;
    progress
}

/// Serves a control line, of which nothing was read, at its end of the links. Returns the input.
pub fn control_at<R: Wait, I: ControlInput>(
    rt: &R,
    intake: &Intake<NoTicks>,
    end: &mut SeatEnd,
    control: I,
) -> I
    requires new { I.seen control ≡ new_control }
    requires intake { end.old.intake ≡ intake.now.id }
    ensures over { IsOver (I.seen result) }
    ensures read { IsReadToEnd (I.remaining control) (I.remaining result) (I.seen result).text (I.seen result).failed }
    ensures fault { (I.seen result).failed ≡ true → I.may_fail control ≡ true }
    ensures done { (submitted : List Step) × IsControlDone (I.seen result).text (I.seen result).failed submitted
        × EndTrace end.old submitted [] end.new }
{
    // The core sends it no answers, and it does not poll for any.
    let mut link = SeatLink {
        rt,
        intake,
        end,
        pace: Pace::new(),
    };
    submit_control(rt, control, &mut link)
}
