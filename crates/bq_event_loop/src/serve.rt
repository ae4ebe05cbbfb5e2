//! Many seats, which one thread serves in any order.
ghost use Rattle.std.specs.Prelude.{◌≡◌, ◌⊎◌, ◌<◌, ◌≤◌, ◌&&◌, not, ℕ, true, false, [], length, slice_index_or};
ghost use Rattle.bq_host.specs.MailStates.{IsInOrder};
ghost use Rattle.bq_event_loop.specs.Known.{ChangesOnly, ChangesOnlyIn, KeepsAll};
ghost use Rattle.bq_event_loop.specs.KnownTurns.{AreKnownBy};
ghost use Rattle.bq_host.specs.Hubs.{TraceInOrder, state_of};
ghost use Rattle.bq_event_loop.specs.Rows.{AreDone, AreTended, KeepsRow};
ghost use Rattle.bq_event_loop.specs.Serving.{AreReady, AreReadyFor, ControlTrace, IsServing, LoopTrace, SeatActed};
ghost use Rattle.bq_event_loop.specs.NewLoops.{IsNewRun};
ghost use Rattle.bq_event_loop.specs.SoFar.{began_with};
ghost use Rattle.bq_event_loop.specs.Sleeping.{IsWaitFor, stands_of};
ghost use Rattle.bq_event_loop.specs.Still.{IsStill};
ghost use Rattle.bq_host.specs.WakeLists.{Wakes, none_waits};
ghost use Rattle.bq_line.specs.declared.control_steps.Stage.TheVariants as stages;
ghost use Rattle.bq_line.specs.Tending.{is_polling};
ghost use Rattle.bq_line.specs.declared.attendant.Attendant.{Attendant};
ghost use Rattle.bq_seat.specs.SeatParts.{would_read};
ghost use Rattle.bq_seat.specs.declared.machine.Action.{Action};
ghost use Rattle.bq_line.specs.declared.attendant.SeatPhase.TheVariants as phases;

use crate::doors::Doors;
use crate::row::Row;
use crate::sleeper::Sleeper;
use crate::still::{has_no_mail, is_still, stands_of};
use crate::turns::{Began, ControlReads, ControlStands, News, SoFar, Stands, Task, Turn, Turns};
use crate::waiting::end_turn;
use bq_core_api::QueueCore;
use bq_host::hub_seat::attend;
use bq_host::{Hub, Mail};
use bq_job::Seat;
use bq_line::Door;
use bq_line::attendant::{Attendant, Progress, SeatPhase};
use bq_line::buffers::Buffers;
use bq_line::clock::Clock;
use bq_line::control_line::ControlInput;
use bq_line::control_steps::ControlSteps;
use bq_line::line::{Line, ReadBuffer};
use bq_seat::{Does, PIECE_ROOM};
use std::alloc::Global;
use std::snapshot::Snapshot;

// How many actions a turn has at most: a seat reads, submits a step, takes the answer and writes it.
const MOST_ACTIONS: u32 = 4;

/// Serves all seats and the control line, one turn at a time, until every seat is done and the
/// control line is over. Returns false if that was not reached within 2^64 - 1 turns, which at a
/// million turns a second last for half a million years.
///
/// `buffer` is lent to the connection of the seat that acts. The system is asked and waited for by
/// `sleeper` alone, and the loop sleeps only if nothing can move.
pub fn serve<
    T: Turns,
    W: Sleeper,
    L: Line + Drop,
    D: Door<Line = L>,
    C: Clock + Drop,
    I: ControlInput + Drop,
    K: QueueCore + Drop,
>(
    began: &Began<D, C, I>,
    turns: &mut T,
    sleeper: &mut W,
    row: &mut Row<L, D>,
    control: &mut ControlSteps<I>,
    core: &mut Hub<C, K>,
    buffers: &mut Buffers,
    buffer: &mut ReadBuffer,
) -> bool
    requires new { IsNewRun K.QueueCore D.Door I.ControlInput T.Turns (began_with I.ControlInput began.now)
        turns.old core.old row.old control.old }
    ensures done { result ≡ true → AreDone row.new.seats.items }
    ensures over { result ≡ true → control.new.stage ≡ stages.Over }
    ensures serving { IsServing K.QueueCore C.Clock L.Line D.Door I.ControlInput []
        (began_with I.ControlInput began.now) core.new row.new control.new }
{
    let mut doors = Doors::new();
    let stands = ControlStands::of(control);
    let mut news = News {
        progress: Progress::NothingToDo,
        stands: Stands::Other,
        still: None,
        due: Some(0),
        elapsed: core.timed.time.clock.elapsed(),
        control: stands,
        reads: sleeper.control_reads(stands),
        may_come: doors.may_come(),
        free: None,
    };
    for _ in 0..u64::MAX {
        let turn = turns.next(&news, began, so_far(row, control, core));
        if take_turn(turn, row, control, core, buffers, buffer, &mut news) {
            return true;
        }
        news.elapsed = core.timed.time.clock.elapsed();
        wake_all(turns, row, core);
        let now = so_far(row, control, core);
        end_turn(
            turn,
            turns,
            sleeper,
            &mut doors,
            core.timed.alloc,
            row,
            &core.mails,
            &mut news,
            &now,
        );
        drop(now);
    }
    false
}

// The seats, the doors, the clock, the control line and the core at this turn, for the proofs.
fn so_far<L: Line + Drop, D: Door<Line = L>, C, I, K>(
    row: &Row<L, D>,
    control: &ControlSteps<I>,
    core: &Hub<C, K>,
) -> SoFar<L, D, C, I, K>
    ensures seats { result.seats.value ≡ row.now.seats }
    ensures doors { result.doors.value ≡ row.now.doors }
    ensures mails { result.mails.value ≡ core.now.mails }
    ensures clock { result.clock.value ≡ core.now.timed.time.clock }
    ensures control { result.control.value ≡ control.now.input }
    ensures core { result.core.value ≡ core.now.timed.core }
    ensures whole_core { result.whole_core.value ≡ core.now }
    ensures whole_control { result.whole_control.value ≡ control.now }
{
    SoFar {
        seats: Snapshot::of(&row.seats),
        doors: Snapshot::of(&row.doors),
        mails: Snapshot::of(&core.mails),
        clock: Snapshot::of(&core.timed.time.clock),
        control: Snapshot::of(&control.input),
        core: Snapshot::of(&core.timed.core),
        whole_core: Snapshot::of(core),
        whole_control: Snapshot::of(control),
    }
}

// Does what a turn says. Returns true if the run ends here.
fn take_turn<
    L: Line + Drop,
    D: Door<Line = L>,
    C: Clock + Drop,
    I: ControlInput,
    K: QueueCore + Drop,
>(
    turn: Turn,
    row: &mut Row<L, D>,
    control: &mut ControlSteps<I>,
    core: &mut Hub<C, K>,
    buffers: &mut Buffers,
    buffer: &mut ReadBuffer,
    news: &mut News,
) -> bool
    requires ready { AreReady K.QueueCore L.Line D.Door core.old row.old }
    ensures done { result ≡ true → AreDone row.new.seats.items }
    ensures over { result ≡ true → control.new.stage ≡ stages.Over }
    ensures order { IsInOrder (state_of K.QueueCore core.new) }
    ensures tended { AreTended L.Line D.Door row.new }
    ensures served { LoopTrace K.QueueCore C.Clock L.Line D.Door I.ControlInput core.old row.old control.old
        core.new row.new control.new }
    ensures only { ChangesOnlyIn turn row.old.seats.items row.new.seats.items }
    ensures wakes { Wakes core.old.mails.items core.new.mails.items core.old.wake_queue core.new.wake_queue }
    ensures due { result ≡ false → IsWaitFor K.QueueCore news.old.due core.old
        → IsWaitFor K.QueueCore news.new.due core.new }
    ensures stands { news.old.control ≡ stands_of control.old.owes_drain control.old.stage
        → news.new.control ≡ stands_of control.new.owes_drain control.new.stage }
{
    match turn {
        Turn::Nothing | Turn::TryOpen(_) | Turn::HandOn(_) | Turn::TurnAway => false,
        Turn::Serve(seat, task) => {
            news.progress = serve_seat(row, core, seat, buffers, buffer, task);
            news.due = Some(0);
            false
        }
        Turn::Control(reads) => {
            serve_control(control, core, reads);
            news.control = ControlStands::of(control);
            news.due = Some(0);
            false
        }
        Turn::Time => {
            if is_over(row, control) {
                return true;
            }
            news.due = pass_time(core);
            false
        }
    }
}

// Passes time. Returns how long the loop may wait, in milliseconds: not at all if an answer is left
// to be delivered.
fn pass_time<C: Clock + Drop, K: QueueCore + Drop>(core: &mut Hub<C, K>) -> Option<u64>
    requires order { IsInOrder (state_of K.QueueCore core.old) }
    ensures trace { TraceInOrder K.QueueCore C.Clock 0 core.old [] [] core.new }
    ensures due { IsWaitFor K.QueueCore result core.new }
{
    let due = core.pass_time();
    if core.all_delivered { due } else { Some(0) }
}

fn is_over<L: Line + Drop, D: Door<Line = L>, I: ControlInput>(
    row: &Row<L, D>,
    control: &ControlSteps<I>,
) -> bool
    ensures done { result ≡ true → AreDone row.now.seats.items }
    ensures over { result ≡ true → control.now.stage ≡ stages.Over }
{
    control.is_over() && row.are_done()
}

// Reports to the turns each seat that has mail. No seat is then left to be woken. The row is passed
// for the contract alone.
fn wake_all<T: Turns, L: Line + Drop, D: Door<Line = L>, C: Clock + Drop, K: QueueCore + Drop>(
    turns: &mut T,
    row: &Row<L, D>,
    core: &mut Hub<C, K>,
)
    requires known { AreKnownBy L.Line T.Turns turns.old core.old.wake_queue.waiting row.now.seats.items core.old.mails.items }
    ensures known { AreKnownBy L.Line T.Turns turns.new [] row.now.seats.items core.new.mails.items }
    ensures keeps { KeepsAll (T.listed turns.old) (T.listed turns.new) }
    ensures none { core.new.wake_queue ≡ none_waits core.old.wake_queue.seats }
    ensures rest { core.new ≡ record core.old { wake_queue = core.new.wake_queue } }
{
    while let Some(seat) = core.next_woken() {
        turns.wake(usize::from(seat));
    }
}

// Does what a turn of a seat says, and returns what its last action moved or what was missing. All
// answers are then put into the mail, unless this seat takes its own next. A seat between two
// connections does nothing: it never waits at its door.
fn serve_seat<L: Line + Drop, D: Door<Line = L>, C: Clock + Drop, K: QueueCore + Drop>(
    row: &mut Row<L, D>,
    core: &mut Hub<C, K>,
    seat: usize,
    buffers: &mut Buffers,
    buffer: &mut ReadBuffer,
    task: Task,
) -> Progress
    requires ready { AreReady K.QueueCore L.Line D.Door core.old row.old }
    ensures acted { SeatActed K.QueueCore C.Clock L.Line D.Door seat core.old row.old core.new row.new }
    ensures between { (a : Attendant L) → (slice_index_or row.old.seats.items seat a).phase ≡ phases.Between
        → (seat < length row.old.seats.items) → (row.new ≡ row.old) × (core.new ≡ core.old) }
{
    if !may_act(row, &core.mails, seat, task) {
        return Progress::NothingToDo;
    }
    let progress = act_with_buffer(row, core, seat, buffers, buffer, task);
    if !takes_next(&row.seats[seat]) {
        let _all = core.deliver_all(0);
    }
    progress
}

// Returns true if this is a seat that acts on this task. It is not between two
// connections then.
fn may_act<L: Line + Drop, D: Door<Line = L>>(
    row: &Row<L, D>,
    mails: &Vec<Mail, Global>,
    seat: usize,
    task: Task,
) -> bool
    ensures within { result ≡ true → seat < length row.now.seats.items }
    ensures line { result ≡ true → (a : Attendant L) → (slice_index_or row.now.seats.items seat a).phase ≡ phases.Between → ⊥ }
    // Otherwise nothing moves at it, as far as a command goes.
    ensures idle { result ≡ false → task ≡ Task.Command → seat < length row.now.seats.items → (a : Attendant L)
        → ((slice_index_or row.now.seats.items seat a).phase ≡ phases.Between)
        ⊎ IsStill L.Line (slice_index_or row.now.seats.items seat a) (slice_index_or mails.now.items seat []) }
{
    match row.seats.get(seat) {
        Some(at) => acts(at, task, mails, seat),
        None => false,
    }
}

// Returns true if a seat acts on this task. Mostly its connection has bytes, or it has a
// command already.
#[inline(always)]
fn acts<L: Line + Drop>(
    at: &Attendant<L>,
    task: Task,
    mails: &Vec<Mail, Global>,
    seat: usize,
) -> bool
    ensures line { result ≡ true → at.now.phase ≡ phases.Between → ⊥ }
    ensures idle { result ≡ false → task ≡ Task.Command → (at.now.phase ≡ phases.Between)
        ⊎ IsStill L.Line at.now (slice_index_or mails.now.items seat []) }
{
    if task == Task::Command && has_command(at) {
        return true;
    }
    let stands = stands_of(at);
    goes_with(task, stands) && !(stands == Stands::Waits && is_still(at, has_no_mail(mails, seat)))
}

// Returns true if a seat has a command that is under way, or bytes of its connection may have come.
// One that checks for an answer is not counted.
#[inline(always)]
fn has_command<L: Line + Drop>(seat: &Attendant<L>) -> bool
    ensures line { result ≡ true → seat.now.phase ≡ phases.Between → ⊥ }
    ensures polls { result ≡ true → is_polling seat.now.phase ≡ false }
    ensures none { result ≡ false → (line : L) (action : Action) (sent : ℕ) → seat.now.phase ≡ phases.On line action sent
        → (action ≡ Action.PollMail) ⊎ (L.may_give line ≡ false) }
{
    match &seat.phase {
        SeatPhase::On(line, action, _) => match action.does() {
            Does::Read => line.may_give(),
            Does::PollMail => false,
            Does::Submit | Does::Write | Does::LineOver(_) | Does::Stray => true,
        },
        _ => false,
    }
}

// Returns true if a seat that stands so acts on this task.
fn goes_with(task: Task, stands: Stands) -> bool
    ensures line { result ≡ true → stands ≡ Stands.Between → ⊥ }
    ensures command { result ≡ false → task ≡ Task.Command
        → (stands ≡ Stands.Between) ⊎ (stands ≡ Stands.Done) ⊎ (stands ≡ Stands.Awaits) }
{
    match stands {
        Stands::Between => false,
        Stands::Done | Stands::Awaits => matches!(task, Task::Action),
        Stands::Reads => matches!(task, Task::Action | Task::Read | Task::Command),
        Stands::Submits => matches!(task, Task::Action | Task::Step | Task::Command),
        Stands::Writes => matches!(task, Task::Action | Task::Command | Task::Answer),
        Stands::ReadsOn | Stands::Waits | Stands::Other => !matches!(task, Task::Answer),
    }
}

// Does as much of a seat as the turn says. If its connection uses a read buffer, it has this one
// meanwhile. One that keeps bytes keeps the buffer and gives its own in exchange. If it has ended,
// its door gives it back.
fn act_with_buffer<L: Line + Drop, D: Door<Line = L>, C: Clock + Drop, K: QueueCore + Drop>(
    row: &mut Row<L, D>,
    core: &mut Hub<C, K>,
    seat: usize,
    buffers: &mut Buffers,
    buffer: &mut ReadBuffer,
    task: Task,
) -> Progress
    requires ready { AreReadyFor K.QueueCore L.Line D.Door seat core.old row.old }
    ensures { SeatActed K.QueueCore C.Clock L.Line D.Door seat core.old row.old core.new row.new }
{
    let lends = uses_buffer(row, seat);
    exchange_if(lends, row, seat, buffer);
    let progress = act_on_task(row, core, seat, buffers, task);
    exchange_if(lends, row, seat, buffer);
    progress
}

// Returns true if the connection of a seat has bytes in its read buffer, or if a body lacks more bytes
// than a piece holds.
fn uses_buffer<L: Line + Drop, D: Door<Line = L>>(row: &Row<L, D>, seat: usize) -> bool {
    let Some(seat) = row.seats.get(seat) else {
        return false;
    };
    match &seat.phase {
        SeatPhase::On(line, _, _) => line.has_unread() || seat.machine.missing() > PIECE_ROOM,
        _ => false,
    }
}

// Swaps the read buffer of a seat with this one if that is wanted and both are empty.
fn exchange_if<L: Line + Drop, D: Door<Line = L>>(
    lends: bool,
    row: &mut Row<L, D>,
    seat: usize,
    buffer: &mut ReadBuffer,
)
    requires tended { AreTended L.Line D.Door row.old }
    ensures keeps { KeepsRow L.Line D.Door row.old row.new }
    ensures only { ChangesOnly seat row.old.seats.items row.new.seats.items }
{
    if lends {
        row.exchange(seat, buffer);
    }
}

// Does as much of a seat as the turn says. A command is one turn, since a turn costs as much as a
// small action.
fn act_on_task<L: Line + Drop, D: Door<Line = L>, C: Clock + Drop, K: QueueCore + Drop>(
    row: &mut Row<L, D>,
    core: &mut Hub<C, K>,
    seat: usize,
    buffers: &mut Buffers,
    task: Task,
) -> Progress
    requires ready { AreReadyFor K.QueueCore L.Line D.Door seat core.old row.old }
    ensures { SeatActed K.QueueCore C.Clock L.Line D.Door seat core.old row.old core.new row.new }
{
    let mut progress = Progress::NothingToDo;
    for done in 0..MOST_ACTIONS {
        progress = act(row, core, seat, buffers);
        if !goes_on(row, seat, task, done, progress) {
            return progress;
        }
    }
    progress
}

// Returns true if the turn of a seat goes on after an action with this result, before which it did
// `done` others. In a turn for a command it also writes the answer, and submits a step after its first
// action.
fn goes_on<L: Line + Drop, D: Door<Line = L>>(
    row: &Row<L, D>,
    seat: usize,
    task: Task,
    done: u32,
    progress: Progress,
) -> bool
    requires within { seat < length row.now.seats.items }
{
    if !progress.has_moved() {
        return false;
    }
    let seat = &row.seats[seat];
    takes_next(seat) || task == Task::Command && (seat.writes() || done == 0 && seat.submits())
}

// Returns true if a seat takes an answer next. That to a `reserve` that waits was looked for when its
// step was submitted, so that it comes later.
#[inline(always)]
fn takes_next<L: Line + Drop>(seat: &Attendant<L>) -> bool
    ensures { result ≡ (is_polling seat.now.phase && not (would_read seat.now.machine)) }
{
    match &seat.phase {
        SeatPhase::On(_, action, _) => {
            matches!(action.does(), Does::PollMail) && !seat.machine.would_read()
        }
        _ => false,
    }
}

fn act<L: Line + Drop, D: Door<Line = L>, C: Clock + Drop, K: QueueCore + Drop>(
    row: &mut Row<L, D>,
    core: &mut Hub<C, K>,
    seat: usize,
    buffers: &mut Buffers,
) -> Progress
    requires ready { AreReadyFor K.QueueCore L.Line D.Door seat core.old row.old }
    ensures { SeatActed K.QueueCore C.Clock L.Line D.Door seat core.old row.old core.new row.new }
{
    attend(
        &mut row.seats[seat],
        &mut row.doors[seat],
        core,
        seat as u16,
        buffers,
    )
}

// Reads the control line as far as the turn says, and submits its steps. It stops early if a step
// is rejected.
#[tactic(auto, using(crate::proofs::ServingLemmas::control_none, crate::proofs::ServingLemmas::control_then))]
fn serve_control<C: Clock + Drop, I: ControlInput, K: QueueCore + Drop>(
    control: &mut ControlSteps<I>,
    core: &mut Hub<C, K>,
    reads: ControlReads,
)
    requires order { IsInOrder (state_of K.QueueCore core.old) }
    requires few { length core.old.mails.items ≤ 65535 }
    ensures { ControlTrace K.QueueCore C.Clock I.ControlInput core.old control.old core.new control.new }
{
    let mut may_wait = reads != ControlReads::Buffered;
    for _ in 0..u64::MAX {
        // At most it owes a drain and its end.
        if !submit_one(control, core) {
            return;
        }
        if !submit_one(control, core) {
            return;
        }
        if control.is_over() || !(may_wait || control.has_unread()) {
            return;
        }
        control.read();
        may_wait = reads == ControlReads::ToEnd;
    }
}

// Submits the next step of the control line, if there is one. Returns false if it was rejected.
#[tactic(auto, using(crate::proofs::ServingLemmas::control_none))]
fn submit_one<C: Clock + Drop, I: ControlInput, K: QueueCore + Drop>(
    control: &mut ControlSteps<I>,
    core: &mut Hub<C, K>,
) -> bool
    requires order { IsInOrder (state_of K.QueueCore core.old) }
    requires few { length core.old.mails.items ≤ 65535 }
    ensures { ControlTrace K.QueueCore C.Clock I.ControlInput core.old control.old core.new control.new }
{
    let Some(step) = control.owed() else {
        return true;
    };
    // The number of the control line comes after those of the seats.
    let seat = core.mails.len() as Seat;
    if !core.submit(seat, &step) {
        drop(step);
        return false;
    }
    drop(step);
    control.note_submitted();
    true
}
