//! The run of many doors by one thread that owns the core.
ghost use Rattle.std.specs.Prelude.{◌≡◌, ◌↔◌, ◌&&◌, ◌==◌, true, false, not, length, Ok, IfErr, IfOk, IsErrOf, IsTrue, vec_len};
ghost use Rattle.std.specs.List.{All};
ghost use Rattle.bq_core_api.specs.Limits.{are_in_range};
ghost use Rattle.bq_job.specs.laws.TheHeadline.{AreJobsServedIn};
ghost use Rattle.bq_line.specs.Tending.{AreSame, IsNewDoor, door_seen};
ghost use Rattle.bq_event_loop.specs.EventLoopRuns.{IsEventLoopRun, IsEventLoopSoFar};
ghost use Rattle.bq_event_loop.specs.Known.{KnowsAll};
ghost use Rattle.bq_event_loop.specs.NewLoops.{IsNewLoop};
ghost use Rattle.bq_event_loop.specs.Refused.{IsRefusedBy};
ghost use Rattle.bq_event_loop.specs.SoFar.{began_with, beginning};

use crate::row::Row;
use crate::serve::serve;
use crate::sleeper::Sleeper;
use crate::turns::{Began, Turns, TurnsFault};
use bq_core_api::{Config, QueueCore};
use bq_host::{Hub, RunFault, WakeQueue, new_seats};
use bq_job::{steps_keep_settings, the_headline};
use bq_line::Door;
use bq_line::attendant::Attendant;
use bq_line::buffers::Buffers;
use bq_line::clock::Clock;
use bq_line::control_line::{ControlInput, ControlLine, ControlReader};
use bq_line::control_steps::ControlSteps;
use bq_line::line::{Line, ReadBuffer};
use std::alloc::Global;
use std::snapshot::Snapshot;

/// A run over doors that has ended or was broken off: the seats and the doors with their
/// connections, the clock and the control line as they were left, and the core.
#[derive(Drop)]
pub struct EventLoopRun<L, D, C, I, K> {
    /// The seats, each with its connection if that is still open.
    pub seats: Vec<Attendant<L>, Global>,
    pub doors: Vec<D, Global>,
    pub clock: C,
    pub control: ControlLine<I>,
    pub core: K,
    /// False if the run was broken off, because it took 2^64 - 1 turns.
    pub is_over: bool,
}

/// A run that did not begin.
#[derive(Drop)]
pub struct RunRefused<D> {
    pub fault: RunFault,
    /// The doors as they were passed in: none was opened.
    pub doors: Vec<D, Global>,
}

// What a run needs from its start on: a new core with its clock, the seats, room for what is read,
// the turns and the sleeper.
#[derive(Drop)]
struct NewLoop<
    T: Turns + Drop,
    W: Sleeper + Drop,
    L: Line + Drop,
    C: Clock + Drop,
    K: QueueCore + Drop,
> {
    parts: NewParts<L, C, K>,
    turns: T,
    sleeper: W,
}

// What a run allocates at its start.
#[derive(Drop)]
struct NewParts<L: Line + Drop, C: Clock + Drop, K: QueueCore + Drop> {
    core: Hub<C, K>,
    seats: Vec<Attendant<L>, Global>,
    buffer: ReadBuffer,
}

/// Serves the connections of all doors, each door at a seat of its own, until no more connections
/// come at any of them. The calling thread does everything. It also reads the control line, where
/// each line `drain` starts draining. `turns` chooses what is done next. `sleeper` is what the loop
/// waits by.
///
/// The error is `BadConfiguration` if the configuration is out of its ranges or the number of doors
/// is not the number of seats. Otherwise it is `NoMemory` if an allocation failed, or the error of
/// the turns or of the sleeper. With any error the doors come back, and none was opened.
pub fn run_turns<
    T: Turns + Drop,
    W: Sleeper + Drop,
    L: Line + Drop,
    D: Door<Line = L> + Drop,
    C: Clock + Drop,
    I: ControlReader + Drop,
    K: QueueCore + Drop,
>(
    alloc: Global,
    config: Config,
    doors: Vec<D, Global>,
    clock: C,
    control: I,
    turns: Result<T, TurnsFault>,
    sleeper: Result<W, TurnsFault>,
) -> Result<EventLoopRun<L, D, C, I, K>, RunRefused<D>>
    // No door has a connection that is open or was served, and no door is at its end.
    requires new { All
        (λ door. IsNewDoor (door_seen D.Door door)) doors.items }
    // The turns are for this run.
    requires of_run { T.is_of (beginning config doors.items clock (I.remaining control) (I.may_fail control)) }
    // They know each seat.
    requires knows { IfOk turns (λ t. KnowsAll config.seats (T.seats t) (T.listed t) (T.tries t)) }
    // There is one history of the steps of all clients and of the control line, each at the moment
    // of a reading of the clock. The one-list model takes this history, the core represents the
    // model after it, and each connection received exactly the bytes that the history prescribes
    // for it.
    ensures served { IfOk result (λ run. run.is_over ≡ true →
        IsEventLoopRun C.given D.lines_over I.remaining I.may_fail K.machine K.comparisons config clock control run) }
    // The same so far, however the run ended. Each open connection has received a beginning of what
    // the history prescribes for it.
    ensures so_far { IfOk result
        (IsEventLoopSoFar C.given L.seen D.lines_over D.is_out D.same I.remaining I.may_fail K.machine K.comparisons
        config doors.items clock control) }
    // Along either history, each job that is handed out is the least one that the client may have.
    // An undisturbed job is handed out at most once and in order. No job is lost before its
    // deletion. Once draining has begun, no put is accepted.
    ensures headline { IfOk result
        (λ run. (served : IsEventLoopRun C.given D.lines_over I.remaining I.may_fail K.machine K.comparisons
        config clock control run) → AreJobsServedIn served.history.run) }
    ensures headline_so_far { IfOk result
        (λ run. (so_far : IsEventLoopSoFar C.given L.seen D.lines_over D.is_out D.same I.remaining I.may_fail K.machine K.comparisons
        config doors.items clock control run) → AreJobsServedIn so_far.history.run) }
    ensures at_end { IfOk result (λ run. run.is_over ≡ true →
        All (λ door. (D.is_out door ≡ false) × (D.is_at_end door ≡ true)) run.doors.items) }
    // The doors are those that were passed in, in the same order.
    ensures same { IfOk result (λ run. AreSame D.same doors.items run.doors.items) }
    // The core can be used further.
    ensures settings { IfOk result (λ run. (K.machine run.core).settings ≡ config) }
    // A run that did not begin opened no door.
    ensures unopened { IfErr result (λ refused. refused.doors ≡ doors) }
    ensures bad_configuration { IsRefusedBy result RunFault.BadConfiguration
        ↔ IsTrue (not (are_in_range config && vec_len doors == config.seats)) }
{
    match new_loop(alloc, config, doors.len(), clock, turns, sleeper) {
        Ok(
            NewLoop {
                parts,
                mut turns,
                mut sleeper,
            },
        ) => {
            the_headline();
            Ok(run_at(config, parts, doors, control, &mut turns, &mut sleeper))
        }
        Err(fault) => Err(RunRefused { fault, doors }),
    }
}

// Makes what a run needs. Its errors are those of `run_turns`.
fn new_loop<
    T: Turns + Drop,
    W: Sleeper + Drop,
    L: Line + Drop,
    C: Clock + Drop,
    K: QueueCore + Drop,
>(
    alloc: Global,
    config: Config,
    doors: usize,
    clock: C,
    turns: Result<T, TurnsFault>,
    sleeper: Result<W, TurnsFault>,
) -> Result<NewLoop<T, W, L, C, K>, RunFault>
    ensures doors { IfOk result (λ made. doors ≡ config.seats) }
    ensures new { IfOk result (λ made. IsNewLoop K.QueueCore config clock made.parts) }
    ensures turns { IfOk result (λ made. turns ≡ Ok made.turns) }
    ensures bad_configuration { IsErrOf result RunFault.BadConfiguration
        ↔ IsTrue (not (are_in_range config && doors == config.seats)) }
{
    let parts = new_parts(alloc, config, doors, clock)?;
    match (turns, sleeper) {
        (Ok(turns), Ok(sleeper)) => Ok(NewLoop {
            parts,
            turns,
            sleeper,
        }),
        (Err(fault), _) | (_, Err(fault)) => Err(fault.as_run_fault()),
    }
}

// Allocates what a run needs at its start. The hub notes each seat that has to be woken.
fn new_parts<L: Line + Drop, C: Clock + Drop, K: QueueCore + Drop>(
    alloc: Global,
    config: Config,
    doors: usize,
    clock: C,
) -> Result<NewParts<L, C, K>, RunFault>
    ensures doors { IfOk result (λ made. doors ≡ config.seats) }
    ensures new { IfOk result (IsNewLoop K.QueueCore config clock) }
    ensures bad_configuration { IsErrOf result RunFault.BadConfiguration
        ↔ IsTrue (not (are_in_range config && doors == config.seats)) }
{
    if doors != usize::from(config.seats) {
        return Err(RunFault::BadConfiguration);
    }
    new_parts_for(alloc, config, clock)
}

// The same, if there is a door for each seat.
fn new_parts_for<L: Line + Drop, C: Clock + Drop, K: QueueCore + Drop>(
    alloc: Global,
    config: Config,
    clock: C,
) -> Result<NewParts<L, C, K>, RunFault>
    ensures new { IfOk result (IsNewLoop K.QueueCore config clock) }
    ensures bad_configuration { IsErrOf result RunFault.BadConfiguration ↔ IsTrue (not (are_in_range config)) }
{
    let mut core: Hub<C, K> = Hub::new(alloc, config, clock)?;
    let Ok(woken) = WakeQueue::new(alloc, config.seats) else {
        return Err(RunFault::NoMemory);
    };
    core.wake_queue = woken;
    let Ok(seats) = new_seats(alloc, config.seats, config.max_job_size) else {
        return Err(RunFault::NoMemory);
    };
    let Ok(buffer) = ReadBuffer::new(alloc) else {
        return Err(RunFault::NoMemory);
    };
    Ok(NewParts {
        core,
        seats,
        buffer,
    })
}

// The run, from a new core and new seats on.
fn run_at<
    T: Turns,
    W: Sleeper,
    L: Line + Drop,
    D: Door<Line = L> + Drop,
    C: Clock + Drop,
    I: ControlReader + Drop,
    K: QueueCore + Drop,
>(
    config: Config,
    parts: NewParts<L, C, K>,
    doors: Vec<D, Global>,
    control: I,
    turns: &mut T,
    sleeper: &mut W,
) -> EventLoopRun<L, D, C, I, K>
    requires new { IsNewLoop K.QueueCore config parts.core.timed.time.clock parts }
    requires doored { length doors.items ≡ config.seats }
    requires of_run { T.is_of (beginning config doors.items parts.core.timed.time.clock (I.remaining control) (I.may_fail control)) }
    requires knows { KnowsAll config.seats (T.seats turns.old) (T.listed turns.old) (T.tries turns.old) }
    requires new_doors { All
        (λ door. IsNewDoor (door_seen D.Door door)) doors.items }
    ensures served { result.is_over ≡ true →
        IsEventLoopRun C.given D.lines_over I.remaining I.may_fail K.machine K.comparisons config parts.core.timed.time.clock control result }
    ensures so_far { IsEventLoopSoFar C.given L.seen D.lines_over D.is_out D.same I.remaining I.may_fail K.machine K.comparisons
        config doors.items parts.core.timed.time.clock control result }
    ensures at_end { result.is_over ≡ true → All (λ door. (D.is_out door ≡ false) × (D.is_at_end door ≡ true)) result.doors.items }
    ensures same { AreSame D.same doors.items result.doors.items }
    ensures settings { (K.machine result.core).settings ≡ config }
{
    let input = ControlLine::new(control);
    let began = begin(&config, &doors, &parts.core.timed.time.clock, &input);
    let NewParts {
        mut core,
        seats,
        mut buffer,
    } = parts;
    let mut row = Row { seats, doors };
    let mut control = ControlSteps::new(input);
    let mut buffers = Buffers::new();
    let is_over = serve(
        &began,
        turns,
        sleeper,
        &mut row,
        &mut control,
        &mut core,
        &mut buffers,
        &mut buffer,
    );
    steps_keep_settings();
    let (clock, core) = core.into_parts();
    EventLoopRun {
        seats: row.seats,
        doors: row.doors,
        clock,
        control: control.input,
        core,
        is_over,
    }
}

// What a run begins with, for the proofs.
fn begin<D, C, I: ControlInput>(
    config: &Config,
    doors: &Vec<D, Global>,
    clock: &C,
    control: &I,
) -> Began<D, C, I>
    ensures { began_with I.ControlInput result
        ≡ beginning config.now doors.now.items clock.now (I.remaining control.now) (I.may_fail control.now) }
{
    Began {
        config: Snapshot::of(config),
        doors: Snapshot::of(doors),
        clock: Snapshot::of(clock),
        control: Snapshot::of(control),
    }
}
