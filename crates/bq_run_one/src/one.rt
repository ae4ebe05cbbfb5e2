ghost use Rattle.std.specs.Prelude.{◌↔◌, ◌≡◌, [], List, Option, ℕ, IfOk, IsErrOf, IsTrue, not};
ghost use Rattle.bq_job.specs.laws.TheHeadline.{AreJobsServedIn};
ghost use Rattle.bq_job.specs.promise.Headline.{IsHistoryOfLine};
ghost use Rattle.bq_seat.specs.Past.{Awaited};
ghost use Rattle.bq_seat.specs.SeatStands.{awaited};
ghost use Rattle.bq_line.specs.LineCalls.{new_line};
ghost use Rattle.bq_line.specs.Streams.{StaysOver};
ghost use Rattle.bq_host.specs.MailStates.{IsNewMailState};
ghost use Rattle.bq_host.specs.Hubs.{HubTrace, IsInOrderFor, state_of};
ghost use Rattle.bq_run_one.specs.RunSettings.{is_lone};

use bq_core::{Config, Core};
use bq_core_api::QueueCore;
use bq_host::hub_seat::act;
use bq_host::{Hub, RunFault};
use bq_job::{LineEnd, Seat, the_headline};
use bq_line::attendant::Progress;
use bq_line::buffers::Buffers;
use bq_line::clock::Clock;
use bq_line::line::Line;
use bq_seat::{Does, NextAction, SeatMachine};
use std::alloc::Global;
use std::sync::Wait;
use std::thread::Parker;
use std::time::Duration;

/// The seat of a lone client.
const ONLY_SEAT: Seat = 0;

/// How long a run sleeps between two checks of the mail, in milliseconds.
const REST: u64 = 1;

/// A connection that has ended: the connection itself, how it ended, and the clock.
#[derive(Drop)]
pub struct One<L, C> {
    pub line: L,
    pub end: LineEnd,
    pub clock: C,
}

/// Serves one connection until it ends, on this thread. It may block if reads of the connection
/// block, and it does not return while a reserve stays unanswered.
///
/// Returns `BadConfiguration` if a setting is out of its range or the number of seats isn't 1, and
/// otherwise `NoMemory` if an allocation fails. In both cases the connection was neither read nor
/// written, and is dropped.
pub fn run_one<R: Wait, L: Line + Drop, C: Clock + Drop>(
    rt: &R,
    alloc: Global,
    config: Config,
    line: L,
    clock: C,
) -> Result<One<L, C>, RunFault>
    // The connection is unused.
    requires new { L.seen line ≡ new_line }
    // There is one history of the client's steps, each at the moment of a clock reading. The
    // one-list model takes this history, and the client received exactly the bytes that the history
    // prescribes for it.
    ensures served { IfOk result (λ one. (readings : List (Option ℕ)) × C.given clock readings one.clock ×
        IsHistoryOfLine config 0 (record { seen = L.seen one.line; over = one.end }) readings) }
    // Along this history, each job that is handed out is the least one that the client may have. An
    // undisturbed job is handed out at most once and in order. No job is lost before its deletion.
    // Once draining has begun, no put is accepted.
    ensures headline { IfOk result (λ one. (readings : List (Option ℕ)) (served : IsHistoryOfLine config 0
        (record { seen = L.seen one.line; over = one.end }) readings) → AreJobsServedIn served.run) }
    // It is the connection that was passed in, over the same stream.
    ensures stays { IfOk result (λ one. StaysOver L.lies_over line one.line) }
    ensures bad_configuration { IsErrOf result RunFault.BadConfiguration ↔ IsTrue
        (not (is_lone config)) }
    ensures no_thread { IsErrOf result RunFault.ThreadRefused ↔ ⊥ }
{
    if config.seats != 1 {
        return Err(RunFault::BadConfiguration);
    }
    let hub: Hub<C, Core> = Hub::new(alloc, config, clock)?;
    let Ok(machine) = SeatMachine::new(alloc, config.max_job_size) else {
        drop(hub);
        return Err(RunFault::NoMemory);
    };
    the_headline();
    Ok(serve_line(rt, line, hub, machine))
}

// Serves a connection until it ends, at a new hub, with its only seat.
fn serve_line<R: Wait, L: Line + Drop, C: Clock + Drop, K: QueueCore + Drop>(
    rt: &R,
    line: L,
    hub: Hub<C, K>,
    machine: SeatMachine,
) -> One<L, C>
    requires new { L.seen line ≡ new_line }
    requires hub { IsNewMailState (K.machine hub.timed.core).settings (state_of K.QueueCore hub) }
    requires lone { (K.machine hub.timed.core).settings.seats ≡ 1 }
    requires awaits { awaited machine ≡ Awaited.ALine }
    requires limit { machine.reader.max_job_size ≡ (K.machine hub.timed.core).settings.max_job_size }
    ensures served { (readings : List (Option ℕ)) × C.given hub.timed.time.clock readings result.clock ×
        IsHistoryOfLine (K.machine hub.timed.core).settings 0 (record { seen = L.seen result.line; over = result.end }) readings }
    ensures stays { StaysOver L.lies_over line result.line }
{
    let mut line = line;
    let mut hub = hub;
    let mut machine = machine;
    let mut buffers = Buffers::new();
    let bell = Parker::new();
    let mut action = machine.open();
    let mut sent = 0;
    for _ in rt.forever() {
        if let Does::LineOver(end) = action.does() {
            drop(action);
            drop(machine);
            return One {
                line,
                end,
                clock: into_clock(hub),
            };
        }
        pass_time_before(&action, &mut hub);
        let progress = act(
            &mut machine,
            &mut action,
            &mut sent,
            &mut line,
            &mut hub,
            ONLY_SEAT,
            &mut buffers,
        );
        rest_after(rt, &bell, progress, &action);
    }
    unreachable!()
}

// Returns the clock of a hub.
fn into_clock<C: Clock + Drop, K: QueueCore + Drop>(hub: Hub<C, K>) -> C
    ensures { result ≡ hub.timed.time.clock }
{
    let (clock, _core) = hub.into_parts();
    clock
}

// Lets time pass if the next action checks the mail.
fn pass_time_before<C: Clock + Drop, K: QueueCore + Drop>(next: &NextAction, hub: &mut Hub<C, K>)
    requires ready { IsInOrderFor K.QueueCore 0 hub.old }
    ensures ready { IsInOrderFor K.QueueCore 0 hub.new }
    ensures trace { HubTrace K.QueueCore C.Clock 0 hub.old [] [] hub.new }
{
    if matches!(next.does(), Does::PollMail) {
        let _due = hub.pass_time();
    }
}

// Sleeps for a moment if no answer has come and the next action checks the mail again: nothing can
// happen before time has passed.
fn rest_after<R: Wait>(rt: &R, bell: &Parker, progress: Progress, next: &NextAction) {
    if progress == Progress::NoMail && matches!(next.does(), Does::PollMail) {
        bell.park_timeout(rt, Duration::from_millis(REST));
    }
}
