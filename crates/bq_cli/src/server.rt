//! The server, from its options to its status.
ghost use Rattle.std.specs.Prelude.{◌≡◌, ◌≤◌, ◌↔◌, ◌&&◌, ◌==◌, IfErr, IfOk, IsErrOf, IsTrue, false, not, option_map, true, vec_len};
ghost use Rattle.std.specs.List.{All, list_any};
ghost use Rattle.bq_line.specs.Tending.{AreSame, IsNewDoor, door_seen};
ghost use Rattle.bq_program.specs.Statuses.{status_of_server};
ghost use Rattle.bq_cli.specs.Reports.{closed_text, closing_text, refused_text, taken_text};
ghost use Rattle.bq_cli.specs.Servers.{IsDoorAt, IsServerLoop, IsServerRun, IsStatusOfLoop};
ghost use Rattle.bq_cli.specs.Servers.{IsStatusOfServer, IsStatusOfThreads, MayRefuse};
ghost use Rattle.bq_cli.specs.Servers.{came_of_doors, came_of_loop, came_of_run, settings_of};
ghost use Rattle.bq_event_loop.specs.EventLoopRuns.{IsEventLoopRun, IsEventLoopSoFar};
ghost use Rattle.bq_event_loop.specs.Refused.{IsRefusedBy};
ghost use Rattle.bq_run.specs.ThreadRuns.{IsRunOf};
ghost use Rattle.bq_core_api.specs.Limits.{are_in_range};

use crate::ending::Ending;
use crate::lone_watch::LoneWatch;
use crate::telling_clock::TellingClock;
use bq_core::{Config, Core};
use bq_core_api::QueueCore;
use bq_event_loop::{EventLoopRun, Order, RunRefused, run_turns};
use bq_host::RunFault;
use bq_job::NoMemory;
use bq_line::control_line::ControlReader;
use bq_line::line::{BufferedLine, Connection, Line, ReadBuffer};
use bq_line::{Door, FreeDoors, Refusals, Reports, TcpDoor, clock};
use bq_program::{
    Fault, LogForm, Need, Options, Program, WhenFull, fault_of_loop, tell_cannot_listen,
    tell_server,
};
use bq_run::{Run, run_sessions};
use std::alloc::Global;
use std::io;
use std::io::{Eprint, Print};
use std::net::{Net, TcpListener, TcpStream};
use std::os::fd::RawFd;
use std::rt::Clock;
use std::sync::Wait;
use std::thread::Threads;

/// A connection of a server.
pub type TcpLine = BufferedLine<Connection<TcpStream>>;

/// What the doors of a server report, which they share.
#[derive(Drop)]
pub struct DoorsTell<'e> {
    refusals: Refusals,
    free: FreeDoors,
    ending: &'e Ending,
}

impl<'e> DoorsTell<'e> {
    /// Returns what the doors report by these options. The last one to fail is noted in `ending`.
    pub fn new<R: Clock>(rt: &R, options: &Options, ending: &'e Ending) -> DoorsTell<'e>
        ensures refusals { result.refusals.text.now ≡ refused_text ending.now.form }
        ensures free { result.free.text.now ≡ taken_text ending.now.form options.now.when_full }
        ensures closing { option_map (λ text. text.now) result.free.closing
            ≡ closing_text ending.now.form options.now.when_full }
        ensures ending { result.ending ≡ ending.entry }
    {
        DoorsTell {
            ending,
            refusals: Refusals::new(refused_text(ending.form())),
            free: free_doors(rt, options, ending.form()),
        }
    }
}

// Returns what the doors report while all of them are taken, and whether they close further
// connections.
fn free_doors<R: Clock>(rt: &R, options: &Options, form: LogForm) -> FreeDoors
    ensures text { result.text.now ≡ taken_text form options.now.when_full }
    ensures closing { option_map (λ text. text.now) result.closing
        ≡ closing_text form options.now.when_full }
{
    let text = taken_text(form, options.when_full);
    let doors = FreeDoors::new(rt, u32::from(options.seats), text);
    match options.when_full {
        WhenFull::Wait => doors,
        WhenFull::Refuse => doors.closing(closed_text(form)),
    }
}

// The texts of warnings. They are kept for as long as the program runs, so they are written out.

fn refused_text(form: LogForm) -> &'static str
    ensures { result.now ≡ refused_text form }
{
    match form {
        LogForm::Plain => "bqd: no connection can be accepted",
        LogForm::Journal => "<4>bqd: no connection can be accepted",
    }
}

fn taken_text(form: LogForm, when_full: WhenFull) -> &'static str
    ensures { result.now ≡ taken_text form when_full }
{
    match (form, when_full) {
        (LogForm::Plain, WhenFull::Wait) => "bqd: all seats are taken: further connections wait",
        (LogForm::Plain, WhenFull::Refuse) => {
            "bqd: all seats are taken: further connections are closed"
        }
        (LogForm::Journal, WhenFull::Wait) => {
            "<4>bqd: all seats are taken: further connections wait"
        }
        (LogForm::Journal, WhenFull::Refuse) => {
            "<4>bqd: all seats are taken: further connections are closed"
        }
    }
}

fn closed_text(form: LogForm) -> &'static str
    ensures { result.now ≡ closed_text form }
{
    match form {
        LogForm::Plain => "bqd: connections closed because all seats were taken",
        LogForm::Journal => "<4>bqd: connections closed because all seats were taken",
    }
}

/// Serves the connections that the listener accepts by these options, and prints on standard output where it listens.
/// Returns the status of the program: 0 when all seats and the control line have ended, and 1 after a fault, which is
/// reported on standard error.
///
/// An event loop reads the control line to its end before it accepts a connection, since nothing says when a read of it
/// would not block.
pub fn serve<R: Net + Threads + Wait + Clock + Print + Eprint + Sync, I: ControlReader + Drop>(
    rt: &R,
    alloc: Global,
    options: &Options,
    listener: TcpListener,
    control: I,
) -> u8
    // The status follows from what came of the server. It is 0 only after a run of these options at this listener in
    // which no door met a fault.
    ensures status { IsStatusOfServer R I.remaining I.may_fail ⟦<Core as QueueCore>⟧ options.now listener control result }
    ensures at_most { result ≤ 1 }
{
    let ending = Ending::new(options.seats, LogForm::Plain);
    serve_to(rt, alloc, options, listener, &ending, control, None)
}

/// Does the same as `serve` in a thread that another one watches: it reports how the run ended, unless that thread has
/// done so. The descriptor is that of the control line, if it has one.
#[tactic(auto, using(crate::proofs::BeginLemmas::cannot_begin))]
pub(crate) fn serve_to<
    R: Net + Threads + Wait + Clock + Print + Eprint + Sync,
    I: ControlReader + Drop,
>(
    rt: &R,
    alloc: Global,
    options: &Options,
    listener: TcpListener,
    ending: &Ending,
    control: I,
    source: Option<RawFd>,
) -> u8
    ensures status { IsStatusOfServer R I.remaining I.may_fail ⟦<Core as QueueCore>⟧ options.now listener control result }
    ensures at_most { result ≤ 1 }
{
    match listener.local_addr() {
        Ok(address) => {
            // If standard output is closed, there is no reader.
            let _told = println!(rt; "listening {address}");
            if options.event_loop {
                // An event loop accepts only what is there.
                if let Err(e) = listener.set_nonblocking(true) {
                    return cannot_listen(rt, ending.form(), options, &e);
                }
                serve_by_loop(rt, alloc, options, &listener, ending, control, source)
            } else {
                serve_by_threads(rt, alloc, options, &listener, ending, control)
            }
        }
        Err(e) => cannot_listen(rt, ending.form(), options, &e),
    }
}

// Reports that the server cannot listen at the address of the options.
fn cannot_listen<R: Eprint>(rt: &R, form: LogForm, options: &Options, e: &io::Error) -> u8
    ensures { result ≡ 1 }
{
    let address = options.listen.as_deref().unwrap_or("");
    tell_cannot_listen(rt, Program::Bqd, form, address, e)
}

// Serves by an event loop. The listener must not block.
fn serve_by_loop<R: Net + Clock + Print + Eprint, I: ControlReader + Drop>(
    rt: &R,
    alloc: Global,
    options: &Options,
    listener: &TcpListener,
    ending: &Ending,
    control: I,
    source: Option<RawFd>,
) -> u8
    ensures status { IsStatusOfLoop R I.remaining I.may_fail ⟦<Core as QueueCore>⟧ options.now listener.now control result }
    ensures at_most { result ≤ 1 }
{
    let tell = DoorsTell::new(rt, options, ending);
    let came = run_loop(rt, alloc, options, listener, &tell, control, source);
    let status = status_of_loop(rt, ending, &came);
    drop_loop(came);
    status
}

// Drops what came of an event loop. It is generic because a drop at the types of a server takes ten times as long to prove.
fn drop_loop<L: Drop, D: Drop, C: Drop, I: Drop, K: Drop>(
    _came: Result<EventLoopRun<L, D, C, I, K>, Fault>,
) {}

fn serve_by_threads<R: Threads + Wait + Clock + Print + Eprint + Sync, I: ControlReader + Drop>(
    rt: &R,
    alloc: Global,
    options: &Options,
    listener: &TcpListener,
    ending: &Ending,
    control: I,
) -> u8
    ensures status { IsStatusOfThreads R I.remaining I.may_fail ⟦<Core as QueueCore>⟧ options.now listener.now control result }
    ensures at_most { result ≤ 1 }
{
    let tell = DoorsTell::new(rt, options, ending);
    let came = run_by_threads(rt, alloc, options, listener, &tell, control);
    let status = status_of_threads(rt, ending, &came);
    drop_run(came);
    status
}

// Does the same for a run by threads.
fn drop_run<D: Drop, C: Drop, I: Drop, K: Drop>(_came: Result<Run<D, C, I, K>, Fault>) {}

/// Reports how this run of a server by an event loop ended, unless another thread has done so.
/// Returns the status of the program.
pub fn status_of_loop<'l, R: Clock + Eprint, C, I, K>(
    rt: &R,
    ending: &Ending,
    came: &Result<EventLoopRun<TcpLine, TcpDoor<'l, R>, C, I, K>, Fault>,
) -> u8
    ensures { result ≡ status_of_server (came_of_loop (λ door. door.met_fault) came.now) }
{
    match came {
        Ok(run) => {
            if run.is_over {
                tell_end(rt, ending, came_of_doors(run.doors.as_slice()))
            } else {
                tell_end(rt, ending, Err(Fault::TooManyTurns))
            }
        }
        Err(fault) => tell_end(rt, ending, Err(*fault)),
    }
}

/// Does the same for a run by threads.
pub fn status_of_threads<'l, R: Clock + Eprint, C, I, K>(
    rt: &R,
    ending: &Ending,
    came: &Result<Run<TcpDoor<'l, R>, C, I, K>, Fault>,
) -> u8
    ensures { result ≡ status_of_server (came_of_run (λ door. door.met_fault) came.now) }
{
    match came {
        Ok(run) => tell_end(rt, ending, came_of_doors(run.doors.as_slice())),
        Err(fault) => tell_end(rt, ending, Err(*fault)),
    }
}

// Reports how a server ended, unless another thread has done so. Returns the status.
fn tell_end<R: Eprint>(rt: &R, ending: &Ending, came: Result<(), Fault>) -> u8
    ensures { result ≡ status_of_server came }
{
    if ending.is_first_to_report() {
        return tell_server(rt, ending.form(), came);
    }
    match came {
        Ok(()) => 0,
        Err(_) => 1,
    }
}

/// Runs a server by threads, with a new door at this listener for each seat. Returns the run once it
/// has ended, or why there is none: the system refused something, or the options are out of their
/// ranges.
pub fn run_by_threads<
    'l,
    R: Threads + Wait + Clock + Print + Eprint + Sync,
    I: ControlReader + Drop,
>(
    rt: &'l R,
    alloc: Global,
    options: &Options,
    listener: &'l TcpListener,
    tell: &'l DoorsTell<'l>,
    control: I,
) -> Result<Run<TcpDoor<'l, R>, TellingClock<'l, R>, I, Core>, Fault>
    ensures served { IfOk result
        (λ run. IsServerRun I.remaining I.may_fail ⟦<Core as QueueCore>⟧ options.now listener.now control run) }
    ensures refused { IfErr result (λ fault. MayRefuse options.now fault) }
{
    let Ok(doors) = new_doors(rt, alloc, options, listener, tell) else {
        return Err(Fault::NoMemory(Need::Doors));
    };
    let clock = TellingClock::new(rt, tell.ending.form());
    match serve_doors(rt, alloc, options, doors, clock, control) {
        Ok(run) => Ok(run),
        Err(fault) => Err(Fault::from(fault)),
    }
}

/// Runs a server by an event loop, in the same way. The listener must not block. The descriptor is
/// that of the control line; with None it is read to its end before any door is looked at.
pub fn run_loop<'l, R: Net + Clock + Print + Eprint, I: ControlReader + Drop>(
    rt: &'l R,
    alloc: Global,
    options: &Options,
    listener: &'l TcpListener,
    tell: &'l DoorsTell<'l>,
    control: I,
    source: Option<RawFd>,
) -> Result<EventLoopRun<TcpLine, TcpDoor<'l, R>, TellingClock<'l, R>, I, Core>, Fault>
    ensures served { IfOk result
        (λ run. IsServerLoop I.remaining I.may_fail ⟦<Core as QueueCore>⟧ options.now listener.now control run) }
    ensures refused { IfErr result (λ fault. MayRefuse options.now fault) }
{
    let Ok(doors) = new_doors(rt, alloc, options, listener, tell) else {
        return Err(Fault::NoMemory(Need::Doors));
    };
    let clock = TellingClock::new(rt, tell.ending.form());
    match serve_doors_by_loop(
        rt,
        alloc,
        options,
        doors,
        clock,
        control,
        source,
        tell.ending,
    ) {
        Ok(run) => Ok(run),
        Err(refused) => Err(fault_of_loop(refused.fault)),
    }
}

/// Serves the connections that come at the doors by these options, each door at a seat and in a thread of its own. On
/// error no door was opened, and the doors are dropped.
pub fn serve_doors<
    'l,
    R: Threads + Wait + Clock + Eprint + Sync,
    C: clock::Clock + Drop + Send,
    I: ControlReader + Drop,
>(
    rt: &R,
    alloc: Global,
    options: &Options,
    doors: Vec<TcpDoor<'l, R>, Global>,
    clock: C,
    control: I,
) -> Result<Run<TcpDoor<'l, R>, C, I, Core>, RunFault>
    requires new { All (λ door. IsNewDoor (door_seen ⟦<TcpDoor<'l, R> as Door>⟧ door)) doors.items }
    // There is one history of the steps of all connections and of the control line, and the one-list model takes it by
    // the options. Each connection of each door received exactly the bytes that this history prescribes for it, as far as
    // its reads and writes show.
    ensures served { IfOk result (IsRunOf C.given ⟦<TcpDoor<'l, R> as Door>⟧.lines_over I.remaining I.may_fail
        ⟦<Core as QueueCore>⟧.machine ⟦<Core as QueueCore>⟧.comparisons (settings_of options.now) clock control) }
    ensures at_end { IfOk result (λ run. All (λ door. (⟦<TcpDoor<'l, R> as Door>⟧.is_out door ≡ false)
        × (⟦<TcpDoor<'l, R> as Door>⟧.is_at_end door ≡ true)) run.doors.items) }
    // The doors are those of the caller, in their order.
    ensures same { IfOk result
        (λ run. AreSame ⟦<TcpDoor<'l, R> as Door>⟧.same doors.entry.items run.doors.items) }
    ensures bad_configuration { IsErrOf result RunFault.BadConfiguration
        ↔ IsTrue (not (are_in_range (settings_of options.now) && vec_len doors.entry == options.now.seats)) }
{
    run_sessions(rt, alloc, config_of(options), doors, clock, control)
}

/// Does the same as `serve_doors` by the calling thread alone, in an event loop. The listeners of the doors must not
/// block. The descriptor is that of the control line; with None it is read to its end before any door is looked at. If
/// it is the standard input, that ends when the last door fails, as `ending` tells. On error the doors come back, and
/// none was opened.
pub fn serve_doors_by_loop<
    'l,
    R: Net + Clock + Eprint,
    C: clock::Clock + Drop,
    I: ControlReader + Drop,
>(
    rt: &R,
    alloc: Global,
    options: &Options,
    doors: Vec<TcpDoor<'l, R>, Global>,
    clock: C,
    control: I,
    source: Option<RawFd>,
    ending: &Ending,
) -> Result<EventLoopRun<TcpLine, TcpDoor<'l, R>, C, I, Core>, RunRefused<TcpDoor<'l, R>>>
    requires new { All (λ door. IsNewDoor (door_seen ⟦<TcpDoor<'l, R> as Door>⟧ door)) doors.items }
    ensures served { IfOk result (λ run. run.is_over ≡ true → IsEventLoopRun C.given ⟦<TcpDoor<'l, R> as Door>⟧.lines_over
        I.remaining I.may_fail ⟦<Core as QueueCore>⟧.machine ⟦<Core as QueueCore>⟧.comparisons (settings_of options.now)
        clock control run) }
    // The same so far, however the run ended. The connections that are open received a beginning of what the history
    // prescribes for them.
    ensures so_far { IfOk result (IsEventLoopSoFar C.given ⟦<TcpLine as Line>⟧.seen ⟦<TcpDoor<'l, R> as Door>⟧.lines_over
        ⟦<TcpDoor<'l, R> as Door>⟧.is_out ⟦<TcpDoor<'l, R> as Door>⟧.same I.remaining I.may_fail ⟦<Core as QueueCore>⟧.machine
        ⟦<Core as QueueCore>⟧.comparisons (settings_of options.now) doors.entry.items clock control) }
    ensures at_end { IfOk result (λ run. run.is_over ≡ true → All (λ door. (⟦<TcpDoor<'l, R> as Door>⟧.is_out door ≡ false)
        × (⟦<TcpDoor<'l, R> as Door>⟧.is_at_end door ≡ true)) run.doors.items) }
    ensures same { IfOk result
        (λ run. AreSame ⟦<TcpDoor<'l, R> as Door>⟧.same doors.entry.items run.doors.items) }
    // A run that did not begin opened no door.
    ensures unopened { IfErr result (λ refused. refused.doors ≡ doors.entry) }
    ensures bad_configuration { IsRefusedBy result RunFault.BadConfiguration
        ↔ IsTrue (not (are_in_range (settings_of options.now) && vec_len doors.entry == options.now.seats)) }
{
    let turns = Order::new(alloc, options.seats);
    let sleeper = LoneWatch::new(rt, alloc, doors.as_slice(), ending, source);
    run_turns(
        alloc,
        config_of(options),
        doors,
        clock,
        control,
        turns,
        sleeper,
    )
}

// The settings of a run by these options.
fn config_of(options: &Options) -> Config
    ensures { result ≡ settings_of options.now }
{
    Config {
        seats: options.seats,
        max_job_size: options.max_job_size,
        max_jobs: options.max_jobs,
        requeue_delay: options.requeue_delay,
    }
}

// Returns the fault of a server if some connection could not be accepted.
fn came_of_doors<R: Clock + Eprint>(doors: &[TcpDoor<'_, R>]) -> Result<(), Fault>
    ensures { result ≡ came_of_doors (λ door. door.met_fault) doors.now }
{
    if met_fault(doors) {
        Err(Fault::NotAccepted)
    } else {
        Ok(())
    }
}

fn met_fault<R: Clock + Eprint>(doors: &[TcpDoor<'_, R>]) -> bool
    ensures { result ≡ list_any (λ door. door.met_fault) doors.now }
{
    doors.iter().any(|door| door.met_fault())
}

// Makes a door at this listener.
fn new_door<'l, R: Clock + Eprint>(
    rt: &'l R,
    listener: &'l TcpListener,
    sessions: Option<u32>,
    buffer: ReadBuffer,
    tell: &'l DoorsTell<'l>,
) -> TcpDoor<'l, R>
    ensures new { IsNewDoor (door_seen ⟦<TcpDoor<'l, R> as Door>⟧ result) }
    ensures at { IsDoorAt listener.now sessions result }
{
    let reports = Reports {
        refusals: Some(&tell.refusals),
        free: Some(&tell.free),
        open: Some(tell.ending.doors()),
    };
    TcpDoor::new(rt, listener, sessions, buffer, reports)
}

// Makes a door for each seat, all at one listener.
fn new_doors<'l, R: Clock + Eprint>(
    rt: &'l R,
    alloc: Global,
    options: &Options,
    listener: &'l TcpListener,
    tell: &'l DoorsTell<'l>,
) -> Result<Vec<TcpDoor<'l, R>, Global>, NoMemory>
    ensures new { IfOk result (λ all. All (λ door. IsNewDoor (door_seen ⟦<TcpDoor<'l, R> as Door>⟧ door)) all.items) }
    ensures at { IfOk result
        (λ all. All (λ door. IsDoorAt listener.now options.now.sessions door) all.items) }
    ensures many { IfOk result (λ all. vec_len all ≡ options.now.seats) }
{
    let Ok(mut doors) = Vec::with_capacity(alloc, usize::from(options.seats)) else {
        return Err(NoMemory);
    };
    for _ in 0..options.seats {
        let Ok(buffer) = ReadBuffer::new(alloc) else {
            return Err(NoMemory);
        };
        let door = new_door(rt, listener, options.sessions, buffer, tell);
        doors.push_reserved(door);
    }
    Ok(doors)
}
