//! A server on the calling thread, or in one that the calling thread watches.
ghost use Rattle.std.specs.Prelude.{◌≡◌, ◌≤◌, IfOk, IfSome};
ghost use Rattle.bq_program.specs.Chosen.{of_bqd};
ghost use Rattle.bq_cli.specs.Servers.{IsStatusOfListening, IsStatusOfServer, IsStatusOrOne};
ghost use Rattle.bq_cli.specs.declared.logging.Logging.{Logging};

use crate::descriptors::STANDARD_INPUT;
use crate::listening::{NoListener, listen};
use crate::log::Writer;
use crate::logging::Logging;
use crate::server::serve_to;
use crate::shared::Shared;
use bq_core::Core;
use bq_core_api::QueueCore;
use bq_line::control_line::ControlReader;
use bq_program::{
    BqdOptions, Fault, LogForm, Need, Options, Program, tell_cannot_listen, tell_fault,
};
use std::alloc::Global;
use std::io::{BufReader, Eprint, Print, Read};
use std::marker::PhantomData;
use std::net::{Net, TcpListener, TcpStream};
use std::rt::Clock;
use std::snapshot::Snapshot;
use std::sync::{Arc, Wait};
use std::thread;
use std::thread::{Promise, PromisedHandle, Threads};

/// What a server needs of the system, and what lets its threads have copies of it.
pub(crate) trait System: Net<Listener = TcpListener, Stream = TcpStream>
    + Threads
    + Wait
    + Clock
    + Print
    + Eprint
    + Copy
    + Send
    + Sync
    + 'static {}

impl<
    R: Net<Listener = TcpListener, Stream = TcpStream>
        + Threads
        + Wait
        + Clock
        + Print
        + Eprint
        + Copy
        + Send
        + Sync
        + 'static,
> System for R {}

/// Binds the address and serves until the server has ended. The input is the control line. Returns the status of the
/// program.
///
/// An event loop runs on the calling thread, and there is no other one. Otherwise one thread serves, and one writes what is
/// reported, and the calling thread waits for the end. So neither a control line that stays open nor a standard error that
/// blocks can hold it up.
pub(crate) fn listen_and_serve<R: System, I: Read + Drop + Send + 'static>(
    rt: &R,
    alloc: Global,
    form: LogForm,
    options: BqdOptions,
    input: I,
) -> u8
    ensures status { IsStatusOfListening (Logging R) ⟦<BufReader<I> as Read>⟧.remaining ⟦<BufReader<I> as ControlReader>⟧.may_fail
        ⟦<Core as QueueCore>⟧ (of_bqd options) (I.remaining input) result }
    ensures at_most { result ≤ 1 }
{
    let listener = match listen(rt, alloc, options.listen.as_str()) {
        Ok(listener) => listener,
        Err(why) => return tell_no_listener(rt, form, options.listen.as_str(), &why),
    };
    let Ok(control) = BufReader::new(alloc, input) else {
        return tell_fault(rt, Program::Bqd, form, Fault::NoMemory(Need::ControlLine));
    };
    match serve_begun(rt, alloc, form, Options::from(options), listener, control) {
        Ok(status) => status,
        Err(fault) => tell_fault(rt, Program::Bqd, form, fault),
    }
}

// Reports why the program has no listener. Returns the status, 1.
fn tell_no_listener<R: Eprint>(rt: &R, form: LogForm, address: &str, why: &NoListener) -> u8
    ensures { result ≡ 1 }
{
    match why {
        NoListener::NoMemory => {
            tell_fault(rt, Program::Bqd, form, Fault::NoMemory(Need::Options))
        }
        NoListener::System(e) => tell_cannot_listen(rt, Program::Bqd, form, address, e),
    }
}

// Serves by the engine that the options choose. Returns the status, which is 1 if the last door failed and that was
// reported.
fn serve_begun<R: System, I: ControlReader + Drop + Send + 'static>(
    rt: &R,
    alloc: Global,
    form: LogForm,
    options: Options,
    listener: TcpListener,
    control: I,
) -> Result<u8, Fault>
    ensures { IfOk result (IsStatusOrOne (Logging R) I.remaining I.may_fail ⟦<Core as QueueCore>⟧ options listener control) }
{
    if options.event_loop {
        serve_here(rt, alloc, form, options, listener, control)
    } else {
        serve_watched(rt, alloc, form, options, listener, control)
    }
}

// Serves in a thread of its own. Returns its status, or 1 if its last door failed and that was reported.
fn serve_watched<R: System, I: ControlReader + Drop + Send + 'static>(
    rt: &R,
    alloc: Global,
    form: LogForm,
    options: Options,
    listener: TcpListener,
    control: I,
) -> Result<u8, Fault>
    ensures { IfOk result (IsStatusOrOne (Logging R) I.remaining I.may_fail ⟦<Core as QueueCore>⟧ options listener control) }
{
    let Ok(shared) = Shared::new(alloc, options.seats, form, Writer::Thread) else {
        return Err(Fault::NoMemory(Need::Queue));
    };
    let (Ok(of_log), Ok(of_server)) = (Arc::try_clone(&shared), Arc::try_clone(&shared)) else {
        return Err(Fault::NoMemory(Need::Queue));
    };
    if !start_log(*rt, of_log) {
        return Err(Fault::ThreadRefused);
    }
    let server = Server {
        rt: Logging::new(*rt, of_server),
        alloc,
        options,
        listener,
        control,
    };
    let Some(thread) = start_server(rt, server) else {
        return Err(Fault::ThreadRefused);
    };
    shared.ending.wait(rt);
    let logging = Logging::new(*rt, shared);
    let came = came_of(rt, &logging, thread);
    logging.shared().log.close(rt);
    Ok(came)
}

// Serves on the calling thread, by an event loop. It ends by itself when its last door fails. Returns the status.
fn serve_here<R: System, I: ControlReader + Drop>(
    rt: &R,
    alloc: Global,
    form: LogForm,
    options: Options,
    listener: TcpListener,
    control: I,
) -> Result<u8, Fault>
    ensures { IfOk result (IsStatusOrOne (Logging R) I.remaining I.may_fail ⟦<Core as QueueCore>⟧ options listener control) }
{
    let Ok(shared) = Shared::new(alloc, options.seats, form, Writer::Itself) else {
        return Err(Fault::NoMemory(Need::Queue));
    };
    let logging = Logging::new(*rt, shared);
    let status = serve_to(
        &logging,
        alloc,
        &options,
        listener,
        &logging.shared().ending,
        control,
        Some(STANDARD_INPUT),
    );
    logging.shared().log.close(rt);
    Ok(status)
}

// Starts the thread that writes the log. Returns true if it could be started.
fn start_log<R: Threads + Wait + Eprint + Copy + Send + 'static>(
    rt: R,
    shared: Arc<Shared, Global>,
) -> bool {
    thread::spawn(&rt, move || shared.log.write(&rt)).is_ok()
}

fn start_server<R: System, I: ControlReader + Drop + Send + 'static>(
    rt: &R,
    server: Server<R, I>,
) -> Option<PromisedHandle<u8, ServerPromise<R, I>>>
    ensures { IfSome result (λ t. (t.promise.options.value ≡ server.options)
        × (t.promise.listener.value ≡ server.listener) × (t.promise.control.value ≡ server.control)) }
{
    let promise = ServerPromise {
        options: Snapshot::of(&server.options),
        listener: Snapshot::of(&server.listener),
        control: Snapshot::of(&server.control),
        rt: PhantomData,
    };
    thread::spawn_with(rt, promise, move || server.serve()).ok()
}

// What the thread of a server owns.
#[derive(Drop)]
struct Server<R, I> {
    rt: Logging<R>,
    alloc: Global,
    options: Options,
    listener: TcpListener,
    control: I,
}

impl<R: System, I: ControlReader + Drop> Server<R, I> {
    // Serves until the server has ended. Returns the status.
    fn serve(self) -> u8
        ensures status { IsStatusOfServer (Logging R) I.remaining I.may_fail ⟦<Core as QueueCore>⟧
            self.options self.listener self.control result }
        ensures at_most { result ≤ 1 }
    {
        let Server {
            rt,
            alloc,
            options,
            listener,
            control,
        } = self;
        let ending = &rt.shared().ending;
        let status = serve_to(
            &rt,
            alloc,
            &options,
            listener,
            ending,
            control,
            Some(STANDARD_INPUT),
        );
        ending.note_over();
        status
    }
}

// The promise that the status of a server's thread is the status of its server.
#[derive(Drop)]
struct ServerPromise<R, I> {
    options: Snapshot<Options>,
    listener: Snapshot<TcpListener>,
    control: Snapshot<I>,
    rt: PhantomData<R>,
}

impl<R, I: ControlReader> Promise<u8> for ServerPromise<R, I> {
    ghost use Rattle.std.specs.Prelude.{◌≤◌};
    ghost use Rattle.bq_cli.specs.Servers.{IsStatusOfServer};
    ghost use Rattle.bq_cli.specs.declared.logging.Logging.{Logging};

    ghost kept_by = { λ p status. (IsStatusOfServer (Logging R) I.remaining I.may_fail ⟦<Core as QueueCore>⟧
        p.options.value p.listener.value p.control.value status) × (status ≤ 1) };
}

// Returns the status of the thread of a server that has ended. If its last door failed, that is reported and the status
// is 1: the thread may still wait for the end of the control line.
fn came_of<R: Threads + Wait + Eprint, I: ControlReader>(
    rt: &R,
    logging: &Logging<R>,
    thread: PromisedHandle<u8, ServerPromise<R, I>>,
) -> u8
    ensures { IsStatusOrOne (Logging R) I.remaining I.may_fail ⟦<Core as QueueCore>⟧ thread.promise.options.value
        thread.promise.listener.value thread.promise.control.value result }
{
    let ending = &logging.shared().ending;
    if ending.doors().have_failed() && ending.is_first_to_report() {
        return tell_fault(logging, Program::Bqd, ending.form(), Fault::NotAccepted);
    }
    thread.join(rt)
}
