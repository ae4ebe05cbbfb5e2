//! Serves the client of `bq` on any stream: from the options to the end of the client's connection.
ghost use Rattle.std.specs.Prelude.{◌≡◌, IfErr, IfOk};
ghost use Rattle.bq_program.specs.Ranges.{IsForBq};
ghost use Rattle.bq_session.specs.Sessions.{IsSession, settings_of_bq};

use crate::session_clock::SessionClock;
use bq_core::Config;
use bq_job::LineEnd;
use bq_line::clock::MachineClock;
use bq_line::line::{Duplex, IoLine, Line};
use bq_program::{BqOptions, Fault, Need};
use bq_run_one::run_one;
use std::alloc::Global;
use std::rt;
use std::sync::Wait;

/// A client that was served until its connection ended, with the options and the clock that were
/// used.
#[derive(Drop)]
pub struct Served<S, K> {
    /// The connection, with what was read from it and written to it.
    pub line: IoLine<S>,
    /// How the connection ended.
    pub end: LineEnd,
    /// The options by which it was served.
    pub options: BqOptions,
    /// The computer's clock, as the session left it. If the options say so, a clock that stands still was read
    /// instead.
    pub clock: MachineClock<K>,
}

/// Serves the client at the other end of the stream by these options until its connection ends. It reads this clock,
/// unless the options ask for one that always reads 0. On error the stream was neither read nor written, and is
/// dropped.
pub fn serve_client<R: Wait, S: Duplex + Drop, K: rt::Clock + Drop>(
    rt: &R,
    alloc: Global,
    options: &BqOptions,
    stream: S,
    clock: MachineClock<K>,
) -> Result<Served<S, K>, Fault>
    requires { IsForBq options.now }
    ensures options { IfOk result (λ served. served.options ≡ options.now) }
    // There is one history of the client's steps by these options and the clock that they choose, and the one-list
    // model takes it. The client received exactly the bytes that this history prescribes.
    ensures served { IfOk result (λ served. IsSession options.now clock served.clock
        (⟦<IoLine<S> as Line>⟧.seen served.line) served.end) }
    // The connection is over this stream. If the stream may not fail, it met no fault.
    ensures over { IfOk result
        (λ served. ⟦<IoLine<S> as Line>⟧.lies_over
        (record { left = S.remaining stream; held = S.contents stream; may_fail = S.may_fail stream })
        served.line) }
    ensures fault { IfErr result (λ fault. fault ≡ Fault.NoMemory Need.Queue) }
{
    let line = IoLine::new(stream);
    let clock = SessionClock {
        machine: clock,
        is_still: options.still,
    };
    match run_one(rt, alloc, config_of(options), line, clock) {
        Ok(one) => Ok(Served {
            line: one.line,
            end: one.end,
            options: *options,
            clock: one.clock.machine,
        }),
        Err(fault) => Err(Fault::from(fault)),
    }
}

// The settings of a run by these options. A job of a lost connection is not delayed, since no other client waits.
fn config_of(options: &BqOptions) -> Config
    ensures { result ≡ settings_of_bq options.now }
{
    Config {
        seats: 1,
        max_job_size: options.max_job_size,
        max_jobs: options.max_jobs,
        requeue_delay: 0,
    }
}
