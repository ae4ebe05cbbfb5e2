//! The program `bq`, from the words of its command line to its status.
ghost use Rattle.std.specs.Prelude.{◌≡◌, [], IfOk, Result};
ghost use Rattle.std.specs.Borrow.{Bor};
ghost use Rattle.bq_line.specs.declared.clock.MachineClock.{MachineClock as AClock};
ghost use Rattle.bq_program.specs.Ranges.{IsForBq};
ghost use Rattle.bq_program.specs.declared.fault.Stop.{Stop};
ghost use Rattle.bq_session.specs.Clients.{IsStatusOfClient};
ghost use Rattle.bq_session.specs.Sessions.{IsSession};
ghost use Rattle.bq_session.specs.declared.session.Served.{Served};

use crate::session::{Served, serve_client};
use crate::told::tell_client;
use bq_line::clock::MachineClock;
use bq_line::line::{Duplex, IoLine, Line};
use bq_program::{Stop, bq_options, words};
use std::io::{Eprint, Print};
use std::rt::{Clock, Env};
use std::sync::Wait;

/// Does all that `bq` does: serves the client at the other end of the stream by the options in the program's words, and
/// reports how that ended. Returns the status of the program.
pub fn run_bq<R: AllocGlobal + Env + Wait + Clock + Print + Eprint, S: Duplex + Drop>(
    rt: &R,
    stream: S,
) -> u8
    // The status follows from what came of the client. A client that was served has the promise of `serve_client`, with a
    // new clock and over this stream: its connection read what the stream gave, and the stream took what the connection
    // wrote. If the stream may not fail, the connection met no fault.
    ensures { (clock : AClock (Bor R)) × (clock.given ≡ []) × (came : Result (Served S (Bor R)) Stop)
        × IfOk came (λ served. IsForBq served.options)
        × IfOk came (λ served. IsSession served.options clock served.clock
        (⟦<IoLine<S> as Line>⟧.seen served.line) served.end)
        × IfOk came (λ served. ⟦<IoLine<S> as Line>⟧.lies_over
        (record { left = S.remaining stream; held = S.contents stream; may_fail = S.may_fail stream }) served.line)
        × IsStatusOfClient came result }
{
    let clock = MachineClock::new(rt);
    let came = came_of_client(rt, stream, clock);
    tell_client(rt, &came)
}

fn came_of_client<'r, R: AllocGlobal + Env + Wait + Clock, S: Duplex + Drop>(
    rt: &'r R,
    stream: S,
    clock: MachineClock<&'r R>,
) -> Result<Served<S, &'r R>, Stop>
    ensures options { IfOk result (λ served. IsForBq served.options) }
    ensures served { IfOk result (λ served. IsSession served.options clock.entry served.clock
        (⟦<IoLine<S> as Line>⟧.seen served.line) served.end) }
    ensures over { IfOk result
        (λ served. ⟦<IoLine<S> as Line>⟧.lies_over
        (record { left = S.remaining stream; held = S.contents stream; may_fail = S.may_fail stream })
        served.line) }
{
    let words = words(rt)?;
    let options = bq_options(rt.alloc(), words.as_slice())?;
    let served = serve_client(rt, rt.alloc(), &options, stream, clock)?;
    Ok(served)
}
