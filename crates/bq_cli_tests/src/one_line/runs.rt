//! Runs of one connection.

use bq_core_api::Config;
use bq_host::RunFault;
use bq_line::clock::ScriptClock;
use bq_line::line::MemLine;
use bq_run_one::{One, run_one};
use bq_scenes::clients::{clock, parts_of};
use bq_scenes::notation::bytes_of;
use bq_scenes::rows::{column, is_end};
use std::alloc::Global;
use std::sync::Wait;

/// A client, and the result of its session: what it does, what it receives, how its connection
/// ends, and its room. The texts are in the notation of `bq_scenes`.
#[derive(Clone, Copy)]
pub struct Client {
    pub does: &'static str,
    pub receives: &'static str,
    pub end: &'static str,
    pub room: usize,
}

impl Client {
    /// Returns the client of a row, which has these after what it shows. Without a room in the row
    /// the client has ample room.
    pub fn of_row(row: &'static str) -> Client {
        Client {
            does: column(row, 1),
            receives: column(row, 2),
            end: column(row, 3),
            room: column(row, 4).parse::<usize>().unwrap_or(1000),
        }
    }
}

fn is_left_so(alloc: Global, client: &Client, one: &One<MemLine, ScriptClock>) -> bool {
    match bytes_of(alloc, client.receives) {
        Ok(bytes) => {
            let is_same = one.line.written() == bytes.as_slice();
            drop(bytes);
            is_same && is_end(one.end, client.end)
        }
        Err(_) => false,
    }
}

/// Runs the connection of a client, with a clock that gives these readings. Returns true if it has
/// the result that the client says. All tests use this one call.
pub fn ran_so<R: Wait>(
    rt: &R,
    alloc: Global,
    config: Config,
    client: &Client,
    readings: &'static str,
) -> Result<bool, RunFault> {
    let Ok(parts) = parts_of(alloc, client.does) else {
        return Err(RunFault::NoMemory);
    };
    let Ok(line) = MemLine::new(alloc, parts, client.room) else {
        return Err(RunFault::NoMemory);
    };
    let Ok(clock) = clock(alloc, readings) else {
        drop(line);
        return Err(RunFault::NoMemory);
    };
    match run_one(rt, alloc, config, line, clock) {
        Ok(one) => {
            let is_so = is_left_so(alloc, client, &one);
            drop(one);
            Ok(is_so)
        }
        Err(fault) => Err(fault),
    }
}
