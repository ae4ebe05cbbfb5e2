//! Runs of one connection. If an allocation fails, either the run is refused, or one command is.

use super::outcome::Outcome;
use bq_host::RunFault;
use bq_job::USUAL_BODY;
use bq_line::clock::ScriptClock;
use bq_line::line::MemLine;
use bq_run_one::{One, run_one};
use bq_scenes::clients::{clock, parts_of};
use bq_scenes::rows::column;
use bq_scenes::settings::config;
use std::alloc::Global;
use std::sync::Wait;

/// The name of each run, what the client sends, what it receives, and what it receives if the
/// allocation for a command fails.
pub static LINES: &str = "run_one put|put 0 0 1 1~a~reserve-with-timeout 0~quit~\
    |INSERTED 1\r\nRESERVED 1 1\r\na\r\n|OUT_OF_MEMORY\r\nTIMED_OUT\r\n;\
    run_one use|use t~list-tube-used~quit~\
    |USING t\r\nUSING t\r\n|OUT_OF_MEMORY\r\nUSING default\r\n;\
    run_one watch|watch t~ignore default~quit~\
    |WATCHING 2\r\nWATCHING 1\r\n|OUT_OF_MEMORY\r\nNOT_IGNORED\r\n;\
    run_one list-tubes|list-tubes~quit~\
    |OK 14\r\n---\n- default\n\r\n|OUT_OF_MEMORY\r\n";

fn outcome_of(row: &'static str, one: &One<MemLine, ScriptClock>) -> Outcome {
    if one.line.written() == column(row, 2).as_bytes() {
        Outcome::Made
    } else if one.line.written() == column(row, 3).as_bytes() {
        Outcome::LeftOut
    } else {
        Outcome::Wrong
    }
}

/// Returns the outcome of the run of a row. The clock always reads 0.
pub fn ran<R: Wait>(rt: &R, alloc: Global, row: &'static str) -> Outcome {
    let Ok(parts) = parts_of(alloc, column(row, 1)) else {
        return Outcome::NotBegun;
    };
    let Ok(line) = MemLine::new(alloc, parts, 100) else {
        return Outcome::NotBegun;
    };
    let Ok(clock) = clock(alloc, "0") else {
        drop(line);
        return Outcome::NotBegun;
    };
    match run_one(rt, alloc, config(1, USUAL_BODY), line, clock) {
        Ok(one) => {
            let outcome = outcome_of(row, &one);
            drop(one);
            outcome
        }
        Err(RunFault::NoMemory) => Outcome::Refused,
        Err(_) => Outcome::Wrong,
    }
}
