//! Sessions of one connection: worked ones with three clocks each, and scripted ones with a clock
//! that advances, goes backwards or fails.

mod refused;
mod runs;
mod scripted;
mod worked;

use bq_core_api::Config;
use bq_job::USUAL_BODY;
use bq_scenes::rows::column;
use bq_scenes::settings::config;
use refused::are_refused;
use runs::{Client, ran_so};
use scripted::SCRIPTED;
use std::alloc::Global;
use std::sync::Wait;
use worked::{COMMANDS, WORKED};

// Three clocks: one that stands at 0, one that always fails, and one that goes backwards.
static CLOCKS: &str = "0;fails;9000 4000";

// Returns the readings of the clock of a row, or of each of the three clocks if it has none.
fn clocks_of(row: &'static str) -> &'static str {
    let readings = column(row, 5);
    if readings.is_empty() {
        CLOCKS
    } else {
        readings
    }
}

// Returns the configuration of a row: one seat, and the row's limits.
fn config_of(row: &'static str) -> Config {
    let max_job_size = column(row, 6).parse::<u32>().unwrap_or(USUAL_BODY);
    Config {
        max_jobs: column(row, 7).parse::<u32>().ok(),
        ..config(1, max_job_size)
    }
}

// Returns true if the session of a row has the result that it says.
fn is_met<R: Wait>(rt: &R, alloc: Global, row: &'static str) -> bool {
    let client = Client::of_row(row);
    for readings in clocks_of(row).split(';') {
        if !matches!(
            ran_so(rt, alloc, config_of(row), &client, readings),
            Ok(true)
        ) {
            return false;
        }
    }
    true
}

fn are_met<R: Wait>(rt: &R, alloc: Global, rows: &'static str) -> bool {
    for row in rows.split("\n\n") {
        if !is_met(rt, alloc, row) {
            return false;
        }
    }
    true
}

fn all_are_met<R: Wait>(rt: &R, alloc: Global) -> bool {
    are_met(rt, alloc, WORKED)
        && are_met(rt, alloc, COMMANDS)
        && are_met(rt, alloc, SCRIPTED)
        && are_refused(rt, alloc)
}

#[test]
fn worked_sessions(rt: HostRuntime) {
    assert!(rt; all_are_met(&rt, rt.alloc()));
}
