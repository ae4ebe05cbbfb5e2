//! Runs that are rejected: they open no door.

use crate::order::Rule;
use crate::runs::ran_so;
use crate::setting::by_rule;
use crate::together::Together;
use bq_event_loop::TurnsFault;
use bq_host::RunFault;
use bq_scenes::refused::{ONE, Refused, rows};
use bq_scenes::settings::config;
use bq_scenes::table::{Run, Table};
use std::alloc::Global;

const ONE_RUN: Run = Run {
    number: 0,
    doors: 1,
    clients: 1,
};

fn is_refused(alloc: Global, table: &Table, row: &Refused, fault: Option<TurnsFault>) -> bool {
    let all = Together::new();
    let (config, setting) = (config(row.0, row.1), by_rule(Rule::Next));
    match ran_so(alloc, config, table, ONE_RUN, &setting, fault, &all) {
        Ok(is_so) => is_so && row.2.is_none() && all.opened() == ONE_RUN.opens(),
        Err(fault) => row.2 == Some(fault) && all.opened() == 0,
    }
}

// Configurations, and turns that could not be prepared.
fn are_refused(alloc: Global, table: &Table) -> bool {
    for row in rows() {
        if !is_refused(alloc, table, row, None) {
            return false;
        }
    }
    let (no_memory, refused) = (Some(RunFault::NoMemory), Some(RunFault::ThreadRefused));
    is_refused(alloc, table, &(1, 1, no_memory), Some(TurnsFault::NoMemory))
        && is_refused(alloc, table, &(1, 1, refused), Some(TurnsFault::Refused))
}

#[test]
fn refused_runs(rt: HostRuntime) {
    assert!(rt; are_refused(rt.alloc(), &Table::of_text(rt.alloc(), ONE)));
}
