//! Runs over doors in memory with known results, by threads over links and around a lock.

use crate::cases::{Came, Group, MOST, case_of, table_of};
use crate::lock::runs::around_a_lock;
use crate::sessions::runs::by_threads;
use bq_host::RunFault;
use bq_line::DoorFault;
use std::alloc::Global;
use std::sync::Wait;
use std::thread::Threads;

/// A run whose results are compared.
#[derive(Clone, Copy)]
enum Engine {
    Threads,
    Lock,
}

// Makes each run of a group, and returns true if all come out as wanted.
fn all_come_out<R: Threads + Wait + Sync>(
    rt: &R,
    alloc: Global,
    group: Group,
    engine: Engine,
) -> bool {
    let table = table_of(alloc, group);
    let mut all = false;
    for number in 0..MOST {
        let Some(case) = case_of(&table, group, number) else {
            all = number > 0;
            break;
        };
        let came = match engine {
            Engine::Threads => by_threads(rt, alloc, &case),
            Engine::Lock => around_a_lock(rt, alloc, &case),
        };
        let is_broken = matches!(group, Group::Broken);
        if !matches!(came, Came::AsWanted) && !(is_broken && matches!(came, Came::Otherwise)) {
            break;
        }
    }
    drop(table);
    all
}

// Does the same with both engines.
fn both_come_out<R: Threads + Wait + Sync>(rt: &R, alloc: Global, group: Group) -> bool {
    all_come_out(rt, alloc, group, Engine::Threads) && all_come_out(rt, alloc, group, Engine::Lock)
}

fn are_codes_kept() -> bool {
    RunFault::NoMemory.code() == 501
        && RunFault::ThreadRefused.code() == 502
        && RunFault::BadConfiguration.code() == 503
        && DoorFault.code() == 504
}

// Worked runs; connections that fail while others are served; control lines after which the core
// accepts no put; and runs that are rejected, which open no door.
fn all_groups_come_out<R: Threads + Wait + Sync>(rt: &R, alloc: Global) -> bool {
    both_come_out(rt, alloc, Group::Worked)
        && both_come_out(rt, alloc, Group::CutOff)
        && both_come_out(rt, alloc, Group::Broken)
        && both_come_out(rt, alloc, Group::Drained)
        && both_come_out(rt, alloc, Group::Refused)
}

#[test]
fn runs_over_doors(rt: HostRuntime) {
    assert!(rt; all_groups_come_out(&rt, rt.alloc()) && are_codes_kept());
}
