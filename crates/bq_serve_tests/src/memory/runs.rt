//! Runs with one client. A run that fails opens no door.

use super::outcome::Outcome;
use crate::cases::{Came, Case};
use crate::lock::runs::around_a_lock;
use crate::sessions::runs::by_threads;
use bq_host::RunFault;
use bq_scenes::table::Table;
use std::alloc::Global;
use std::sync::Wait;
use std::thread::Threads;

// What the only client sends and receives, also if the allocation for its put fails.
static ONE: &str = "put 0 0 1 1~a~reserve-with-timeout 0~quit~ > INSERTED 1~RESERVED 1 1~a~ > quit

    put 0 0 1 1~a~reserve-with-timeout 0~quit~ > OUT_OF_MEMORY~TIMED_OUT~ > quit";

/// Returns the outcome of a run of the one client, by threads or around a lock. The journal of the
/// latter is not replayed, since that allocates.
pub fn ran<R: Threads + Wait + Sync>(rt: &R, alloc: Global, is_locked: bool) -> Outcome {
    let table = Table::of_text(alloc, ONE);
    let Some(mut case) = Case::new(&table, 0) else {
        drop(table);
        return Outcome::Refused;
    };
    case.journal = 100;
    case.is_replayed = false;
    let came = if is_locked {
        around_a_lock(rt, alloc, &case)
    } else {
        by_threads(rt, alloc, &case)
    };
    drop(table);
    match came {
        Came::AsWanted => Outcome::Made,
        Came::Otherwise => Outcome::LeftOut,
        Came::Failed(RunFault::NoMemory) => Outcome::Refused,
        Came::Failed(RunFault::ThreadRefused) => Outcome::ThreadRefused,
        _ => Outcome::Wrong,
    }
}
