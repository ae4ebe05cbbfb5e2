//! Runs of one connection that are rejected.

use super::runs::{Client, ran_so};
use bq_scenes::refused::{Refused, rows};
use bq_scenes::settings::config;
use std::alloc::Global;
use std::sync::Wait;

// A configuration for one connection has one seat. If the run is not rejected, the limit of body
// sizes is 1.
fn is_refused<R: Wait>(rt: &R, alloc: Global, row: &Refused) -> bool {
    let client = Client {
        does: "put 5 0 10 3~abc~",
        receives: "JOB_TOO_BIG~",
        end: "end",
        room: 100,
    };
    match ran_so(rt, alloc, config(row.0, row.1), &client, "0") {
        Ok(is_so) => is_so && row.2.is_none(),
        Err(fault) => row.2 == Some(fault),
    }
}

/// Returns true if each run that has to be rejected is, and with the right fault.
pub fn are_refused<R: Wait>(rt: &R, alloc: Global) -> bool {
    for row in rows() {
        if !is_refused(rt, alloc, row) {
            return false;
        }
    }
    true
}
