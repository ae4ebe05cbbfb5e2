//! All calls and steps, one after another. A second test runs the steps of a client that holds a
//! job.

use super::outcome::tells;
use super::{lines, makings, runs, steps};
use bq_scenes::rows::column;

#[test]
fn all_calls(rt: HostRuntime) {
    let alloc = rt.alloc();
    assert!(rt; makings::tells_all(&rt, alloc));
    for row in lines::LINES.split(';') {
        assert!(rt; tells(&rt, column(row, 0), lines::ran(&rt, alloc, row)));
    }
    assert!(rt;
        tells(&rt, "run_sessions", runs::ran(&rt, alloc, false))
            && tells(&rt, "run_locked", runs::ran(&rt, alloc, true))
            && steps::tells_all(&rt, alloc)
    );
}

#[test]
fn held_job_without_memory(rt: HostRuntime) {
    assert!(rt; steps::tells_held_job(&rt, rt.alloc()));
}
