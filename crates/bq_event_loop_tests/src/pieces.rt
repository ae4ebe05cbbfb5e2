//! Connections that read and write a few bytes at a time.

use crate::runs::come_out;
use crate::series::Series;
use crate::worked::MORE;
use bq_scenes::worked::EXAMPLES;
use std::alloc::Global;

// No connection of the runs that every run has to pass reads or writes more than 45 bytes, and none
// of the other runs more than 85.
fn are_served(alloc: Global) -> bool {
    come_out(alloc, EXAMPLES, Series::Cut(45))
        && come_out(alloc, MORE, Series::Cut(85))
        && come_out(alloc, EXAMPLES, Series::Few)
        && come_out(alloc, MORE, Series::Few)
}

#[test]
fn few_bytes_at_a_time(rt: HostRuntime) {
    assert!(rt; are_served(rt.alloc()));
}
