//! Control lines that drain, which are read before the seats act, or between their turns.

use crate::runs::come_out;
use crate::series::Series;
use bq_event_loop::ControlReads;
use bq_scenes::control::Gives;
use bq_scenes::drains::examples;
use std::alloc::Global;

// A client if the control line drains: the line is read before it comes, or while it waits.
const DRAINED: (&str, &str) = (
    "put 0 0 9 1~x~ > DRAINING~",
    "reserve-with-timeout 8~put 0 0 9 1~x~ > TIMED_OUT~DRAINING~",
);

const OPEN: (&str, &str) = (
    "put 0 0 9 1~x~ > INSERTED 1~",
    "reserve-with-timeout 8~put 0 0 9 1~x~ > TIMED_OUT~INSERTED 1~",
);

// Returns true if a put is rejected exactly if the control line drains.
fn puts(alloc: Global, gives: &'static [Gives], drains: bool) -> bool {
    let (first, later) = if drains { DRAINED } else { OPEN };
    come_out(alloc, first, Series::Control(gives, ControlReads::ToEnd))
        && come_out(alloc, later, Series::Control(gives, ControlReads::Once))
}

fn all_put(alloc: Global) -> bool {
    for (gives, drains) in examples() {
        if !puts(alloc, *gives, *drains) {
            return false;
        }
    }
    true
}

#[test]
fn control_lines(rt: HostRuntime) {
    assert!(rt; all_put(rt.alloc()));
}
