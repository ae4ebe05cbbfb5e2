//! A server with one or two seats, and its clients as threads of the test.

use crate::heard::{Heard, options, serves};

/// How often a server serves a pair of clients: 20 times each.
const TIMES: u32 = 40;

// One client waits until the other has put a job. What they receive does not depend on the order in
// which the threads run.
static WAITS: &str = "reserve\r\n|RESERVED 1 3\r\nabc\r\n&put 5 0 10 3\r\nabc\r\n|INSERTED 1\r\n";

// Neither client waits for the other.
static APART: &str = "list-tube-used\r\n|USING default\r\n&watch a\r\n|WATCHING 2\r\n";

// Three clients, one after another. Before the third one the seat is free for a minute by the
// server's clock.
static VISITS: &str = "quit\r\n|;quit\r\n|;a minute later;quit\r\n|";

// What the server then reports.
static TWICE: &str = "bqd: all seats are taken: further connections wait\n\
    bqd: all seats are taken: further connections wait\n";

#[test]
fn clients_at_one_and_two_seats(rt: HostRuntime) {
    for turn in 0..TIMES {
        let heard = Heard::new(rt, rt.alloc());
        let visits = if turn % 2 == 0 { WAITS } else { APART };
        let serves = serves(&heard, &options(2, 1), visits, 2);
        drop(heard);
        assert!(rt; serves);
    }
    let heard = Heard::new(rt, rt.alloc());
    let serves = serves(&heard, &options(1, 3), VISITS, 3) && heard.has_errors(TWICE);
    drop(heard);
    assert!(rt; serves);
}
