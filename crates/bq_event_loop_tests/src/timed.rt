//! Runs with a clock that advances: what is due happens, even if no client sends anything.

use crate::runs::{come_out, sleeps_in};
use crate::series::Series;

// - The end of a wait, and a delayed job in another tube.
// - The end of another client's lease.
// - A delay and a pause that end before the wait does.
// - A warning that a lease ends soon.
static DUE: &str = "reserve-with-timeout 1~list-tube-used~ > TIMED_OUT~USING default~
    use b~watch b~ignore default~put 0 1 60 1~x~reserve~ + after 62 \
    > USING b~WATCHING 2~WATCHING 1~INSERTED 1~RESERVED 1 1~x~

    put 0 0 1 1~x~reserve~ + all 46 > INSERTED 1~RESERVED 1 1~x~
    all 29 + reserve~ + after 17 > RESERVED 1 1~x~

    put 0 2 60 1~x~pause-tube default 3~ > INSERTED 1~PAUSED~
    all 20 + reserve-with-timeout 9~ + after 17 > RESERVED 1 1~x~

    put 0 0 4 1~x~reserve~reserve~ + after 44 > INSERTED 1~RESERVED 1 1~x~DEADLINE_SOON~
    use b~ > USING b~";

#[test]
fn what_is_due_comes(rt: HostRuntime) {
    assert!(rt; come_out(rt.alloc(), DUE, Series::Timed));
}

// Nothing moves until the delay of a job ends, and then until a wait in another tube does.
static WAITS: &str = "put 0 1 9 1~x~reserve~ + after 29 > INSERTED 1~RESERVED 1 1~x~
    watch b~ignore default~reserve-with-timeout 4~ + after 35 > WATCHING 2~WATCHING 1~TIMED_OUT~";

#[test]
fn the_loop_sleeps(rt: HostRuntime) {
    assert!(rt; sleeps_in(rt.alloc(), WAITS, &Series::Timed.setting(0)) >= 2);
}
