//! Worked steps of several clients. Worked sessions of one client are in `bq_cli_tests`.
use crate::play::{Script, wrong_row};
use bq_core::Config;
use bq_scenes::settings::config;
use std::alloc::Global;
use std::test::Fail;

static WORKED: Script = "# waiters of two tubes
    0 1 watch a | 1 WATCHING 2
    0 1 ignore default | 1 WATCHING 1
    0 1 reserve
    0 2 watch a | 2 WATCHING 2
    0 2 watch b | 2 WATCHING 3
    0 2 ignore default | 2 WATCHING 2
    0 2 reserve
    0 0 use b | 0 USING b
    0 0 put 0 0 9 1~p | 0 INSERTED 1 | 2 RESERVED 1 1~p
    0 0 use a | 0 USING a
    0 0 put 0 0 9 1~q | 0 INSERTED 2 | 1 RESERVED 2 1~q

    # deadline soon at one second
    0 0 put 0 0 2 1~x | 0 INSERTED 1
    0 0 reserve | 0 RESERVED 1 1~x
    500 0 reserve
    500 0 due 1000
    999 0 tick
    1000 0 tick | 0 DEADLINE_SOON

    # lease expires to its waiter
    0 0 put 0 0 2 1~x | 0 INSERTED 1
    0 0 reserve | 0 RESERVED 1 1~x
    500 0 reserve
    2000 0 tick | 0 RESERVED 1 1~x
    2500 0 stats-job 1 | 0 OK 138~---/id: 1/tube: default/state: reserved/pri: 0/age: 2/delay: 0/\
    ttr: 2/time-left: 1/reserves: 2/timeouts: 1/releases: 0/buries: 0/kicks: 0/

    # pause and delay end together
    0 0 put 0 5 9 1~x | 0 INSERTED 1
    0 0 pause-tube default 5 | 0 PAUSED
    0 1 reserve-with-timeout 5
    4999 0 tick
    5000 0 tick | 1 RESERVED 1 1~x

    # close hands on
    0 0 put 0 0 9 1~x | 0 INSERTED 1
    0 1 reserve | 1 RESERVED 1 1~x
    0 2 reserve
    0 0 delete 1 | 0 NOT_FOUND
    0 0 peek 1 | 0 FOUND 1 1~x
    0 1 close | 1 closed | 2 RESERVED 1 1~x

    # draining
    0 0 put 0 0 9 1~x | 0 INSERTED 1
    0 60000 drain
    0 0 put 0 0 9 1~y | 0 DRAINING
    0 0 reserve | 0 RESERVED 1 1~x

    # touch moves the lease
    0 0 put 0 0 2 1~x | 0 INSERTED 1
    0 0 reserve | 0 RESERVED 1 1~x
    1500 0 touch 1 | 0 TOUCHED
    1500 0 due 3500
    2000 0 tick
    3500 0 touch 1 | 0 NOT_FOUND

    # release with delay
    0 0 put 0 0 9 1~x | 0 INSERTED 1
    0 0 reserve | 0 RESERVED 1 1~x
    0 0 release 1 7 3 | 0 RELEASED
    2999 0 reserve
    2999 0 due 3000
    3000 0 tick | 0 RESERVED 1 1~x

    # timed waits by ticket
    0 2 reserve-with-timeout 1
    0 1 reserve-with-timeout 1
    1000 0 tick | 2 TIMED_OUT | 1 TIMED_OUT

    # end of a waiter
    0 0 reserve
    0 0 end | 0 TIMED_OUT

    # pause lifted
    0 0 put 0 0 9 1~x | 0 INSERTED 1
    0 0 pause-tube default 5 | 0 PAUSED
    0 1 reserve
    0 0 due 5000
    1000 0 pause-tube default 0 | 0 PAUSED | 1 RESERVED 1 1~x

    # single jobs
    0 0 put 0 9 9 1~x | 0 INSERTED 1
    0 0 kick-job 1 | 0 KICKED
    0 0 peek-ready | 0 FOUND 1 1~x
    0 0 reserve-job 1 | 0 RESERVED 1 1~x
    0 0 bury 1 3 | 0 BURIED
    0 1 kick-job 1 | 1 KICKED
    0 1 delete 1 | 1 DELETED";

static REQUEUED: Script = "# requeue after close
    0 0 put 0 0 9 1~x | 0 INSERTED 1
    0 1 reserve | 1 RESERVED 1 1~x
    0 2 reserve
    1000 1 close | 1 closed
    1000 0 due 6000
    2000 0 stats-job 1 | 0 OK 137~---/id: 1/tube: default/state: delayed/pri: 0/age: 2/delay: 0/\
    ttr: 9/time-left: 4/reserves: 1/timeouts: 0/releases: 0/buries: 0/kicks: 0/
    6000 0 tick | 2 RESERVED 1 1~x

    # kick before requeue
    0 0 put 0 0 9 1~x | 0 INSERTED 1
    0 1 reserve | 1 RESERVED 1 1~x
    0 2 reserve
    1000 1 close | 1 closed
    1500 0 kick 1 | 0 KICKED 1 | 2 RESERVED 1 1~x";

static LIMITED: Script = "# draining before the limit
    0 0 put 0 0 9 1~x | 0 INSERTED 1
    0 0 drain
    0 0 put 0 0 9 1~y | 0 DRAINING";

// Returns the first row that is not answered as it says. There are four seats, and bodies of 10
// bytes. In the second group a job whose client disconnects comes back after 5 seconds, in the third
// there is one job at most.
fn first_wrong(alloc: Global) -> Option<&'static str> {
    let plain = config(4, 10);
    let delayed = Config {
        requeue_delay: 5,
        ..plain
    };
    let limited = Config {
        max_jobs: Some(1),
        ..plain
    };
    for (config, scripts) in [(plain, WORKED), (delayed, REQUEUED), (limited, LIMITED)] {
        if let Some(row) = wrong_row(alloc, config, scripts) {
            return Some(row);
        }
    }
    None
}

#[test]
fn worked_steps(rt: HostRuntime) -> Result<(), Fail> {
    match first_wrong(rt.alloc()) {
        None => Ok(()),
        Some(row) => Err(Fail::from(row)),
    }
}
