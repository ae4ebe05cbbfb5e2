//! How many comparisons a step makes.
use crate::crowds::Crowd;
use crate::play::{Script, play_one};
use bq_scenes::settings::config;
use std::alloc::Global;

static HAND_OUT: Script = "0 0 reserve | 0 RESERVED 1 1~x";

static NOTHING_DUE: Script = "0 0 tick";

// A put, beside clients that watch another tube.
static PUT: Script = "0 0 put 0 0 9 1~x | 0 INSERTED 1";

// Steps beside them that hand out no job.
static CALM: Script = "0 0 put 0 5 9 1~x | 0 INSERTED 1
    0 0 release 1 0 0 | 0 NOT_FOUND
    0 0 bury 1 0 | 0 NOT_FOUND
    0 0 kick-job 7 | 0 NOT_FOUND
    0 0 pause-tube default 5 | 0 PAUSED
    0 0 end";

// Returns true if a script beside a crowd is answered as it says, and makes this many comparisons.
fn makes(alloc: Global, crowd: Crowd, script: Script, least: u64, most: u64) -> bool {
    match play_one(alloc, config(256, 10), crowd, script) {
        Ok(made) => least <= made && made <= most,
        Err(_) => false,
    }
}

// Returns true if a script makes at most this many more comparisons if the watching clients wait.
fn makes_as_many(alloc: Global, script: Script, more: u64) -> bool {
    match play_one(alloc, config(256, 10), Crowd::Watchers, script) {
        Ok(made) => makes(alloc, Crowd::Waiters, script, 0, made.saturating_add(more)),
        Err(_) => false,
    }
}

#[test]
fn comparisons_of_a_step(rt: HostRuntime) {
    let alloc = rt.alloc();
    assert!(rt;
        makes(alloc, Crowd::Jobs(10_000), HAND_OUT, 1, 4590)
            && makes(alloc, Crowd::Jobs(10_000), NOTHING_DUE, 0, 3840)
    );
    // A put into a tube for which no client waits makes only the comparisons of the insertion. If
    // no waiting client may have a job, none is searched for: in each of a step's two parts, at most
    // the earliest end of a time to run is looked up.
    assert!(rt; makes_as_many(alloc, PUT, 0) && makes_as_many(alloc, CALM, 48));
}
