//! Many jobs, and many clients.
use bq_job::{Answer, Body, JobId, Request, Seat, Step};
use bq_scenes::bench::Bench;
use std::alloc::Global;

/// The jobs or clients that are there before a script is played.
#[derive(Clone, Copy)]
pub(crate) enum Crowd {
    Nobody,
    /// This many jobs, the first the most urgent.
    Jobs(u32),
    /// 250 clients that watch only an empty tube.
    Watchers,
    /// The same clients, which wait.
    Waiters,
}

// The client at seat 0 puts a job of this priority, which gets the same number as its id.
fn puts(alloc: Global, bench: &mut Bench, number: u32) -> bool {
    let Ok(body) = Body::new(alloc, b"x") else {
        return false;
    };
    let put = Request::Put {
        pri: number,
        delay: 0,
        ttr: 9,
        body,
    };
    bench.step(0, 0, Step::Ask(put));
    is_inserted(bench, JobId::from(number))
}

// Returns true if the oldest answer tells the client at seat 0 that its job has this id.
fn is_inserted(bench: &mut Bench, id: JobId) -> bool {
    let answer = bench.answer();
    let is_right = match &answer {
        Some((0, Answer::Inserted(found))) => *found == id,
        _ => false,
    };
    drop(answer);
    is_right
}

// Puts this many jobs, the first the most urgent, into a core that had none.
fn puts_jobs(alloc: Global, bench: &mut Bench, jobs: u32) -> bool {
    for number in 1..=jobs {
        if !puts(alloc, bench, number) {
            return false;
        }
    }
    true
}

// The client at this seat does these things, one after another.
fn does(bench: &mut Bench, seat: Seat, words: &str) -> bool {
    for words in words.split('|') {
        if !bench.take(0, seat, words) {
            return false;
        }
    }
    true
}

// The clients at the seats from 1 to 250 do these things.
fn all_do(bench: &mut Bench, words: &str) -> bool {
    for seat in 1..251 {
        if !does(bench, seat, words) {
            return false;
        }
    }
    true
}

/// Lets a crowd come. Returns false if it does not come as it should.
pub(crate) fn comes(alloc: Global, bench: &mut Bench, crowd: Crowd) -> bool {
    match crowd {
        Crowd::Nobody => true,
        Crowd::Jobs(jobs) => puts_jobs(alloc, bench, jobs),
        Crowd::Watchers => all_do(bench, "connect|watch empty|ignore default"),
        Crowd::Waiters => all_do(bench, "connect|watch empty|ignore default|reserve"),
    }
}
