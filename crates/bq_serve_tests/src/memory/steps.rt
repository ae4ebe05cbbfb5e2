//! Steps of a core, row by row. Each step is between two lines: its words before it is taken, and
//! `taken` after it; then come its answers. From the first bury on, no step may allocate.

use bq_job::{Answer, Seat, USUAL_BODY};
use bq_scenes::bench::{Bench, Row, row_of};
use bq_scenes::settings::config;
use bq_wire::{HeadBuf, answer_body, answer_head, answer_tail};
use std::alloc::Global;

/// Rows with `|` between one and the next: the moment, the seat, and what happens there. That is a
/// request, or `connect`, `end` (the client sends no more), `close`, or `tick` (time passes). One
/// text is cheaper to prove than a slice of rows.
type Rows = &'static str;

// Steps with ample memory, then buries and peeks, then waits and leases.
static ALL: Rows = "0 0 connect|0 1 connect|0 2 connect|\
    0 0 put 0 0 9 1~x|0 0 put 0 0 9 1~x|0 0 put 0 100 9 1~x|\
    0 0 use a|0 0 watch a|0 0 list-tubes|0 0 list-tubes-watched|\
    0 0 stats-job 1|0 0 stats-tube a|0 0 stats|\
    0 0 use default|0 0 reserve|0 0 reserve|\
    0 0 bury 2 0|0 0 bury 1 0|0 0 peek-buried|0 0 kick 5|\
    0 0 reserve|0 0 touch 1|0 0 release 1 0 0|\
    0 0 list-tube-used|0 0 peek 1|0 0 peek-ready|0 0 peek-delayed|\
    0 0 reserve-job 2|0 0 bury 2 7|0 0 kick-job 2|\
    0 0 ignore a|0 0 ignore default|0 0 delete 4|0 0 bad words|\
    0 0 reserve|0 0 reserve|0 1 reserve|0 0 release 1 0 0|\
    0 2 reserve-with-timeout 1|1000 0 tick|\
    1000 0 delete 2|1000 1 release 1 0 1|1000 2 reserve|2000 0 tick|\
    2000 1 reserve|11000 0 tick|11000 2 reserve|11000 1 close|\
    11000 2 pause-tube default 5|11000 2 release 1 0 0|11000 0 reserve|\
    11000 0 end|11000 2 delete 1|11000 0 close";

// A client that holds one job and has buried another. A third job is delayed. After the first bury,
// a tick follows each step.
static HELD_JOB: Rows = "0 0 connect|\
    0 0 put 0 0 9 1~x|0 0 put 0 0 9 1~y|0 0 put 0 100 9 1~z|\
    0 0 reserve|0 0 reserve|0 0 bury 2 0|\
    0 0 bury 1 0|0 0 tick|0 0 kick 5|0 0 tick|0 0 kick 5|0 0 tick|\
    0 0 kick 5|0 0 tick|0 0 reserve|0 0 tick|0 0 touch 1|0 0 tick|\
    0 0 release 1 0 0|0 0 tick|0 0 close|0 0 tick";

/// The number of seats.
const SEATS: u16 = 3;

// Prints the answers of the last step. There are at most two.
fn tells_answers(rt: &HostRuntime, bench: &mut Bench) -> bool {
    for _ in 0..3 {
        if let Some((seat, answer)) = bench.answer() {
            let is_told = tells_answer(rt, seat, &answer);
            drop(answer);
            if !is_told {
                return false;
            }
        }
    }
    true
}

// Takes the step of a row between its two lines, and prints its answers. Returns false if an
// allocation fails for a request itself.
fn tells_row(rt: &HostRuntime, bench: &mut Bench, row: &Row) -> bool {
    match bench.step_of(row.words) {
        Some(step) => {
            let is_begun = tells_words(rt, row.words);
            bench.step(row.at, row.seat, step);
            is_begun && rt.write_all(b"taken\n").is_ok() && tells_answers(rt, bench)
        }
        None => false,
    }
}

fn tells_answer(rt: &HostRuntime, seat: Seat, answer: &Answer) -> bool {
    let to: &[u8] = match seat {
        0 => b"to 0:",
        1 => b"to 1:",
        _ => b"to 2:",
    };
    if let Answer::Closed = answer {
        return rt.write_all(to).is_ok() && rt.write_all(b" closed\n").is_ok();
    }
    let mut head = HeadBuf::new();
    answer_head(answer, &mut head);
    rt.write_all(to).is_ok()
        && rt.write_all(b"\n").is_ok()
        && rt.write_all(head.as_slice()).is_ok()
        && rt.write_all(answer_body(answer)).is_ok()
        && rt.write_all(answer_tail(answer)).is_ok()
}

// Prints the words of a step. Of a put that is one word. It is one write, since tests/memory_faults
// counts the allocations before each write that begins so.
fn tells_words(rt: &HostRuntime, words: &str) -> bool {
    let words = if words.starts_with("put ") {
        "put"
    } else {
        words
    };
    println!(rt; "step {words}").is_ok()
}

// Takes the steps of the rows, up to the first that fails.
fn tells_rows(rt: &HostRuntime, bench: &mut Bench, rows: Rows) -> bool {
    for text in rows.split('|') {
        let is_told = match row_of(text) {
            Some(row) => tells_row(rt, bench, &row),
            None => false,
        };
        if !is_told {
            return rt.write_all(b"not begun\n").is_ok();
        }
    }
    true
}

// Takes the steps of the rows at a core of their own.
fn tells_steps(rt: &HostRuntime, alloc: Global, rows: Rows) -> bool {
    match Bench::new(alloc, config(SEATS, USUAL_BODY)) {
        Some(mut bench) => {
            let is_told = rt.write_all(b"steps: begun\n").is_ok()
                && tells_rows(rt, &mut bench, rows);
            bench.end();
            is_told
        }
        None => rt.write_all(b"steps: not begun\n").is_ok(),
    }
}

/// Takes the steps of several clients. Returns false if they could not be printed.
pub fn tells_all(rt: &HostRuntime, alloc: Global) -> bool {
    tells_steps(rt, alloc, ALL)
}

/// Takes the steps of a client that holds a job. Returns false if they could not be printed.
pub fn tells_held_job(rt: &HostRuntime, alloc: Global) -> bool {
    tells_steps(rt, alloc, HELD_JOB)
}
