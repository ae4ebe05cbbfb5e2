//! The journal of a run around a lock. A separate core takes its entries one by one, and each
//! connection has to have received what that core answers.

use crate::cases::Case;
use crate::doors::CountedDoor;
use bq_job::{Entry, LineEnd, Seat, Step};
use bq_scenes::bench::{Bench, push_answer};
use bq_serve::Locked;
use std::alloc::Global;

/// The byte that follows each connection in the joined text of a seat. No answer contains it.
const LINE_OVER: u8 = 0;

/// More answers than a step has.
const MOST: usize = 300;

// Takes the step of an entry. Returns true if its command was left out exactly if the entry says
// so.
fn takes(bench: &mut Bench, entry: &Entry) -> bool {
    match entry.step.share() {
        Ok(step) => {
            bench.step(entry.moment, entry.seat, step);
            bench.left_out() == entry.left_out
        }
        Err(_) => false,
    }
}

// Appends the answers of the last step to the seat. Returns false if an allocation fails.
fn adds_answers(bench: &mut Bench, seat: Seat, text: &mut Vec<u8, Global>) -> bool {
    for _ in 0..MOST {
        match bench.answer() {
            Some((to, answer)) => {
                let is_added = to != seat || push_answer(text, &answer, &[LINE_OVER]);
                drop(answer);
                if !is_added {
                    return false;
                }
            }
            None => return true,
        }
    }
    false
}

// Takes these entries and appends the answers to the seat.
fn replays(bench: &mut Bench, entries: &[Entry], seat: Seat, text: &mut Vec<u8, Global>) -> bool {
    for entry in entries {
        if !takes(bench, entry) || !adds_answers(bench, seat, text) {
            return false;
        }
    }
    true
}

// Appends what the connections of a door received, each followed by the mark of its end. Returns
// false if an allocation fails.
fn adds_written(text: &mut Vec<u8, Global>, door: &CountedDoor) -> bool {
    for over in door.door.over() {
        if text.extend_from_slice(over.0.written()).is_err() || text.push(LINE_OVER).is_err() {
            return false;
        }
    }
    true
}

// Returns true if one of the door's connections ended in this way.
fn has_ended_by(door: &CountedDoor, end: LineEnd) -> bool {
    for over in door.door.over() {
        if over.1 == end {
            return true;
        }
    }
    false
}

// Returns true if the text lacks only the answer with the last reserved job. The mark of the
// connection's end follows.
fn lacks_last_job(text: &[u8], wanted: &[u8]) -> bool {
    let Some((_, before)) = text.split_last() else {
        return false;
    };
    match wanted.strip_prefix(before) {
        Some(missing) => missing.starts_with(b"RESERVED "),
        None => false,
    }
}

// Returns true if the text is what the door should have received. A connection that had no room for
// all of its answers is cut off. If a connection fails while its client waits for a job, it may
// have the answer with the job or not: the fault may be noticed before or after the answer.
fn is_due(door: &CountedDoor, text: &[u8], wanted: &[u8]) -> bool {
    text == wanted
        || has_ended_by(door, LineEnd::WriteFault)
        || (has_ended_by(door, LineEnd::ReadFault) && lacks_last_job(text, wanted))
}

// Returns how often a seat disconnected, according to these entries.
fn times_gone(entries: &[Entry], seat: Seat) -> u64 {
    let mut times: u64 = 0;
    for entry in entries {
        if entry.seat == seat && matches!(entry.step, Step::Gone) {
            times = times.saturating_add(1);
        }
    }
    times
}

// Returns true if a door received what a separate core answers its seat.
fn has_received(
    alloc: Global,
    bench: &mut Bench,
    entries: &[Entry],
    seat: Seat,
    door: &CountedDoor,
) -> bool {
    let (mut text, mut wanted) = (Vec::new(alloc), Vec::new(alloc));
    let is_right = replays(bench, entries, seat, &mut wanted)
        && adds_written(&mut text, door)
        && is_due(door, text.as_slice(), wanted.as_slice());
    drop(text);
    drop(wanted);
    is_right
}

// Returns true if a seat disconnected once, and its door received what a new core answers.
fn is_replayed(
    alloc: Global,
    case: &Case,
    entries: &[Entry],
    seat: Seat,
    door: &CountedDoor,
) -> bool {
    match Bench::new(alloc, case.config) {
        Some(mut bench) => {
            let is_right = times_gone(entries, seat) == 1
                && has_received(alloc, &mut bench, entries, seat, door);
            bench.end();
            is_right
        }
        None => false,
    }
}

/// Returns true if the journal is complete, each seat and the control line disconnected once, and
/// each door received what a separate core answers, as far as there was room; or if the journal is
/// not replayed.
pub fn is_whole(alloc: Global, case: &Case, locked: &Locked, doors: &[CountedDoor]) -> bool {
    if !case.is_replayed {
        return true;
    }
    let entries = locked.journal();
    let mut is_right = locked.whole() && times_gone(entries, case.config.seats) == 1;
    let mut seat: Seat = 0;
    for door in doors {
        is_right = is_replayed(alloc, case, entries, seat, door) && is_right;
        seat = seat.saturating_add(1);
    }
    is_right
}
