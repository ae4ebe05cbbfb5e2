//! Scripts of steps and their answers.
use crate::crowds::{Crowd, comes};
use bq_core::Config;
use bq_job::{Answer, Seat, Step};
use bq_scenes::bench::{Bench, Row, row_of, seated};
use bq_wire::{HeadBuf, answer_body, answer_head, answer_tail};
use std::alloc::Global;

/// Steps and their answers, one step per row: the moment, the seat, what happens there, and after
/// each `|` an answer with the seat that it goes to. The step must give exactly these answers. `~`
/// is CR LF, and `/` is LF. A row with `due` is no step, and states the next due moment. A row that
/// begins with `#` is a comment.
pub(crate) type Script = &'static str;

// Returns true if a text of a script, and the end of a line after it, has this byte at this place.
fn has_byte(text: &[u8], at: usize, byte: u8) -> bool {
    match text.get(at) {
        Some(found) => *found == byte,
        None => at == text.len() && byte == b'~',
    }
}

// Returns the place after these bytes, if a text of a script has them at this place.
fn place_after(text: &[u8], at: usize, bytes: &[u8]) -> Option<usize> {
    let (mut at, mut is_end) = (at, false);
    for byte in bytes {
        let wanted = match *byte {
            b'\n' if is_end => b'~',
            b'\n' => b'/',
            other => other,
        };
        is_end = *byte == b'\r';
        if !is_end {
            if !has_byte(text, at, wanted) {
                return None;
            }
            at = at.saturating_add(1);
        }
    }
    Some(at)
}

// Returns true if the answer has this text of a script, without the end of its last line.
fn has_text(answer: &Answer, text: &[u8]) -> bool {
    if let Answer::Closed = answer {
        return text == b"closed".as_slice();
    }
    let mut head = HeadBuf::new();
    answer_head(answer, &mut head);
    let after_head = place_after(text, 0, head.as_slice()).unwrap_or(usize::MAX);
    let after_body = place_after(text, after_head, answer_body(answer)).unwrap_or(usize::MAX);
    place_after(text, after_body, answer_tail(answer)) == Some(text.len().saturating_add(1))
}

// Returns true if the oldest remaining answer goes to the seat that the text names, and has the
// text that follows.
fn is_next(bench: &mut Bench, wanted: &'static str) -> bool {
    let Some((seat, text)) = seated(wanted) else {
        return false;
    };
    match bench.answer() {
        Some((to, answer)) => {
            let is_right = to == seat && has_text(&answer, text.as_bytes());
            drop(answer);
            is_right
        }
        None => false,
    }
}

// The answers of the last step are exactly those wanted, in order, and nothing failed for lack of
// memory.
fn is_answered(bench: &mut Bench, answers: &'static str) -> bool {
    for wanted in answers.split('|') {
        let wanted = wanted.trim();
        if !wanted.is_empty() && !is_next(bench, wanted) {
            return false;
        }
    }
    bench.is_silent() && bench.was_ample()
}

// Takes the step of the row, and returns true if it is answered as the row says.
fn is_right(bench: &mut Bench, row: &Row, answers: &'static str) -> bool {
    match row.words.strip_prefix("due ") {
        Some(due) => bench.next_due() == due.parse::<u64>().ok(),
        None => bench.take(row.at, row.seat, row.words) && is_answered(bench, answers),
    }
}

// Does the same for the text of a row.
fn is_kept(bench: &mut Bench, text: &'static str) -> bool {
    let (step, answers) = text.split_once('|').unwrap_or((text, ""));
    match row_of(step) {
        Some(row) => is_right(bench, &row, answers),
        None => text.starts_with('#'),
    }
}

// Takes the steps of the script. Returns how many comparisons these made, or the first row that is
// not answered as it says.
fn take_all(bench: &mut Bench, script: Script) -> Result<u64, &'static str> {
    let before = bench.comparisons();
    for text in script.split('\n') {
        if !is_kept(bench, text.trim()) {
            return Err(text);
        }
    }
    Ok(bench.comparisons().saturating_sub(before))
}

// Connects the first three seats, lets a crowd come, and takes the steps of the script.
fn play_at(
    alloc: Global,
    bench: &mut Bench,
    crowd: Crowd,
    script: Script,
) -> Result<u64, &'static str> {
    for seat in 0..3 {
        bench.step(0, seat, Step::Connect);
    }
    if comes(alloc, bench, crowd) {
        take_all(bench, script)
    } else {
        Err("the crowd")
    }
}

/// Plays a script at a new core with this configuration, to which a crowd has come. Returns how many
/// comparisons its steps made, or the first row that is not answered as it says.
pub(crate) fn play_one(
    alloc: Global,
    config: Config,
    crowd: Crowd,
    script: Script,
) -> Result<u64, &'static str> {
    match Bench::new(alloc, config) {
        Some(mut bench) => {
            let played = play_at(alloc, &mut bench, crowd, script);
            bench.end();
            played
        }
        None => Err("no memory"),
    }
}

/// Plays each script, at a core of its own. An empty line separates one and the next. Returns the
/// first row that is not answered as it says.
pub(crate) fn wrong_row(alloc: Global, config: Config, scripts: Script) -> Option<&'static str> {
    for script in scripts.split("\n\n") {
        if let Err(row) = play_one(alloc, config, Crowd::Nobody, script) {
            return Some(row);
        }
    }
    None
}
