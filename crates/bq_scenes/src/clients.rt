//! Clients in memory: what they do, as the parts of a connection.

use crate::notation::bytes_of;
use bq_job::{Moment, NoMemory};
use bq_line::clock::ScriptClock;
use bq_line::line::Part;
use std::alloc::Global;

// Appends the part of this text. Returns false if an allocation fails.
fn adds_part(alloc: Global, parts: &mut Vec<Part, Global>, text: &str) -> bool {
    let part = if text == "fails" {
        Part::Fault
    } else if let Some(count) = text.strip_prefix("after ") {
        Part::AfterWritten(count.parse::<usize>().unwrap_or(0))
    } else {
        match bytes_of(alloc, text) {
            Ok(bytes) => Part::Bytes(bytes),
            Err(_) => return false,
        }
    };
    parts.push(part).is_ok()
}

/// Returns the parts of a connection to a client that does this. The parts are separated by ` + `. A
/// part is bytes, as module `notation` has them; or `after` with the number of bytes that the client
/// waits to receive; or `fails`, where its connection fails.
pub fn parts_of(alloc: Global, does: &str) -> Result<Vec<Part, Global>, NoMemory> {
    let mut parts: Vec<Part> = Vec::new(alloc);
    for text in does.split(" + ") {
        if !adds_part(alloc, &mut parts, text) {
            drop(parts);
            return Err(NoMemory);
        }
    }
    Ok(parts)
}

/// Returns a clock that gives these readings, and fails at each word that is no number.
pub fn clock(alloc: Global, readings: &str) -> Result<ScriptClock, NoMemory> {
    let mut script: Vec<Option<Moment>> = Vec::new(alloc);
    for word in readings.split(' ') {
        if script.push(word.parse::<u64>().ok()).is_err() {
            drop(script);
            return Err(NoMemory);
        }
    }
    Ok(ScriptClock::new(script))
}
