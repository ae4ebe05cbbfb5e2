//! How the tests cut texts into pieces and read them.

use crate::noted::are_noted;
use bq_wire::requests_of;
use std::alloc::Global;

/// How often the byte after a `@` is in a text.
const MANY: usize = 211;

// Appends a byte this many times. Returns false if an allocation fails.
fn push_times(bytes: &mut Vec<u8>, byte: u8, count: usize) -> bool {
    for _ in 0..count {
        if bytes.push(byte).is_err() {
            return false;
        }
    }
    true
}

/// Appends the bytes of a text: `~` is CR LF, `^` is CR, `%` is LF, and `@` is 211 times the byte
/// after it. Returns false if an allocation fails.
pub fn push_text(bytes: &mut Vec<u8>, text: &str) -> bool {
    let mut count = 1;
    for byte in text.as_bytes() {
        let first = match *byte {
            b'~' | b'^' => b'\r',
            b'%' => b'\n',
            other => other,
        };
        if *byte == b'@' {
            count = MANY;
        } else {
            if !push_times(bytes, first, count) {
                return false;
            }
            count = 1;
        }
        if *byte == b'~' && !push_times(bytes, b'\n', 1) {
            return false;
        }
    }
    true
}

// Returns true if these are the requests of a text in pieces, in short form.
fn has_requests(alloc: Global, limit: u32, pieces: &[Vec<u8>], wanted: &[u8]) -> bool {
    match requests_of(alloc, limit.max(1).min(1_048_576), pieces) {
        Ok(requests) => {
            let are_right = are_noted(&requests, wanted);
            drop(requests);
            are_right
        }
        Err(_) => false,
    }
}

// Appends a piece. Returns false if an allocation fails.
fn push_piece(alloc: Global, pieces: &mut Vec<Vec<u8>>, piece: &[u8]) -> bool {
    match Vec::from_slice(alloc, piece) {
        Ok(bytes) => pieces.push(bytes).is_ok(),
        Err(_) => false,
    }
}

// Appends a text in pieces: one of `first` bytes, and further ones of `each` bytes. Returns false
// if an allocation fails.
fn cut(alloc: Global, pieces: &mut Vec<Vec<u8>>, text: &[u8], first: usize, each: usize) -> bool {
    let at = first.min(text.len());
    if !push_piece(alloc, pieces, &text[..at]) {
        return false;
    }
    let mut rest = &text[at..];
    for _ in 0..text.len() {
        if rest.is_empty() {
            return true;
        }
        let at = each.min(rest.len());
        if !push_piece(alloc, pieces, &rest[..at]) {
            return false;
        }
        rest = &rest[at..];
    }
    true
}

/// Returns true if a text that is cut in this way has these requests.
pub fn is_read_in(
    alloc: Global,
    limit: u32,
    text: &[u8],
    first: usize,
    each: usize,
    wanted: &[u8],
) -> bool {
    let mut pieces = Vec::new(alloc);
    let is_right = cut(alloc, &mut pieces, text, first, each)
        && has_requests(alloc, limit, &pieces, wanted);
    drop(pieces);
    is_right
}
