//! The notation of bytes in the texts of tests: `~` is CR LF and `^` is LF. ` + ` separates pieces; the piece `times 3 x` is
//! `xxx`.

use std::alloc::{AllocError, Global};

// Returns the count and the letter if the piece is a repeated letter.
fn times_of(piece: &str) -> Option<(u32, u8)> {
    let Some(times) = piece.strip_prefix("times ") else {
        return None;
    };
    let Some((count, letter)) = times.split_once(' ') else {
        return None;
    };
    match (count.parse::<u32>(), letter.as_bytes()) {
        (Ok(count), [letter, ..]) => Some((count, *letter)),
        _ => None,
    }
}

// Appends a letter this many times. Returns false if an allocation fails.
fn adds_times(bytes: &mut Vec<u8>, count: u32, letter: u8) -> bool {
    for _ in 0..count {
        if bytes.push(letter).is_err() {
            return false;
        }
    }
    true
}

// Appends the bytes of a text without pieces. Returns false if an allocation fails.
fn adds_plain(bytes: &mut Vec<u8>, text: &str) -> bool {
    for byte in text.as_bytes() {
        let is_added = match *byte {
            b'~' => bytes.extend_from_slice(b"\r\n").is_ok(),
            b'^' => bytes.push(b'\n').is_ok(),
            other => bytes.push(other).is_ok(),
        };
        if !is_added {
            return false;
        }
    }
    true
}

/// Returns the bytes of a text.
pub fn bytes_of(alloc: Global, text: &str) -> Result<Vec<u8>, AllocError> {
    let mut bytes = Vec::new(alloc);
    for piece in text.split(" + ") {
        let is_added = match times_of(piece) {
            Some((count, letter)) => adds_times(&mut bytes, count, letter),
            None => adds_plain(&mut bytes, piece),
        };
        if !is_added {
            drop(bytes);
            return Err(AllocError);
        }
    }
    Ok(bytes)
}

// Returns true if this byte is at this place, or the place is past the end.
fn is_at(bytes: &[u8], at: usize, byte: u8) -> bool {
    match bytes.get(at) {
        Some(found) => *found == byte,
        None => true,
    }
}

/// Returns how many bytes a text without pieces has.
pub fn len_of(text: &str) -> usize {
    let mut len: usize = 0;
    for byte in text.as_bytes() {
        len = len.saturating_add(if *byte == b'~' { 2 } else { 1 });
    }
    len
}

/// Returns true if these are the bytes of a text without pieces, but at most this many. It allocates
/// nothing.
pub fn spells(text: &str, bytes: &[u8], most: usize) -> bool {
    let mut at: usize = 0;
    for byte in text.as_bytes() {
        let first = if *byte == b'~' { b'\r' } else { *byte };
        let is_end_right = *byte != b'~' || is_at(bytes, at.saturating_add(1), b'\n');
        if !is_at(bytes, at, first) || !is_end_right {
            return false;
        }
        at = at.saturating_add(if *byte == b'~' { 2 } else { 1 });
    }
    bytes.len() == at.min(most)
}
