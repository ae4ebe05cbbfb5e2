//! What a reader keeps from one piece to the next.

use crate::noted::words_of;
use bq_wire::RequestReader;
use std::alloc::Global;

// Returns true if the reader takes this many bytes of the piece, and returns a request with these
// words, or nothing.
fn takes(
    alloc: Global,
    reader: &mut RequestReader,
    piece: &[u8],
    count: usize,
    words: &str,
) -> bool {
    let (taken, request) = reader.feed(alloc, piece);
    let returned = match &request {
        Some(request) => words_of(request),
        None => "",
    };
    drop(request);
    taken == count && returned == words
}

// A quit holds until the reader is restarted.
fn is_over_until_restarted(alloc: Global, reader: &mut RequestReader) -> bool {
    let is_over = takes(alloc, reader, b"quit\r\nres", 6, "quit")
        && takes(alloc, reader, b"reserve\r\n", 0, "");
    reader.restart();
    is_over && takes(alloc, reader, b"reserve\r\n", 9, "reserve")
}

// A restart discards the beginning of a command line.
fn is_forgotten(alloc: Global, reader: &mut RequestReader) -> bool {
    let is_begun = takes(alloc, reader, b"res", 3, "");
    reader.restart();
    is_begun && takes(alloc, reader, b"erve\r\n", 6, "101")
}

fn restarts_well(alloc: Global) -> bool {
    match RequestReader::new(alloc, 10) {
        Ok(mut reader) => {
            is_over_until_restarted(alloc, &mut reader) && is_forgotten(alloc, &mut reader)
        }
        Err(_) => false,
    }
}

#[test]
fn restarts(rt: HostRuntime) {
    assert!(rt; restarts_well(rt.alloc()));
}
