//! What the connections of a run have in common.

use crate::order::MOST;
use std::sync::atomic::{AtomicBool, AtomicU64, Ordering};

/// What the connections of a run have in common.
#[derive(Drop)]
pub struct Together {
    written: AtomicU64,
    opened: AtomicU64,
    slept: AtomicU64,
    has_given_up: AtomicBool,
    // How many bytes all clients have to receive before the one at each seat goes on, or `u64::MAX`.
    awaited: [AtomicU64; MOST],
}

impl Together {
    /// Returns the state of a new run.
    pub fn new() -> Together {
        Together {
            written: AtomicU64::new(0),
            opened: AtomicU64::new(0),
            slept: AtomicU64::new(0),
            has_given_up: AtomicBool::new(false),
            awaited: [
                AtomicU64::new(u64::MAX),
                AtomicU64::new(u64::MAX),
                AtomicU64::new(u64::MAX),
                AtomicU64::new(u64::MAX),
                AtomicU64::new(u64::MAX),
                AtomicU64::new(u64::MAX),
                AtomicU64::new(u64::MAX),
                AtomicU64::new(u64::MAX),
            ],
        }
    }

    /// Counts bytes that were written to one of the connections.
    pub fn note_written(&self, count: usize) {
        self.written.fetch_add(count as u64, Ordering::SeqCst);
    }

    /// Returns how many bytes were written to all connections.
    pub fn written(&self) -> u64 {
        self.written.load(Ordering::SeqCst)
    }

    /// Notes that the client at a seat waits until all clients have received this many bytes.
    pub fn note_awaited(&self, seat: usize, count: u64) {
        if let Some(awaited) = self.awaited.get(seat) {
            awaited.store(count, Ordering::SeqCst);
        }
    }

    /// Returns true if the client at a seat has waited for bytes of others, and these were received.
    pub fn is_ready(&self, seat: usize) -> bool {
        match self.awaited.get(seat) {
            Some(awaited) => awaited.load(Ordering::SeqCst) <= self.written(),
            None => false,
        }
    }

    /// Counts a call that opens a door or checks for its next connection.
    pub fn note_opened(&self) {
        self.opened.fetch_add(1, Ordering::SeqCst);
    }

    /// Returns how often doors were opened.
    pub fn opened(&self) -> u64 {
        self.opened.load(Ordering::SeqCst)
    }

    /// Counts a call by which the loop sleeps.
    pub fn note_slept(&self) {
        self.slept.fetch_add(1, Ordering::SeqCst);
    }

    /// Returns how often the loop slept.
    pub fn slept(&self) -> u64 {
        self.slept.load(Ordering::SeqCst)
    }

    /// Gives the run up: from now on each read and write of a connection fails.
    pub fn give_up(&self) {
        self.has_given_up.store(true, Ordering::SeqCst);
    }

    /// Returns true if the run was given up.
    pub fn has_given_up(&self) -> bool {
        self.has_given_up.load(Ordering::SeqCst)
    }
}
