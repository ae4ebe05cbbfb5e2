//! What clients wait for.

use std::sync::atomic::{AtomicBool, AtomicU64, Ordering};
use std::thread;

/// How many times a wait polls at most.
const LOOKS: u64 = 10_000_000;

/// What clients report to one another.
#[derive(Drop)]
pub struct Meeting {
    /// How many clients have begun their first read.
    pub begun: AtomicU64,
    /// How many clients have their answers.
    pub answered: AtomicU64,
    /// True if the control line did not see the answers of all clients.
    pub has_failed: AtomicBool,
}

impl Meeting {
    /// Returns a meeting in which no client was read and none has its answer.
    pub fn new() -> Meeting {
        Meeting {
            begun: AtomicU64::new(0),
            answered: AtomicU64::new(0),
            has_failed: AtomicBool::new(false),
        }
    }
}

/// Waits until a count reaches a number. Returns true if it does within a limited number of polls.
pub fn is_reached(count: &AtomicU64, wanted: u64) -> bool {
    for _ in 0..LOOKS {
        if count.load(Ordering::SeqCst) >= wanted {
            return true;
        }
        thread::yield_now();
    }
    false
}
