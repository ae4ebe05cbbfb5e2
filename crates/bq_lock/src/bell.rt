//! Bells, which wake threads.

use std::sync::Wait;
use std::sync::atomic::{AtomicU64, Ordering};
use std::thread;
use std::time::Duration;

/// How many times a thread polls its bell before it sleeps.
const LOOKS: u32 = 50;

const QUIET: u64 = 0;

const RUNG: u64 = 1;

/// The thread sleeps, or is about to, and has to be woken.
const ASLEEP: u64 = 2;

/// A bell wakes one thread, which waits for it. Any thread can ring it; this makes no system call
/// if the waiting thread is awake.
#[derive(Drop)]
pub struct Bell {
    state: AtomicU64,
}

impl Bell {
    /// Returns a bell that was not rung.
    pub fn new() -> Bell {
        Bell {
            state: AtomicU64::new(QUIET),
        }
    }

    /// Ends the wait of the thread that waits, or if none does, its next wait.
    pub fn ring(&self) {
        if self.state.swap(RUNG, Ordering::SeqCst) == ASLEEP {
            self.state.wake_one();
        }
    }

    /// Waits until the bell is rung, or until the time has passed, and returns whether it was rung.
    /// It may return early for no reason.
    pub fn wait<R: Wait>(&self, rt: &R, most: Duration) -> bool {
        for _ in 0..LOOKS {
            if self.state.load(Ordering::SeqCst) == RUNG {
                break;
            }
            thread::yield_now();
        }
        if self.falls_asleep() {
            self.state.park_timeout(rt, ASLEEP as u32, most);
        }
        self.state.swap(QUIET, Ordering::SeqCst) == RUNG
    }

    // Marks the thread as asleep, unless the bell was rung meanwhile, and returns whether it did.
    fn falls_asleep(&self) -> bool {
        self.state
            .compare_exchange(QUIET, ASLEEP, Ordering::SeqCst, Ordering::SeqCst)
            .is_ok()
    }
}
