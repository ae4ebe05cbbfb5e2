//! Counts the doors of a listener that still take connections.

use std::sync::Wait;
use std::sync::atomic::{AtomicU32, Ordering};
use std::thread::Parker;

/// How many doors of a listener still take connections. It wakes up a thread when the last of them
/// has failed.
#[derive(Drop)]
pub struct OpenDoors {
    open: AtomicU32,
    // 1 if the last door has failed.
    have_failed: AtomicU32,
    watcher: Parker,
}

impl OpenDoors {
    /// Returns a count of this many doors, all of them open.
    pub fn new(doors: u32) -> OpenDoors {
        OpenDoors {
            open: AtomicU32::new(doors),
            have_failed: AtomicU32::new(0),
            watcher: Parker::new(),
        }
    }

    /// Records that a door has ended: all connections that may come have come.
    pub(super) fn close(&self) {
        self.open.fetch_sub(1, Ordering::SeqCst);
    }

    /// Records that a door has ended because of a fault of the listener.
    pub(super) fn fail(&self) {
        if self.open.fetch_sub(1, Ordering::SeqCst) == 1 {
            self.have_failed.store(1, Ordering::SeqCst);
            self.wake();
        }
    }

    /// Returns true if no door is open any more, and the last one ended because of a fault of the
    /// listener.
    pub fn have_failed(&self) -> bool {
        self.have_failed.load(Ordering::SeqCst) == 1
    }

    /// Waits until the last door fails, or until `wake` is called. Only one thread may wait.
    pub fn wait<R: Wait>(&self, rt: &R) {
        self.watcher.park(rt);
    }

    /// Wakes up the waiting thread.
    pub fn wake(&self) {
        self.watcher.unpark();
    }
}
