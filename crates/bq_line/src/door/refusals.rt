//! Reports connections that can't be accepted.
ghost use Rattle.std.specs.Prelude.{◌≡◌};

use std::io;
use std::io::Eprint;
use std::sync::atomic::{AtomicU32, Ordering};

/// Reports on standard error that connections can't be accepted: one line when a door meets a
/// fault, and no other line until each door that met one has accepted a connection again. The doors
/// of a listener share it.
#[derive(Drop)]
pub struct Refusals {
    // The text before the system's error message.
    text: &'static str,
    // How many doors met a fault and have accepted no connection since.
    met: AtomicU32,
}

impl Refusals {
    /// Returns a record without faults. Each line begins with `text`.
    pub fn new(text: &'static str) -> Refusals
        ensures { result.text ≡ text.entry }
    {
        Refusals {
            text,
            met: AtomicU32::new(0),
        }
    }

    /// Records that a door met its first fault since it accepted a connection.
    pub(super) fn meet<R: Eprint>(&self, rt: &R, e: &io::Error) {
        if self.met.fetch_add(1, Ordering::Relaxed) == 0 {
            // If standard error is closed, the line is lost.
            let _told = eprintln!(rt; "{}: {e}", self.text);
        }
    }

    /// Records that a door that met a fault accepted a connection again.
    pub(super) fn pass(&self) {
        self.met.fetch_sub(1, Ordering::Relaxed);
    }
}
