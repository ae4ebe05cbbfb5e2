//! The start of threads that begin together or not at all.

use std::sync::{Condvar, Mutex, Wait};

/// The signal that the started threads wait for.
#[derive(Clone, Copy)]
enum Signal {
    /// It is not known yet whether all threads could be started.
    Pending,
    /// All threads were started.
    Begin,
    /// A thread could not be started, so none begins.
    End,
}

/// Where threads wait until it is known whether all of them were started.
#[derive(Drop)]
pub struct Start {
    signal: Mutex<Signal>,
    changed: Condvar,
}

impl Start {
    /// Returns a start whose signal was not given yet.
    pub fn new() -> Start {
        Start {
            signal: Mutex::new(Signal::Pending),
            changed: Condvar::new(),
        }
    }

    /// Signals to the threads whether all of them were started.
    pub fn tell<R: Wait>(&self, rt: &R, all_started: bool) {
        *self.signal.lock(rt) = if all_started {
            Signal::Begin
        } else {
            Signal::End
        };
        self.changed.notify_all();
    }

    /// Waits for the signal, and returns true if all were started.
    pub fn wait<R: Wait>(&self, rt: &R) -> bool {
        let signal = self.changed.wait_while(rt, self.signal.lock(rt), |signal| {
            matches!(*signal, Signal::Pending)
        });
        matches!(*signal, Signal::Begin)
    }
}
