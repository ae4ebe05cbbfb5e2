//! How the thread that started a server learns that it has ended.
ghost use Rattle.std.specs.Prelude.{◌≡◌};

use bq_line::OpenDoors;
use bq_program::LogForm;
use std::sync::atomic::{AtomicU64, Ordering};
use std::sync::{Wait, WaitMethods};

/// The end of a server: its run has ended, or its last door has failed. In the second case the run may still wait for the
/// end of the control line, which may never come.
#[derive(Drop)]
pub struct Ending {
    doors: OpenDoors,
    // 1 if the run has ended.
    is_over: AtomicU64,
    // 1 if a thread has begun to report how the server ended.
    is_reported: AtomicU64,
    // 1 if reports wait because standard error does not take them.
    has_reports: AtomicU64,
    form: LogForm,
}

impl Ending {
    /// Makes the end of a server with this number of doors, whose reports have this form.
    pub fn new(doors: u16, form: LogForm) -> Ending
        ensures { result.form ≡ form }
    {
        Ending {
            doors: OpenDoors::new(u32::from(doors)),
            is_over: AtomicU64::new(0),
            is_reported: AtomicU64::new(0),
            has_reports: AtomicU64::new(0),
            form,
        }
    }

    /// Returns how the lines of reports begin.
    pub fn form(&self) -> LogForm
        ensures { result ≡ self.now.form }
    {
        self.form
    }

    /// Notes whether reports wait because standard error does not take them.
    pub fn note_reports(&self, wait: bool) {
        self.has_reports.store(u64::from(wait), Ordering::Relaxed);
    }

    /// Returns true if reports wait. An empty text that is written to standard error lets the log try again.
    pub fn has_reports(&self) -> bool {
        self.has_reports.load(Ordering::Relaxed) == 1
    }

    /// Returns the doors that are still open.
    pub fn doors(&self) -> &OpenDoors {
        &self.doors
    }

    /// Notes that the run has ended, and wakes the thread that waits.
    pub fn note_over(&self) {
        self.is_over.store(1, Ordering::SeqCst);
        self.doors.wake();
    }

    /// Waits until the run has ended or the last door has failed. Only one thread may wait.
    pub fn wait<R: Wait>(&self, rt: &R) {
        for _ in rt.forever() {
            if self.is_over.load(Ordering::SeqCst) == 1 || self.doors.have_failed() {
                return;
            }
            self.doors.wait(rt);
        }
    }

    /// Returns true if the caller is the first to report how the server ended, and so has to do it.
    pub fn is_first_to_report(&self) -> bool {
        self.is_reported.swap(1, Ordering::SeqCst) == 0
    }
}
