//! Reports that all doors are taken.
ghost use Rattle.std.specs.Prelude.{◌≡◌, None, Some};

use std::io::Eprint;
use std::rt::Clock;
use std::sync::atomic::{AtomicU32, AtomicU64, Ordering};
use std::time::Instant;

/// How long a door must have been free before it is reported again that all are taken, in
/// milliseconds.
const MINUTE: u64 = 60_000;

/// The value of `since` while no door is free.
const NEVER: u64 = u64::MAX;

/// Reports on standard error that all doors are taken: one line when a connection takes the last
/// free door, and no other line until a door was free for a minute. The doors of a listener share
/// it. It can also let them close the connections that come meanwhile, and then reports their
/// number: at the first one, and later at most once a minute.
#[derive(Drop)]
pub struct FreeDoors {
    // The line that is written.
    text: &'static str,
    // `None` if the clock couldn't be read.
    start: Option<Instant>,
    // How many doors are free.
    free: AtomicU32,
    // Since when a door has been free.
    since: AtomicU64,
    // The text before the number of connections that were closed. `None` if they wait.
    closing: Option<&'static str>,
    // How many were closed and not reported yet, and when the last report was.
    closed: AtomicU64,
    reported: AtomicU64,
}

impl FreeDoors {
    /// Returns a record of this many doors, all of them free. `text` is the line that is written.
    pub fn new<R: Clock>(rt: &R, doors: u32, text: &'static str) -> FreeDoors
        ensures text { result.text ≡ text.entry }
        ensures waits { result.closing ≡ None }
    {
        FreeDoors {
            text,
            start: Instant::now(rt).ok(),
            free: AtomicU32::new(doors),
            since: AtomicU64::new(0),
            closing: None,
            closed: AtomicU64::new(0),
            reported: AtomicU64::new(0),
        }
    }

    /// Returns the same record, of doors that close the connections which come while all are taken.
    /// `text` comes before their number in a report.
    pub fn closing(mut self, text: &'static str) -> FreeDoors
        ensures text { result.text ≡ self.text }
        ensures closing { result.closing ≡ Some text.entry }
    {
        self.closing = Some(text);
        self
    }

    /// Returns true if all doors are taken, and further connections are to be closed.
    pub(super) fn closes_more(&self) -> bool {
        self.closing.is_some() && self.free.load(Ordering::Relaxed) == 0
    }

    /// Records that a connection was closed because all doors are taken.
    pub(super) fn note_closed<R: Clock + Eprint>(&self, rt: &R) {
        self.closed.fetch_add(1, Ordering::Relaxed);
        let now = self.moment(rt);
        if now.saturating_sub(self.reported.load(Ordering::Relaxed)) >= MINUTE {
            self.reported.store(now, Ordering::Relaxed);
            let closed = self.closed.swap(0, Ordering::Relaxed);
            if let Some(text) = self.closing {
                // If standard error is closed, the line is lost.
                let _told = eprintln!(rt; "{text}: {closed}");
            }
        }
    }

    /// Records that a connection took a free door.
    pub(super) fn take<R: Clock + Eprint>(&self, rt: &R) {
        if self.free.fetch_sub(1, Ordering::Relaxed) != 1 {
            return;
        }
        let since = self.since.swap(NEVER, Ordering::Relaxed);
        if self.moment(rt).saturating_sub(since) >= MINUTE {
            // If standard error is closed, the line is lost.
            let _told = eprintln!(rt; "{}", self.text);
        }
    }

    /// Records that a door is free again.
    pub(super) fn give_back<R: Clock>(&self, rt: &R) {
        if self.free.fetch_add(1, Ordering::Relaxed) == 0 {
            self.since.store(self.moment(rt), Ordering::Relaxed);
        }
    }

    /// Records that a free door has ended.
    pub(super) fn leave(&self) {
        if self.free.fetch_sub(1, Ordering::Relaxed) == 1 {
            self.since.store(NEVER, Ordering::Relaxed);
        }
    }

    // Returns the milliseconds since one minute before the start, so that the doors count as free
    // for a minute when the server starts. If the clock can't be read, returns that of the start.
    fn moment<R: Clock>(&self, rt: &R) -> u64 {
        MINUTE.saturating_add(self.passed(rt).unwrap_or(0))
    }

    // Returns the milliseconds since the start.
    fn passed<R: Clock>(&self, rt: &R) -> Option<u64> {
        let passed = self.start?.elapsed(rt).ok()?;
        u64::try_from(passed.as_millis()).ok()
    }
}
