//! Lines for standard error. A thread of its own writes them, so that no other thread waits for their reader. A program
//! with an event loop has no such thread: a process with one thread takes fewer locks. It writes them while standard error
//! takes them at once.

use arrayvec::ArrayString;
use bq_program::{LogForm, Severity};
use crossbeam_queue::ArrayQueue;
use libc::net;
use libc::types::pollfd;
use std::alloc::{AllocError, Global};
use std::fmt::{Display, Write};
use std::io::Eprint;
use std::sync::atomic::{AtomicU64, Ordering};
use std::sync::{Wait, WaitMethods};
use std::thread::Parker;
use std::time::Duration;

/// How many lines can wait to be written.
const ROOM: usize = 64;

/// The greatest length of a line, in bytes.
const LINE_LENGTH: usize = 256;

/// How many times the end of a program waits for lines to be written.
const LAST_WAITS: u32 = 10;

/// How long one of these waits takes at most, in milliseconds.
const LAST_WAIT: u64 = 100;

type Line = ArrayString<LINE_LENGTH>;

/// What writes the lines of a log.
#[derive(Clone, Copy, PartialEq, Eq)]
pub enum Writer {
    /// A thread that does nothing else.
    Thread,
    /// The thread that adds them, while standard error takes them at once.
    Itself,
}

/// Lines that one thread writes to standard error in their order, while any thread adds more. Adding a line does not
/// block: if there is no room the line is dropped, and the number of dropped lines is reported later.
#[derive(Drop)]
pub struct Log {
    lines: ArrayQueue<Line>,
    // The number of lines dropped since the last report of it.
    dropped: AtomicU64,
    // 1 if no more lines are added.
    is_closed: AtomicU64,
    // 1 if the log is closed and all its lines are written.
    is_written: AtomicU64,
    // The thread that writes sleeps on the first, the one that closes the log on the second.
    writer: Parker,
    closer: Parker,
    form: LogForm,
    by: Writer,
}

impl Log {
    /// Makes an empty log, and allocates all memory that it needs. What the log itself reports has this form.
    pub fn new(alloc: Global, form: LogForm, by: Writer) -> Result<Log, AllocError> {
        Ok(Log {
            lines: ArrayQueue::new(alloc, ROOM)?,
            dropped: AtomicU64::new(0),
            is_closed: AtomicU64::new(0),
            is_written: AtomicU64::new(0),
            writer: Parker::new(),
            closer: Parker::new(),
            form,
            by,
        })
    }

    /// Adds a line, or drops it if there is no room. An empty text is no line. It does not allocate.
    pub fn add<R: Wait, D: Display + Drop>(&self, rt: &R, text: D) {
        let line = line_of(text);
        if line.is_empty() {
            return;
        }
        if self.lines.push(rt, line).is_err() {
            self.dropped.fetch_add(1, Ordering::SeqCst);
        }
        self.writer.unpark();
    }

    /// Returns what writes the lines.
    pub fn by(&self) -> Writer {
        self.by
    }

    /// Writes the lines that wait while standard error takes them at once. Returns true if none is left.
    pub fn write_at_once<R: Wait + Eprint>(&self, rt: &R) -> bool {
        for _ in 0..=ROOM {
            if !takes_a_line() {
                return false;
            }
            let Some(line) = self.lines.pop(rt) else {
                self.tell_dropped(rt);
                return true;
            };
            // If standard error is closed, there is no reader.
            let _told = eprintln!(rt; "{}", line.as_str());
        }
        false
    }

    /// Writes lines as they come, until the log is closed and all of them are written.
    pub fn write<R: Wait + Eprint>(&self, rt: &R) {
        for _ in rt.forever() {
            // Read before the lines are written, so that all lines added before the log was closed are written.
            let is_closed = self.is_closed.load(Ordering::SeqCst) == 1;
            self.write_waiting(rt);
            if is_closed {
                self.is_written.store(1, Ordering::SeqCst);
                self.closer.unpark();
                return;
            }
            self.writer.park(rt);
        }
    }

    // Writes the lines that wait, and then how many were dropped.
    fn write_waiting<R: Wait + Eprint>(&self, rt: &R) {
        for _ in rt.forever() {
            let Some(line) = self.lines.pop(rt) else {
                break;
            };
            // If standard error is closed, there is no reader.
            let _told = eprintln!(rt; "{}", line.as_str());
        }
        self.tell_dropped(rt);
    }

    // Reports how many lines were dropped, if any were.
    fn tell_dropped<R: Eprint>(&self, rt: &R) {
        let dropped = self.dropped.swap(0, Ordering::SeqCst);
        if dropped > 0 {
            let first = self.form.prefix(Severity::Warning);
            let _told = eprintln!(rt;
                "{first}bqd: {dropped} lines were dropped: standard error was blocked"
            );
        }
    }

    /// Closes the log and waits until its lines are written, up to a second.
    pub fn close<R: Wait + Eprint>(&self, rt: &R) {
        self.is_closed.store(1, Ordering::SeqCst);
        self.writer.unpark();
        for _ in 0..LAST_WAITS {
            if self.is_done(rt) {
                return;
            }
            self.closer
                .park_timeout(rt, Duration::from_millis(LAST_WAIT));
        }
    }

    // Returns true if all lines of the closed log are written.
    fn is_done<R: Wait + Eprint>(&self, rt: &R) -> bool {
        match self.by {
            Writer::Thread => self.is_written.load(Ordering::SeqCst) == 1,
            Writer::Itself => self.write_at_once(rt),
        }
    }
}

// Returns true if a write of one line to standard error does not wait, or fails at once. A pipe that has room takes 4,096
// bytes, which is more than a line.
fn takes_a_line() -> bool {
    let mut asked = [pollfd {
        fd: libc::STDERR_FILENO,
        events: net::POLLOUT,
        revents: 0,
    }];
    net::poll(&mut asked, 0) > 0
}

// Returns the text of a line without its end, cut where it is too long.
fn line_of<D: Display + Drop>(value: D) -> Line {
    let mut line = Line::new();
    let _whole = write!(line, "{value}");
    line
}
