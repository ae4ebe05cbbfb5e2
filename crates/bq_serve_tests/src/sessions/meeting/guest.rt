//! A client that waits for others.

use super::awaited::{Meeting, is_reached};
use bq_line::line::{Duplex, StreamError};
use std::alloc::Global;
use std::sync::atomic::Ordering;

/// The number of clients.
pub const GUESTS: u16 = 4;

/// What the client whose job is the last one receives.
const LAST: &[u8] = b"INSERTED 4\r\n";

/// A client that puts a job. Its first read waits until those of all clients have begun, and until
/// a given number of others have their answers. If that does not happen, the read fails.
#[derive(Drop)]
pub struct Guest<'m> {
    meeting: &'m Meeting,
    others: u64,
    has_begun: bool,
    sends: &'static [u8],
    written: Vec<u8, Global>,
}

impl<'m> Guest<'m> {
    /// Returns a client whose first read waits for the answers of this many others.
    pub fn new(alloc: Global, meeting: &'m Meeting, others: u64) -> Guest<'m> {
        Guest {
            meeting,
            others,
            has_begun: false,
            sends: b"put 0 0 9 1\r\nx\r\n",
            written: Vec::new(alloc),
        }
    }

    /// Returns true if the client received an answer, the last one or another.
    pub fn is_answered(&self, is_last: bool) -> bool {
        let written = self.written.as_slice();
        written.starts_with(b"INSERTED ") && (written == LAST) == is_last
    }

    // Returns true if everything that it waits for happened.
    fn begins(&mut self) -> bool {
        if self.has_begun {
            return true;
        }
        self.has_begun = true;
        self.meeting.begun.fetch_add(1, Ordering::SeqCst);
        is_reached(&self.meeting.begun, u64::from(GUESTS))
            && is_reached(&self.meeting.answered, self.others)
    }
}

impl<'m> Duplex for Guest<'m> {
    ghost use Rattle.std.specs.Prelude.{true};

    ghost may_fail = { λ _. true };

    fn read(&mut self, buf: &mut [u8]) -> Result<usize, StreamError> {
        if !self.begins() {
            return Err(StreamError::Fault);
        }
        let count = self.sends.len().min(buf.len());
        buf[..count].copy_from_slice(&self.sends[..count]);
        self.sends = &self.sends[count..];
        Ok(count)
    }

    fn write(&mut self, buf: &[u8]) -> Result<usize, StreamError> {
        if self.written.extend_from_slice(buf).is_err() {
            return Err(StreamError::Fault);
        }
        if self.written.as_slice().ends_with(b"\r\n") {
            self.meeting.answered.fetch_add(1, Ordering::SeqCst);
        }
        Ok(buf.len())
    }

    fn flush(&mut self) -> Result<(), StreamError> {
        Ok(())
    }
}
