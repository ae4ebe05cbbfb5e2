//! A control line that waits for all clients.

use super::awaited::{Meeting, is_reached};
use super::guest::GUESTS;
use std::io;
use std::io::{ErrorKind, Read};
use std::sync::atomic::Ordering;

/// A control line without bytes. Its read waits until all clients have their answers, and fails
/// otherwise.
#[derive(Drop)]
pub struct GuestControl<'m> {
    meeting: &'m Meeting,
}

impl<'m> GuestControl<'m> {
    /// Returns a control line whose read waits for this meeting.
    pub fn new(meeting: &'m Meeting) -> GuestControl<'m> {
        GuestControl { meeting }
    }
}

impl<'m> Read for GuestControl<'m> {
    fn read(&mut self, _buf: &mut [u8]) -> io::Result<usize> {
        if is_reached(&self.meeting.answered, u64::from(GUESTS)) {
            return Ok(0);
        }
        self.meeting.has_failed.store(true, Ordering::SeqCst);
        Err(io::Error::from(ErrorKind::BrokenPipe))
    }
}
