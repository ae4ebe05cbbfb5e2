//! A stream to a client in memory that never fails.

use bq_line::line::{Duplex, StreamError};
use std::alloc::Global;

/// A stream to a client that sends these bytes and then no more. None of its calls fails: if it has
/// no memory for more bytes, it has no room for them yet.
#[derive(Drop)]
pub struct Sure {
    sends: &'static [u8],
    received: Vec<u8, Global>,
}

impl Sure {
    /// Returns a client that has received nothing.
    pub fn new(alloc: Global, sends: &'static [u8]) -> Sure {
        Sure {
            sends,
            received: Vec::new(alloc),
        }
    }

    /// Returns what the client has received.
    pub fn received(&self) -> &[u8] {
        self.received.as_slice()
    }
}

impl Duplex for Sure {
    ghost use Rattle.std.specs.Prelude.{false};

    ghost may_fail = { λ stream. false };

    fn read(&mut self, buf: &mut [u8]) -> Result<usize, StreamError> {
        let count = self.sends.len().min(buf.len());
        buf[..count].copy_from_slice(&self.sends[..count]);
        self.sends = &self.sends[count..];
        Ok(count)
    }

    fn write(&mut self, buf: &[u8]) -> Result<usize, StreamError> {
        match self.received.extend_from_slice(buf) {
            Ok(()) => Ok(buf.len()),
            Err(_) => Err(StreamError::NotYet),
        }
    }

    fn flush(&mut self) -> Result<(), StreamError> {
        Ok(())
    }
}
