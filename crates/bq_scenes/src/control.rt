//! A control line that arrives in pieces.

use bq_job::NoMemory;
use std::alloc::Global;
use std::io;
use std::io::{BufReader, ErrorKind, Read};

/// The result of a read of a control line.
#[derive(Clone, Copy)]
pub enum Gives {
    /// These bytes.
    Text(&'static str),
    /// There are none yet.
    NothingYet,
    /// The read fails.
    Fault,
}

/// A reader that returns these pieces one after another, and then the end. Each text fits in the
/// caller's buffer.
#[derive(Drop)]
pub struct Pieces {
    next: &'static [Gives],
}

impl Read for Pieces {
    fn read(&mut self, buf: &mut [u8]) -> io::Result<usize> {
        let Some((first, behind)) = self.next.split_first() else {
            return Ok(0);
        };
        self.next = behind;
        match first {
            Gives::Text(text) => {
                let bytes = text.as_bytes();
                let count = bytes.len().min(buf.len());
                buf[..count].copy_from_slice(&bytes[..count]);
                Ok(count)
            }
            Gives::NothingYet => Err(io::Error::from(ErrorKind::WouldBlock)),
            Gives::Fault => Err(io::Error::from(ErrorKind::BrokenPipe)),
        }
    }
}

/// A control line, read in the same way as a server's.
pub type Control = BufReader<Pieces>;

/// Returns a control line whose reads give these results.
pub fn control(alloc: Global, gives: &'static [Gives]) -> Result<Control, NoMemory> {
    match BufReader::new(alloc, Pieces { next: gives }) {
        Ok(control) => Ok(control),
        Err(_) => Err(NoMemory),
    }
}
