//! The input of the control line, and the readers that it is over.
ghost use Rattle.std.specs.Prelude.{◌≡◌, ℕ, Bool, Option, List, [], false, true};
ghost use Rattle.bq_line.specs.ControlSeen.{ControlSeen, HasHeard, MayHear, after_heard};

use crate::line::{ByteRecord, StreamError};
use std::alloc::Allocator;
use std::io::{BufRead, BufReader, Read};

/// The result of one read of a control line.
#[derive(Clone, Copy)]
pub enum Heard {
    /// Its next byte.
    Byte(u8),
    /// There is none yet.
    NothingYet,
    /// The input has ended.
    End,
    /// The read failed.
    Fault,
}

/// The input of a control line. It records the bytes that its reads returned since it was made, and
/// whether a read met the end or failed.
pub trait ControlInput {
    /// What the input records.
    ghost seen: { Self → ControlSeen };

    /// The bytes that are left, if they are known.
    ghost remaining: { Self → Option (List ℕ) };

    /// Whether a read of it may fail.
    ghost may_fail: { Self → Bool };

    /// Reads one byte. It fails only if a read may fail.
    fn next(&mut self) -> Heard
        ensures seen { seen self.new ≡ after_heard result (seen self.old) }
        ensures left { HasHeard (remaining self.old) (remaining self.new) result }
        ensures fault { MayHear (may_fail self.old) result }
        ensures same { may_fail self.new ≡ may_fail self.old };

    /// Returns true if the next read does not wait, as far as the input knows.
    fn has_unread(&self) -> bool {
        true
    }
}

/// A reader of a control line, which states whether a read of it may fail at all.
pub trait ControlReader: BufRead {
    /// Whether a read of it may fail.
    ghost may_fail: { Self → Bool };

    /// Reads one byte. It fails only if a read may fail.
    fn next_byte(&mut self) -> Heard
        ensures left { HasHeard (Self.remaining self.old) (Self.remaining self.new) result }
        ensures fault { MayHear (may_fail self.old) result }
        ensures same { may_fail self.new ≡ may_fail self.old };

    /// Returns true if the next read does not wait, as far as the reader knows.
    fn has_unread(&self) -> bool {
        true
    }
}

// Reads from memory never fail.
impl ControlReader for &[u8] {
    ghost may_fail = { λ _. false };

    fn next_byte(&mut self) -> Heard {
        let all: &[u8] = *self;
        let Some((first, rest)) = all.split_first() else {
            return Heard::End;
        };
        *self = rest;
        Heard::Byte(*first)
    }
}

// A buffered reader gets its data from outside the process.
impl<R: Read, A: Allocator> ControlReader for BufReader<R, A> {
    ghost may_fail = { λ _. true };

    fn next_byte(&mut self) -> Heard {
        next_of(self)
    }

    fn has_unread(&self) -> bool {
        !self.buffer().is_empty()
    }
}

impl<I: ControlReader> ControlReader for &mut I {
    ghost may_fail = { λ reader. I.may_fail reader.now };

    fn next_byte(&mut self) -> Heard {
        ControlReader::next_byte(&mut **self)
    }

    fn has_unread(&self) -> bool {
        ControlReader::has_unread(&**self)
    }
}

/// Returns the next byte of any reader. Nothing is known about its errors, so use it for a reader
/// that may fail.
pub fn next_of<I: BufRead>(reader: &mut I) -> Heard
    ensures { HasHeard (I.remaining reader.old) (I.remaining reader.new) result }
{
    let available = match reader.fill_buf() {
        Ok(available) => available,
        Err(e) => {
            return if StreamError::of(&e).is_nothing_yet() {
                Heard::NothingYet
            } else {
                Heard::Fault
            };
        }
    };
    if available.is_empty() {
        return Heard::End;
    }
    let byte = available[0];
    reader.consume(1);
    Heard::Byte(byte)
}

/// A control line over any reader. Besides the reader it keeps the two flags, and a record of the
/// bytes that were read, which takes no memory.
#[derive(Drop)]
pub struct ControlLine<I> {
    reader: I,
    ended: bool,
    failed: bool,
    read: ByteRecord,
}

impl<I> ControlLine<I> {
    /// Returns a control line of which nothing was read.
    pub fn new(reader: I) -> ControlLine<I>
        ensures { result ≡ record { reader = reader; ended = false; failed = false; read = [] } }
    {
        ControlLine {
            reader,
            ended: false,
            failed: false,
            read: ByteRecord::new(),
        }
    }
}

impl<I: ControlReader> ControlInput for ControlLine<I> {
    ghost seen = { λ c. record { text = c.read; ended = c.ended; failed = c.failed } };

    ghost remaining = { λ c. I.remaining c.reader };

    ghost may_fail = { λ c. I.may_fail c.reader };

    fn next(&mut self) -> Heard {
        let heard = self.reader.next_byte();
        match heard {
            Heard::Byte(byte) => self.read.note(&[byte]),
            Heard::NothingYet => {}
            Heard::End => self.ended = true,
            Heard::Fault => self.failed = true,
        }
        heard
    }

    fn has_unread(&self) -> bool {
        self.reader.has_unread()
    }
}
