//! A stream to a client in memory that never blocks.
ghost use Rattle.std.specs.Prelude.{◌≤◌, IfOk};
ghost use Rattle.std.specs.Io.{ReadsAtMost};

use crate::flow::Flow;
use crate::parts::{Part, part_of};
use crate::setting::{Setting, at_first};
use crate::together::Together;
use bq_job::LineEnd;
use bq_line::line::{Duplex, StreamError};
use bq_scenes::notation::bytes_of;
use bq_scenes::table::Visit;
use std::alloc::Global;

/// No client does more parts than this.
const PARTS: u32 = 100;

/// A stream to a client, which does its parts one after another. Its input ends after them.
#[derive(Drop)]
pub struct Script<'t> {
    alloc: Global,
    visit: Visit,
    part: Part,
    // The text of the parts after it.
    later: Option<&'static str>,
    // The bytes of the last part that has bytes, and how many of them were read.
    bytes: Vec<u8, Global>,
    offset: usize,
    written: Vec<u8, Global>,
    gives: Flow,
    takes: Flow,
    // How many bytes it still sends and receives.
    sends: usize,
    room: usize,
    // It receives no bytes until all clients together have received this many.
    stops: u64,
    all: &'t Together,
}

impl<'t> Script<'t> {
    /// Returns a client of which nothing was read.
    pub fn new(alloc: Global, visit: &Visit, setting: &Setting, all: &'t Together) -> Script<'t> {
        let mut client = Script {
            alloc,
            visit: *visit,
            part: Part::End,
            later: Some(visit.does),
            bytes: Vec::new(alloc),
            offset: 0,
            written: Vec::new(alloc),
            gives: Flow::new(setting.gives),
            takes: Flow::new(setting.takes),
            sends: at_first(visit.door, setting.sends),
            room: visit.room.min(at_first(visit.door, setting.room)),
            stops: 0,
            all,
        };
        client.begin_next();
        client
    }

    /// Returns true if it has received what it has to, but at most this many bytes, and its
    /// connection has ended as it has to.
    pub fn is_left_so(&self, most: usize, end: LineEnd) -> bool {
        match bytes_of(self.alloc, self.visit.receives) {
            Ok(bytes) => {
                end == self.visit.end && self.written.as_slice() == &bytes[..most.min(bytes.len())]
            }
            Err(_) => false,
        }
    }

    // Begins the part with this text.
    fn begin(&mut self, text: &'static str) {
        self.part = part_of(text);
        self.offset = 0;
        if let Part::Bytes = self.part {
            match bytes_of(self.alloc, text) {
                Ok(bytes) => self.bytes = bytes,
                Err(_) => self.all.give_up(),
            }
        }
    }

    // Begins the next part.
    fn begin_next(&mut self) {
        let Some(later) = self.later else {
            self.part = Part::End;
            return;
        };
        match later.split_once(" + ") {
            Some((text, later)) => {
                self.later = Some(later);
                self.begin(text);
            }
            None => {
                self.later = None;
                self.begin(later);
            }
        }
    }

    // Returns true if its part is done.
    fn is_over(&self) -> bool {
        match self.part {
            Part::Bytes => self.bytes.len() <= self.offset,
            Part::After(count) => count <= self.written.len() as u64,
            Part::All(count) => count <= self.all.written(),
            Part::Stops(_) => true,
            Part::Fails | Part::End => false,
        }
    }

    // Skips the parts that are done.
    fn pass_parts(&mut self) {
        for _ in 0..PARTS {
            if !self.is_over() {
                return;
            }
            if let Part::Stops(count) = self.part {
                self.stops = count;
            }
            self.begin_next();
        }
    }

    // Returns true if it gives neither bytes nor the end of its input before something is written.
    fn awaits(&self) -> bool {
        match self.part {
            Part::After(_) | Part::All(_) => !self.is_over(),
            _ => false,
        }
    }

    // Notes how many bytes all clients have to receive before it goes on, if it waits for that.
    fn note_awaited(&self) {
        let count = match self.part {
            Part::All(count) => count,
            _ => u64::MAX,
        };
        self.all.note_awaited(self.visit.door, count);
    }

    // Reads from its part, which is not done.
    fn read_part(&mut self, buf: &mut [u8]) -> Result<usize, StreamError>
        ensures { ReadsAtMost result buf.new }
    {
        if self.sends == 0 {
            return Err(StreamError::Fault);
        }
        match self.part {
            Part::Bytes => self.read_bytes(buf),
            Part::Fails => Err(StreamError::Fault),
            _ => Ok(0),
        }
    }

    fn read_bytes(&mut self, buf: &mut [u8]) -> Result<usize, StreamError>
        ensures { ReadsAtMost result buf.new }
    {
        let rest = &self.bytes[self.offset.min(self.bytes.len())..];
        let Some(count) = self.gives.take(rest.len().min(buf.len()).min(self.sends)) else {
            return Err(StreamError::NotYet);
        };
        buf[..count].copy_from_slice(&rest[..count]);
        self.offset = self.offset.saturating_add(count);
        self.sends -= count;
        Ok(count)
    }

    // Returns how many of this many bytes a write takes.
    fn takes_now(&mut self, most: usize) -> Result<usize, StreamError>
        ensures { IfOk result (λ count. count ≤ most) }
    {
        if self.all.has_given_up() || self.room == 0 {
            return Err(StreamError::Fault);
        }
        if self.all.written() < self.stops {
            self.all.note_awaited(self.visit.door, self.stops);
            return Err(StreamError::NotYet);
        }
        self.all.note_awaited(self.visit.door, u64::MAX);
        match self.takes.take(most.min(self.room)) {
            Some(count) => Ok(count),
            None => Err(StreamError::NotYet),
        }
    }

    // Records these bytes as received, but at most this many. Returns how many it may still record.
    fn accept(&mut self, bytes: &[u8], most: usize) -> usize {
        let count = most.min(bytes.len());
        if self.written.extend_from_slice(&bytes[..count]).is_err() {
            self.all.give_up();
        }
        self.room = self.room.saturating_sub(count);
        self.all.note_written(count);
        most - count
    }
}

impl<'t> Duplex for Script<'t> {
    ghost use Rattle.std.specs.Prelude.{false, true};

    ghost may_fail = { λ _. true };

    // What it gives and takes depends on the other scripts, so nothing is said of it here.
    ghost may_give = { λ script. false };

    ghost may_take = { λ script. false };

    fn read(&mut self, buf: &mut [u8]) -> Result<usize, StreamError> {
        if self.all.has_given_up() {
            return Err(StreamError::Fault);
        }
        self.pass_parts();
        self.note_awaited();
        if self.awaits() {
            return Err(StreamError::NotYet);
        }
        self.read_part(buf)
    }

    fn write(&mut self, buf: &[u8]) -> Result<usize, StreamError> {
        let count = self.takes_now(buf.len())?;
        self.accept(buf, count);
        Ok(count)
    }

    fn write_together(
        &mut self,
        first: &[u8],
        second: &[u8],
        third: &[u8],
    ) -> Result<usize, StreamError> {
        let most = first
            .len()
            .saturating_add(second.len())
            .saturating_add(third.len());
        let count = self.takes_now(most)?;
        let after_first = self.accept(first, count);
        let after_second = self.accept(second, after_first);
        self.accept(third, after_second);
        Ok(count)
    }

    fn flush(&mut self) -> Result<(), StreamError> {
        Ok(())
    }

    fn may_give(&self) -> bool {
        !self.awaits()
    }

    fn may_take(&self) -> bool {
        self.all.written() >= self.stops
    }
}
