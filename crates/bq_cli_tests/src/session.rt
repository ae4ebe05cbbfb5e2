//! The session of `bq` over a console in memory: from its words to the end of the client's
//! connection.
ghost use Rattle.std.specs.Prelude.{◌≡◌, IfOk, IfSome, None};
ghost use Rattle.bq_program.specs.Ranges.{IsForBq};

use crate::command_line::{are_so, words_of};
use bq_job::LineEnd;
use bq_line::clock::MachineClock;
use bq_line::line::{IoLine, Line};
use bq_program::{BqOptions, Fault, Options, bq_options};
use bq_scenes::rows::{column, is_end};
use bq_scenes::sure::Sure;
use bq_session::{Console, Served, serve_client};
use std::alloc::Global;
use std::io;
use std::io::{ErrorKind, Read, Write};
use std::rt::Clock;
use std::sync::Wait;

/// The client's bytes, and whether a read after them fails.
#[derive(Drop)]
struct Sends {
    bytes: &'static [u8],
    fails: bool,
}

impl Read for Sends {
    fn read(&mut self, buf: &mut [u8]) -> io::Result<usize> {
        if self.bytes.is_empty() && self.fails {
            return Err(io::Error::from(ErrorKind::BrokenPipe));
        }
        let count = self.bytes.len().min(buf.len());
        buf[..count].copy_from_slice(&self.bytes[..count]);
        self.bytes = &self.bytes[count..];
        Ok(count)
    }
}

/// The client's end, with room for a number of bytes. What is written arrives only by a flush. A
/// flush fails if the room is full.
#[derive(Drop)]
struct Reads {
    held: Vec<u8>,
    arrived: Vec<u8>,
    room: usize,
}

impl Write for Reads {
    fn write(&mut self, buf: &[u8]) -> io::Result<usize> {
        let count = buf.len().min(self.room);
        if count == 0 || self.held.extend_from_slice(&buf[..count]).is_err() {
            return Err(io::Error::from(ErrorKind::StorageFull));
        }
        self.room -= count;
        Ok(count)
    }

    fn flush(&mut self) -> io::Result<()> {
        if self.room == 0 || self.arrived.extend_from_slice(&self.held).is_err() {
            return Err(io::Error::from(ErrorKind::StorageFull));
        }
        self.held.clear();
        Ok(())
    }
}

// What each row shows; the words and their options, as in module `command_line`; what the client
// sends, and whether a read after that `fails`; what it receives, its room, and how its connection
// ends.
static EXAMPLES: &str = "a quit, after which nothing is read\
    |bq|- 1 65535 - 0 - -|put 5 0 10 3\r\nabc\r\nquit\r\n|fails|INSERTED 1\r\n|100|quit

    a clock that stands still\
    |bq --still|- 1 65535 - 0 - still|reserve\r\n||TIMED_OUT\r\n|100|end

    a limit of body sizes\
    |bq --still --max-job-size 2|- 1 2 - 0 - still\
    |put 0 0 1 3\r\nabc\r\nput 0 0 1 2\r\nab\r\n||JOB_TOO_BIG\r\nINSERTED 1\r\n|100|end

    a limit on jobs\
    |bq --still --max-jobs 1|- 1 65535 1 0 - still\
    |put 0 0 9 1\r\nx\r\nput 0 0 9 1\r\ny\r\nreserve\r\nput 0 0 9 1\r\nz\r\n\
    delete 1\r\nput 0 0 9 1\r\nw\r\n|\
    |INSERTED 1\r\nOUT_OF_MEMORY\r\nRESERVED 1 1\r\nx\r\nOUT_OF_MEMORY\r\nDELETED\r\n\
    INSERTED 2\r\n|100|end

    a read that fails\
    |bq|- 1 65535 - 0 - -|put 0 0 9 1\r\nx\r\nput|fails|INSERTED 1\r\n|100|read fault

    a write that fails\
    |bq|- 1 65535 - 0 - -|put 0 0 9 1\r\nx\r\n|||5|write fault

    the whole answer is written, and the flush fails\
    |bq|- 1 65535 - 0 - -|put 0 0 9 1\r\nx\r\n|||12|write fault";

// The console of a row's client.
fn console(alloc: Global, row: &'static str) -> Console<Sends, Reads> {
    let sends = Sends {
        bytes: column(row, 3).as_bytes(),
        fails: column(row, 4) == "fails",
    };
    let reads = Reads {
        held: Vec::new(alloc),
        arrived: Vec::new(alloc),
        room: column(row, 6).parse::<usize>().unwrap_or(0),
    };
    Console::new(sends, reads)
}

fn are_chosen(options: BqOptions, row: &'static str) -> bool {
    are_so(&Options::from(options), column(row, 2))
}

// Returns the options in the words of a row.
fn options_of(alloc: Global, row: &'static str) -> Option<BqOptions>
    ensures { IfSome result (λ options. IsForBq options) }
{
    let Ok(words) = words_of(alloc, column(row, 1)) else {
        return None;
    };
    let options = bq_options(alloc, words.as_slice());
    drop(words);
    options.ok()
}

// Returns true if the client of a row has received what it has to, and its connection has ended as
// it has to.
fn is_left_so(reads: &Reads, end: LineEnd, row: &'static str) -> bool {
    reads.arrived.as_slice() == column(row, 5).as_bytes() && is_end(end, column(row, 7))
}

// Returns true if the client of a row is served as it says.
fn is_met<R: Wait + Clock>(rt: &R, alloc: Global, row: &'static str) -> bool {
    let Some(options) = options_of(alloc, row) else {
        return false;
    };
    match serve_client(
        rt,
        alloc,
        &options,
        console(alloc, row),
        MachineClock::new(rt),
    ) {
        Ok(served) => {
            let Served {
                line,
                end,
                options,
                clock,
            } = served;
            drop(clock);
            let reads = line.into_stream().into_output();
            let is_met = are_chosen(options, row) && is_left_so(&reads, end, row);
            drop(reads);
            is_met
        }
        Err(_) => false,
    }
}

fn are_met<R: Wait + Clock>(rt: &R, alloc: Global) -> bool {
    for row in EXAMPLES.split("\n\n") {
        if !is_met(rt, alloc, row) {
            return false;
        }
    }
    true
}

// Serves a client whose stream never fails. Its connection has met no fault.
fn serve_surely<'r, R: Wait + Clock>(
    rt: &'r R,
    alloc: Global,
    options: &BqOptions,
    sends: &'static [u8],
) -> Result<Served<Sure, &'r R>, Fault>
    requires { IsForBq options.now }
    ensures { IfOk result (λ served. (⟦<IoLine<Sure> as Line>⟧.seen served.line).fault ≡ None) }
{
    let client = Sure::new(alloc, sends);
    serve_client(rt, alloc, options, client, MachineClock::new(rt))
}

// Returns true if such a client has its answer, and its connection has ended with its input.
fn is_served_surely<R: Wait + Clock>(rt: &R, alloc: Global) -> bool {
    let Some(options) = options_of(alloc, EXAMPLES) else {
        return false;
    };
    match serve_surely(rt, alloc, &options, b"put 5 0 10 3\r\nabc\r\nput") {
        Ok(served) => {
            let Served {
                line,
                end,
                options: _,
                clock,
            } = served;
            drop(clock);
            let client = line.into_stream();
            let is_answered = client.received() == b"INSERTED 1\r\n".as_slice();
            drop(client);
            end == LineEnd::EndOfInput && is_answered
        }
        Err(_) => false,
    }
}

// From the words to the end of the connection and the bytes that the client receives, over streams
// that may fail and one that never does.
#[test]
fn sessions_of_words(rt: HostRuntime) {
    assert!(rt; are_met(&rt, rt.alloc()) && is_served_surely(&rt, rt.alloc()));
}
