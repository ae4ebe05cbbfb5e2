//! A core with the room for its answers, and a reader of its clients' requests.

use bq_core::{Config, Core, Outs};
use bq_job::{Answer, Moment, Request, Seat, Step};
use bq_wire::{HeadBuf, RequestReader, answer_body, answer_head, answer_tail};
use std::alloc::Global;
use std::marker::Model;

/// A core, its answers and the reader.
#[derive(Drop)]
pub struct Bench {
    alloc: Global,
    core: Core,
    outs: Outs,
    reader: RequestReader,
}

impl Model for Bench {
    ghost use Rattle.std.specs.Prelude.{◌<◌};

    ghost Value = { Unit {0} };

    ghost view = { λ _. tt };

    // There is room for the answers of each step.
    ghost invariant = { λ b. b.core.machine.settings.seats < b.outs.most };
}

impl Bench {
    /// Returns a new core with this configuration, to which no client has connected, or `None` if
    /// an allocation fails or the configuration is out of its range.
    pub fn new(alloc: Global, config: Config) -> Option<Bench> {
        let Ok(outs) = Outs::new(alloc, config.seats) else {
            return None;
        };
        let limit = config.max_job_size.max(1).min(1_048_576);
        let Ok(reader) = RequestReader::new(alloc, limit) else {
            return None;
        };
        match Core::new(alloc, config) {
            Ok(core) => Some(Bench {
                alloc,
                core,
                outs,
                reader,
            }),
            Err(_) => None,
        }
    }

    /// Takes a step.
    pub fn step(&mut self, at: Moment, seat: Seat, what: Step) {
        self.core.step(self.alloc, at, seat, what, &mut self.outs);
    }

    // Hands bytes to the reader. Returns the request that they complete.
    fn feed(&mut self, bytes: &[u8]) -> Option<Request> {
        let (_, request) = self.reader.feed(self.alloc, bytes);
        request
    }

    // Returns the request that a client makes with these words and the end of a line. `~` stands
    // for CR LF.
    fn asked(&mut self, words: &str) -> Option<Request> {
        let mut last: Option<Request> = None;
        self.reader.restart();
        for line in words.split('~') {
            drop(self.feed(line.as_bytes()));
            drop(last);
            last = self.feed(b"\r\n");
        }
        last
    }

    /// Returns the step with these words: a request, or one that is not read from a connection.
    pub fn step_of(&mut self, words: &str) -> Option<Step> {
        match words {
            "connect" => Some(Step::Connect),
            "end" => Some(Step::End),
            "close" => Some(Step::Close),
            "drain" => Some(Step::Drain),
            "tick" => Some(Step::Tick),
            _ => match self.asked(words) {
                Some(request) => Some(Step::Ask(request)),
                None => None,
            },
        }
    }

    /// Takes the step with these words. Returns false if there is none.
    pub fn take(&mut self, at: Moment, seat: Seat, words: &str) -> bool {
        match self.step_of(words) {
            Some(step) => {
                self.step(at, seat, step);
                true
            }
            None => false,
        }
    }

    /// Removes and returns the oldest answer of the last step.
    pub fn answer(&mut self) -> Option<(Seat, Answer)> {
        self.outs.take_first()
    }

    /// Returns true if no answer of the last step is left.
    pub fn is_silent(&self) -> bool {
        self.outs.is_empty()
    }

    /// Returns true if the command of the last step was left out because an allocation failed.
    pub fn left_out(&self) -> bool {
        self.outs.left_out()
    }

    /// Returns true if nothing failed for lack of memory in the last step.
    pub fn was_ample(&self) -> bool {
        !self.outs.left_out() && !self.outs.unshared()
    }

    /// Returns the next due moment of the core.
    pub fn next_due(&mut self) -> Option<Moment> {
        self.core.next_due()
    }

    /// Returns how many comparisons the core has made.
    pub fn comparisons(&self) -> u64 {
        self.core.comparisons()
    }

    /// Drops the bench. A function where a bench goes out of scope is dear to prove, and one that
    /// calls this is not.
    pub fn end(self) {}
}

/// Appends what a client receives for an answer, or these bytes for a close. Returns false if an
/// allocation fails.
pub fn push_answer(text: &mut Vec<u8, Global>, answer: &Answer, closed: &[u8]) -> bool {
    if let Answer::Closed = answer {
        return text.extend_from_slice(closed).is_ok();
    }
    let mut head = HeadBuf::new();
    answer_head(answer, &mut head);
    text.extend_from_slice(head.as_slice()).is_ok()
        && text.extend_from_slice(answer_body(answer)).is_ok()
        && text.extend_from_slice(answer_tail(answer)).is_ok()
}

/// Splits a number from the text after it.
pub fn numbered(text: &'static str) -> Option<(u64, &'static str)> {
    let Some((number, rest)) = text.split_once(' ') else {
        return None;
    };
    match number.parse::<u64>() {
        Ok(number) => Some((number, rest)),
        Err(_) => None,
    }
}

/// Splits the number of a seat from the text after it.
pub fn seated(text: &'static str) -> Option<(Seat, &'static str)> {
    match numbered(text) {
        Some((number, rest)) if number <= u64::from(Seat::MAX) => Some((number as Seat, rest)),
        _ => None,
    }
}

/// What a row of a script begins with: the moment and the seat of a step, and what happens there.
#[derive(Clone, Copy)]
pub struct Row {
    pub at: Moment,
    pub seat: Seat,
    pub words: &'static str,
}

/// Returns the row with this text.
pub fn row_of(text: &'static str) -> Option<Row> {
    let Some((at, rest)) = numbered(text) else {
        return None;
    };
    match seated(rest) {
        Some((seat, words)) => Some(Row {
            at,
            seat,
            words: words.trim(),
        }),
        None => None,
    }
}
