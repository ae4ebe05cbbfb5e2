//! Clocks that a run reads.
ghost use Rattle.std.specs.Prelude.{◌≡◌, ℕ, List, [], ◌∷◌, ◌++◌, Option};
ghost use Rattle.bq_job.specs.promise.History.{moment_heard};
ghost use Rattle.std.proofs.Common.{append-nil, sym};
ghost use Rattle.bq_line.specs.ReadingNumbers.{number_of_reading};

pub use script_clock::ScriptClock;

mod script_clock;

use boxcar::tag::{Names, Tag};
use bq_job::Moment;
use std::marker::Model;
use std::rt;

/// A clock that a run reads. Its readings are described by a relation between the clock before
/// them, the readings in order, and the clock after them.
pub trait Clock {
    /// From the first clock, these readings were given in order, and the second clock is what
    /// remained.
    ghost given: { Self → List (Option ℕ) → Self → Type 0 };

    /// Returns a reading: a moment in milliseconds, or `None` if the clock can't be read. A moment
    /// below the previous one is not an error.
    fn now(&mut self) -> Option<Moment>
        ensures { (first : Self) (readings : List (Option ℕ)) → given first readings self.old →
            given first (readings ++ result ∷ []) self.new };

    /// Returns the microseconds from the clock's start to its last reading, or 0 if the clock does
    /// not say. It serves fairness alone: no promise depends on it.
    fn elapsed(&self) -> u64 {
        0
    }

    /// Receives a notice from the run that reads this clock. By default it is ignored.
    fn tell(&self, _notice: Notice) {}

    /// A clock that did not change gave no reading.
    ghost none_given: { (clock : Self) → given clock [] clock };
}

/// Returns the moment after a reading: a failed reading, or one below `last`, counts as `last`.
pub fn moment_heard(last: Moment, reading: Option<Moment>) -> Moment
    ensures { result ≡ moment_heard last reading }
{
    match reading {
        Some(moment) => last.max(moment),
        None => last,
    }
}

/// The computer's clock: the milliseconds since it was made. It records the readings that it gave;
/// nothing is claimed about the system's clock.
#[derive(Drop)]
pub struct MachineClock<R> {
    rt: R,
    // The microseconds that the system's clock showed at the start; `None` if it couldn't be read.
    start: Option<u64>,
    // The microseconds from the start to the last reading that did not fail.
    elapsed: u64,
    given: ReadingRecord,
}

impl<R: rt::Clock> MachineClock<R> {
    /// Returns a clock that stands at 0 now. If the system's clock can't be read now, every reading
    /// fails.
    pub fn new(rt: R) -> MachineClock<R>
        ensures { result.given ≡ [] }
    {
        let start = micros_now(&rt);
        MachineClock {
            rt,
            start,
            elapsed: 0,
            given: ReadingRecord::new(),
        }
    }

    // Returns the microseconds since the clock was made.
    fn reading(&self) -> Option<u64> {
        let now = micros_now(&self.rt)?;
        Some(now.saturating_sub(self.start?))
    }

    // Reads the clock once. Returns the milliseconds since it was made, and keeps the microseconds.
    fn read(&mut self) -> Option<Moment>
        ensures { self.new.given ≡ self.old.given }
    {
        let elapsed = self.reading()?;
        self.elapsed = elapsed;
        Some(elapsed / 1000)
    }
}

// Returns the microseconds that the system's clock shows, or `None` if it can't be read.
fn micros_now<R: rt::Clock>(rt: &R) -> Option<u64> {
    let now = rt.monotonic().ok()?;
    let seconds = now.as_secs().checked_mul(1_000_000)?;
    seconds.checked_add(u64::from(now.subsec_micros()))
}

impl<R: rt::Clock> Clock for MachineClock<R> {
    ghost given = { λ before readings after. after.given ≡ before.given ++ readings };

    ghost none_given = { λ clock. sym (append-nil clock.given) };

    fn now(&mut self) -> Option<Moment> {
        let reading = self.read();
        self.given.note(reading);
        reading
    }

    fn elapsed(&self) -> u64 {
        self.elapsed
    }
}

/// The readings that a clock gave, for proofs: it takes no memory, and its methods do nothing at
/// run time.
#[derive(Drop)]
pub struct ReadingRecord {
    tag: Tag,
}

impl Model for ReadingRecord {
    ghost use Rattle.std.specs.Prelude.{List, Option, ℕ, map};
    ghost use Rattle.bq_line.specs.ReadingNumbers.{reading_of_number};

    ghost Value = { List (Option ℕ) };

    ghost view = { λ r. map reading_of_number r.tag.numbers };
}

impl ReadingRecord {
    /// Returns a record without readings.
    pub fn new() -> ReadingRecord
        ensures { result ≡ [] }
    {
        ReadingRecord { tag: Tag::empty() }
    }

    /// Adds a reading.
    pub fn note(&mut self, reading: Option<Moment>)
        ensures { self.new ≡ self.old ++ reading ∷ [] }
    {
        self.tag = with_reading(&self.tag, reading);
    }
}

// A tag and one more reading.
#[derive(Clone, Copy)]
struct Further<'a> {
    tag: &'a Tag,
    reading: Option<Moment>,
}

struct Noted;

impl<'a> Names<Further<'a>> for Noted {
    ghost use Rattle.std.specs.Prelude.{◌++◌, ◌∷◌, []};
    ghost use Rattle.bq_line.specs.ReadingNumbers.{number_of_reading};

    ghost numbers = { λ f. f.tag.now.numbers ++ number_of_reading f.reading ∷ [] };
}

fn with_reading(tag: &Tag, reading: Option<Moment>) -> Tag
    ensures { result.numbers ≡ tag.now.numbers ++ number_of_reading reading ∷ [] }
{
    Tag::of::<Further<'_>, Noted>(&Further { tag, reading })
}

/// What a run reports to the operator of the server.
#[derive(Clone, Copy, PartialEq, Eq)]
pub enum Notice {
    /// The server accepts no more puts.
    Draining,
    /// An allocation failed, and a client was answered `OUT_OF_MEMORY`.
    MemoryRefused,
    /// A put was answered `OUT_OF_MEMORY` because there are as many jobs as the configuration allows.
    JobLimitReached,
    /// A put was accepted a while after the last one that was not because of that limit.
    BelowJobLimit,
}
