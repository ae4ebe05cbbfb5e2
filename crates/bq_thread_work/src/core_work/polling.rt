//! How often the core's thread polls before it sleeps.
ghost use Rattle.std.specs.Prelude.{◌≡◌, ◌<◌, ◌≤◌, ◌-◌, ◌⊎◌};

use std::thread::{Threads, available_parallelism};

/// How many times it polls if waits follow one another closely, which takes 20 to 30 microseconds. A
/// client that just received an answer mostly sends its next command within that time. To sleep and
/// be woken by a thread on another processor takes longer than to carry out a command.
const LOOKS: u32 = 3_000;

/// How many times it polls otherwise, and on one processor, where no step can arrive while it polls.
pub const FEW_LOOKS: u32 = 20;

/// The time within which two waits have to begin to be close, in milliseconds. If commands come at
/// longer intervals, the next one does not come while the thread polls.
const CLOSE: u64 = 2;

/// How often a thread polls before it sleeps.
///
/// Polls save a sleep if the next step comes soon, and waste the processor if it does not. So the
/// thread polls at length only if its last wait began a moment ago. With one client that sends 50
/// commands at once, on two processors, that nearly doubles the answers in a second.
#[derive(Clone, Copy)]
pub struct Polling {
    /// How many times it polls if waits are close.
    pub most: u32,
    /// When the last wait began, in milliseconds.
    pub last: u64,
}

impl Polling {
    /// Returns the state of a thread that has not waited yet.
    pub fn new(most: u32) -> Polling
        ensures { (result.most ≡ most) × (result.last ≡ 0) }
    {
        Polling { most, last: 0 }
    }

    /// Notes that a wait begins at this moment, and returns how many times the thread polls.
    pub fn begin(&mut self, moment: u64) -> u32
        ensures close { moment - self.old.last < 2 → result ≡ self.old.most }
        ensures apart { 2 ≤ moment - self.old.last → result ≡ 20 }
        ensures last { self.new ≡ record self.old { last = moment } }
    {
        let passed = moment.saturating_sub(self.last);
        self.last = moment;
        if passed < CLOSE { self.most } else { FEW_LOOKS }
    }
}

/// Returns how many times the core's thread polls at most. It asks how many processors this process
/// may use; if that is not known, the thread polls as on one.
pub fn most_looks<R: Threads>(rt: &R) -> u32
    ensures { (result ≡ 20) ⊎ (result ≡ 3000) }
{
    match available_parallelism(rt) {
        Ok(many) if many.get() > 1 => LOOKS,
        _ => FEW_LOOKS,
    }
}
