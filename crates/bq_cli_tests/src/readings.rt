//! What the computer's clock reads.

use bq_line::clock::{Clock, MachineClock};
use std::sync::atomic::{AtomicU64, Ordering};
use std::time::Duration;
use std::{io, rt};

/// How many microseconds pass between two readings of the host's clock.
const STEP: u64 = 2_500;

/// A host whose clock goes on by a step with each reading.
#[derive(Drop)]
struct Stepping {
    at: AtomicU64,
}

impl rt::Clock for Stepping {
    fn monotonic(&self) -> io::Result<Duration> {
        Ok(Duration::from_micros(self.at.fetch_add(STEP, Ordering::SeqCst)))
    }

    fn since_1970(&self) -> io::Result<Duration> {
        Ok(Duration::ZERO)
    }
}

#[test]
fn clock_keeps_the_microseconds_of_its_last_reading(rt: HostRuntime) {
    let mut clock = MachineClock::new(Stepping {
        at: AtomicU64::new(1_000_000),
    });
    assert!(rt; clock.elapsed() == 0);
    assert!(rt; clock.now() == Some(2) && clock.elapsed() == 2_500);
    assert!(rt; clock.now() == Some(5) && clock.elapsed() == 5_000);
}
