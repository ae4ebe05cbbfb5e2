//! A host whose standard error is a log.

use crate::log::Writer;
use crate::shared::Shared;
use std::alloc::Global;
use std::fmt::Display;
use std::io;
use std::io::{Eprint, Print};
use std::net::{Net, SocketAddr};
use std::rt::Clock;
use std::sync::{Arc, Wait};
use std::thread::Threads;
use std::time::Duration;

/// A host whose standard error is a log, so that no thread waits for the reader of what it reports. All other calls go to
/// the host itself.
#[derive(Drop)]
pub struct Logging<R> {
    host: R,
    shared: Arc<Shared, Global>,
}

impl<R> Logging<R> {
    /// Makes a host that logs to what it shares with the writing thread.
    pub fn new(host: R, shared: Arc<Shared, Global>) -> Logging<R> {
        Logging { host, shared }
    }

    /// Returns what it shares with other threads.
    pub fn shared(&self) -> &Shared {
        &self.shared
    }
}

impl<R: Threads> Threads for Logging<R> {}

impl<R: Wait> Wait for Logging<R> {}

impl<R: Net> Net for Logging<R> {
    type Stream = R::Stream;

    type Listener = R::Listener;

    fn bind(&self, addr: SocketAddr) -> io::Result<R::Listener> {
        self.host.bind(addr)
    }

    fn connect(&self, addr: SocketAddr) -> io::Result<R::Stream> {
        self.host.connect(addr)
    }
}

impl<R: Clock> Clock for Logging<R> {
    fn monotonic(&self) -> io::Result<Duration> {
        self.host.monotonic()
    }

    fn since_1970(&self) -> io::Result<Duration> {
        self.host.since_1970()
    }

    fn sleep(&self, duration: Duration) {
        self.host.sleep(duration);
    }
}

impl<R: Print> Print for Logging<R> {
    fn print<D: Display + Drop>(&self, value: D) -> io::Result<()> {
        self.host.print(value)
    }

    fn println<D: Display + Drop>(&self, value: D) -> io::Result<()> {
        self.host.println(value)
    }

    fn write_all(&self, bytes: &[u8]) -> io::Result<()> {
        self.host.write_all(bytes)
    }
}

/// Both calls add a line to the log.
impl<R: Wait + Eprint> Eprint for Logging<R> {
    fn eprint<D: Display + Drop>(&self, value: D) -> io::Result<()> {
        self.eprintln(value)
    }

    fn eprintln<D: Display + Drop>(&self, value: D) -> io::Result<()> {
        self.shared.log.add(&self.host, value);
        if self.shared.log.by() == Writer::Itself {
            let is_done = self.shared.log.write_at_once(&self.host);
            self.shared.ending.note_reports(!is_done);
        }
        Ok(())
    }
}
