//! Counts the accepts of a listener that fail one after another.
ghost use Rattle.std.specs.Prelude.{◌≡◌, ◌<◌, IfErr, IfOk, IfSome, true};
ghost use Rattle.bq_line.specs.Accepts.{ends_listener, failures_after, most_failures};

use super::Listen;
use crate::line::Socket;
use std::io;
use std::marker::Model;

/// How many accepts in a row have failed. A count begins at 0, and its field is private: only
/// `accept` changes it. So a count of 2^64 - 1 shows that this number of accepts failed, with no
/// connection among them. At ten a second, the rate of a door that waits 100 ms after each, that takes 58
/// thousand million years. At a million a second it takes half a million years.
#[derive(Drop)]
pub struct Failures {
    count: u64,
}

impl Model for Failures {
    ghost use Rattle.std.specs.Prelude.{ℕ};

    ghost Value = { ℕ };

    ghost view = { λ f. f.count };
}

impl Failures {
    /// Returns a count of no accept.
    pub fn none() -> Failures
        ensures { result ≡ 0 }
    {
        Failures { count: 0 }
    }

    /// Accepts the next connection of a listener, set to send each write at once. `None` means that
    /// its peer has already disconnected. A connection sets the count to 0, and any other result
    /// adds 1 to it.
    pub fn accept<T: Listen>(&mut self, listener: &T) -> io::Result<Option<T::Stream>>
        requires room { self.old < most_failures }
        ensures counted { self.new ≡ failures_after result self.old }
        ensures fault { IfErr result (λ e. ends_listener e ≡ true → T.may_fail listener.now ≡ true) }
        ensures stream { IfOk result (λ came. IfSome came (λ stream.
            T.Stream.may_fail stream ≡ T.streams_may_fail listener.now)) }
    {
        match listener.accept() {
            Ok((mut stream, _peer)) => {
                // This fails if the peer has disconnected.
                if stream.set_nodelay(true).is_ok() {
                    self.count = 0;
                    return Ok(Some(stream));
                }
                self.count += 1;
                Ok(None)
            }
            Err(e) => {
                self.count += 1;
                Err(e)
            }
        }
    }
}
