//! Why a call of a stream moved no bytes.
ghost use Rattle.std.specs.Prelude.{◌≡◌};
ghost use Rattle.std.specs.IoError.{error_kind};
ghost use Rattle.bq_line.specs.LineCalls.{in_brief, is_nothing_yet, stream_error};

use std::io;
use std::io::ErrorKind;

/// Why a call of a stream or of a connection moved no bytes. An error of the system has many more
/// bytes, which each layer would copy.
#[derive(Clone, Copy, Debug, PartialEq, Eq)]
pub enum StreamError {
    /// There are no bytes yet, or there is no room yet. The system reports when that changes.
    NotYet,
    /// The call was interrupted or timed out, and can be repeated. The system reports nothing.
    Interrupted,
    /// The stream failed.
    Fault,
}

impl StreamError {
    /// Returns what an error of the system means for a stream.
    pub fn of(e: &io::Error) -> StreamError
        ensures { result ≡ stream_error (error_kind e.now) }
    {
        match e.kind() {
            ErrorKind::WouldBlock => StreamError::NotYet,
            ErrorKind::TimedOut | ErrorKind::Interrupted => StreamError::Interrupted,
            _ => StreamError::Fault,
        }
    }

    /// Returns true if there are merely no bytes yet, or no room yet.
    pub fn is_nothing_yet(self) -> bool
        ensures { result ≡ is_nothing_yet self }
    {
        match self {
            StreamError::NotYet | StreamError::Interrupted => true,
            StreamError::Fault => false,
        }
    }
}

/// Returns the result of a call of the system, with what its error means.
pub fn in_brief<A>(came: io::Result<A>) -> Result<A, StreamError>
    ensures { result ≡ in_brief came }
{
    match came {
        Ok(done) => Ok(done),
        Err(e) => Err(StreamError::of(&e)),
    }
}
