//! What reports that a connection is ready.
ghost use Rattle.std.specs.Prelude.{◌≡◌, ℤ, Bool, OnOk, true};

use std::io;
use std::os::fd::RawFd;

/// Has the system report when the stream of a connection is ready.
pub trait Watcher {
    /// True if it has the system report when this descriptor is ready. Only a successful `watch`
    /// establishes this.
    ghost watches: { Self → ℤ → Bool } = { λ watcher fd. true };

    /// Has the system report when this descriptor is ready. After an error the system reports
    /// nothing of it.
    fn watch(&self, fd: RawFd) -> io::Result<()>
        ensures { OnOk result (watches self.now fd ≡ true) };
}
