ghost use Rattle.std.specs.Prelude.{◌≡◌};
ghost use Rattle.bq_host.specs.FaultCodes.{run_fault_code};

use thiserror::Error;

/// The reason why a run did not begin. No connection was opened, read or written.
#[derive(Clone, Copy, Debug, PartialEq, Eq, Error)]
pub enum RunFault {
    /// An allocation failed.
    #[error("no memory")]
    NoMemory,
    /// A thread could not be started.
    #[error("a thread was refused")]
    ThreadRefused,
    /// The configuration is out of its ranges, or does not fit its use.
    #[error("bad configuration")]
    BadConfiguration,
}

impl RunFault {
    /// Returns the number of this error: 501, 502 or 503.
    pub fn code(self) -> u16
        ensures { result ≡ run_fault_code self }
    {
        match self {
            RunFault::NoMemory => 501,
            RunFault::ThreadRefused => 502,
            RunFault::BadConfiguration => 503,
        }
    }
}
