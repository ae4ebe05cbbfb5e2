ghost use Rattle.std.specs.Prelude.{◌≡◌};
ghost use Rattle.bq_core_api.specs.Codes.{fault_code};

/// The settings of a core.
pub use bq_job::Settings as Config;

/// Why no core was made.
#[derive(Clone, Copy, Debug, PartialEq, Eq)]
pub enum CoreFault {
    /// The number of seats is 0 or above 256.
    BadSeats,
    /// The limit on bodies is 0 or above 1,048,576 bytes.
    BadMaxJobSize,
    /// The job limit is 0.
    BadMaxJobs,
    /// An allocation failed.
    NoMemory,
}

impl CoreFault {
    /// Returns the number of this fault: 302, 303, 304 or 301, in the order above.
    pub fn code(self) -> u16
        ensures { result ≡ fault_code self }
    {
        match self {
            CoreFault::BadSeats => 302,
            CoreFault::BadMaxJobSize => 303,
            CoreFault::BadMaxJobs => 304,
            CoreFault::NoMemory => 301,
        }
    }
}
