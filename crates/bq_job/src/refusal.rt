ghost use Rattle.std.specs.Prelude.{◌≡◌};
ghost use Rattle.bq_job.specs.beside.Codes.{refusal_code};

/// Why the reader rejected a request.
#[derive(Clone, Copy, PartialEq, Eq)]
pub enum Refusal {
    /// The first word names no command: `UNKNOWN_COMMAND`.
    UnknownCommand,
    /// The command line is too long, or its words do not fit its command: `BAD_FORMAT`.
    BadFormat,
    /// The body of a put has more bytes than the server accepts: `JOB_TOO_BIG`.
    JobTooBig,
    /// The body of a put isn't followed by CR LF: `EXPECTED_CRLF`.
    ExpectedCrlf,
    /// The allocation for the body of a put failed: `OUT_OF_MEMORY`.
    OutOfMemory,
}

impl Refusal {
    /// Returns the number of this refusal, 101 to 105.
    pub fn code(self) -> u16
        ensures { result ≡ refusal_code self }
    {
        match self {
            Refusal::UnknownCommand => 101,
            Refusal::BadFormat => 102,
            Refusal::JobTooBig => 103,
            Refusal::ExpectedCrlf => 104,
            Refusal::OutOfMemory => 105,
        }
    }
}
