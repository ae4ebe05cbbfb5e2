//! The options of each program, and one type for those of either.
ghost use Rattle.std.specs.Prelude.{◌≡◌};
ghost use Rattle.bq_program.specs.Chosen.{of_bq, of_bqd};

/// The options of `bq`.
#[derive(Clone, Copy)]
pub struct BqOptions {
    /// True if the clock always reads 0.
    pub still: bool,
    /// The size of the largest body in bytes, 1 to 1,048,576.
    pub max_job_size: u32,
    /// The most jobs at a time, 1 or more. None: no limit. In the definitions 0 is a queue that accepts no job; the
    /// command line rejects it.
    pub max_jobs: Option<u32>,
}

/// What a server does with a connection that comes while every seat is taken.
#[derive(Clone, Copy, PartialEq, Eq)]
pub enum WhenFull {
    /// It leaves the connection to the system until a seat is free.
    Wait,
    /// It accepts the connection and closes it at once.
    Refuse,
}

/// The options of `bqd`.
#[derive(Drop)]
pub struct BqdOptions {
    /// The address to listen at, as it was written.
    pub listen: String,
    /// The most clients that can be connected at a time, 1 to 256.
    pub seats: u16,
    /// The size of the largest body in bytes, 1 to 1,048,576.
    pub max_job_size: u32,
    /// The most jobs at a time, 1 or more, as for `bq`. None: no limit.
    pub max_jobs: Option<u32>,
    /// The delay in seconds of a job whose connection is lost. 0: it is ready at once.
    pub requeue_delay: u32,
    /// The number of connections that each seat serves, 1 or more. None: no limit.
    pub sessions: Option<u32>,
    /// True if one thread serves all seats; otherwise each seat has a thread of its own.
    pub event_loop: bool,
    /// What an event loop does with connections beyond the seats. Threads always let them wait.
    pub when_full: WhenFull,
}

/// The options of either program. An option that the program does not take has its default, and `bq` has one seat.
#[derive(Drop)]
pub struct Options {
    /// The address to listen at, as it was written.
    pub listen: Option<String>,
    /// True if the clock always reads 0.
    pub still: bool,
    /// The most clients that can be connected at a time, 1 to 256.
    pub seats: u16,
    /// The size of the largest body in bytes, 1 to 1,048,576.
    pub max_job_size: u32,
    /// The most jobs at a time, 1 or more. None: no limit. In the definitions 0 is a queue that accepts no job; it can't
    /// be chosen.
    pub max_jobs: Option<u32>,
    /// The delay in seconds of a job whose connection is lost. 0: it is ready at once.
    pub requeue_delay: u32,
    /// The number of connections that each seat serves, 1 or more. None: no limit.
    pub sessions: Option<u32>,
    /// True if one thread serves all seats; otherwise each seat has a thread of its own.
    pub event_loop: bool,
    /// What an event loop does with connections beyond the seats. Threads always let them wait.
    pub when_full: WhenFull,
}

impl From<BqOptions> for Options {
    fn from(bq: BqOptions) -> Options
        ensures { result ≡ of_bq bq }
    {
        Options {
            listen: None,
            still: bq.still,
            seats: 1,
            max_job_size: bq.max_job_size,
            max_jobs: bq.max_jobs,
            requeue_delay: 0,
            sessions: None,
            event_loop: false,
            when_full: WhenFull::Wait,
        }
    }
}

impl From<BqdOptions> for Options {
    fn from(bqd: BqdOptions) -> Options
        ensures { result ≡ of_bqd bqd }
    {
        Options {
            listen: Some(bqd.listen),
            still: false,
            seats: bqd.seats,
            max_job_size: bqd.max_job_size,
            max_jobs: bqd.max_jobs,
            requeue_delay: bqd.requeue_delay,
            sessions: bqd.sessions,
            event_loop: bqd.event_loop,
            when_full: bqd.when_full,
        }
    }
}

/// Why there are no options.
#[derive(Drop)]
pub enum OptionFault {
    /// The words are not options of the program. The text says why.
    BadOptions(String),
    /// Help or the version was asked for. The text is the answer.
    AskedHelp(String),
    /// An allocation failed.
    NoMemory,
}
