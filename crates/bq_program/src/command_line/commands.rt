//! The options of both programs for the parser, with their help.

use bq_job::{LARGEST_BODY, MOST_SEATS};
use clap::builder::ValueParser;
use clap::{Arg, ArgAction, Command};
use std::alloc::{AllocError, Global};

/// The version of both programs.
const VERSION: &str = "0.18.0";

/// The names of the options, by which their values are found.
pub const EVENT_LOOP: &str = "event-loop";

pub const LISTEN: &str = "listen";

pub const MAX_JOB_SIZE: &str = "max-job-size";

pub const MAX_JOBS: &str = "max-jobs";

pub const PORT: &str = "port";

pub const REQUEUE_DELAY: &str = "requeue-delay";

pub const SEATS: &str = "seats";

pub const SESSIONS: &str = "sessions";

pub const STILL: &str = "still";

pub const WHEN_FULL: &str = "when-full";

/// The values of `--when-full`. The first is the default.
pub const WAIT: &str = "wait";

pub const REFUSE: &str = "refuse";

static WAYS: &[&str] = &[WAIT, REFUSE];

const VERBOSE: &str = "verbose";

const VERSION_WORD: &str = "version";

// A command gets all its arguments at once. Each further call that may fail for lack of memory
// would be one more path on which everything is dropped, with a proof of its own.

/// Returns the command line of `bq`.
pub fn bq_command<'a>(alloc: Global) -> Result<Command<'a>, AllocError> {
    let args = vec![in alloc;
        still_arg(alloc),
        max_job_size_arg(alloc),
        max_jobs_arg(alloc),
        version_arg(alloc),
    ]?;
    Command::new(alloc, "bq")
        .version(VERSION)
        .disable_version_flag(true)
        .about("Serves one client of a work queue over standard input and output")
        .args(args)
}

/// Returns the command line of `bqd`.
pub fn bqd_command<'a>(alloc: Global) -> Result<Command<'a>, AllocError> {
    let args = vec![in alloc;
        listen_arg(alloc),
        port_arg(alloc),
        seats_arg(alloc),
        max_job_size_arg(alloc).short('z'),
        max_jobs_arg(alloc),
        requeue_delay_arg(alloc),
        sessions_arg(alloc),
        event_loop_arg(alloc),
        when_full_arg(alloc),
        verbose_arg(alloc),
        version_arg(alloc),
    ]?;
    Command::new(alloc, "bqd")
        .version(VERSION)
        .disable_version_flag(true)
        .about("Serves a work queue to many clients over TCP")
        .args(args)
}

// An option with a number, by its long name.
fn number_arg<'a>(
    alloc: Global,
    name: &'a str,
    value_name: &'a str,
    help: &'a str,
    numbers: ValueParser<'a>,
) -> Arg<'a> {
    Arg::new(alloc, name)
        .long(name)
        .value_name(value_name)
        .help(help)
        .value_parser(numbers)
}

fn still_arg<'a>(alloc: Global) -> Arg<'a> {
    Arg::new(alloc, STILL)
        .long(STILL)
        .help("The clock always reads 0; by default it is the machine's")
        .action(ArgAction::SetTrue)
}

fn listen_arg<'a>(alloc: Global) -> Arg<'a> {
    Arg::new(alloc, LISTEN)
        .short('l')
        .long(LISTEN)
        .value_name("ADDR")
        .help(
            "The address to listen at, such as 127.0.0.1:11300; the port is 11300 unless it is given",
        )
        .required(true)
}

fn port_arg<'a>(alloc: Global) -> Arg<'a> {
    let numbers = clap::value_parser!(u16).range(0..=65_535);
    number_arg(
        alloc,
        PORT,
        "PORT",
        "The port to listen at, 0 to 65535, if ADDR has none; 0 takes a free one",
        numbers,
    )
    .short('p')
}

fn seats_arg<'a>(alloc: Global) -> Arg<'a> {
    let numbers = clap::value_parser!(u16).range(1..=i64::from(MOST_SEATS));
    number_arg(
        alloc,
        SEATS,
        "N",
        "How many clients are served at a time, 1 to 256; default 16",
        numbers,
    )
}

fn sessions_arg<'a>(alloc: Global) -> Arg<'a> {
    let numbers = clap::value_parser!(u32).range(1..=4_294_967_295);
    number_arg(
        alloc,
        SESSIONS,
        "K",
        "How many connections each seat serves, 1 to 4294967295; no limit by default",
        numbers,
    )
}

fn event_loop_arg<'a>(alloc: Global) -> Arg<'a> {
    Arg::new(alloc, EVENT_LOOP)
        .long(EVENT_LOOP)
        .help("One thread serves all clients; by default each seat has a thread of its own")
        .action(ArgAction::SetTrue)
}

fn when_full_arg<'a>(alloc: Global) -> Arg<'a> {
    Arg::new(alloc, WHEN_FULL)
        .long(WHEN_FULL)
        .value_name("WAY")
        .help("What an event loop does with connections beyond the seats; default wait")
        .value_parser(ValueParser::from(WAYS))
}

fn max_job_size_arg<'a>(alloc: Global) -> Arg<'a> {
    let numbers = clap::value_parser!(u32).range(1..=i64::from(LARGEST_BODY));
    number_arg(
        alloc,
        MAX_JOB_SIZE,
        "BYTES",
        "The largest body in bytes, 1 to 1048576; default 65535",
        numbers,
    )
}

fn max_jobs_arg<'a>(alloc: Global) -> Arg<'a> {
    let numbers = clap::value_parser!(u32).range(1..=4_294_967_295);
    number_arg(
        alloc,
        MAX_JOBS,
        "N",
        "The most jobs at a time, 1 to 4294967295; no limit by default",
        numbers,
    )
}

fn requeue_delay_arg<'a>(alloc: Global) -> Arg<'a> {
    let numbers = clap::value_parser!(u32).range(0..=4_294_967_295);
    number_arg(
        alloc,
        REQUEUE_DELAY,
        "SECONDS",
        "How long a job is delayed after its connection is lost, 0 to 4294967295; default 0",
        numbers,
    )
}

// Command lines for beanstalkd have it, often more than once.
fn verbose_arg<'a>(alloc: Global) -> Arg<'a> {
    Arg::new(alloc, VERBOSE)
        .short('V')
        .help("Accepted and ignored, also if it is repeated; beanstalkd reports more with it")
        .action(ArgAction::Count)
}

// beanstalkd has the same short name.
fn version_arg<'a>(alloc: Global) -> Arg<'a> {
    Arg::new(alloc, VERSION_WORD)
        .short('v')
        .long(VERSION_WORD)
        .help("Print version")
        .action(ArgAction::Version)
}
