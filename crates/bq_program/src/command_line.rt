//! Reads the options of either program from the words of its command line.
ghost use Rattle.std.specs.Prelude.{◌≡◌, ◌≤◌, ℕ, IfOk, IfSome, None, Some};
ghost use Rattle.bq_program.specs.Chosen.{AreInRange};
ghost use Rattle.bq_program.specs.Ranges.{IsForBq, IsForBqd};

use crate::address::{is_port_readable, listen_word};
use crate::chosen::{BqOptions, BqdOptions, OptionFault, Options, WhenFull};
use crate::program::Program;
use bq_job::{LARGEST_BODY, MOST_SEATS, USUAL_BODY};
use clap::error::ErrorKind;
use clap::{ArgMatches, Command};
use commands::{
    EVENT_LOOP, LISTEN, MAX_JOB_SIZE, MAX_JOBS, PORT, REFUSE, REQUEUE_DELAY, SEATS, SESSIONS,
    STILL, WHEN_FULL, bq_command, bqd_command,
};
use std::alloc::{AllocError, Global};
use std::convert::AsStr;

mod commands;

/// The number of seats of a server, unless chosen.
const USUAL_SEATS: u16 = 16;

/// Returns the options in the words of a program. The first word is the program's name.
///
/// The error is `AskedHelp` if help or the version was asked for, `BadOptions` if the words are not options of the
/// program or a number is out of its range, and `NoMemory` if an allocation failed.
pub fn options<'a, S: AsStr>(
    alloc: Global,
    program: Program,
    words: &'a [S],
) -> Result<Options, OptionFault>
    ensures { IfOk result (λ o. AreInRange program o) }
{
    match program {
        Program::Bq => of_bq_words(alloc, words),
        Program::Bqd => of_bqd_words(alloc, words),
    }
}

fn of_bq_words<'a, S: AsStr>(alloc: Global, words: &'a [S]) -> Result<Options, OptionFault>
    ensures { IfOk result (λ o. AreInRange Program.Bq o) }
{
    match bq_options(alloc, words) {
        Ok(bq) => Ok(Options::from(bq)),
        Err(fault) => Err(fault),
    }
}

fn of_bqd_words<'a, S: AsStr>(alloc: Global, words: &'a [S]) -> Result<Options, OptionFault>
    ensures { IfOk result (λ o. AreInRange Program.Bqd o) }
{
    match bqd_options(alloc, words) {
        Ok(bqd) => Ok(Options::from(bqd)),
        Err(fault) => Err(fault),
    }
}

impl From<AllocError> for OptionFault {
    fn from(_e: AllocError) -> OptionFault {
        OptionFault::NoMemory
    }
}

/// Returns the options in the words of `bq`. The first word is the program's name. The errors are those of `options`.
pub fn bq_options<'a, S: AsStr>(alloc: Global, words: &'a [S]) -> Result<BqOptions, OptionFault>
    ensures { IfOk result (λ o. IsForBq o) }
{
    let matches = matches_of(alloc, bq_command(alloc), words)?;
    Ok(bq_chosen(&matches))
}

/// Returns the options in the words of `bqd`. The first word is the program's name. The errors are those of `options`.
pub fn bqd_options<'a, S: AsStr>(alloc: Global, words: &'a [S]) -> Result<BqdOptions, OptionFault>
    ensures { IfOk result (λ o. IsForBqd o) }
{
    let matches = matches_of(alloc, bqd_command(alloc), words)?;
    bqd_chosen(alloc, &matches)
}

// Parses the words by a command, if there was memory for that.
fn matches_of<'a, S: AsStr>(
    alloc: Global,
    command: Result<Command<'a>, AllocError>,
    words: &'a [S],
) -> Result<ArgMatches<'a>, OptionFault> {
    match command?.try_get_matches_from(words) {
        Ok(matches) => Ok(matches),
        Err(e) => Err(fault_of(alloc, &e)),
    }
}

// The parser rejects numbers that are out of range. The bounds here let the contracts say so.

fn max_job_size(asked: Option<u32>) -> u32
    ensures least { 1 ≤ result }
    ensures most { result ≤ LARGEST_BODY }
    ensures usual { asked ≡ None → result ≡ USUAL_BODY }
    ensures chosen { (bytes : ℕ) → asked ≡ Some bytes
        → 1 ≤ bytes → bytes ≤ LARGEST_BODY → result ≡ bytes }
{
    asked.unwrap_or(USUAL_BODY).clamp(1, LARGEST_BODY)
}

fn seats(asked: Option<u16>) -> u16
    ensures least { 1 ≤ result }
    ensures most { result ≤ MOST_SEATS }
    ensures usual { asked ≡ None → result ≡ USUAL_SEATS }
    ensures chosen { (many : ℕ) → asked ≡ Some many → 1 ≤ many → many ≤ MOST_SEATS → result ≡ many }
{
    asked.unwrap_or(USUAL_SEATS).clamp(1, MOST_SEATS)
}

// The parser rejects other words than the two.
fn when_full(matches: &ArgMatches<'_>) -> WhenFull {
    match matches.get_str(WHEN_FULL) {
        Some(word) if word == REFUSE => WhenFull::Refuse,
        _ => WhenFull::Wait,
    }
}

// A number that may be left out: the connections of each seat, or the limit on jobs.
fn count(asked: Option<u32>) -> Option<u32>
    ensures least { IfSome result (λ k. 1 ≤ k) }
    ensures left_out { asked ≡ None → result ≡ None }
    ensures chosen { (many : ℕ) → asked ≡ Some many → 1 ≤ many → result ≡ Some many }
{
    match asked {
        None => None,
        Some(many) => Some(many.max(1)),
    }
}

fn bq_chosen(matches: &ArgMatches<'_>) -> BqOptions
    ensures { IsForBq result }
{
    BqOptions {
        still: matches.get_flag(STILL),
        max_job_size: max_job_size(matches.get_one::<u32>(MAX_JOB_SIZE)),
        max_jobs: count(matches.get_one::<u32>(MAX_JOBS)),
    }
}

fn bqd_chosen(alloc: Global, matches: &ArgMatches<'_>) -> Result<BqdOptions, OptionFault>
    ensures { IfOk result (λ o. IsForBqd o) }
{
    // The parser rejects words without an address.
    let address = matches.get_str(LISTEN).unwrap_or("");
    let port = matches.get_one::<u16>(PORT);
    if port.is_none() && !is_port_readable(address) {
        return Err(bad_words(
            alloc,
            "the port of '--listen <ADDR>' is not a number from 0 to 65535",
        ));
    }
    let when_full = when_full(matches);
    let event_loop = matches.get_flag(EVENT_LOOP);
    if when_full == WhenFull::Refuse && !event_loop {
        return Err(bad_words(alloc, "'--when-full refuse' needs '--event-loop'"));
    }
    let listen = listen_word(alloc, address, port)?;
    Ok(BqdOptions {
        listen,
        seats: seats(matches.get_one::<u16>(SEATS)),
        max_job_size: max_job_size(matches.get_one::<u32>(MAX_JOB_SIZE)),
        max_jobs: count(matches.get_one::<u32>(MAX_JOBS)),
        requeue_delay: matches.get_one::<u32>(REQUEUE_DELAY).unwrap_or(0),
        sessions: count(matches.get_one::<u32>(SESSIONS)),
        event_loop,
        when_full,
    })
}

// Returns the fault of words that the parser takes, in the form that it has for others.
fn bad_words(alloc: Global, why: &str) -> OptionFault {
    match format!(in alloc; "error: {why}\n\nFor more information, try '--help'.\n") {
        Ok(text) => OptionFault::BadOptions(text),
        Err(_) => OptionFault::NoMemory,
    }
}

// Returns the text of the parser: help and the version go to standard output, errors to standard error.
fn fault_of(alloc: Global, e: &clap::Error) -> OptionFault {
    if e.kind() == ErrorKind::OutOfMemory {
        return OptionFault::NoMemory;
    }
    match format!(in alloc; "{e}") {
        Err(_) => OptionFault::NoMemory,
        Ok(text) => {
            if e.use_stderr() {
                OptionFault::BadOptions(text)
            } else {
                OptionFault::AskedHelp(text)
            }
        }
    }
}
