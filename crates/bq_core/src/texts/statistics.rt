ghost use Rattle.std.specs.Prelude.{IfOk, ◌≡◌};
ghost use Rattle.bq_core.specs.Numbers.{AreOfServer, AreOfTube};
ghost use Rattle.bq_job.specs.machine.{Machine.Machine, Statistics.{bool_word, job_statistics, pause_seconds, pause_time_left}};
ghost use Rattle.bq_job.specs.machine.Statistics.{seconds_between, server_statistics, state_word, time_left, tube_statistics};
ghost use Rattle.bq_jobs.specs.Seen.{in_tube};

use super::key_value::{number, word};
use super::lines::text_of;
use bq_job::{JobId, JobState, Moment, NoMemory, Text, TubeName};
use bq_jobs::PackedJob;
use bq_state::known::Tally;
use bq_state::tubes::Pausing;
use std::alloc::Global;

/// The statistics of a tube.
#[derive(Clone, Copy)]
pub(crate) struct TubeNumbers {
    pub(crate) jobs: Tally,
    pub(crate) puts: u64,
    pub(crate) using: u64,
    pub(crate) watching: u64,
    pub(crate) waiting: u64,
    pub(crate) deletes: u64,
    pub(crate) pauses: u64,
    pub(crate) pause: Option<Pausing>,
    /// The current moment.
    pub(crate) moment: Moment,
}

/// The statistics of the server.
#[derive(Clone, Copy)]
pub(crate) struct ServerNumbers {
    pub(crate) jobs: Tally,
    pub(crate) timeouts: u64,
    pub(crate) puts: u64,
    pub(crate) max_job_size: u32,
    /// How many tubes exist.
    pub(crate) tubes: u64,
    /// How many clients are connected.
    pub(crate) connected: u64,
    pub(crate) waiting: u64,
    /// How many connections were opened since the server started.
    pub(crate) connections: u64,
    pub(crate) draining: bool,
}

// Returns whole seconds from one moment to a later one.
fn seconds_between(earlier: Moment, later: Moment) -> u64
    ensures { result ≡ seconds_between earlier later }
{
    later.saturating_sub(earlier) / 1000
}

fn state_word(state: JobState) -> &'static [u8]
    ensures { result.now ≡ state_word state }
{
    match state {
        JobState::Ready => b"ready",
        JobState::Delayed(_) => b"delayed",
        JobState::Reserved(..) => b"reserved",
        JobState::Buried(_) => b"buried",
    }
}

// Returns the seconds until a delay or a time to run ends, otherwise 0.
fn time_left(moment: Moment, state: JobState) -> u64
    ensures { result ≡ time_left moment state }
{
    match state {
        JobState::Ready | JobState::Buried(_) => 0,
        JobState::Delayed(due) => seconds_between(moment, due),
        JobState::Reserved(_, deadline) => seconds_between(moment, deadline),
    }
}

fn pause_seconds(pause: Option<Pausing>) -> u64
    ensures { result ≡ pause_seconds pause }
{
    match pause {
        None => 0,
        Some(pause) => u64::from(pause.seconds),
    }
}

fn pause_time_left(moment: Moment, pause: Option<Pausing>) -> u64
    ensures { result ≡ pause_time_left moment pause }
{
    match pause {
        None => 0,
        Some(pause) => seconds_between(moment, pause.until),
    }
}

fn bool_word(value: bool) -> &'static [u8]
    ensures { result.now ≡ bool_word value }
{
    if value { b"true" } else { b"false" }
}

/// Returns the statistics of a job with this record, id and tube, at this moment.
pub(crate) fn job_text(
    alloc: Global,
    id: JobId,
    job: &PackedJob,
    tube: &TubeName,
    moment: Moment,
) -> Result<Text, NoMemory>
    requires id { id ≡ job.now.id }
    ensures { IfOk result
        (λ text. (m : Machine) → m.moment ≡ moment
        → text ≡ job_statistics m (in_tube job.now tube.now)) }
{
    let lines = [
        number(b"id", id),
        word(b"tube", tube.as_slice()),
        word(b"state", state_word(job.state())),
        number(b"pri", u64::from(job.pri)),
        number(b"age", seconds_between(job.put_at, moment)),
        number(b"delay", u64::from(job.delay)),
        number(b"ttr", u64::from(job.ttr())),
        number(b"time-left", time_left(moment, job.state())),
        number(b"reserves", job.counts.reserves),
        number(b"timeouts", job.counts.timeouts),
        number(b"releases", job.counts.releases),
        number(b"buries", job.counts.buries),
        number(b"kicks", job.counts.kicks),
    ];
    text_of(alloc, &lines)
}

/// Returns the statistics of the tube with this name.
pub(crate) fn tube_text(
    alloc: Global,
    name: &TubeName,
    numbers: &TubeNumbers,
) -> Result<Text, NoMemory>
    ensures { IfOk result
        (λ text. (m : Machine) → AreOfTube numbers.now name.now m
        → text ≡ tube_statistics name.now m) }
{
    let lines = [
        word(b"name", name.as_slice()),
        number(b"current-jobs-urgent", numbers.jobs.urgent),
        number(b"current-jobs-ready", numbers.jobs.ready),
        number(b"current-jobs-reserved", numbers.jobs.reserved),
        number(b"current-jobs-delayed", numbers.jobs.delayed),
        number(b"current-jobs-buried", numbers.jobs.buried),
        number(b"total-jobs", numbers.puts),
        number(b"current-using", numbers.using),
        number(b"current-watching", numbers.watching),
        number(b"current-waiting", numbers.waiting),
        number(b"cmd-delete", numbers.deletes),
        number(b"cmd-pause-tube", numbers.pauses),
        number(b"pause", pause_seconds(numbers.pause)),
        number(
            b"pause-time-left",
            pause_time_left(numbers.moment, numbers.pause),
        ),
    ];
    text_of(alloc, &lines)
}

/// Returns the statistics of the server.
pub(crate) fn server_text(alloc: Global, numbers: &ServerNumbers) -> Result<Text, NoMemory>
    ensures { IfOk result
        (λ text. (m : Machine) → AreOfServer numbers.now m → text ≡ server_statistics m) }
{
    let lines = [
        number(b"current-jobs-urgent", numbers.jobs.urgent),
        number(b"current-jobs-ready", numbers.jobs.ready),
        number(b"current-jobs-reserved", numbers.jobs.reserved),
        number(b"current-jobs-delayed", numbers.jobs.delayed),
        number(b"current-jobs-buried", numbers.jobs.buried),
        number(b"job-timeouts", numbers.timeouts),
        number(b"total-jobs", numbers.puts),
        number(b"max-job-size", u64::from(numbers.max_job_size)),
        number(b"current-tubes", numbers.tubes),
        number(b"current-connections", numbers.connected),
        number(b"current-waiting", numbers.waiting),
        number(b"total-connections", numbers.connections),
        word(b"draining", bool_word(numbers.draining)),
    ];
    text_of(alloc, &lines)
}
