ghost use Rattle.std.specs.Prelude.{◌≡◌};
ghost use Rattle.bq_job.specs.beside.Codes.{answer_code};

use super::{Body, JobId, Text, TubeName};

/// An answer to a client.
#[derive(Drop)]
pub enum Answer {
    /// `INSERTED`: the put was accepted, and the job has this id.
    Inserted(JobId),
    /// `RESERVED`: the client holds this job now.
    Reserved(JobId, Body),
    /// `FOUND`: the job that was asked for.
    Found(JobId, Body),
    /// `OK`: statistics or a list, as a YAML text.
    Ok(Text),
    /// `USING`: puts go into this tube.
    Using(TubeName),
    /// `WATCHING`: the number of tubes that the client watches.
    Watching(u64),
    /// `KICKED` with a number: how many jobs became ready.
    KickedCount(u64),
    /// `KICKED`: the job became ready.
    Kicked,
    /// `DELETED`: the job was removed.
    Deleted,
    /// `RELEASED`: the client no longer holds the job; it is ready or delayed.
    Released,
    /// `BURIED`: the client no longer holds the job; it waits for a kick.
    Buried,
    /// `TOUCHED`: the job's time to run starts anew.
    Touched,
    /// `PAUSED`: the tube's pause was set.
    Paused,
    /// `NOT_FOUND`: no such job or tube, or the job is not in a state that the command accepts, for
    /// instance because another client holds it.
    NotFound,
    /// `NOT_IGNORED`: the only watched tube can't be ignored.
    NotIgnored,
    /// `DRAINING`: the server accepts no more puts.
    Draining,
    /// `OUT_OF_MEMORY`: an allocation failed, or a put found the job limit reached. The command
    /// changed nothing.
    OutOfMemory,
    /// `TIMED_OUT`: the wait ended without a job.
    TimedOut,
    /// `DEADLINE_SOON`: a job that the client holds has at most a second of its time to run left.
    DeadlineSoon,
    /// `UNKNOWN_COMMAND`: the first word of the command line names no command.
    UnknownCommand,
    /// `BAD_FORMAT`: the command line is too long, or its words do not fit its command.
    BadFormat,
    /// `JOB_TOO_BIG`: the body of a put is larger than the server accepts.
    JobTooBig,
    /// `EXPECTED_CRLF`: the body of a put is not followed by CR LF.
    ExpectedCrlf,
    /// The connection is closed. Nothing is written for it.
    Closed,
}

impl Answer {
    /// Returns the number of a refusal: 101 to 104 if the reader rejected the request, 201 to 206
    /// if the core did. Returns `None` for all other answers.
    pub fn code(&self) -> Option<u16>
        ensures { result ≡ answer_code self.now }
    {
        match self {
            Answer::UnknownCommand => Some(101),
            Answer::BadFormat => Some(102),
            Answer::JobTooBig => Some(103),
            Answer::ExpectedCrlf => Some(104),
            Answer::NotFound => Some(201),
            Answer::NotIgnored => Some(202),
            Answer::Draining => Some(203),
            Answer::OutOfMemory => Some(204),
            Answer::TimedOut => Some(205),
            Answer::DeadlineSoon => Some(206),
            _ => None,
        }
    }
}
