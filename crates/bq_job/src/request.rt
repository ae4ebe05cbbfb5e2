ghost use Rattle.std.specs.Prelude.{◌≡◌, IfOk, IsErr, IsTrue};
ghost use Rattle.bq_job.specs.beside.StepBody.{request_has_body};

use super::{Body, JobId, NoMemory, Pri, Refusal, TubeName};

/// A request of a client, as the reader returns it. Delays, times to run and timeouts are in
/// seconds.
#[derive(Drop)]
pub enum Request {
    /// `put`: a new job in the used tube.
    Put {
        pri: Pri,
        delay: u32,
        ttr: u32,
        body: Body,
    },
    /// `reserve`: wait for a job without a time limit.
    Reserve,
    /// `reserve-with-timeout`: wait for a job for at most `seconds`.
    ReserveWithTimeout {
        seconds: u32,
    },
    /// `reserve-job`: reserve this job, unless it is already reserved.
    ReserveJob {
        id: JobId,
    },
    /// `delete`: remove a job.
    Delete {
        id: JobId,
    },
    /// `release`: give up a reserved job; it is ready again, with this priority, after this delay.
    Release {
        id: JobId,
        pri: Pri,
        delay: u32,
    },
    /// `bury`: set a reserved job aside, with this priority, until it is kicked.
    Bury {
        id: JobId,
        pri: Pri,
    },
    /// `touch`: restart a reserved job's time to run.
    Touch {
        id: JobId,
    },
    /// `kick`: make at most `bound` buried jobs of the used tube ready or, if none is buried,
    /// delayed ones.
    Kick {
        bound: u32,
    },
    /// `kick-job`: make a buried or delayed job ready.
    KickJob {
        id: JobId,
    },
    /// `use`: put into this tube from now on.
    Use {
        tube: TubeName,
    },
    /// `list-tube-used`: name the used tube.
    ListTubeUsed,
    /// `watch`: also reserve from this tube.
    Watch {
        tube: TubeName,
    },
    /// `ignore`: no longer reserve from this tube.
    Ignore {
        tube: TubeName,
    },
    /// `peek`: show a job.
    Peek {
        id: JobId,
    },
    /// `peek-ready`: show the most urgent ready job of the used tube.
    PeekReady,
    /// `peek-delayed`: show the delayed job of the used tube that is due first.
    PeekDelayed,
    /// `peek-buried`: show the buried job of the used tube that was buried first.
    PeekBuried,
    /// `pause-tube`: hand out no job of this tube for `delay` seconds.
    PauseTube {
        tube: TubeName,
        delay: u32,
    },
    /// `stats-job`: the statistics of a job.
    StatsJob {
        id: JobId,
    },
    /// `stats-tube`: the statistics of a tube.
    StatsTube {
        tube: TubeName,
    },
    /// `stats`: the statistics of the server.
    Stats,
    /// `list-tubes`: the names of all tubes.
    ListTubes,
    /// `list-tubes-watched`: the names of the tubes that the client watches.
    ListTubesWatched,
    /// `quit`: close the connection.
    Quit,
    /// Bytes that are no request, or a put that can't be accepted.
    Refused(Refusal),
}

impl Request {
    /// Returns a copy of the request that shares a put's body. It allocates nothing, and fails only
    /// if `Arc` refuses another reference to that body.
    pub fn share(&self) -> Result<Request, NoMemory>
        ensures same { IfOk result (λ request. request ≡ self.now) }
        ensures refused { IsErr result → IsTrue (request_has_body self.now) }
    {
        Ok(match *self {
            Request::Put {
                pri,
                delay,
                ttr,
                ref body,
            } => {
                let body = body.share()?;
                Request::Put {
                    pri,
                    delay,
                    ttr,
                    body,
                }
            }
            Request::Reserve => Request::Reserve,
            Request::ReserveWithTimeout { seconds } => Request::ReserveWithTimeout { seconds },
            Request::ReserveJob { id } => Request::ReserveJob { id },
            Request::Delete { id } => Request::Delete { id },
            Request::Release { id, pri, delay } => Request::Release { id, pri, delay },
            Request::Bury { id, pri } => Request::Bury { id, pri },
            Request::Touch { id } => Request::Touch { id },
            Request::Kick { bound } => Request::Kick { bound },
            Request::KickJob { id } => Request::KickJob { id },
            Request::Use { tube } => Request::Use { tube },
            Request::ListTubeUsed => Request::ListTubeUsed,
            Request::Watch { tube } => Request::Watch { tube },
            Request::Ignore { tube } => Request::Ignore { tube },
            Request::Peek { id } => Request::Peek { id },
            Request::PeekReady => Request::PeekReady,
            Request::PeekDelayed => Request::PeekDelayed,
            Request::PeekBuried => Request::PeekBuried,
            Request::PauseTube { tube, delay } => Request::PauseTube { tube, delay },
            Request::StatsJob { id } => Request::StatsJob { id },
            Request::StatsTube { tube } => Request::StatsTube { tube },
            Request::Stats => Request::Stats,
            Request::ListTubes => Request::ListTubes,
            Request::ListTubesWatched => Request::ListTubesWatched,
            Request::Quit => Request::Quit,
            Request::Refused(refusal) => Request::Refused(refusal),
        })
    }
}
