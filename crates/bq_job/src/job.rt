use super::{Body, JobId, Moment, Pri, Seat, TubeName};

/// A job, from the put that made it until its deletion.
#[derive(Drop)]
pub struct Job {
    /// Given by the server, from 1 up. No two jobs have the same id.
    pub id: JobId,
    /// The tube that it was put into. It never changes.
    pub tube: TubeName,
    /// A job with a lower number is more urgent.
    pub pri: Pri,
    /// The delay of its put or of its last release, in seconds.
    pub delay: u32,
    /// How long a client may hold it, in seconds; at least 1.
    pub ttr: u32,
    pub body: Body,
    /// When its put was accepted.
    pub put_at: Moment,
    pub counts: Counts,
    pub state: JobState,
}

/// How often each thing happened to a job. A count stops at 2^64 - 1.
#[derive(Clone, Copy, Default, PartialEq, Eq)]
pub struct Counts {
    /// How often it was handed out to a client.
    pub reserves: u64,
    /// How often its time to run expired while a client held it.
    pub timeouts: u64,
    /// How often a client released it.
    pub releases: u64,
    /// How often a client buried it.
    pub buries: u64,
    /// How often a client kicked it.
    pub kicks: u64,
}

/// The state of a job. A job is in one state at a time.
#[derive(Clone, Copy, PartialEq, Eq)]
pub enum JobState {
    /// A client may reserve it, unless its tube is paused.
    Ready,
    /// Becomes ready at this moment.
    Delayed(Moment),
    /// Held by the client at this seat, until this deadline.
    Reserved(Seat, Moment),
    /// Set aside until it is kicked. Buried jobs are ordered by this number.
    Buried(u64),
}
