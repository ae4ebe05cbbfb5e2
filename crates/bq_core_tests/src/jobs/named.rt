//! The first job of each kind, by hand: jobs with the names of their tubes.

ghost use Rattle.std.specs.Prelude.{◌≡◌};

use bq_job::{Body, Counts, Job, JobId, JobState, Pri, Seat, TubeName};
use bq_jobs::Jobs;
use std::alloc::Global;

// Each function that names the table takes seconds to prove.
fn rows() -> &'static [(JobId, &'static str, Pri, JobState)] {
    JOBS
}

static JOBS: &[(JobId, &str, Pri, JobState)] = &[
    (1, "ab", 0, JobState::Ready),
    (2, "a", 7, JobState::Ready),
    (3, "a", 5, JobState::Ready),
    (4, "a", 5, JobState::Ready),
    (5, "ab", 0, JobState::Delayed(10)),
    (6, "a", 9, JobState::Delayed(20)),
    (7, "a", 0, JobState::Delayed(20)),
    (8, "a", 0, JobState::Delayed(30)),
    (9, "a", 0, JobState::Buried(3)),
    (10, "a", 0, JobState::Buried(2)),
    (11, "a", 0, JobState::Buried(2)),
    (12, "ab", 0, JobState::Buried(1)),
    (13, "a", 0, JobState::Reserved(1, 6)),
    (14, "a", 0, JobState::Reserved(2, 5)),
    (15, "ab", 0, JobState::Reserved(2, 5)),
    (16, "ab", 0, JobState::Reserved(1, 4)),
];

/// A kind of job whose first one is queried, in the tube of a row.
#[derive(Clone, Copy)]
enum Kind {
    Ready,
    Delayed,
    Buried,
    Due,
    Lease,
    Held(Seat),
}

static FIRSTS: &[(Kind, &str, Option<JobId>)] = &[
    (Kind::Ready, "a", Some(3)),
    (Kind::Ready, "ab", Some(1)),
    (Kind::Delayed, "a", Some(6)),
    (Kind::Delayed, "ab", Some(5)),
    (Kind::Buried, "a", Some(10)),
    (Kind::Buried, "ab", Some(12)),
    (Kind::Ready, "abc", None),
    (Kind::Due, "a", Some(5)),
    (Kind::Lease, "a", Some(16)),
    (Kind::Held(1), "a", Some(16)),
    (Kind::Held(2), "a", Some(14)),
    (Kind::Held(0), "a", None),
];

fn job(id: JobId, tube: TubeName, pri: Pri, state: JobState, body: Body) -> Job
    ensures { result.id ≡ id }
{
    Job {
        id,
        tube,
        pri,
        delay: 0,
        ttr: 1,
        body,
        put_at: 0,
        counts: Counts::default(),
        state,
    }
}

// Adds a job in room that is reserved for it, if there is none with its id.
fn add(alloc: Global, jobs: &mut Jobs, id: JobId, name: &str, pri: Pri, state: JobState) -> bool {
    let Some(tube) = TubeName::new(name.as_bytes()) else {
        return false;
    };
    if jobs.reserve_one(alloc).is_err() || jobs.room() == 0 || jobs.get(id).is_some() {
        return false;
    }
    match Body::new(alloc, b"abc") {
        Ok(body) => {
            jobs.add(job(id, tube, pri, state, body));
            true
        }
        Err(_) => false,
    }
}

// Adds the jobs of all rows.
fn add_all(alloc: Global, jobs: &mut Jobs) -> bool {
    for (id, name, pri, state) in rows() {
        if !add(alloc, jobs, *id, *name, *pri, *state) {
            return false;
        }
    }
    jobs.len() == 16
}

fn first_of(jobs: &mut Jobs, kind: Kind, tube: &TubeName) -> Option<JobId> {
    match kind {
        Kind::Ready => jobs.first_ready(tube),
        Kind::Delayed => jobs.first_delayed(tube),
        Kind::Buried => jobs.first_buried(tube),
        Kind::Due => jobs.first_due(),
        Kind::Lease => jobs.first_lease(),
        Kind::Held(seat) => jobs.first_held(seat),
    }
}

// Returns true if the first job of a kind is this one, and it takes comparisons to find that.
fn is_first(jobs: &mut Jobs, kind: Kind, name: &str, wanted: Option<JobId>) -> bool {
    let Some(tube) = TubeName::new(name.as_bytes()) else {
        return false;
    };
    let before = jobs.comparisons();
    first_of(jobs, kind, &tube) == wanted && jobs.comparisons() > before
}

fn are_first(jobs: &mut Jobs) -> bool {
    for (kind, name, wanted) in FIRSTS {
        if !is_first(jobs, *kind, *name, *wanted) {
            return false;
        }
    }
    true
}

// Returns true if the job with this id is removed, and has the name of this tube.
fn is_removed(jobs: &mut Jobs, id: JobId, name: &str) -> bool {
    match jobs.remove(id) {
        Some(job) => {
            let is_right = job.tube.as_slice() == name.as_bytes() && job.id == id;
            drop(job);
            is_right
        }
        None => false,
    }
}

fn are_removed(jobs: &mut Jobs) -> bool {
    for (id, name, _, _) in rows() {
        if !is_removed(jobs, *id, *name) {
            return false;
        }
    }
    jobs.get(1).is_none() && jobs.len() == 0 && jobs.room() == 16
}

fn works(alloc: Global, jobs: &mut Jobs) -> bool {
    add_all(alloc, jobs) && are_first(jobs) && are_removed(jobs)
}

#[test]
fn first_of_each_kind_by_names(rt: HostRuntime) {
    let mut jobs = Jobs::new();
    let works = works(rt.alloc(), &mut jobs);
    drop(jobs);
    assert!(rt; works);
}
