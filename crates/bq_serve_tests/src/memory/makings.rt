//! Calls that allocate: each succeeds, or fails and changes nothing.
ghost use Rattle.std.specs.Prelude.{◌<◌};

use super::outcome::{Outcome, tells};
use bq_core::{Core, CoreFault, Outs};
use bq_host::RunFault;
use bq_index::Shelf;
use bq_job::{Body, Counts, Job, JobState, TubeName, USUAL_BODY};
use bq_jobs::Jobs;
use bq_link::{Anything, links};
use bq_scenes::settings::config;
use bq_seat::SeatMachine;
use bq_serve::Locked;
use bq_wire::RequestReader;
use std::alloc::Global;

fn made_or_refused(is_made: bool) -> Outcome {
    if is_made {
        Outcome::Made
    } else {
        Outcome::Refused
    }
}

// A new shelf gets three boxes, one allocation each. Those before a failed one are kept.
fn boxes(alloc: Global) -> Outcome {
    let mut shelf: Shelf<u64, u64> = Shelf::new();
    let is_made = shelf.reserve(alloc, 3).is_ok();
    let spare = shelf.spare();
    drop(shelf);
    match (is_made, spare) {
        (true, 3) => Outcome::Made,
        (true, _) => Outcome::Wrong,
        (false, spare) => Outcome::Kept(spare),
    }
}

// A shelf with one entry gets room for four more.
fn shelf(alloc: Global) -> Outcome {
    let mut shelf: Shelf<u64, u64> = Shelf::new();
    let outcome = grown_shelf(alloc, &mut shelf);
    drop(shelf);
    outcome
}

// Reserves room in a new shelf, and adds an entry.
fn grown_shelf(alloc: Global, shelf: &mut Shelf<u64, u64>) -> Outcome {
    if shelf.reserve(alloc, 3).is_err() || shelf.spare() == 0 || shelf.get(&7).is_some() {
        return Outcome::NotBegun;
    }
    shelf.insert(7, 70);
    let before = shelf.spare();
    let is_made = shelf.reserve(alloc, 4).is_ok();
    let spare = shelf.spare();
    if !has_one(shelf) || spare < before || is_made != (spare >= 4) {
        return Outcome::Wrong;
    }
    made_or_refused(is_made)
}

fn has_one(shelf: &mut Shelf<u64, u64>) -> bool {
    shelf.len() == 1 && matches!(shelf.get(&7), Some(70))
}

// A collection with one job gets room for one more.
fn jobs(alloc: Global) -> Outcome {
    let mut jobs = Jobs::new();
    let outcome = grown_jobs(alloc, &mut jobs);
    drop(jobs);
    outcome
}

fn grown_jobs(alloc: Global, jobs: &mut Jobs) -> Outcome {
    if !has_added(alloc, jobs) {
        return Outcome::NotBegun;
    }
    let is_made = jobs.reserve_one(alloc).is_ok();
    let is_same = jobs.len() == 1 && jobs.get(1).is_some();
    if is_same && is_made == (jobs.room() == 1) {
        made_or_refused(is_made)
    } else {
        Outcome::Wrong
    }
}

// Adds a job, and returns true if there was memory for it.
fn has_added(alloc: Global, jobs: &mut Jobs) -> bool {
    if jobs.reserve_one(alloc).is_err() || jobs.room() == 0 {
        return false;
    }
    match Body::new(alloc, b"abc") {
        Ok(body) => add(jobs, body),
        Err(_) => false,
    }
}

// Adds a job to a collection with room for it. Returns false if there is one with its id.
fn add(jobs: &mut Jobs, body: Body) -> bool
    requires { 0 < jobs.old.room }
{
    let Some(tube) = TubeName::new(b"default") else {
        drop(body);
        return false;
    };
    if jobs.get(1).is_some() {
        drop(body);
        return false;
    }
    jobs.add(Job {
        id: 1,
        tube,
        pri: 0,
        delay: 0,
        ttr: 1,
        body,
        put_at: 0,
        counts: Counts::default(),
        state: JobState::Ready,
    });
    true
}

fn core(alloc: Global) -> Outcome {
    match Core::new(alloc, config(2, USUAL_BODY)) {
        Ok(core) => {
            drop(core);
            Outcome::Made
        }
        Err(CoreFault::NoMemory) => Outcome::Refused,
        Err(_) => Outcome::Wrong,
    }
}

// The state under the lock, with a journal.
fn lock(alloc: Global) -> Outcome {
    match Locked::new(alloc, config(2, USUAL_BODY), 10) {
        Ok(locked) => {
            drop(locked);
            Outcome::Made
        }
        Err(RunFault::NoMemory) => Outcome::Refused,
        Err(_) => Outcome::Wrong,
    }
}

fn outs(alloc: Global) -> Outcome {
    let outs = Outs::new(alloc, 2);
    let is_made = outs.is_ok();
    drop(outs);
    made_or_refused(is_made)
}

fn links_of_two(alloc: Global) -> Outcome {
    let links = links::<Anything>(alloc, 2);
    let is_made = links.is_ok();
    drop(links);
    made_or_refused(is_made)
}

fn reader(alloc: Global) -> Outcome {
    made_or_refused(RequestReader::new(alloc, USUAL_BODY).is_ok())
}

fn seat(alloc: Global) -> Outcome {
    made_or_refused(SeatMachine::new(alloc, USUAL_BODY).is_ok())
}

/// Makes each of them in turn. Returns false if an outcome could not be printed.
pub fn tells_all(rt: &HostRuntime, alloc: Global) -> bool {
    tells(rt, "boxes", boxes(alloc))
        && tells(rt, "shelf", shelf(alloc))
        && tells(rt, "jobs", jobs(alloc))
        && tells(rt, "core", core(alloc))
        && tells(rt, "outs", outs(alloc))
        && tells(rt, "links", links_of_two(alloc))
        && tells(rt, "reader", reader(alloc))
        && tells(rt, "seat", seat(alloc))
        && tells(rt, "lock", lock(alloc))
}
