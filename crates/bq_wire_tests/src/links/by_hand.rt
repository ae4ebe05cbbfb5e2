//! Steps and answers through the links of one seat, by hand.
ghost use Rattle.std.specs.Prelude.{◌≡◌, ◌<◌, length};
ghost use Rattle.bq_link.specs.EndStates.{IsPair, IsSameCore, IsSameSeat};

use crate::links::bells::end_waits;
use crate::links::ends::{Did, Shared, last_ends, refused, taken};
use crate::links::in_order::take_in_order;
use bq_job::{Answer, JobId, Step};
use bq_link::{CoreEnd, SeatEnd};
use std::alloc::Global;
use std::ops::Range;
use std::sync::Wait;
use std::thread::Threads;
use std::time::Clock;

// Stands for an answer that is not there.
const NONE: JobId = JobId::MAX;

// Returns the id in an answer that has one.
fn id_in(answer: &Answer) -> JobId {
    match answer {
        Answer::Inserted(id) => *id,
        _ => 0,
    }
}

// Returns the id in the next answer in the mail of an end.
fn next_id(end: &mut SeatEnd) -> JobId
    ensures { IsSameSeat end.old end.new }
{
    match end.mail() {
        Some(answer) => {
            let id = id_in(&answer);
            drop(answer);
            id
        }
        None => NONE,
    }
}

// Does the same, but takes an answer only if it is known to wait.
fn known_id(end: &mut SeatEnd) -> JobId
    ensures { IsSameSeat end.old end.new }
{
    if !end.has_mail() {
        return NONE;
    }
    let answer = end.take_mail();
    let id = id_in(&answer);
    drop(answer);
    id
}

// Returns true if the intake has room for four steps and returns the fifth.
fn fills<R: Wait>(rt: &R, intake: &Shared, first: &mut SeatEnd, second: &mut SeatEnd) -> bool
    requires first { first.old.intake ≡ intake.now.id }
    requires second { second.old.intake ≡ intake.now.id }
    ensures first { IsSameSeat first.old first.new }
    ensures second { IsSameSeat second.old second.new }
{
    refused(rt, intake, first, Step::Connect).is_none()
        && refused(rt, intake, first, Step::Tick).is_none()
        && refused(rt, intake, first, Step::Tick).is_none()
        && refused(rt, intake, second, Step::Drain).is_none()
        && matches!(refused(rt, intake, second, Step::Gone), Some(Did::Gone))
}

// Returns true if the core takes the four steps, and then none.
fn empties<R: Wait>(rt: &R, intake: &Shared, core: &mut CoreEnd) -> bool
    requires { core.old.intake ≡ intake.now.id }
    ensures { IsSameCore core.old core.new }
{
    matches!(taken(rt, intake, core), Some((0, Did::Connect)))
        && matches!(taken(rt, intake, core), Some((0, Did::Tick)))
        && matches!(taken(rt, intake, core), Some((0, Did::Tick)))
        && matches!(taken(rt, intake, core), Some((1, Did::Drain)))
        && taken(rt, intake, core).is_none()
}

// Returns true if the intake is filled and emptied, and then has room for one more step.
fn fills_and_empties<R: Wait>(
    rt: &R,
    intake: &Shared,
    core: &mut CoreEnd,
    first: &mut SeatEnd,
    second: &mut SeatEnd,
) -> bool
    requires core { core.old.intake ≡ intake.now.id }
    requires first { first.old.intake ≡ intake.now.id }
    requires second { second.old.intake ≡ intake.now.id }
{
    if first.number() != 0 || second.number() != 1 || !fills(rt, intake, first, second) {
        return false;
    }
    core.compare(intake, first);
    empties(rt, intake, core) && refused(rt, intake, second, Step::Gone).is_none()
}

// Sends the first end the answer with this id. Returns the id in the answer that comes back if the
// ring is full.
fn unsent_id(core: &mut CoreEnd, id: JobId) -> JobId
    requires { 0 < length core.old.rings }
    ensures { IsSameCore core.old core.new }
{
    match core.send(0, Answer::Inserted(id)) {
        Ok(()) => NONE,
        Err(back) => {
            let id = id_in(&back);
            drop(back);
            id
        }
    }
}

// Sends the first end the answers with these ids, and returns true if each of them found room.
fn send_all(core: &mut CoreEnd, ids: Range<JobId>) -> bool
    requires { 0 < length core.old.rings }
    ensures { IsSameCore core.old core.new }
{
    for id in ids {
        if unsent_id(core, id) != NONE {
            return false;
        }
    }
    true
}

// Returns true if the mail of an end begins with the answers with these ids. If `looks`, each is
// taken only once it is known to wait.
fn has_mail(end: &mut SeatEnd, ids: Range<JobId>, looks: bool) -> bool
    ensures { IsSameSeat end.old end.new }
{
    for id in ids {
        let found = if looks { known_id(end) } else { next_id(end) };
        if found != id {
            return false;
        }
    }
    true
}

// Returns true if its ring has room for four answers and returns the fifth.
fn fills_ring(core: &mut CoreEnd) -> bool
    requires { 0 < length core.old.rings }
    ensures { IsSameCore core.old core.new }
{
    send_all(core, 1..5) && unsent_id(core, 5) == 5
}

// Returns true if the first end takes one answer of four, then three are left, and then none.
fn empties_ring(core: &mut CoreEnd, first: &mut SeatEnd) -> bool
    requires pair { IsPair core.old first.old }
    ensures core { IsSameCore core.old core.new }
    ensures first { IsSameSeat first.old first.new }
{
    has_mail(first, 1..2, false)
        && core.left(first) == 3
        && has_mail(first, 2..5, false)
        && next_id(first) == NONE
        && core.left(first) == 0
}

// Returns true if the ring of the first end is filled and emptied twice, and the second end has no
// mail.
fn fills_and_empties_ring(core: &mut CoreEnd, first: &mut SeatEnd, second: &mut SeatEnd) -> bool
    requires pair { IsPair core.old first.old }
    requires some { 0 < length core.old.rings }
{
    fills_ring(core)
        && next_id(second) == NONE
        && empties_ring(core, first)
        && send_all(core, 5..9)
        && has_mail(first, 5..9, true)
        && !first.has_mail()
}

/// A part of the links.
#[derive(Clone, Copy)]
pub enum Part {
    Intake,
    Ring,
    Bells,
    /// The intake, with threads that submit at the same time.
    Order,
}

// Returns true if this part of the links works.
fn is_working<R: Clock + Threads + Wait + Sync>(
    rt: &R,
    intake: &Shared,
    core: &mut CoreEnd,
    first: &mut SeatEnd,
    second: &mut SeatEnd,
    part: Part,
) -> bool
    requires core { core.old.intake ≡ intake.now.id }
    requires pair { IsPair core.old first.old }
    requires second { second.old.intake ≡ intake.now.id }
    requires some { 0 < length core.old.rings }
{
    match part {
        Part::Intake => fills_and_empties(rt, intake, core, first, second),
        Part::Ring => fills_and_empties_ring(core, first, second),
        Part::Bells => end_waits(rt, intake, core, first, second),
        Part::Order => take_in_order(rt, intake, core, first, second),
    }
}

/// Returns true if this part of new links works. A function that owns the ends is dear to prove.
pub fn works<R: Clock + Threads + Wait + Sync>(rt: &R, alloc: Global, part: Part) -> bool {
    match last_ends(alloc, 1) {
        Ok((intake, mut core, mut first, mut second)) => {
            let works = is_working(rt, &intake, &mut core, &mut first, &mut second, part);
            drop(intake);
            drop(core);
            drop(first);
            drop(second);
            works
        }
        Err(_) => false,
    }
}

fn all_work<R: Clock + Threads + Wait + Sync>(rt: &R, alloc: Global) -> bool {
    works(rt, alloc, Part::Intake) && works(rt, alloc, Part::Ring) && works(rt, alloc, Part::Bells)
}

#[test]
fn links_by_hand(rt: HostRuntime) {
    assert!(rt; all_work(&rt, rt.alloc()));
}
