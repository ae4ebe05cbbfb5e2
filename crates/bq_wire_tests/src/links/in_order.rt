//! Seats that submit numbered steps from threads of their own. The core takes each step once, and
//! those of a seat in order.
ghost use Rattle.std.specs.Prelude.{◌≡◌};

use crate::links::by_hand::{Part, works};
use crate::links::ends::{Did, Shared, refused, taken};
use bq_job::{JobId, Request, Step};
use bq_link::{CoreEnd, SeatEnd};
use std::sync::Wait;
use std::thread;
use std::thread::Threads;

// The number of steps that each seat submits.
const STEPS: JobId = 1000;

// Returns true if the touch is of the next job, which then is the one after it.
fn is_next(next: &mut JobId, id: JobId) -> bool {
    let is_right = id == *next;
    *next = id.wrapping_add(1);
    is_right
}

// Submits a touch, and tries again while the intake is full.
fn submit_one<R: Wait>(rt: &R, intake: &Shared, end: &mut SeatEnd, id: JobId)
    requires { end.old.intake ≡ intake.now.id }
    ensures { end.new.intake ≡ end.old.intake }
{
    for _ in rt.forever() {
        let touch = Step::Ask(Request::Touch { id });
        if refused(rt, intake, end, touch).is_none() {
            return;
        }
        thread::yield_now();
    }
    unreachable!()
}

// Submits touches of the jobs from 1 on.
fn submit_all<R: Wait>(rt: &R, intake: &Shared, end: &mut SeatEnd)
    requires { end.old.intake ≡ intake.now.id }
{
    for id in 0..STEPS {
        submit_one(rt, intake, end, id + 1);
    }
}

// Takes a step, if one waits. Returns whether it was the next touch of its seat.
fn takes_next<R: Wait>(
    rt: &R,
    intake: &Shared,
    core: &mut CoreEnd,
    first: &mut JobId,
    second: &mut JobId,
) -> Option<bool>
    requires { core.old.intake ≡ intake.now.id }
    ensures { core.new.intake ≡ core.old.intake }
{
    match taken(rt, intake, core) {
        Some((0, Did::Touch(id))) => Some(is_next(first, id)),
        Some((1, Did::Touch(id))) => Some(is_next(second, id)),
        Some(_) => Some(false),
        None => None,
    }
}

// Takes all steps of two seats, and returns true if each seat's were its touches, once and in
// order.
fn take_all<R: Wait>(rt: &R, intake: &Shared, core: &mut CoreEnd) -> bool
    requires { core.old.intake ≡ intake.now.id }
{
    let mut first: JobId = 1;
    let mut second: JobId = 1;
    let mut taken: u64 = 0;
    for _ in rt.forever() {
        match takes_next(rt, intake, core, &mut first, &mut second) {
            Some(true) => taken = taken.wrapping_add(1),
            Some(false) => return false,
            None => thread::yield_now(),
        }
        if taken == 2 * STEPS {
            break;
        }
    }
    first == STEPS + 1
        && second == STEPS + 1
        && takes_next(rt, intake, core, &mut first, &mut second).is_none()
}

fn submit_two<R: Threads + Wait + Sync>(rt: &R, intake: &Shared, a: &mut SeatEnd, b: &mut SeatEnd)
    requires first { a.old.intake ≡ intake.now.id }
    requires second { b.old.intake ≡ intake.now.id }
{
    thread::join(
        rt,
        move ||
            requires { a.now.intake ≡ intake.now.id }
        { submit_all(rt, intake, a) },
        move ||
            requires { b.now.intake ≡ intake.now.id }
        { submit_all(rt, intake, b) },
    );
}

/// Returns true if the core takes the steps of two seats, each once, and those of a seat in order.
/// The seats submit 2,000 steps through an intake of four places, so that many find it full and are
/// tried again.
pub fn take_in_order<R: Threads + Wait + Sync>(
    rt: &R,
    intake: &Shared,
    core: &mut CoreEnd,
    a: &mut SeatEnd,
    b: &mut SeatEnd,
) -> bool
    requires core { core.old.intake ≡ intake.now.id }
    requires first { a.old.intake ≡ intake.now.id }
    requires second { b.old.intake ≡ intake.now.id }
{
    let (_, are_in_order) = thread::join(
        rt,
        move ||
            requires { (a.now.intake ≡ intake.now.id) × (b.now.intake ≡ intake.now.id) }
        { submit_two(rt, intake, a, b) },
        move ||
            requires { core.now.intake ≡ intake.now.id }
        { take_all(rt, intake, core) },
    );
    are_in_order
}

#[test]
fn two_seats_in_order(rt: HostRuntime) {
    assert!(rt; works(&rt, rt.alloc(), Part::Order));
}
