//! Ends to test, and operations that several tests use.
ghost use Rattle.std.specs.Prelude.{◌≡◌, ◌+◌, ◌≤◌, IfOk, length};
ghost use Rattle.bq_link.specs.EndStates.{IsPair, IsSameCore, IsSameSeat};

use bq_job::{JobId, NoMemory, Request, Seat, Step};
use bq_link::{Anything, CoreEnd, Intake, SeatEnd, links};
use std::alloc::Global;
use std::sync::Wait;

/// The intake of all tests.
pub type Shared = Intake<Anything>;

/// Returns the links of `count` seats: the intake, the core's end, the last seat's end and the
/// control line's.
pub fn last_ends(alloc: Global, count: u16) -> Result<(Shared, CoreEnd, SeatEnd, SeatEnd), NoMemory>
    requires { (1 ≤ count) × (count ≤ 256) }
    ensures core { IfOk result (λ r. r.1.intake ≡ r.0.id) }
    ensures rings { IfOk result (λ r. length r.1.rings ≡ count + 1) }
    ensures first { IfOk result (λ r. IsPair r.1 r.2) }
    ensures second { IfOk result (λ r. IsPair r.1 r.3) }
{
    let (intake, core, mut seats) = links(alloc, count)?;
    let second = seats.pop().unwrap();
    let first = seats.pop().unwrap();
    Ok((intake, core, first, second))
}

/// The steps of these tests.
#[derive(Clone, Copy)]
pub enum Did {
    Connect,
    Tick,
    Drain,
    Gone,
    /// A touch of the job with this id.
    Touch(JobId),
    /// Another step.
    Other,
}

fn kind_of(step: &Step) -> Did {
    match step {
        Step::Connect => Did::Connect,
        Step::Tick => Did::Tick,
        Step::Drain => Did::Drain,
        Step::Gone => Did::Gone,
        Step::Ask(Request::Touch { id }) => Did::Touch(*id),
        _ => Did::Other,
    }
}

// A step or an answer that goes out of scope makes its function dear to prove, and a call of `drop`
// does not.

/// Submits a step. Returns the step that comes back if the intake is full.
pub fn refused<R: Wait>(rt: &R, intake: &Shared, end: &mut SeatEnd, step: Step) -> Option<Did>
    requires { end.old.intake ≡ intake.now.id }
    ensures { IsSameSeat end.old end.new }
{
    match end.submit(rt, intake, step) {
        Ok(()) => None,
        Err(back) => {
            let kind = kind_of(&back);
            drop(back);
            Some(kind)
        }
    }
}

/// Takes a step, with the number of the end that it is from.
pub fn taken<R: Wait>(rt: &R, intake: &Shared, core: &mut CoreEnd) -> Option<(Seat, Did)>
    requires { core.old.intake ≡ intake.now.id }
    ensures { IsSameCore core.old core.new }
{
    match core.take(rt, intake) {
        Some((seat, step)) => {
            let kind = kind_of(&step);
            drop(step);
            Some((seat, kind))
        }
        None => None,
    }
}
