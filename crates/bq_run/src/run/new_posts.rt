//! The posts of a run, before its threads start.
ghost use Rattle.std.specs.Prelude.{◌≡◌, ◌++◌, ◌∷◌, ◌+◌, [], IfOk, IsTrue, map, vec_len};
ghost use Rattle.std.specs.List.{All};
ghost use Rattle.bq_core_api.specs.Limits.{is_body_size};
ghost use Rattle.bq_line.specs.Tending.{IsNewDoor, door_seen};
ghost use Rattle.bq_link.specs.NewEnds.{AreNewSeats, IsNewCore};
ghost use Rattle.bq_run.specs.Threads.{IsNewEndAt};

use crate::run::control_post::ControlPost;
use crate::run::core_post::{CorePost, NewCore};
use crate::run::posts::Posts;
use crate::run::seat_post::SeatPost;
use bq_core_api::QueueCore;
use bq_job::NoMemory;
use bq_line::Door;
use bq_line::clock::Clock;
use bq_line::control_line::ControlReader;
use bq_link::{CoreEnd, Intake, NoTicks, SeatEnd};
use std::alloc::Global;

/// Returns the posts of a run with this core, at these ends of its links.
pub fn new_posts<'a, D: Door + Drop, C: Clock + Drop, I: ControlReader + Drop, K: QueueCore + Drop>(
    alloc: Global,
    intake: &'a Intake<NoTicks>,
    new_core: NewCore<K>,
    core_end: CoreEnd,
    mut ends: Vec<SeatEnd, Global>,
    doors: Vec<D, Global>,
    clock: C,
    control: I,
) -> Result<Posts<'a, D, C, I, K>, NoMemory>
    requires of_intake { core_end.intake ≡ intake.now.id }
    requires core_end { IsNewCore (new_core.config.seats + 1) core_end }
    requires ends { AreNewSeats core_end ends.items }
    requires many { vec_len ends ≡ vec_len doors + 1 }
    requires new { All
        (λ door. IsNewDoor (door_seen D.Door door)) doors.items }
    ensures config { IfOk result (λ posts. posts.core.new_core.config ≡ new_core.config) }
    ensures core { IfOk result (λ posts. posts.core.end ≡ core_end) }
    ensures clock { IfOk result (λ posts. posts.core.clock ≡ clock) }
    ensures control { IfOk result (λ posts. posts.control.control ≡ control) }
    ensures ends { IfOk result
        (λ posts. map (λ p. p.end) posts.seats.items ++ posts.control.end ∷ [] ≡ ends.items) }
    ensures doors { IfOk result (λ posts. map (λ p. p.door) posts.seats.items ≡ doors.items) }
{
    let Some(end) = ends.pop() else {
        unreachable!()
    };
    let Ok(seats) = new_seats(alloc, new_core.config.max_job_size, intake, ends, doors) else {
        return Err(NoMemory);
    };
    Ok(Posts {
        seats,
        control: ControlPost {
            intake,
            end,
            control,
        },
        core: CorePost {
            alloc,
            intake,
            end: core_end,
            new_core,
            clock,
        },
    })
}

// Returns a post for each door, in their order.
fn new_seats<'a, D: Door + Drop>(
    alloc: Global,
    max_job_size: u32,
    intake: &'a Intake<NoTicks>,
    ends: Vec<SeatEnd, Global>,
    doors: Vec<D, Global>,
) -> Result<Vec<SeatPost<'a, D>, Global>, NoMemory>
    requires size { IsTrue (is_body_size max_job_size) }
    requires many { vec_len ends ≡ vec_len doors }
    requires new_ends { All (λ end. IsNewEndAt intake.now.id end) ends.items }
    requires new { All
        (λ door. IsNewDoor (door_seen D.Door door)) doors.items }
    ensures limits { IfOk result
        (λ posts. All (λ post. post.max_job_size ≡ max_job_size) posts.items) }
    ensures ends { IfOk result (λ posts. map (λ p. p.end) posts.items ≡ ends.items) }
    ensures doors { IfOk result (λ posts. map (λ p. p.door) posts.items ≡ doors.items) }
{
    let Ok(mut posts) = Vec::with_capacity(alloc, doors.len()) else {
        return Err(NoMemory);
    };
    let mut ends = ends.into_iter();
    for door in doors {
        let Some(end) = ends.next() else {
            unreachable!()
        };
        let Ok(post) = SeatPost::new(alloc, max_job_size, intake, end, door) else {
            return Err(NoMemory);
        };
        posts.push_reserved(post);
    }
    Ok(posts)
}
