//! The threads of a run. They start together or not at all, and return what they served.
ghost use Rattle.std.specs.Prelude.{◌≡◌, ◌<◌, ◌≤◌, [], IfOk, IsErrOf, map, vec_capacity, vec_len};
ghost use Rattle.bq_line.specs.Tending.{AreSame, door_seen};
ghost use Rattle.bq_run.specs.Threads.{AreServed, IsControlOver, IsCoreOver};

use crate::run::posts::{Ended, Posts};
use bq_core_api::QueueCore;
use bq_host::{RunFault, serve_crew_beside};
use bq_job::NoMemory;
use bq_line::Door;
use bq_line::clock::Clock;
use bq_line::control_line::ControlReader;
use bq_line::line::Line;
use bq_link::SeatEnd;
use std::alloc::Global;
use std::sync::Wait;
use std::thread::Threads;

/// Serves all posts: those of the seats and of the core each in a thread of its own, and the
/// control line in this thread. The threads begin after all of them were started.
pub fn serve_posts<
    R: Threads + Wait + Sync,
    L: Line + Drop + Send,
    D: Door<Line = L> + Drop + Send,
    C: Clock + Drop + Send,
    I: ControlReader + Drop,
    K: QueueCore + Drop + Send,
>(rt: &R, alloc: Global, posts: Posts<'_, D, C, I, K>) -> Result<Ended<D, C, I, K>, RunFault>
    ensures fault { IsErrOf result RunFault.BadConfiguration → ⊥ }
    ensures served { let size = posts.entry.core.new_core.config.max_job_size in
        IfOk result (λ r. AreServed (door_seen D.Door) size (map (λ p. p.end) posts.entry.seats.items) r.ends.items r.doors.items) }
    ensures same { IfOk result (λ r. AreSame D.same (map (λ p. p.door) posts.entry.seats.items) r.doors.items) }
    ensures control { let post = posts.entry.control in
        IfOk result (λ r. IsControlOver I.remaining I.may_fail post.end post.control r.control_end r.control) }
    ensures core { let post = posts.entry.core in
        IfOk result (λ r. IsCoreOver C.given post.new_core.config post.end post.clock r.core_end (K.machine r.core) (K.comparisons r.core)
        r.clock) }
{
    let Posts {
        seats,
        control,
        core,
    } = posts;
    let Ok(rooms) = new_rooms(alloc, seats.len()) else {
        return Err(RunFault::NoMemory);
    };
    match serve_crew_beside(rt, alloc, core, seats, control) {
        Ok((of_core, of_seats, of_control)) => {
            let (core_end, core, clock) = of_core;
            let (control_end, control) = of_control;
            let (ends, doors) = unzip(of_seats, rooms);
            Ok(Ended {
                ends,
                doors,
                control_end,
                control,
                core_end,
                core,
                clock,
            })
        }
        Err(fault) => Err(fault),
    }
}

type Rooms<D> = (Vec<SeatEnd, Global>, Vec<D, Global>);

// Allocates room for the ends of this many seats and of the control line, and for the doors.
fn new_rooms<D: Drop>(alloc: Global, seats: usize) -> Result<Rooms<D>, NoMemory>
    ensures ends { IfOk result (λ r. (r.0.items ≡ []) × (seats < vec_capacity r.0)) }
    ensures doors { IfOk result (λ r. (r.1.items ≡ []) × (seats ≤ vec_capacity r.1)) }
{
    let Some(all_ends) = seats.checked_add(1) else {
        return Err(NoMemory);
    };
    let Ok(ends) = Vec::with_capacity(alloc, all_ends) else {
        return Err(NoMemory);
    };
    match Vec::with_capacity(alloc, seats) {
        Ok(doors) => Ok((ends, doors)),
        Err(_) => Err(NoMemory),
    }
}

// Moves the ends and the doors that the seats returned into these rooms.
fn unzip<D: Drop>(backs: Vec<(SeatEnd, D), Global>, rooms: Rooms<D>) -> Rooms<D>
    requires ends { (rooms.0.items ≡ []) × (vec_len backs < vec_capacity rooms.0) }
    requires doors { (rooms.1.items ≡ []) × (vec_len backs ≤ vec_capacity rooms.1) }
    ensures ends { result.0.items ≡ map (λ back. back.0) backs.items }
    ensures doors { result.1.items ≡ map (λ back. back.1) backs.items }
    ensures room { vec_len result.0 < vec_capacity result.0 }
{
    let (mut ends, mut doors) = rooms;
    for (end, door) in backs {
        ends.push_reserved(end);
        doors.push_reserved(door);
    }
    (ends, doors)
}
