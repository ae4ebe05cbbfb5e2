//! The threads of a run around one lock, one for each door.
ghost use Rattle.std.specs.Prelude.{◌≡◌, ◌≤◌, IfOk, IsErrOf, IsTrue, map, vec_len};
ghost use Rattle.std.specs.List.{All};
ghost use Rattle.bq_core_api.specs.Limits.{is_body_size};
ghost use Rattle.bq_lock.specs.LockedRuns.{IsServedToEnd};
ghost use Rattle.bq_line.specs.Tending.{AreSame, IsNewDoor, door_seen};

use crate::bells::Bells;
use crate::post::{ControlPost, Post};
use crate::shared_desk::SharedDesk;
use bq_host::{RunFault, serve_crew};
use bq_job::NoMemory;
use bq_line::Door;
use bq_line::control_line::ControlReader;
use bq_line::line::Line;
use std::alloc::Global;
use std::sync::Wait;
use std::thread::Threads;

/// Serves the connections of all doors at the desk, each at a seat and in a thread of its own, until
/// no more connections come at any of them. The calling thread reads the control line. The doors are
/// returned in their order.
///
/// The error is `NoMemory` if an allocation failed, or `ThreadRefused` if a thread could not be
/// started. After an error no door was opened, and the doors are dropped.
pub fn serve_at_desk<
    R: Threads + Wait + Sync,
    L: Line + Drop + Send,
    D: Door<Line = L> + Drop + Send,
    K: SharedDesk + Sync,
    I: ControlReader + Drop,
>(
    rt: &R,
    alloc: Global,
    max_job_size: u32,
    doors: Vec<D, Global>,
    desk: &K,
    control: I,
) -> Result<Vec<D, Global>, RunFault>
    requires size { IsTrue (is_body_size max_job_size) }
    requires few { vec_len doors ≤ 65535 }
    requires new { All
        (λ door. IsNewDoor (door_seen D.Door door)) doors.items }
    ensures fault { IsErrOf result RunFault.BadConfiguration → ⊥ }
    ensures many { IfOk result (λ served. vec_len served ≡ vec_len doors) }
    ensures served { IfOk result (λ served. All
        (λ door. IsServedToEnd max_job_size (door_seen D.Door door)) served.items) }
    ensures same { IfOk result (λ served. AreSame D.same doors.items served.items) }
{
    let seats = doors.len() as u16;
    let Ok(bells) = Bells::new(alloc, seats) else {
        drop(doors);
        return Err(RunFault::NoMemory);
    };
    let Ok(posts) = new_posts(alloc, max_job_size, desk, &bells, doors) else {
        drop(bells);
        return Err(RunFault::NoMemory);
    };
    let control = ControlPost {
        control,
        desk,
        bells: &bells,
        // The seats before it are those of the doors.
        seat: seats,
    };
    match serve_crew(rt, alloc, posts, control) {
        Ok((doors, _)) => Ok(doors),
        Err(fault) => Err(fault),
    }
}

// Returns a post for each door, in their order.
fn new_posts<'a, D: Door + Drop, K>(
    alloc: Global,
    max_job_size: u32,
    desk: &'a K,
    bells: &'a Bells,
    doors: Vec<D, Global>,
) -> Result<Vec<Post<'a, D, K>, Global>, NoMemory>
    requires size { IsTrue (is_body_size max_job_size) }
    requires few { vec_len doors ≤ 65535 }
    requires new { All
        (λ door. IsNewDoor (door_seen D.Door door)) doors.items }
    ensures limits { IfOk result
        (λ posts. All (λ post. post.max_job_size ≡ max_job_size) posts.items) }
    ensures doors { IfOk result (λ posts. map (λ post. post.door) posts.items ≡ doors.items) }
{
    let Ok(mut posts) = Vec::with_capacity(alloc, doors.len()) else {
        return Err(NoMemory);
    };
    for door in doors {
        let Ok(post) = Post::new(alloc, max_job_size, desk, bells, posts.len() as u16, door) else {
            return Err(NoMemory);
        };
        posts.push_reserved(post);
    }
    Ok(posts)
}
