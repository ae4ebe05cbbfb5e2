//! A seat with its door, for a thread of its own, and the control line.
ghost use Rattle.std.specs.Prelude.{◌≡◌, IfOk, IsTrue};
ghost use Rattle.bq_core_api.specs.Limits.{is_body_size};
ghost use Rattle.bq_seat.specs.Past.{Awaited};
ghost use Rattle.bq_seat.specs.SeatStands.{awaited};
ghost use Rattle.bq_lock.specs.LockedRuns.{IsServedToEnd};
ghost use Rattle.bq_line.specs.Tending.{IsNewDoor, door_seen};

use crate::bells::Bells;
use crate::shared_desk::{SharedDesk, SharedSeat};
use bq_host::Member;
use bq_job::{NoMemory, Seat};
use bq_line::Door;
use bq_line::attendant::{Attendant, Progress, SeatPhase};
use bq_line::buffers::Buffers;
use bq_line::control::submit_control;
use bq_line::control_line::{ControlLine, ControlReader};
use bq_line::line::Line;
use bq_seat::SeatMachine;
use std::alloc::Global;
use std::sync::Wait;
use std::thread;
use std::thread::Threads;

/// A new seat at a desk, and its door.
#[derive(Drop)]
pub struct Post<'a, D: Door, K> {
    alloc: Global,
    desk: &'a K,
    bells: &'a Bells,
    seat: Seat,
    pub max_job_size: u32,
    machine: SeatMachine,
    pub door: D,
    ghost limit: { machine.reader.max_job_size ≡ max_job_size },
    ghost waits: { awaited machine ≡ Awaited.ALine },
    ghost new_door: { IsNewDoor (door_seen D.Door door) },
}

impl<'a, D: Door + Drop, K> Post<'a, D, K> {
    /// Returns a post of this seat. All memory but that for bodies is allocated here.
    pub fn new(
        alloc: Global,
        max_job_size: u32,
        desk: &'a K,
        bells: &'a Bells,
        seat: Seat,
        door: D,
    ) -> Result<Post<'a, D, K>, NoMemory>
        requires size { IsTrue (is_body_size max_job_size) }
        requires new { IsNewDoor (door_seen D.Door door) }
        ensures seat { IfOk result (λ post. post.seat ≡ seat) }
        ensures limit { IfOk result (λ post. post.max_job_size ≡ max_job_size) }
        ensures door { IfOk result (λ post. post.door ≡ door) }
    {
        let Ok(machine) = SeatMachine::new(alloc, max_job_size) else {
            return Err(NoMemory);
        };
        Ok(Post {
            alloc,
            desk,
            bells,
            seat,
            max_job_size,
            machine,
            door,
        })
    }
}

impl<'a, L: Line + Drop, D: Door<Line = L> + Drop, K: SharedDesk> Member<D> for Post<'a, D, K> {
    ghost gives = { λ post door. IsServedToEnd post.max_job_size (door_seen D.Door door) × D.same post.door door };

    fn serve<R: Threads + Wait>(self, rt: &R) -> D {
        let Post {
            alloc,
            desk,
            bells,
            seat,
            max_job_size: _,
            machine,
            mut door,
        } = self;
        let mut attendant = Attendant {
            machine,
            phase: SeatPhase::Between,
        };
        let mut link = SharedSeat {
            rt,
            desk,
            bells,
            seat,
            at_hand: None,
            rests: false,
        };
        let mut buffers = Buffers::new();
        for _ in rt.forever() {
            if attendant.is_done() {
                return door;
            }
            let progress = attendant.go_on(alloc, &mut door, &mut link, &mut buffers);
            yield_after(progress);
        }
        unreachable!()
    }
}

// Lets other threads run if the connection had no bytes or no room, or a step was not accepted. If
// no answer has come, the next look for mail sleeps.
fn yield_after(progress: Progress) {
    match progress {
        Progress::NotAccepted | Progress::NoBytes | Progress::NoRoom => thread::yield_now(),
        Progress::Moved | Progress::Part | Progress::NoMail | Progress::NothingToDo => {}
    }
}

/// The control line of a run, as one more seat at the desk.
#[derive(Drop)]
pub struct ControlPost<'a, I, K> {
    pub control: I,
    pub desk: &'a K,
    pub bells: &'a Bells,
    pub seat: Seat,
}

impl<'a, I: ControlReader + Drop, K: SharedDesk> Member<ControlLine<I>> for ControlPost<'a, I, K> {
    ghost gives = { λ post control. Unit {0} };

    fn serve<R: Threads + Wait>(self, rt: &R) -> ControlLine<I> {
        let ControlPost {
            control,
            desk,
            bells,
            seat,
        } = self;
        let mut link = SharedSeat {
            rt,
            desk,
            bells,
            seat,
            at_hand: None,
            rests: false,
        };
        submit_control(rt, ControlLine::new(control), &mut link)
    }
}
