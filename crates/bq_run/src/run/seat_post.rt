//! A seat with its door and its end of the links, for a thread of its own.
ghost use Rattle.std.specs.Prelude.{◌≡◌, IfOk, IsTrue};
ghost use Rattle.bq_core_api.specs.Limits.{is_body_size};
ghost use Rattle.bq_seat.specs.Past.{Awaited};
ghost use Rattle.bq_seat.specs.SeatStands.{awaited};
ghost use Rattle.bq_line.specs.Tending.{IsDoorServed, IsNewDoor, door_seen};
ghost use Rattle.bq_link.specs.EndStates.{IsSameSeat};
ghost use Rattle.bq_run.specs.Threads.{IsNewEndAt};

use bq_host::Member;
use bq_job::NoMemory;
use bq_line::Door;
use bq_line::line::Line;
use bq_link::{Intake, NoTicks, SeatEnd};
use bq_seat::SeatMachine;
use bq_thread_work::seat_work::seat_work;
use std::alloc::Global;
use std::sync::Wait;
use std::thread::Threads;

/// A new seat, its door and its new end.
#[derive(Drop)]
pub struct SeatPost<'a, D: Door> {
    alloc: Global,
    intake: &'a Intake<NoTicks>,
    pub end: SeatEnd,
    machine: SeatMachine,
    pub door: D,
    pub max_job_size: u32,
    ghost new_end: { IsNewEndAt intake.now.id end },
    ghost limit: { machine.reader.max_job_size ≡ max_job_size },
    ghost waits: { awaited machine ≡ Awaited.ALine },
    ghost new_door: { IsNewDoor (door_seen D.Door door) },
}

impl<'a, D: Door + Drop> SeatPost<'a, D> {
    /// Returns a post at this end. All memory but that for bodies is allocated here.
    pub fn new(
        alloc: Global,
        max_job_size: u32,
        intake: &'a Intake<NoTicks>,
        end: SeatEnd,
        door: D,
    ) -> Result<SeatPost<'a, D>, NoMemory>
        requires size { IsTrue (is_body_size max_job_size) }
        requires new_end { IsNewEndAt intake.now.id end }
        requires new { IsNewDoor (door_seen D.Door door) }
        ensures end { IfOk result (λ post. post.end ≡ end) }
        ensures limit { IfOk result (λ post. post.max_job_size ≡ max_job_size) }
        ensures door { IfOk result (λ post. post.door ≡ door) }
    {
        let Ok(machine) = SeatMachine::new(alloc, max_job_size) else {
            return Err(NoMemory);
        };
        Ok(SeatPost {
            alloc,
            intake,
            end,
            machine,
            door,
            max_job_size,
        })
    }
}

impl<'a, L: Line + Drop, D: Door<Line = L> + Drop> Member<(SeatEnd, D)> for SeatPost<'a, D> {
    // The door was served to its end by the end of the links.
    ghost gives = { λ post back. IsSameSeat post.end back.0
        × IsDoorServed post.max_job_size (door_seen D.Door back.1) back.0.submitted back.0.taken
        × D.same post.door back.1 };

    fn serve<R: Threads + Wait>(self, rt: &R) -> (SeatEnd, D) {
        let SeatPost {
            alloc,
            intake,
            end,
            machine,
            door,
            max_job_size: _,
        } = self;
        seat_work(rt, alloc, intake, end, machine, door)
    }
}
