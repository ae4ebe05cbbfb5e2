//! The core with its end of the links and the clock, for a thread of its own.
ghost use Rattle.std.specs.Prelude.{◌≡◌, ◌<◌, ◌+◌, ◌↔◌, [], IfOk, IsErrOf, IsTrue, not};
ghost use Rattle.bq_job.specs.machine.Machine.{new_machine};
ghost use Rattle.bq_core_api.specs.Limits.{are_in_range};
ghost use Rattle.bq_link.specs.NewEnds.{IsNewCore};
ghost use Rattle.bq_thread_work.specs.CoreWork.{IsNewRoom};
ghost use Rattle.bq_run.specs.Threads.{IsCoreOver};

use bq_core_api::{Config, Outs, QueueCore};
use bq_host::{Member, RunFault, new_core};
use bq_line::clock::Clock;
use bq_link::{CoreEnd, Intake, NoTicks};
use bq_thread_work::core_work::{CoreRoom, core_work, most_looks};
use std::alloc::Global;
use std::sync::Wait;
use std::thread::Threads;

/// A new core, and what its thread needs besides.
#[derive(Drop)]
pub struct NewCore<K: QueueCore> {
    pub config: Config,
    core: K,
    outs: Outs,
    room: CoreRoom,
    ghost range: { IsTrue (are_in_range config) },
    ghost stands: { K.machine core ≡ new_machine config },
    ghost none_compared: { K.comparisons core ≡ 0 },
    ghost none_given: { outs.given ≡ [] },
    ghost places: { config.seats < outs.most },
    ghost new_room: { IsNewRoom (config.seats + 1) room },
}

impl<K: QueueCore + Drop> NewCore<K> {
    /// Allocates all memory but that for jobs.
    pub fn new(alloc: Global, config: Config) -> Result<NewCore<K>, RunFault>
        ensures config { IfOk result (λ new. new.config ≡ config) }
        ensures bad_configuration { IsErrOf result RunFault.BadConfiguration ↔ IsTrue
            (not (are_in_range config)) }
    {
        let (core, outs) = new_core::<K>(alloc, config)?;
        let Ok(room) = CoreRoom::new(alloc, config.seats) else {
            return Err(RunFault::NoMemory);
        };
        Ok(NewCore {
            config,
            core,
            outs,
            room,
        })
    }
}

/// A new core and its new end.
#[derive(Drop)]
pub struct CorePost<'a, C, K: QueueCore> {
    pub alloc: Global,
    pub intake: &'a Intake<NoTicks>,
    pub end: CoreEnd,
    pub new_core: NewCore<K>,
    pub clock: C,
    ghost of_intake: { end.intake ≡ intake.now.id },
    ghost new_end: { IsNewCore (new_core.config.seats + 1) end },
}

impl<'a, C: Clock + Drop, K: QueueCore + Drop> Member<(CoreEnd, K, C)> for CorePost<'a, C, K> {
    // All ends were served until none of them submits more steps.
    ghost gives = { λ post back. IsCoreOver C.given post.new_core.config post.end post.clock back.0 (K.machine back.1)
        (K.comparisons back.1) back.2 };

    fn serve<R: Threads + Wait>(self, rt: &R) -> (CoreEnd, K, C) {
        let CorePost {
            alloc,
            intake,
            end,
            new_core,
            clock,
        } = self;
        let NewCore {
            config: _,
            core,
            outs,
            room,
        } = new_core;
        let room = room.with_looks(most_looks(rt));
        core_work(rt, alloc, intake, end, core, outs, room, clock)
    }
}
