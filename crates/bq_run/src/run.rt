//! Many doors, each served by a thread of its own.
ghost use Rattle.std.specs.Prelude.{◌≡◌, ◌↔◌, ◌++◌, ◌∷◌, ◌&&◌, ◌==◌, [], false, true, not, IfOk, IsErrOf, IsTrue, vec_len};
ghost use Rattle.std.specs.List.{All};
ghost use Rattle.bq_core_api.specs.Limits.{are_in_range};
ghost use Rattle.bq_job.specs.laws.TheHeadline.{AreJobsServedIn};
ghost use Rattle.bq_line.specs.Tending.{AreSame, IsNewDoor, door_seen};
ghost use Rattle.bq_run.specs.Linked.{ArePaired, AreSettled, AreStill, IsCoreStill};
ghost use Rattle.bq_run.specs.ThreadRuns.{IsRunOf};

use bq_core_api::{Config, QueueCore};
use bq_host::RunFault;
use bq_job::{steps_keep_settings, the_headline};
use bq_line::Door;
use bq_line::clock::Clock;
use bq_line::control_line::{ControlLine, ControlReader};
use bq_line::line::Line;
use bq_link::{CoreEnd, Intake, NoTicks, SeatEnd, links};
use core_post::NewCore;
use new_posts::new_posts;
use posts::Ended;
use settle::settle;
use std::alloc::Global;
use std::sync::Wait;
use std::thread::Threads;
use threads::serve_posts;

mod control_post;
mod core_post;
mod new_posts;
mod posts;
mod seat_post;
mod settle;
mod threads;

/// A run over doors that has ended: the doors with their connections, the clock and the control
/// line as they were left, the core, and the links between them.
#[derive(Drop)]
pub struct Run<D, C, I, K> {
    pub doors: Vec<D, Global>,
    pub clock: C,
    pub control: ControlLine<I>,
    pub core: K,
    /// The intake that all ends shared.
    pub intake: Intake<NoTicks>,
    pub core_end: CoreEnd,
    /// The ends in the order of their numbers. The end of the control line follows those of the
    /// seats.
    pub ends: Vec<SeatEnd, Global>,
}

/// Serves the connections of all doors, each at a seat and in a thread of its own, until no more
/// connections come at any of them. Another thread runs the core with its clock. The calling thread
/// reads the control line, where each line `drain` starts draining.
///
/// The error is `BadConfiguration` if the configuration is out of its ranges or the number of doors
/// is not the number of seats. Otherwise it is `NoMemory` if an allocation failed, or
/// `ThreadRefused` if a thread could not be started. After any error no door was opened, and the
/// doors are dropped.
#[tactic(auto, using(crate::proofs::ThreadLemmas::well_configured, crate::proofs::ThreadLemmas::all_at_end))]
pub fn run_sessions<
    R: Threads + Wait + Sync,
    L: Line + Drop + Send,
    D: Door<Line = L> + Drop + Send,
    C: Clock + Drop + Send,
    I: ControlReader + Drop,
    K: QueueCore + Drop + Send,
>(
    rt: &R,
    alloc: Global,
    config: Config,
    doors: Vec<D, Global>,
    clock: C,
    control: I,
) -> Result<Run<D, C, I, K>, RunFault>
    // No door has a connection that is open or was served, and no door is at its end.
    requires new { All
        (λ door. IsNewDoor (door_seen D.Door door)) doors.items }
    // There is one history of the steps of all clients and of the control line, each at the moment
    // of a reading of the clock. The one-list model takes this history, the core represents the
    // model after it, and each connection received exactly the bytes that the history prescribes
    // for it. The ends of the links submitted these steps and took these answers.
    ensures served { IfOk result
        (IsRunOf C.given D.lines_over I.remaining I.may_fail K.machine K.comparisons config clock control) }
    // Along this history, each job that is handed out is the least one that the client may have. An
    // undisturbed job is handed out at most once and in order. No job is lost before its deletion.
    // Once draining has begun, no put is accepted.
    ensures headline { IfOk result (λ run. (served : IsRunOf C.given D.lines_over I.remaining I.may_fail K.machine K.comparisons
        config clock control run) → AreJobsServedIn served.history.run) }
    ensures at_end { IfOk result
        (λ run. All (λ door. (D.is_out door ≡ false) × (D.is_at_end door ≡ true)) run.doors.items) }
    // The doors are those that were passed in, in the same order.
    ensures same { IfOk result (λ run. AreSame D.same doors.items run.doors.items) }
    // The core can be used further.
    ensures settings { IfOk result (λ run. (K.machine run.core).settings ≡ config) }
    ensures bad_configuration { IsErrOf result RunFault.BadConfiguration
        ↔ IsTrue (not (are_in_range config && vec_len doors == config.seats)) }
{
    if doors.len() != usize::from(config.seats) {
        return Err(RunFault::BadConfiguration);
    }
    let new_core = NewCore::<K>::new(alloc, config)?;
    let Ok((intake, core_end, ends)) = links::<NoTicks>(alloc, config.seats) else {
        drop(new_core);
        return Err(RunFault::NoMemory);
    };
    let Ok(posts) = new_posts(
        alloc, &intake, new_core, core_end, ends, doors, clock, control,
    ) else {
        drop(intake);
        return Err(RunFault::NoMemory);
    };
    let ended = match serve_posts(rt, alloc, posts) {
        Ok(ended) => ended,
        Err(fault) => {
            drop(intake);
            return Err(fault);
        }
    };
    steps_keep_settings();
    the_headline();
    Ok(settled_run(intake, ended))
}

// Returns the ended run, after comparing each end with the core's. There is already room for the
// control line's end, so this cannot fail.
#[tactic(auto, using(crate::proofs::SettleLemmas::last_pushed))]
fn settled_run<D: Drop, C: Drop, I: Drop, K: Drop>(
    intake: Intake<NoTicks>,
    ended: Ended<D, C, I, K>,
) -> Run<D, C, I, K>
    requires of_intake { ended.core_end.intake ≡ intake.id }
    requires pairs { ArePaired ended.core_end
        (ended.ends.items ++ ended.control_end ∷ []) }
    ensures core { IsCoreStill ended.core_end result.core_end }
    ensures ends { AreStill (ended.ends.items ++ ended.control_end ∷ []) result.ends.items }
    ensures settled { AreSettled result.core_end result.ends.items }
    ensures intake { result.intake ≡ intake }
    ensures rest { (result.doors ≡ ended.doors) × (result.clock ≡ ended.clock)
        × (result.control ≡ ended.control) × (result.core ≡ ended.core) }
{
    let Ended {
        mut ends,
        doors,
        control_end,
        control,
        mut core_end,
        core,
        clock,
    } = ended;
    ends.push_reserved(control_end);
    settle(&intake, &mut core_end, ends.as_mut_slice());
    Run {
        doors,
        clock,
        control,
        core,
        intake,
        core_end,
        ends,
    }
}
