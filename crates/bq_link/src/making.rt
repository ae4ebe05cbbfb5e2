ghost use Rattle.std.specs.Prelude.{◌≡◌, ◌+◌, ◌*◌, ◌≤◌, [], IfOk, OnOk, length};
ghost use Rattle.bq_link.specs.NewEnds.{AreNewSeats, IsNewCore};

use crate::ends::{CoreEnd, Intake, IntakeInvariant, SeatEnd};
use bq_job::NoMemory;
use crossbeam_queue::RuledArrayQueue;
use std::alloc::{AllocError, Global};
use std::sync::atomic::AtomicBool;
use std::thread::Parker;

/// Makes an intake for `seats` seats, an end for each of them, then one for the control line, and
/// one for the core. All memory of the links is allocated here; returns `NoMemory` if that fails.
pub fn links<I: IntakeInvariant>(
    alloc: Global,
    seats: u16,
) -> Result<(Intake<I>, CoreEnd, Vec<SeatEnd>), NoMemory>
    requires seats { (1 ≤ seats) × (seats ≤ 256) }
    requires start { I.was [] [] }
    ensures intake { IfOk result (λ r. r.0.places ≡ 2 * (seats + 1)) }
    ensures bells { IfOk result (λ r. r.0.bells ≡ seats + 1) }
    ensures core { IfOk result (λ r. (r.1.intake ≡ r.0.id) × IsNewCore (seats + 1) r.1) }
    ensures seats { IfOk result (λ r. (length r.2.items ≡ seats + 1) × AreNewSeats r.1 r.2.items) }
{
    match all_ends(alloc, usize::from(seats) + 1) {
        Ok(made) => Ok(made),
        Err(_) => Err(NoMemory),
    }
}

fn all_ends<I: IntakeInvariant>(
    alloc: Global,
    ends: usize,
) -> Result<(Intake<I>, CoreEnd, Vec<SeatEnd>), AllocError>
    requires ends { (1 ≤ ends) × (ends ≤ 257) }
    requires start { I.was [] [] }
    ensures intake { IfOk result (λ r. r.0.places ≡ 2 * ends) }
    ensures bells { IfOk result (λ r. r.0.bells ≡ ends) }
    ensures core { IfOk result (λ r. (r.1.intake ≡ r.0.id) × IsNewCore ends r.1) }
    ensures seats { IfOk result (λ r. (length r.2.items ≡ ends) × AreNewSeats r.1 r.2.items) }
{
    let Ok((intake, mut core)) = no_ends(alloc, ends) else {
        return Err(AllocError);
    };
    match seat_ends(alloc, &intake, &mut core, ends) {
        Ok(seats) => Ok((intake, core, seats)),
        Err(_) => Err(AllocError),
    }
}

fn seat_ends<I: IntakeInvariant>(
    alloc: Global,
    intake: &Intake<I>,
    core: &mut CoreEnd,
    ends: usize,
) -> Result<Vec<SeatEnd>, AllocError>
    requires intake { core.old.intake ≡ intake.now.id }
    requires few { ends ≤ 257 }
    requires new { IsNewCore 0 core.old }
    ensures core { OnOk result ((core.new.intake ≡ core.old.intake) × IsNewCore ends core.new) }
    ensures seats { IfOk result
        (λ seats. (length seats.items ≡ ends) × AreNewSeats core.new seats.items) }
{
    let Ok(mut seats) = Vec::with_capacity(alloc, ends) else {
        return Err(AllocError);
    };
    for _number in 0..ends {
        let Ok(seat) = core.next_end(alloc, intake) else {
            return Err(AllocError);
        };
        seats.push_reserved(seat);
    }
    Ok(seats)
}

// The intake, and the core's end before any seat's end is made.
#[tactic(auto, using(crate::proofs::DeliveryLemmas::begins))]
fn no_ends<I: IntakeInvariant>(
    alloc: Global,
    ends: usize,
) -> Result<(Intake<I>, CoreEnd), AllocError>
    requires ends { (1 ≤ ends) × (ends ≤ 257) }
    requires start { I.was [] [] }
    ensures intake { IfOk result (λ r. r.0.places ≡ 2 * ends) }
    ensures bells { IfOk result (λ r. r.0.bells ≡ ends) }
    ensures core { IfOk result (λ r. (r.1.intake ≡ r.0.id) × IsNewCore 0 r.1) }
{
    let Ok(seats) = bells(alloc, ends) else {
        return Err(AllocError);
    };
    let Ok(rings) = Vec::with_capacity(alloc, ends) else {
        return Err(AllocError);
    };
    let Ok((queue, pass)) = RuledArrayQueue::ruled(alloc, 2 * ends) else {
        return Err(AllocError);
    };
    let intake = Intake {
        queue,
        core: Parker::new(),
        seats,
        are_yields_slow: AtomicBool::new(false),
    };
    Ok((intake, CoreEnd { pass, rings }))
}

fn bells(alloc: Global, ends: usize) -> Result<Vec<Parker>, AllocError>
    ensures { IfOk result (λ bells. length bells.items ≡ ends) }
{
    let Ok(mut bells) = Vec::with_capacity(alloc, ends) else {
        return Err(AllocError);
    };
    for _number in 0..ends {
        bells.push_reserved(Parker::new());
    }
    Ok(bells)
}
