//! A seat's link to its hub, and one action of a seat at it.
ghost use Rattle.std.specs.Prelude.{◌≡◌, ◌⊎◌, [], List};
ghost use Rattle.bq_job.specs.declared.answer.Answer.{Answer};
ghost use Rattle.bq_job.specs.declared.step.Step.{Step};
ghost use Rattle.bq_line.specs.Carried.{CarriedPart};
ghost use Rattle.bq_line.specs.Links.{Calls};
ghost use Rattle.bq_line.specs.Streams.{StaysOver};
ghost use Rattle.bq_line.specs.Tending.{GoesOn, IsPlaced, MayEndAt, door_seen};
ghost use Rattle.bq_host.specs.MailStates.{IsHeldUp, IsInOrder, waiting};
ghost use Rattle.bq_host.specs.Hubs.{HubTrace, IsInOrderFor, KeepsFresh, state_of};

use crate::hub::Hub;
use bq_core_api::QueueCore;
use bq_job::{Seat, Step};
use bq_line::Door;
use bq_line::attendant::{Attendant, Link, Progress, carry_out};
use bq_line::buffers::Buffers;
use bq_line::clock::Clock;
use bq_line::line::Line;
use bq_seat::{NextAction, SeatMachine};

/// A seat's link to the hub at which it is served.
#[derive(Drop)]
pub struct HubSeat<'a, C, K> {
    hub: &'a mut Hub<C, K>,
    seat: Seat,
}

impl<'a, C: Clock + Drop, K: QueueCore + Drop> Link for HubSeat<'a, C, K> {
    ghost is_ready = { λ l. IsInOrderFor K.QueueCore l.seat l.hub.now };

    // After the link is dropped, the hub is known by its ghost name.
    ghost trace = { λ first submitted taken last. (last.hub.ghost_name ≡ first.hub.ghost_name) × (last.seat ≡ first.seat) ×
        HubTrace K.QueueCore C.Clock first.seat first.hub.now submitted taken last.hub.now ×
        KeepsFresh C.given first.hub.now last.hub.now };

    // An answer waits for room in the mail of its seat.
    ghost refused = { λ first step last. (last.hub.ghost_name ≡ first.hub.ghost_name) × IsHeldUp (state_of K.QueueCore last.hub.now) };

    // No answer waits for this seat, or one waits for room in the mail of its seat.
    ghost had_none = { λ first last. (last.hub.ghost_name ≡ first.hub.ghost_name) ×
        ((waiting first.seat (state_of K.QueueCore first.hub.now) ≡ []) ⊎ IsHeldUp (state_of K.QueueCore last.hub.now)) };

    fn submit(&mut self, step: &mut Step) -> bool {
        self.hub.submit(self.seat, step)
    }

    fn mail(&mut self, action: &mut NextAction) -> bool {
        self.hub.take_to(self.seat, action)
    }

    // The hub's mail never sleeps.
    #[tactic(auto, using(crate::proofs::HubSeatLemmas::took_further))]
    fn mail_at_once(&mut self, action: &mut NextAction) -> bool {
        self.hub.take_to(self.seat, action)
    }
}

/// Does one action of a seat that attends to a door, at the hub. Returns what moved or what was
/// missing.
pub fn attend<L: Line + Drop, D: Door<Line = L>, C: Clock + Drop, K: QueueCore + Drop>(
    attendant: &mut Attendant<L>,
    door: &mut D,
    hub: &mut Hub<C, K>,
    seat: Seat,
    buffers: &mut Buffers,
) -> Progress
    requires placed { IsPlaced attendant.old.phase
        (door_seen D.Door door.old) }
    requires ready { IsInOrderFor K.QueueCore seat hub.old }
    ensures order { IsInOrder (state_of K.QueueCore hub.new) }
    // The result is one that this phase can have. Unless something moved, the seat submitted
    // nothing and took nothing.
    ensures progress { MayEndAt result attendant.old.phase }
    ensures still { (result ≡ Progress.Moved → ⊥) → Calls (HubTrace K.QueueCore C.Clock seat) hub.old [] [] hub.new }
    // It reports a step that was not accepted only if an answer waits for room in the mail of its seat,
    // and that no answer has come only if there was none, or one waits for room.
    ensures refused { result ≡ Progress.NotAccepted → IsHeldUp (state_of K.QueueCore hub.new) }
    ensures none { result ≡ Progress.NoMail → (waiting seat (state_of K.QueueCore hub.old) ≡ []) ⊎ IsHeldUp (state_of K.QueueCore hub.new) }
    ensures trace { let at = door_seen D.Door in
        GoesOn (HubTrace K.QueueCore C.Clock seat) hub.old hub.new L.seen attendant.old (at door.old) attendant.new (at door.new) }
    ensures fresh { KeepsFresh C.given hub.old hub.new }
    ensures same { (first : D) → D.same first door.old → D.same first door.new }
{
    let alloc = hub.timed.alloc;
    let mut link = HubSeat { hub, seat };
    attendant.go_on(alloc, door, &mut link, buffers)
}

/// Carries out one action of a seat machine at the hub, and replaces it by the next one. Returns
/// what moved or what was missing.
pub fn act<L: Line, C: Clock + Drop, K: QueueCore + Drop>(
    machine: &mut SeatMachine,
    action: &mut NextAction,
    sent: &mut usize,
    line: &mut L,
    hub: &mut Hub<C, K>,
    seat: Seat,
    buffers: &mut Buffers,
) -> Progress
    requires ready { IsInOrderFor K.QueueCore seat hub.old }
    ensures order { IsInOrder (state_of K.QueueCore hub.new) }
    ensures carried { (submitted : List Step) × (taken : List Answer) × HubTrace K.QueueCore C.Clock seat hub.old submitted taken hub.new ×
        CarriedPart result machine.old (L.seen line.old) action.old sent.old machine.new (L.seen line.new) action.new sent.new submitted taken }
    // It reports a step that was not accepted only if an answer waits for room in the mail of its seat,
    // and that no answer has come only if there was none, or one waits for room.
    ensures refused { result ≡ Progress.NotAccepted → IsHeldUp (state_of K.QueueCore hub.new) }
    ensures none { result ≡ Progress.NoMail → (waiting seat (state_of K.QueueCore hub.old) ≡ []) ⊎ IsHeldUp (state_of K.QueueCore hub.new) }
    ensures fresh { KeepsFresh C.given hub.old hub.new }
    ensures stays { StaysOver L.lies_over line.old line.new }
{
    let alloc = hub.timed.alloc;
    let mut link = HubSeat { hub, seat };
    carry_out(alloc, machine, action, sent, line, &mut link, buffers)
}
