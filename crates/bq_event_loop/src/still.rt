//! Whether nothing moves at a seat until its connection is ready or it has mail.
ghost use Rattle.std.specs.Prelude.{◌≡◌, ◌⊎◌, ◌↔◌, ◌&&◌, [], true, false, List, slice_index_or};
ghost use Rattle.bq_job.specs.declared.answer.Answer.{Answer};
ghost use Rattle.bq_seat.specs.SeatParts.{would_read};
ghost use Rattle.bq_line.specs.Tending.{DoorSeen, Tends};
ghost use Rattle.bq_event_loop.specs.Still.{IsStill, IsStillOn};

use crate::turns::Stands;
use bq_host::Mail;
use bq_line::attendant::{Attendant, SeatPhase};
use bq_line::line::Line;
use bq_seat::{Does, NextAction, SeatMachine};
use std::alloc::Global;

/// Returns true if the next action of a seat would move nothing, and so would the one after it.
/// `has_none` says that it has no mail now.
pub fn is_still<L: Line + Drop>(seat: &Attendant<L>, has_none: bool) -> bool
    ensures { result ≡ true → (mail : List Answer) → (has_none ≡ true → mail ≡ []) → IsStill L.Line seat.now mail }
{
    match &seat.phase {
        SeatPhase::On(line, action, _) => is_still_on(action, &seat.machine, line, has_none),
        SeatPhase::Done => true,
        SeatPhase::Between | SeatPhase::Leaving => false,
    }
}

fn is_still_on<L: Line>(
    action: &NextAction,
    machine: &SeatMachine,
    line: &L,
    has_none: bool,
) -> bool
    ensures { result ≡ true → (mail : List Answer) → (has_none ≡ true → mail ≡ [])
        → IsStillOn action.now machine.now (L.may_give line.now) (L.may_take line.now) mail }
{
    match action.does() {
        Does::Read => !line.may_give() && (has_none || !machine.has_outstanding()),
        Does::PollMail => has_none && (!line.may_give() || !machine.would_read()),
        Does::Write => !line.may_take(),
        _ => false,
    }
}

/// Returns true if this seat has no mail.
pub fn has_no_mail(mails: &Vec<Mail, Global>, seat: usize) -> bool
    ensures { result ≡ true → slice_index_or mails.now.items seat [] ≡ [] }
{
    match mails.get(seat) {
        Some(mail) => mail.is_empty(),
        None => false,
    }
}

/// Returns what a seat does next.
pub fn stands_of<L: Line + Drop>(seat: &Attendant<L>) -> Stands
    ensures between { (result ≡ Stands.Between) ↔ (seat.now.phase ≡ SeatPhase.Between) }
    ensures done { (result ≡ Stands.Done) ↔ (seat.now.phase ≡ SeatPhase.Done) }
    ensures still { (result ≡ Stands.Done) ⊎ (result ≡ Stands.Awaits) → (mail : List Answer) → IsStill L.Line seat.now mail }
{
    match &seat.phase {
        SeatPhase::On(line, action, _) => stands_on(line, action, &seat.machine),
        SeatPhase::Between => Stands::Between,
        SeatPhase::Leaving => Stands::Submits,
        SeatPhase::Done => Stands::Done,
    }
}

fn stands_on<L: Line>(line: &L, action: &NextAction, machine: &SeatMachine) -> Stands
    ensures between { result ≡ Stands.Between → ⊥ }
    ensures done { result ≡ Stands.Done → ⊥ }
    ensures awaits { result ≡ Stands.Awaits → (mail : List Answer)
        → IsStillOn action.now machine.now (L.may_give line.now) (L.may_take line.now) mail }
{
    match action.does() {
        Does::Read => {
            if machine.has_outstanding() {
                Stands::ReadsOn
            } else if line.may_give() {
                Stands::Reads
            } else {
                Stands::Awaits
            }
        }
        Does::Submit => Stands::Submits,
        Does::Write => Stands::Writes,
        Does::PollMail => {
            if machine.would_read() {
                Stands::Waits
            } else {
                Stands::Other
            }
        }
        _ => Stands::Other,
    }
}

/// Returns true if a seat reads a command, and no bytes have come as far as its connection knows, which
/// then sends what it holds back.
#[inline(always)]
pub fn rests<L: Line + Drop>(seat: &mut Attendant<L>) -> bool
    ensures trace { (door : DoorSeen) → Tends L.seen seat.old door [] [] seat.new door }
    ensures still { result ≡ true → (mail : List Answer) → IsStill L.Line seat.new mail }
{
    match &mut seat.phase {
        SeatPhase::On(line, next, _) => rests_on(&seat.machine, next, line),
        _ => false,
    }
}

// The same for a seat with this connection and this next action.
#[inline(always)]
fn rests_on<L: Line>(machine: &SeatMachine, next: &NextAction, line: &mut L) -> bool
    ensures seen { L.seen line.new ≡ L.seen line.old }
    ensures still { result ≡ true → (mail : List Answer)
        → IsStillOn next.now machine.now (L.may_give line.new) (L.may_take line.new) mail }
{
    if line.may_give() || !next.is_read() || machine.has_outstanding() {
        return false;
    }
    line.expect_more(false);
    !line.may_give()
}
