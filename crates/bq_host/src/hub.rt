//! A hub, at which one thread serves seats: the core with its clock, and the answers that no seat has
//! taken yet.
ghost use Rattle.std.specs.Prelude.{◌≡◌, ◌<◌, ◌≤◌, ◌+◌, ◌++◌, ◌∷◌, [], ℕ, None, Some, true, false};
ghost use Rattle.std.specs.Prelude.{◌↔◌, ◌⊎◌, ◌&&◌, not, IfErr, IfOk, IsErrOf, IsTrue, IsNone, MatchResult, length, slice_index_or, if◌then◌else◌};
ghost use Rattle.std.specs.Option.{option_to_list};
ghost use Rattle.bq_job.specs.declared.answer.Answer.{Answer};
ghost use Rattle.bq_job.specs.promise.Runs.{answers_to};
ghost use Rattle.bq_host.specs.MailStates.{IsInOrder};
ghost use Rattle.bq_host.specs.Hubs.{HubTrace, IsInOrderFor, KeepsFresh, OnlyMoves, TraceInOrder, state_of, with_pending};
ghost use Rattle.bq_host.specs.Told.{HasLogged, concern_of, none_told, none_unlogged, noted, told_after};
ghost use Rattle.bq_host.specs.WakeLists.{Wakes, none_waits, to_wake};
ghost use Rattle.bq_seat.specs.declared.machine.Action.TheVariants as actions;

use crate::fault::RunFault;
use crate::mail::{Mail, new_mails};
use crate::notices::Unlogged;
use crate::timed_core::TimedCore;
use crate::wake_queue::WakeQueue;
use bq_core_api::{Config, QueueCore};
use bq_job::{Answer, Seat, Step};
use bq_line::clock::Clock;
use bq_seat::NextAction;
use std::alloc::Global;

/// The core with its clock, and the answers that no seat has taken yet. Seats are served one at a
/// time. An answer to the seat that submitted the last step is taken from where the core put it. All
/// other answers go through the mail of their seats.
#[derive(Drop)]
pub struct Hub<C, K> {
    /// The core with its clock. Its buffer has the answers of the last step that are not in the
    /// mail.
    pub timed: TimedCore<C, K>,
    /// The oldest of these answers, if the mail of its seat was full.
    pub held_back: Option<(Seat, Answer)>,
    pub mails: Vec<Mail, Global>,
    /// True if it is known that all answers are in the mail.
    pub all_delivered: bool,
    /// The seats that received mail and have to be woken.
    pub wake_queue: WakeQueue,
    /// True if a step read the clock since time passed last.
    pub is_fresh: bool,
    /// What the operator has to see of the steps since time passed last. It is not logged in the
    /// step, since that may wait.
    pub unlogged: Unlogged,
}

impl<C: Clock + Drop, K: QueueCore + Drop> Hub<C, K> {
    ghost use Rattle.bq_job.specs.beside.NextDue.{is_before, next_due};
    ghost use Rattle.bq_host.specs.DueTimes.{IsLimit, time_left};
    ghost use Rattle.bq_host.specs.Timed.{HearsIf, is_read_for};
    ghost use Rattle.bq_host.specs.MailStates.{IsHeldUp, IsNewMailState, OnlyDelivers, waiting};
    ghost use Rattle.bq_core_api.specs.Limits.{are_in_range};
    ghost use Rattle.bq_line.specs.Links.{TakesInPlace, as_submitted};

    /// Returns a new hub, which notes no seat that has to be woken. All memory but that for jobs and
    /// answers is allocated here.
    ///
    /// The error is `BadConfiguration` if the configuration is out of its ranges, and otherwise
    /// `NoMemory`.
    pub fn new(alloc: Global, config: Config, clock: C) -> Result<Hub<C, K>, RunFault>
        ensures made { IfOk result (λ hub. IsNewMailState config (state_of K.QueueCore hub)) }
        ensures order { IfOk result (λ hub. IsInOrder (state_of K.QueueCore hub)) }
        ensures clock { IfOk result (λ hub. hub.timed.time.clock ≡ clock) }
        ensures wake_queue { IfOk result (λ hub. hub.wake_queue ≡ none_waits 0) }
        ensures not_fresh { IfOk result (λ hub. hub.is_fresh ≡ false) }
        ensures none_told { IfOk result (λ hub. hub.timed.notices ≡ none_told) }
        ensures none_noted { IfOk result (λ hub. hub.unlogged ≡ none_unlogged) }
        ensures bad_configuration { IsErrOf result RunFault.BadConfiguration ↔ IsTrue
            (not (are_in_range config)) }
        ensures no_thread { IsErrOf result RunFault.ThreadRefused ↔ ⊥ }
    {
        let timed = TimedCore::new(alloc, config, clock)?;
        let Ok(mails) = new_mails(alloc, config.seats) else {
            return Err(RunFault::NoMemory);
        };
        Ok(Hub {
            timed,
            held_back: None,
            mails,
            all_delivered: true,
            wake_queue: WakeQueue::none(alloc),
            is_fresh: false,
            unlogged: Unlogged::none(),
        })
    }

    /// Logs what is still to be logged, and returns the clock and the core. Answers that were not
    /// taken are dropped.
    pub fn into_parts(self) -> (C, K)
        ensures clock { result.0 ≡ self.timed.time.clock }
        ensures core { result.1 ≡ self.timed.core }
    {
        self.unlogged.log(&self.timed.time.clock);
        let timed = self.timed;
        (timed.time.clock, timed.core)
    }

    /// Lets the core take this step of a seat, at the moment that the clock reads now. Returns
    /// false if it did not, because an answer of an earlier step waits for room in the mail of its
    /// seat. What the operator has to see of the step is logged when time passes next.
    pub fn submit(&mut self, seat: Seat, step: &Step) -> bool
        requires order { IsInOrder (state_of K.QueueCore self.old) }
        ensures order { IsInOrder (state_of K.QueueCore self.new) }
        ensures taken { result ≡ true → HubTrace K.QueueCore C.Clock seat self.old (as_submitted step.now) [] self.new }
        ensures left { result ≡ false → HubTrace K.QueueCore C.Clock seat self.old [] [] self.new }
        ensures held_up { result ≡ false → IsHeldUp (state_of K.QueueCore self.new) }
        ensures only { result ≡ false → OnlyMoves self.old self.new }
        ensures fresh { KeepsFresh C.given self.old self.new }
        ensures read { result ≡ true → HearsIf C.given true self.old.timed.time self.new.timed.time }
        ensures told { result ≡ true → HasLogged (concern_of step.now) self.new.timed.outs self.new.timed.time.moment
            self.old.timed.notices self.new.timed.notices }
        ensures noted { result ≡ true → self.new.unlogged ≡ noted (told_after (concern_of step.now) self.new.timed.outs
            self.new.timed.time.moment self.old.timed.notices).0 self.old.unlogged }
    {
        if !self.deliver_all(seat) {
            return false;
        }
        self.take_step(seat, step);
        true
    }

    // Lets the core take a step at the moment that the clock reads now, and notes what has to be
    // logged about it.
    fn take_step(&mut self, seat: Seat, what: &Step)
        requires order { IsInOrder (state_of K.QueueCore self.old) }
        requires empty { (state_of K.QueueCore self.old).pending ≡ [] }
        ensures trace { TraceInOrder K.QueueCore C.Clock seat self.old (as_submitted what.now) [] self.new }
        ensures read { HearsIf C.given true self.old.timed.time self.new.timed.time }
        ensures told { HasLogged (concern_of what.now) self.new.timed.outs self.new.timed.time.moment
            self.old.timed.notices self.new.timed.notices }
        ensures noted { self.new.unlogged ≡ noted (told_after (concern_of what.now) self.new.timed.outs self.new.timed.time.moment
            self.old.timed.notices).0 self.old.unlogged }
    {
        self.all_delivered = false;
        self.is_fresh = true;
        let notice = self.timed.take_step_quietly(seat, what);
        self.unlogged.note(notice);
    }

    /// Takes the oldest answer to the seat, if there is one, and makes `action` one that writes it.
    /// Returns false and leaves `action` as it was if there is none, or if an older
    /// answer that waits for room in the mail of its seat is in the way.
    pub fn take_to(&mut self, seat: Seat, action: &mut NextAction) -> bool
        requires ready { IsInOrderFor K.QueueCore seat self.old }
        ensures order { IsInOrder (state_of K.QueueCore self.new) }
        ensures trace { TakesInPlace (HubTrace K.QueueCore C.Clock seat) self.old action.old result action.new self.new }
        ensures none { result ≡ false → (waiting seat (state_of K.QueueCore self.old) ≡ []) ⊎ IsHeldUp (state_of K.QueueCore self.new) }
        ensures only { OnlyMoves self.old self.new }
    {
        if self.held_back.is_none() && self.mails[usize::from(seat)].is_empty() {
            return self.take_new(seat, action);
        }
        self.take_kept(seat, action)
    }

    // The same, wherever the answer is. Not inlined, because it reserves and initializes room for
    // answers.
    #[inline(never)]
    fn take_kept(&mut self, seat: Seat, action: &mut NextAction) -> bool
        requires ready { IsInOrderFor K.QueueCore seat self.old }
        ensures order { IsInOrder (state_of K.QueueCore self.new) }
        ensures trace { TakesInPlace (HubTrace K.QueueCore C.Clock seat) self.old action.old result action.new self.new }
        ensures none { result ≡ false → (waiting seat (state_of K.QueueCore self.old) ≡ []) ⊎ IsHeldUp (state_of K.QueueCore self.new) }
        ensures only { OnlyMoves self.old self.new }
    {
        let _all = self.deliver_all(seat);
        match self.take_mail(seat) {
            Some(answer) => {
                action.write(answer);
                true
            }
            None => false,
        }
    }

    // The same if no earlier answer waits: mostly the core's only answer is for this seat. It goes
    // from where the core put it right into the action.
    fn take_new(&mut self, seat: Seat, action: &mut NextAction) -> bool
        requires ready { IsInOrderFor K.QueueCore seat self.old }
        requires empty { slice_index_or self.old.mails.items seat [] ≡ [] }
        requires none_held_back { self.old.held_back ≡ None }
        ensures order { IsInOrder (state_of K.QueueCore self.new) }
        ensures trace { TakesInPlace (HubTrace K.QueueCore C.Clock seat) self.old action.old result action.new self.new }
        ensures none { result ≡ false → (waiting seat (state_of K.QueueCore self.old) ≡ []) ⊎ IsHeldUp (state_of K.QueueCore self.new) }
        ensures only { OnlyMoves self.old self.new }
    {
        let Some((first, answer)) = self.next_new() else {
            return false;
        };
        if seat == first {
            write(action, answer);
            // Mostly none is pending: then nothing has to be delivered when the turn of the seat ends.
            self.all_delivered = self.has_none_pending();
            return true;
        }
        self.put_back(first, answer);
        self.take_kept(seat, action)
    }

    // Takes the oldest answer that no seat has taken, if all of them are where the core put them.
    fn next_new(&mut self) -> Option<(Seat, Answer)>
        requires none_held_back { self.old.held_back ≡ None }
        ensures pending { (state_of K.QueueCore self.old).pending ≡ option_to_list result ++ (state_of K.QueueCore self.new).pending }
        ensures none { IsNone result → (state_of K.QueueCore self.new).pending ≡ [] }
        ensures rest { self.new ≡ with_pending None self.new.timed.outs.given self.old.all_delivered self.old }
    {
        self.timed.outs.take_first()
    }

    // Makes an answer the oldest one again.
    #[inline(always)]
    fn put_back(&mut self, seat: Seat, answer: Answer)
        ensures { self.new ≡ with_pending (Some (seat, answer)) self.old.timed.outs.given false self.old }
    {
        hold(&mut self.held_back, seat, answer);
        self.all_delivered = false;
    }

    fn take_mail(&mut self, seat: Seat) -> Option<Answer>
        requires ready { IsInOrderFor K.QueueCore seat self.old }
        ensures many { length self.new.mails.items ≡ length self.old.mails.items }
        ensures trace { TraceInOrder K.QueueCore C.Clock seat self.old [] (option_to_list result) self.new }
        ensures none { IsNone result → slice_index_or self.new.mails.items seat [] ≡ [] }
        ensures still { IsNone result → self.new.mails.items ≡ self.old.mails.items }
        ensures rest { self.new ≡ record self.old { mails = self.new.mails } }
        ensures only { OnlyMoves self.old self.new }
    {
        self.mails[usize::from(seat)].take_first()
    }

    /// Puts all answers into the mail of their seats, which makes no difference to any seat.
    /// Returns false if one is left because the mail of its seat is full.
    #[inline(always)]
    pub fn deliver_all(&mut self, seat: Seat) -> bool
        requires order { IsInOrder (state_of K.QueueCore self.old) }
        ensures many { length self.new.mails.items ≡ length self.old.mails.items }
        ensures none { result ≡ true → (state_of K.QueueCore self.new).pending ≡ [] }
        ensures held_up { result ≡ false → IsHeldUp (state_of K.QueueCore self.new) }
        ensures delivered { OnlyDelivers (state_of K.QueueCore self.old) (state_of K.QueueCore self.new) }
        ensures only { OnlyMoves self.old self.new }
        ensures trace { TraceInOrder K.QueueCore C.Clock seat self.old [] [] self.new }
    {
        if self.all_delivered {
            return true;
        }
        self.deliver_pending()
    }

    #[inline(never)]
    fn deliver_pending(&mut self) -> bool
        requires order { IsInOrder (state_of K.QueueCore self.old) }
        ensures order { IsInOrder (state_of K.QueueCore self.new) }
        ensures delivered { OnlyDelivers (state_of K.QueueCore self.old) (state_of K.QueueCore self.new) }
        ensures clock { self.new.timed.time.clock ≡ self.old.timed.time.clock }
        ensures only { OnlyMoves self.old self.new }
        ensures wakes { Wakes self.old.mails.items self.new.mails.items self.old.wake_queue self.new.wake_queue }
        ensures none { result ≡ true → (state_of K.QueueCore self.new).pending ≡ [] }
        ensures held_up { result ≡ false → IsHeldUp (state_of K.QueueCore self.new) }
    {
        let delivers = self.deliver();
        self.all_delivered = delivers;
        delivers
    }

    // Puts pending answers into the mail. Returns true if none is left.
    fn deliver(&mut self) -> bool
        ensures delivered { OnlyDelivers (state_of K.QueueCore self.old) (state_of K.QueueCore self.new) }
        ensures clock { self.new.timed.time.clock ≡ self.old.timed.time.clock }
        ensures only { OnlyMoves self.old self.new }
        ensures wakes { Wakes self.old.mails.items self.new.mails.items self.old.wake_queue self.new.wake_queue }
        ensures none { result ≡ true → (state_of K.QueueCore self.new).pending ≡ [] }
        ensures held_up { result ≡ false → IsHeldUp (state_of K.QueueCore self.new) }
    {
        if self.has_none_pending() {
            return true;
        }
        while let Some((seat, answer)) = self.next_pending() {
            if let Err(back) = post(&mut self.mails, &mut self.wake_queue, seat, answer) {
                self.held_back = Some((seat, back));
                return false;
            }
        }
        true
    }

    // Returns true if no answer is pending. Mostly none is, since the seat took the only one.
    fn has_none_pending(&self) -> bool
        ensures { result ≡ true → (state_of K.QueueCore self.now).pending ≡ [] }
    {
        self.held_back.is_none() && self.timed.outs.is_empty()
    }

    // Takes the oldest answer that is not in the mail.
    fn next_pending(&mut self) -> Option<(Seat, Answer)>
        ensures pending { (state_of K.QueueCore self.old).pending ≡ option_to_list result ++ (state_of K.QueueCore self.new).pending }
        ensures none { IsNone result → (state_of K.QueueCore self.new).pending ≡ [] }
        ensures rest { self.new ≡ with_pending None self.new.timed.outs.given self.old.all_delivered self.old }
    {
        if self.held_back.is_some() {
            return self.held_back.take();
        }
        self.next_new()
    }

    /// Removes and returns the first of the seats that are to be woken.
    pub fn next_woken(&mut self) -> Option<Seat>
        ensures first { self.old.wake_queue.waiting ≡ option_to_list result ++ self.new.wake_queue.waiting }
        ensures none { IsNone result ↔ (self.old.wake_queue.waiting ≡ []) }
        ensures seats { self.new.wake_queue.seats ≡ self.old.wake_queue.seats }
        ensures rest { self.new ≡ record self.old { wake_queue = self.new.wake_queue } }
    {
        self.wake_queue.take_first()
    }

    /// Takes a tick if something is due by now, puts all answers into the mail, and logs what is
    /// still to be logged. Returns in how many milliseconds something is due next, or `None` if
    /// nothing is; 0 if something was due.
    ///
    /// If a step read the clock since the last call, its reading is taken for the moment now. So a
    /// run must not wait between the step and this call.
    pub fn pass_time(&mut self) -> Option<u64>
        requires order { IsInOrder (state_of K.QueueCore self.old) }
        ensures trace { TraceInOrder K.QueueCore C.Clock 0 self.old [] [] self.new }
        ensures read { HearsIf C.given (is_read_for self.old.is_fresh self.old.timed.time.moment (next_due (K.machine self.old.timed.core)))
            self.old.timed.time self.new.timed.time }
        ensures due { result ≡ (if is_before self.new.timed.time.moment (next_due (K.machine self.old.timed.core))
            then time_left (next_due (K.machine self.old.timed.core)) self.new.timed.time.moment else Some 0) }
        ensures within { IsLimit result (next_due (K.machine self.new.timed.core)) self.new.timed.time.moment }
        ensures read_again { self.new.is_fresh ≡ false }
        ensures notices { self.new.timed.notices ≡ self.old.timed.notices }
        ensures logged { self.new.unlogged ≡ none_unlogged }
    {
        let ticks = self.tick_if_due();
        let _all = self.deliver_all(0);
        self.is_fresh = false;
        self.unlogged.log_all(&self.timed.time.clock);
        self.rest(ticks)
    }

    // Returns in how many milliseconds something is due, as far as that is known; 0 after a tick.
    fn rest(&self, ticks: bool) -> Option<u64>
        ensures { result ≡ (if ticks then Some 0 else time_left self.now.timed.due self.now.timed.time.moment) }
    {
        if ticks {
            return Some(0);
        }
        let due = self.timed.due?;
        Some(due.saturating_sub(self.timed.time.moment))
    }

    // Takes a tick if something is due by now. Returns true if something is due, even if no tick
    // can be taken yet because an answer waits for room in a mail.
    fn tick_if_due(&mut self) -> bool
        requires order { IsInOrder (state_of K.QueueCore self.old) }
        ensures due { result
            ≡ not (is_before self.new.timed.time.moment (next_due (K.machine self.old.timed.core))) }
        ensures read { HearsIf C.given (is_read_for self.old.is_fresh self.old.timed.time.moment (next_due (K.machine self.old.timed.core)))
            self.old.timed.time self.new.timed.time }
        ensures known { self.new.timed.due ≡ next_due (K.machine self.old.timed.core) }
        ensures same { result ≡ false → K.machine self.new.timed.core ≡ K.machine self.old.timed.core }
        ensures notices { self.new.timed.notices ≡ self.old.timed.notices }
        ensures trace { TraceInOrder K.QueueCore C.Clock 0 self.old [] [] self.new }
    {
        let may_tick = self.deliver_all(0);
        let is_due = self.timed.tick_if_due(0, self.is_fresh, may_tick);
        self.all_delivered = may_tick & !is_due;
        is_due
    }
}

// Writes this answer next. The most frequent answers are made anew in the action. Another one is
// moved there, for which room for the largest answer is copied twice.
#[inline(always)]
fn write(action: &mut NextAction, answer: Answer)
    ensures { action.new ≡ actions.Write answer }
{
    match answer {
        Answer::Inserted(id) => action.write(Answer::Inserted(id)),
        Answer::Reserved(id, body) => action.write(Answer::Reserved(id, body)),
        Answer::Deleted => action.write(Answer::Deleted),
        other => write_other(action, other),
    }
}

// Moves an answer into the action. Inlined, like `put_back`: so room for the answer, which is passed to a
// call, is initialized only if the call is made.
#[inline(always)]
fn write_other(action: &mut NextAction, answer: Answer)
    ensures { action.new ≡ actions.Write answer }
{
    write_moved(action, answer);
}

#[inline(never)]
fn write_moved(action: &mut NextAction, answer: Answer)
    ensures { action.new ≡ actions.Write answer }
{
    action.write(answer);
}

// Keeps an answer until there is room for it in the mail of its seat.
#[inline(never)]
fn hold(held_back: &mut Option<(Seat, Answer)>, seat: Seat, answer: Answer)
    ensures { held_back.new ≡ Some (seat, answer) }
{
    *held_back = Some((seat, answer));
}

// Puts an answer into the mail of its seat and notes that the seat has to be woken, or returns the
// answer if the mail is full. If the seat does not exist, the answer is dropped.
fn post(
    mails: &mut Vec<Mail, Global>,
    wake_queue: &mut WakeQueue,
    seat: Seat,
    answer: Answer,
) -> Result<(), Answer>
    ensures many { length mails.new.items ≡ length mails.old.items }
    ensures full { IfErr result (λ back. 4 ≤ length (slice_index_or mails.new.items seat [])) }
    ensures posted { MatchResult result
        (λ done. (other : ℕ) → other < length mails.old.items → slice_index_or mails.new.items other []
        ≡ slice_index_or mails.old.items other [] ++ answers_to other ((seat, answer) ∷ []))
        (λ back. (back ≡ answer) × (mails.new.items ≡ mails.old.items)) }
    ensures wake_queue { wake_queue.new ≡ to_wake seat wake_queue.old }
{
    wake_queue.add(seat);
    match mails.get_mut(usize::from(seat)) {
        Some(mail) => mail.put(answer),
        None => Ok(()),
    }
}
