//! Ends waits: because of a timeout, or because a time to run ends soon.
ghost use Rattle.std.specs.{List.list_any, Prelude.{IfSome, None, Some, false, length, slice_get, true, ◌+◌, ◌<◌, ◌≡◌}};
ghost use Rattle.bq_core.specs.{Turns.{Gives, HasRoom, none_refused}, WaitEnds.{Checks, EndsWait}};
ghost use Rattle.bq_job.specs.{beside.Computed.waiting_count, machine.{Changes.first_of, Dispatch.is_wait_before, Machine.SeatRecord}};
ghost use Rattle.bq_job.specs.machine.Waits.{WaitEndTurn, is_ending_lease, next_end};
ghost use Rattle.bq_jobs.specs.Searching.{Asks};
ghost use Rattle.bq_state.specs.{CoreParts.{fields, machine_of}, EndingWaits.{has_waited, is_lease_short, is_soon}};
ghost use Rattle.bq_state.specs.{EndingWaits.{may_end, told_at_end, waits_after}, Keeping.{OnlySearches, SearchesStore}, Places.item_at};

use bq_core_api::Outs;
use bq_job::{Answer, JobId, Moment, Seat};
use bq_jobs::Timer;
use bq_state::core_parts::CoreParts;
use bq_state::known::{self, FirstTimeout};
use bq_state::seats::Waiter;
use bq_state::store::Store;
use bq_state::{changes, seats};

// Returns true if a moment was found and comes within a second.
fn is_soon(found: Option<(Moment, JobId)>, moment: Moment) -> bool
    ensures { result ≡ is_soon moment found }
{
    match found {
        None => false,
        Some((due, _)) => due.saturating_sub(1000) <= moment,
    }
}

// Returns true if the client at the seat holds a job whose time to run ends within a second.
fn is_deadline_soon(store: &mut Store, seat: Seat, moment: Moment) -> bool
    ensures soon { result ≡ list_any (λ j. is_ending_lease moment seat j.state) store.old.jobs.jobs }
    ensures kept { SearchesStore 1 store.old store.new }
{
    is_soon(store.first_held(seat), moment)
}

// Returns true if the time to run of some reserved job ends within a second. Like the two functions
// below it is not inlined: usually no client waits, so that a step needs little code for its checks.
#[inline(never)]
#[tactic(auto, using(crate::proofs::FiredTimerLemmas::some_warned))]
fn is_some_deadline_soon(store: &mut Store, moment: Moment) -> bool
    ensures soon { result ≡ list_any (is_lease_short moment) store.old.jobs.jobs }
    ensures kept { SearchesStore 1 store.old store.new }
{
    is_soon(store.first_timed(Timer::Lease), moment)
}

// Returns the answer to the waiting client at place k if its wait ends now. Its first lease is
// looked up once.
fn told_at_end(state: &mut CoreParts, k: usize) -> Option<Answer>
    requires seat { k < length state.old.seats.items }
    ensures told { (s : SeatRecord) → slice_get (machine_of state.old).seats k ≡ Some s
        → result ≡ told_at_end (machine_of state.old) s }
    ensures kept { OnlySearches 1 state.old state.new }
{
    let number = state.seats[k].number();
    let is_over = state.seats[k].is_timed_out(state.moment);
    if is_deadline_soon(&mut state.store, number, state.moment) {
        Some(Answer::DeadlineSoon)
    } else if is_over {
        Some(Answer::TimedOut)
    } else {
        None
    }
}

// Ends the wait of the client at place k with this answer.
#[tactic(auto, using(crate::proofs::TurnLemmas::ended_given))]
fn end_wait(state: &mut CoreParts, outs: &mut Outs, k: usize, answer: Answer)
    requires seat { k < length state.old.seats.items }
    requires room { length outs.old.given < outs.old.most }
    ensures given { EndsWait (machine_of state.old) k answer outs.old outs.new
        (machine_of state.new) }
    ensures jobs { state.new.store.jobs ≡ state.old.store.jobs }
{
    let number = state.seats[k].number();
    changes::stop_waiting(state, number);
    outs.push(number, answer);
}

// Ends the wait of the waiting client at place k if it ends now.
#[tactic(auto, using(std::proofs::lemmas::Grind::common_steps))]
fn end_one(state: &mut CoreParts, outs: &mut Outs, k: usize)
    requires seat { k < length state.old.seats.items }
    requires room { length outs.old.given < outs.old.most }
    ensures looked { Checks (machine_of state.old) k outs.old outs.new (machine_of state.new) }
    ensures asks { Asks 1 state.old.store.jobs state.new.store.jobs }
{
    match told_at_end(state, k) {
        None => {}
        Some(answer) => end_wait(state, outs, k, answer),
    }
}

// Returns the place of the client that has waited longest among those that come after
// `last`.
#[tactic(auto, using(bq_state::proofs::WalkLemmas::none_first, bq_state::proofs::WalkLemmas::next_waiter))]
fn next_waiting(state: &CoreParts, last: Option<Waiter>) -> Option<usize>
    ensures bound { IfSome result (λ k. k < length state.now.seats.items) }
    ensures least { item_at state.now.seats.items result
        ≡ first_of (waits_after last) is_wait_before state.now.seats.items }
{
    match state.waiting.next_after(last) {
        None => None,
        Some(waiter) => Some(usize::from(waiter.1)),
    }
}

// Ends the waits that end now, if there may be some. Each waiting client is checked once, in the
// order of tickets.
#[inline(never)]
#[tactic(auto, using(crate::proofs::WaitLemmas::ends_of_waits, crate::proofs::WaitLemmas::none_left))]
fn end_all(state: &mut CoreParts, outs: &mut Outs)
    requires room { HasRoom 0 (machine_of state.old) outs.old }
    ensures given { Gives WaitEndTurn none_refused
        (machine_of state.old) (machine_of state.new) outs.old outs.new }
    ensures done { next_end (machine_of state.new) ≡ None }
    ensures asks { Asks (waiting_count (machine_of state.old)) state.old.store.jobs state.new.store.jobs }
{
    let mut last = None;
    while let Some(k) = next_waiting(state, last) {
        last = Some(state.seats[k].waiter());
        end_one(state, outs, k);
    }
}

// Returns true if some wait has timed out, or its client sends no more.
#[inline(never)]
#[tactic(auto, using(bq_state::proofs::FirstTimeoutLemmas::over_known))]
fn is_some_wait_over(state: &mut CoreParts) -> bool
    ensures over { result ≡ list_any (has_waited state.old.moment) state.old.seats.items }
    ensures same { fields state.new
        ≡ record (fields state.old) { known = record state.old.known { first_timeout = state.new.known.first_timeout } } }
{
    changes::find_first_timeout(state);
    match &state.known.first_timeout {
        FirstTimeout::Known(first) => known::is_over(*first, state.moment),
        FirstTimeout::Unknown => seats::is_some_wait_over(
            state.seats.as_slice(),
            state.waiting.as_slice(),
            state.moment,
        ),
    }
}

// Returns true if some wait may end now: a time to run ends within a second, or a wait has timed
// out. If no client waits, no shelf is searched.
#[tactic(auto, using(std::proofs::lemmas::Grind::common_steps))]
fn may_end(state: &mut CoreParts) -> bool
    ensures none { result ≡ false → next_end (machine_of state.old) ≡ None }
    ensures some { result ≡ may_end (machine_of state.old) }
    ensures same { machine_of state.new ≡ machine_of state.old }
    ensures asks { Asks 1 state.old.store.jobs state.new.store.jobs }
{
    if !state.has_waiter() {
        return false;
    }
    if is_some_wait_over(state) {
        return true;
    }
    is_some_deadline_soon(&mut state.store, state.moment)
}

/// Ends the waits that end now, the longest one first.
#[tactic(auto, using(crate::proofs::TurnLemmas::gives_nothing))]
pub(crate) fn end_waits(state: &mut CoreParts, outs: &mut Outs)
    requires room { HasRoom 0 (machine_of state.old) outs.old }
    ensures given { Gives WaitEndTurn none_refused
        (machine_of state.old) (machine_of state.new) outs.old outs.new }
    ensures done { next_end (machine_of state.new) ≡ None }
    ensures asks { Asks (waiting_count (machine_of state.old) + 1) state.old.store.jobs state.new.store.jobs }
{
    if may_end(state) {
        end_all(state, outs);
    }
}
