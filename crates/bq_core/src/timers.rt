//! Fires due timers, makes jobs of closed connections ready again, and finds when something happens
//! by itself next.
ghost use Rattle.std.specs.{Option.{option_copied, option_map}, Prelude.{IfSome, None, count_by, false, fold}};
ghost use Rattle.std.specs.Prelude.{if◌then◌else◌, length, ◌*◌, ◌+◌, ◌≡◌};
ghost use Rattle.bq_core.specs.FiredTimers.{HaveFired, IsDue, after_giving_back, fired, has_due_timer, id_if_past};
ghost use Rattle.bq_job.specs.{beside.NextDue.next_due as next_due_of, machine.Changes.{first_of, is_held_by}};
ghost use Rattle.bq_job.specs.machine.{Changes.is_waiting, JobStates.{due_of, is_delayed, is_due_before, is_reserved}, Timers.after_timers};
ghost use Rattle.bq_jobs.specs.{JobsSeen.ranked, Leases.{deadline_of, is_lease_before}, Searching.Asks};
ghost use Rattle.bq_state.specs.{CoreParts.{count_jobs, machine_of}, Dues.{timers_due, warning_due, warning_due_at}};
ghost use Rattle.bq_state.specs.{Dues.{with_seat_due, with_warning_due}, FirstTimeouts.AreTimeouts};
ghost use Rattle.bq_state.specs.{Keeping.{OnlySearches, SearchesStore}, SeatWaiters.AreWaitersOf};
ghost use Rattle.bq_state.specs.{WaitingList.at_waiter, Warnings.{AreWarned, is_waiting_there}};

use bq_job::{JobId, JobState, Moment, Seat};
use bq_jobs::Timer;
use bq_state::core_parts::CoreParts;
use bq_state::job_store::JobChange;
use bq_state::known::{FirstTimeout, Warns, earlier_of, first_to_give_up};
use bq_state::seats::{SeatRecord, Waiter};
use bq_state::store::Store;
use bq_state::{changes, job_store, seats};

// A timer of a job that is due: its delay has ended, or its time to run has expired.
enum Due {
    DelayEnded(JobId),
    Expired(JobId),
}

// Returns the delayed job that is due first, and when it is. If no job is delayed, nothing is
// searched.
#[tactic(auto, using(bq_state::proofs::PartsLemmas::compared_sound, crate::proofs::FiredTimerLemmas::none_delayed))]
fn first_delayed(state: &mut CoreParts) -> Option<(Moment, JobId)>
    ensures rank { result ≡ option_map (ranked (λ j. due_of j.state))
        (first_of (λ j. is_delayed j.state) is_due_before state.old.store.jobs.jobs) }
    ensures kept { OnlySearches 1 state.old state.new }
{
    if !state.has_delayed() {
        return None;
    }
    state.store.first_timed(Timer::Delay)
}

// Returns the reserved job whose time to run ends first, and when it does. If no client holds a
// job, nothing is searched.
#[tactic(auto, using(bq_state::proofs::PartsLemmas::compared_sound, crate::proofs::FiredTimerLemmas::none_leased))]
fn first_lease(state: &mut CoreParts) -> Option<(Moment, JobId)>
    ensures rank { result ≡ option_map (ranked (λ j. deadline_of j.state))
        (first_of (λ j. is_reserved j.state) is_lease_before state.old.store.jobs.jobs) }
    ensures kept { OnlySearches 1 state.old state.new }
{
    if !state.has_lease() {
        return None;
    }
    state.store.first_timed(Timer::Lease)
}

// Returns the id of the job that was found, if its moment has come.
fn id_if_past(found: Option<(Moment, JobId)>, moment: Moment) -> Option<JobId>
    ensures { result ≡ id_if_past moment found }
{
    let (at, id) = found?;
    if at <= moment { Some(id) } else { None }
}

// Returns the first timer of a job that is due. Delays come first.
#[tactic(auto, using(crate::proofs::FiredTimerLemmas::lease_due, crate::proofs::FiredTimerLemmas::none_due, crate::proofs::FiredTimerLemmas::delay_due))]
fn first_due(state: &mut CoreParts) -> Option<Due>
    ensures due { IfSome result (IsDue (machine_of state.old)) }
    ensures none { result ≡ None → HaveFired state.old state.new }
    ensures kept { OnlySearches 2 state.old state.new }
{
    let moment = state.moment;
    let _timeouts = state.timeouts; // For the proof, which needs its range.
    let delayed = first_delayed(state);
    if let Some(id) = id_if_past(delayed, moment) {
        return Some(Due::DelayEnded(id));
    }
    let lease = first_lease(state);
    match id_if_past(lease, moment) {
        None => None,
        Some(id) => Some(Due::Expired(id)),
    }
}

// Makes a job ready because of this timer. If its time to run has expired, that is counted.
fn fire_one(state: &mut CoreParts, due: Due)
    ensures fired { machine_of state.new ≡ fired due (machine_of state.old) }
    ensures asks { Asks 8 state.old.store.jobs state.new.store.jobs }
{
    let change = JobChange::FireTimers(state.moment);
    match due {
        Due::DelayEnded(id) => changes::change_job(state, id, &change),
        Due::Expired(id) => {
            changes::change_job(state, id, &change);
            state.timeouts = state.timeouts.saturating_add(1);
        }
    }
}

// Fires all due timers of jobs.
#[tactic(auto, using(crate::proofs::ToldLemmas::loop_asks))]
fn fire_jobs(state: &mut CoreParts)
    ensures after { HaveFired state.old state.new }
    ensures asks { Asks
        (10 * count_jobs (has_due_timer state.old.moment) state.old + 2) state.old.store.jobs state.new.store.jobs }
{
    while let Some(due) = first_due(state) {
        fire_one(state, due);
    }
}

/// Fires all due timers.
pub(crate) fn fire(state: &mut CoreParts)
    ensures after { machine_of state.new ≡ after_timers (machine_of state.old) }
    ensures asks { Asks
        (10 * count_jobs (has_due_timer state.old.moment) state.old + 2) state.old.store.jobs state.new.store.jobs }
{
    fire_jobs(state);
    changes::end_pauses(state);
}

/// Brings all jobs that the client at the seat holds into this state.
#[tactic(auto, using(crate::proofs::ToldLemmas::loop_asks, crate::proofs::FiredTimerLemmas::given_none))]
pub(crate) fn give_back_all(state: &mut CoreParts, seat: Seat, becomes: JobState)
    requires free { is_reserved becomes ≡ false }
    ensures after { machine_of state.new ≡ after_giving_back becomes seat (machine_of state.old) }
    ensures asks { Asks
        (9 * count_jobs (is_held_by seat) state.old + 1) state.old.store.jobs state.new.store.jobs }
{
    while let Some((_, id)) = state.store.first_held(seat) {
        changes::change_job(state, id, &JobChange::GiveBack(becomes));
    }
}

fn moment_of(found: Option<(Moment, JobId)>) -> Option<Moment>
    ensures { result ≡ option_map (λ p. p.0) found }
{
    match found {
        None => None,
        Some((moment, _)) => Some(moment),
    }
}

// Returns when a waiting client gets DEADLINE_SOON for a job that it holds.
fn warning_due(store: &mut Store, client: &SeatRecord) -> Option<Moment>
    ensures due { result ≡ warning_due store.old.jobs.jobs client.now }
    ensures kept { SearchesStore (if is_waiting client.now then 1 else 0) store.old store.new }
{
    if !client.is_waiting() {
        return None;
    }
    match store.first_held(client.number()) {
        None => None,
        Some((deadline, _)) => Some(deadline.saturating_sub(1000)),
    }
}

// Does the same for the client at a seat, if there is one.
fn warning_due_at(store: &mut Store, client: Option<&SeatRecord>) -> Option<Moment>
    ensures due { result ≡ warning_due_at store.old.jobs.jobs (option_copied client.entry) }
    ensures kept { SearchesStore
        (if is_waiting_there (option_copied client.entry) then 1 else 0) store.old store.new }
{
    match client {
        None => None,
        Some(client) => warning_due(store, client),
    }
}

// Returns the earlier of this moment and the one at which this waiter gets
// DEADLINE_SOON.
fn with_warning_of(
    best: Option<Moment>,
    store: &mut Store,
    seats: &[SeatRecord],
    waiter: Waiter,
) -> Option<Moment>
    ensures due { result ≡ at_waiter (with_warning_due store.old.jobs.jobs) seats.now best waiter }
    ensures kept { SearchesStore 1 store.old store.new }
{
    match seats.get(usize::from(waiter.1)) {
        None => best,
        Some(client) => earlier_of(best, warning_due(store, client)),
    }
}

// Returns when the first of these waiters gets DEADLINE_SOON.
#[tactic(auto, using(crate::proofs::AskLemmas::asks_then, bq_state::proofs::LoopLemmas::folded_beside))]
fn first_warning(store: &mut Store, seats: &[SeatRecord], waiters: &[Waiter]) -> Option<Moment>
    ensures due { result
        ≡ fold (at_waiter (with_warning_due store.old.jobs.jobs) seats.now) None waiters.now }
    ensures kept { SearchesStore (length waiters.now) store.old store.new }
{
    let mut best = None;
    for i in 0..waiters.len() {
        best = with_warning_of(best, store, seats, waiters[i]);
    }
    best
}

// Returns when the first waiting client gets DEADLINE_SOON. Only clients that may hold a job are
// checked or, if that is more than one, only waiting ones.
#[tactic(auto, using(crate::proofs::AskLemmas::warnings_asked))]
fn warnings_due(
    store: &mut Store,
    seats: &[SeatRecord],
    waiters: &[Waiter],
    warns: &Warns,
) -> Option<Moment>
    requires warned { AreWarned warns.now store.old.jobs.jobs seats.now }
    requires waiters { AreWaitersOf waiters.now seats.now }
    ensures due { result ≡ fold (with_warning_due store.old.jobs.jobs) None seats.now }
    ensures kept { SearchesStore (count_by is_waiting seats.now) store.old store.new }
{
    match warns {
        Warns::Nothing => None,
        Warns::Client(seat) => warning_due_at(store, seats::find(seats, *seat)),
        Warns::Any => first_warning(store, seats, waiters),
    }
}

// Returns when a timer of a job is due, not counting DEADLINE_SOON.
#[tactic(auto, using(std::proofs::lemmas::Grind::common_steps))]
fn jobs_due(state: &mut CoreParts) -> Option<Moment>
    ensures due { result ≡ timers_due state.old.store.jobs.jobs }
    ensures kept { OnlySearches 2 state.old state.new }
{
    let due = first_delayed(state);
    let deadline = first_lease(state);
    earlier_of(moment_of(due), moment_of(deadline))
}

// Returns when the first wait times out. If that is known, no seat is checked.
fn seats_due(first: &FirstTimeout, seats: &[SeatRecord], waiters: &[Waiter]) -> Option<Moment>
    requires known { AreTimeouts first.now seats.now }
    requires waiters { AreWaitersOf waiters.now seats.now }
    ensures { result ≡ fold with_seat_due None seats.now }
{
    match first {
        FirstTimeout::Known(first) => *first,
        FirstTimeout::Unknown => first_to_give_up(seats, waiters),
    }
}

/// Returns the earliest moment at which something happens by itself, if there is any.
#[tactic(auto, using(std::proofs::lemmas::Grind::common_steps))]
pub(crate) fn next_due(state: &mut CoreParts) -> Option<Moment>
    ensures due { result ≡ next_due_of (machine_of state.old) }
    ensures same { machine_of state.new ≡ machine_of state.old }
    ensures asks { Asks
        (count_by is_waiting state.old.seats.items + 2) state.old.store.jobs state.new.store.jobs }
{
    let jobs = jobs_due(state);
    let warning = warnings_due(
        &mut state.store,
        state.seats.as_slice(),
        state.waiting.as_slice(),
        &state.known.warns,
    );
    let seats = seats_due(
        &state.known.first_timeout,
        state.seats.as_slice(),
        state.waiting.as_slice(),
    );
    changes::settle_warnings(state, warning.is_some());
    earlier_of(
        earlier_of(jobs, warning),
        earlier_of(state.store.first_pause_end(), seats),
    )
}
