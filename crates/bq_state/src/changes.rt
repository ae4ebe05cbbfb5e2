//! Operations that change the state of a core: its jobs, seats and tubes, the counts of what happened,
//! and the numbers that are given out in order.
ghost use Rattle.std.specs.{List.list_any, Map.lookup, Prelude.{IfOk, None, OnErr, [], false, fold, if◌then◌else◌, is_some, length, map}};
ghost use Rattle.std.specs.Prelude.{nat_le, nat_lt, true, unwrap_or, ◌&&◌, ◌+◌, ◌<◌, ◌≡◌, ◌≤◌};
ghost use Rattle.bq_index.specs.Removed.{passing};
ghost use Rattle.bq_job.specs.machine.Changes.{is_held_by, is_ready_state, is_waiting, job_with, seat_with};
ghost use Rattle.bq_job.specs.machine.{Changes.{with_job, with_seat, without_wait}, Dispatch.next_job, JobCommands.{last_id, waiting_from, with_put}};
ghost use Rattle.bq_job.specs.machine.{Limits.raised, Machine.{empty_seat, new_machine, numbers}, Timers.at_moment, TubeOrder.tubes};
ghost use Rattle.bq_job.specs.machine.Tubes.{forgetting, watches, with_tube};
ghost use Rattle.bq_jobs.specs.{JobsSeen.{ComparesAtMost, with_added}, Names.number_in, Numbering.HasNumber, Searching.Asks};
ghost use Rattle.bq_state.specs.{CoreParts.{AtSeat, Watches, fields, machine_of, with_pauses_ended}, Crowds.may_wait, Dues.with_warning_due};
ghost use Rattle.bq_state.specs.{JobChanges.{changed, is_passed_by, once_deleted, passes}, TubesSeen.{is_named_at, records}};
ghost use Rattle.bq_state.specs.{Store.first_store, Offers.is_waited_at, SeatChanges.{fewer_watched, has_tube_of, more_watched, seat_changed}};
ghost use Rattle.bq_state.specs.{SeatChanges.watches_other, TubeEntries.{has_entry, is_tube_of, tube_changed}, Warnings.may_hold};
ghost use Rattle.bq_state.specs.Warnings.{warned_if_due, with_holder};
ghost use Rattle.bq_state.specs.{HandOuts.{CountsIf, CountsMove, HandsOutTo, HasNumberIf, body_in}, SeatChanges.AreNumbered};
ghost use Rattle.bq_state.specs.declared.known.wanted.Wanted.TheVariants as wanted_jobs;
ghost use Rattle.bq_state.specs.declared.seats.SeatChange.TheVariants as seat_changes;

use crate::core_parts::CoreParts;
use crate::job_store::{JobChange, JobTest};
use crate::known::{FirstTimeout, Known, MaybeGone, Tally, Wanted, Warns, is_over};
use crate::seats::{SeatChange, SeatRecord};
use crate::store::Store;
use crate::tubes::{AddOrRemove, TubeChange};
use crate::waiting::WaitingList;
use crate::{roles, seats};
use bq_core_api::Config;
use bq_job::{Body, Job, JobId, JobState, Moment, NoMemory, Seat, TubeName};
use bq_jobs::{GhostName, JobMove, Tube, TubeNumber};
use std::alloc::Global;

// The last id that is given out. Its put makes the core drain, so the next id always fits.
const LAST_ID: JobId = u64::MAX - 1;

// Returns true if the state is ready and the counts show a client that waits for jobs of the tube,
// which is registered under this number.
fn is_wanted(
    waiting: &WaitingList,
    store: &Store,
    state: JobState,
    name: &TubeName,
    number: TubeNumber,
) -> bool
    requires { HasNumber name.now number store.now.tubes.numbers }
    ensures { result
        ≡ (is_ready_state state
        && (nat_lt 0 (length waiting.now.waiters) && is_waited_at name.now store.now.tubes)) }
{
    matches!(state, JobState::Ready)
        && waiting.as_slice().len() > 0
        && store.crowd_numbered(name, number).waiting > 0
}

/// Adds a job, for which there is room, and counts it in its tube, which has this number. Its id was
/// given out, and its tube has an entry.
// Only calls that are inlined have references to the job: otherwise its tube's name, which is stored
// already, would be copied for them.
pub fn add(state: &mut CoreParts, job: Job, number: TubeNumber)
    requires room { 0 < state.old.store.jobs.room }
    requires given { (1 ≤ job.id) × (job.id < state.old.next_id) }
    requires free { job_with job.id (machine_of state.old).jobs ≡ None }
    requires entry { has_entry job.tube (records state.old.store.tubes) ≡ true }
    requires number { HasNumber job.tube number state.old.store.tubes.numbers }
    ensures after { machine_of state.new
        ≡ record (with_tube job.tube with_put (machine_of state.old)) { jobs = with_added job (machine_of state.old).jobs } }
    ensures asks { ComparesAtMost 4 state.old.store.jobs state.new.store.jobs }
{
    let name = state.store.name_of(&GhostName::of(&job.tube), number);
    let is_wanted = is_wanted(&state.waiting, &state.store, job.state, name, number);
    let waits = seats::holder_waits(state.seats.as_slice(), job.state);
    state.known.add_job(&job, name, number, is_wanted, waits);
    state.store.add(job, number);
}

/// Removes the job with this id and drops it, and counts the deletion in its tube. Returns false if
/// there is no such job, or it does not pass the test; then nothing changes. The room of the job is
/// kept, unless there is plenty.
#[tactic(auto, using(crate::proofs::MovedLemmas::asks_no_tube))]
pub fn delete(state: &mut CoreParts, id: JobId, test: JobTest) -> bool
    ensures deleted { result
        ≡ is_passed_by (passes test) (job_with id (machine_of state.old).jobs) }
    ensures after { machine_of state.new
        ≡ once_deleted (passing (passes test) (job_with id (machine_of state.old).jobs)) (machine_of state.old) }
    ensures asks { ComparesAtMost 4 state.old.store.jobs state.new.store.jobs }
{
    let Some(report) = state.store.discard_if(id, &test) else {
        return false;
    };
    let (number, removed) = report;
    state.store.let_room_go(); // Of a peak in the past.
    let has_seats = state.store.edit_entry(&removed.tube, number, &removed);
    let name = state.store.name_of(&removed.tube, number);
    state.known.count_removal(&removed, name, number, has_seats);
    true
}

/// Changes the job with this id, if there is one.
#[tactic(auto, using(crate::proofs::MovedLemmas::tube_ignored, crate::proofs::NamedLemmas::records_moved))]
pub fn change_job(state: &mut CoreParts, id: JobId, what: &JobChange)
    ensures after { machine_of state.new ≡ with_job id (changed what.now) (machine_of state.old) }
    ensures asks { Asks 8 state.old.store.jobs state.new.store.jobs }
{
    let Some(report) = state.store.change(id, what) else {
        return;
    };
    let (number, moved) = report;
    count_move(
        &mut state.known,
        &mut state.store,
        &state.waiting,
        state.seats.as_slice(),
        &moved,
        number,
    );
}

/// Hands the job with this id out to the client at the seat, and returns another reference to its
/// body. Returns `NoMemory` if `Arc` refuses the reference, and None if there is no such job; then
/// nothing changes. The job is searched once.
#[tactic(auto, using(crate::proofs::MovedLemmas::tube_ignored))]
pub fn hand_out(state: &mut CoreParts, seat: Seat, id: JobId) -> Option<Result<Body, NoMemory>>
    ensures { HandsOutTo seat id result state.old state.new }
{
    let what = JobChange::HandOut(seat, state.moment);
    let shared = state.store.share_and_change(id, &what);
    count_if_moved(
        &mut state.known,
        &mut state.store,
        &state.waiting,
        state.seats.as_slice(),
        &shared,
    );
    body_of(shared)
}

// Returns the body of a job that was changed.
#[inline(always)]
fn body_of(
    shared: Option<Result<((TubeNumber, JobMove), Body), NoMemory>>,
) -> Option<Result<Body, NoMemory>>
    ensures { result ≡ body_in shared }
{
    match shared {
        None => None,
        Some(Err(fault)) => Some(Err(fault)),
        Some(Ok(pair)) => {
            let (_report, body) = pair;
            Some(Ok(body))
        }
    }
}

// Counts a job that was changed, unless the reference to its body was refused.
#[inline(always)]
fn count_if_moved(
    known: &mut Known,
    store: &mut Store,
    waiting: &WaitingList,
    seats: &[SeatRecord],
    shared: &Option<Result<((TubeNumber, JobMove), Body), NoMemory>>,
)
    requires number { HasNumberIf shared.now store.old.tubes.numbers }
    requires seats { AreNumbered seats.now }
    ensures counts { CountsIf shared.now waiting.now seats.now known.old known.new store.old.tubes store.new.tubes }
    ensures jobs { store.new.jobs ≡ store.old.jobs }
{
    if let Some(Ok(((number, moved), _))) = shared {
        count_move(known, store, waiting, seats, moved, *number);
    }
}

// Counts a changed job in its tube, which has this number, and notes what is known of it then.
#[inline(always)]
fn count_move(
    known: &mut Known,
    store: &mut Store,
    waiting: &WaitingList,
    seats: &[SeatRecord],
    moved: &JobMove,
    number: TubeNumber,
)
    requires number { HasNumber moved.now.tube number store.old.tubes.numbers }
    requires seats { AreNumbered seats.now }
    ensures counts { CountsMove moved.now waiting.now seats.now known.old known.new store.old.tubes store.new.tubes }
    ensures jobs { store.new.jobs ≡ store.old.jobs }
{
    let name = store.name_of(&moved.tube, number);
    let is_wanted = is_wanted(waiting, store, moved.to.state, name, number);
    let waits = seats::holder_waits(seats, moved.to.state);
    known.move_job(moved, name, number, is_wanted, waits);
    store.edit_entry(&moved.tube, number, moved);
}

/// Changes the seat with this number. If it starts to use a tube, that tube already has an entry.
#[inline(never)]
pub fn change_seat(state: &mut CoreParts, seat: Seat, what: &SeatChange)
    requires entry { has_tube_of what.now (records state.old.store.tubes) ≡ true }
    requires waits { may_wait what.now (seat_with seat state.old.seats.items) ≡ true }
    requires holds { may_hold what.now seat state.old.known.warns state.old.store.jobs.jobs ≡ true }
    ensures after { machine_of state.new
        ≡ with_seat seat (seat_changed what.now) (machine_of state.old) }
    ensures jobs { state.new.store.jobs ≡ state.old.store.jobs }
{
    change_seat_by(state, seat, what);
}

/// The client at the seat no longer waits.
#[inline(never)]
pub fn stop_waiting(state: &mut CoreParts, seat: Seat)
    ensures after { machine_of state.new ≡ with_seat seat without_wait (machine_of state.old) }
    ensures jobs { state.new.store.jobs ≡ state.old.store.jobs }
{
    change_seat_by(state, seat, &SeatChange::StopWaiting);
}

/// The client at the seat waits, with this ticket, until this moment if there is one.
#[inline(never)]
pub fn start_waiting(state: &mut CoreParts, seat: Seat, ticket: u64, until: Option<Moment>)
    requires waits { may_wait (seat_changes.Wait ticket until) (seat_with seat state.old.seats.items) ≡ true }
    requires holds { may_hold (seat_changes.Wait ticket until) seat state.old.known.warns state.old.store.jobs.jobs ≡ true }
    ensures after { machine_of state.new
        ≡ with_seat seat (waiting_from ticket until) (machine_of state.old) }
    ensures jobs { state.new.store.jobs ≡ state.old.store.jobs }
{
    change_seat_by(state, seat, &SeatChange::Wait(ticket, until));
}

// Does what `change_seat` says. It is inlined, so that a change that is known leaves only the code that it needs.
#[inline(always)]
#[tactic(auto, using(crate::proofs::KnowledgeLemmas::kept_by_seat))]
fn change_seat_by(state: &mut CoreParts, seat: Seat, what: &SeatChange)
    requires entry { has_tube_of what.now (records state.old.store.tubes) ≡ true }
    requires waits { may_wait what.now (seat_with seat state.old.seats.items) ≡ true }
    requires holds { may_hold what.now seat state.old.known.warns state.old.store.jobs.jobs ≡ true }
    ensures after { machine_of state.new
        ≡ with_seat seat (seat_changed what.now) (machine_of state.old) }
    ensures jobs { state.new.store.jobs ≡ state.old.store.jobs }
{
    let touched = roles::touched(what);
    let client = seats::find(state.seats.as_slice(), seat);
    state.waiting.leave(client);
    roles::recount(&mut state.store, client, AddOrRemove::Remove, touched);
    state.known.leave(client, what, touched, &state.store);
    seats::change_at(&mut state.seats, seat, what);
    let client = seats::find(state.seats.as_slice(), seat);
    state.waiting.join(client);
    roles::recount(&mut state.store, client, AddOrRemove::Add, touched);
    state.known.join(client, seat, what);
}

/// Records whether the client at the seat, which is about to wait, holds a job.
pub fn note_leases(state: &mut CoreParts, seat: Seat)
    ensures known { state.new.known.warns
        ≡ (if list_any (is_held_by seat) state.old.store.jobs.jobs then with_holder seat state.old.known.warns else state.old.known.warns) }
    ensures tickets { state.new.tickets ≡ state.old.tickets }
    ensures seats { state.new.seats ≡ state.old.seats }
    ensures tubes { state.new.store.tubes ≡ state.old.store.tubes }
    ensures after { machine_of state.new ≡ machine_of state.old }
    ensures asks { Asks 1 state.old.store.jobs state.new.store.jobs }
{
    let holds = state.holds_some(seat);
    state.known.warns.add_client_if(seat, holds);
}

/// Finds when the first wait times out, if that isn't known.
pub fn find_first_timeout(state: &mut CoreParts)
    ensures { fields state.new
        ≡ record (fields state.old) { known = record state.old.known { first_timeout = state.new.known.first_timeout } } }
{
    if let FirstTimeout::Unknown = &state.known.first_timeout {
        state.known.first_timeout = FirstTimeout::find(
            state.seats.as_slice(),
            state.waiting.as_slice(),
        );
    }
}

/// Records that no waiting client may have a job.
#[tactic(auto, using(crate::proofs::KnowledgeLemmas::so_with_nothing))]
pub fn record_none_wanted(state: &mut CoreParts)
    requires none { next_job (machine_of state.old) ≡ None }
    ensures { fields state.new
        ≡ record (fields state.old) { known = record state.old.known { wanted = wanted_jobs.Nothing } } }
{
    state.known.wanted = Wanted::Nothing;
}

/// Records whether some waiting client is going to get DEADLINE_SOON: if none is, none of them
/// holds a job.
#[tactic(auto, using(crate::proofs::KnowledgeLemmas::so_settled))]
pub fn settle_warnings(state: &mut CoreParts, is_due: bool)
    requires due { is_due ≡ is_some (fold (with_warning_due state.old.store.jobs.jobs) None state.old.seats.items) }
    ensures { fields state.new ≡ record (fields state.old)
        { known = record state.old.known { warns = warned_if_due is_due state.old.known.warns } } }
{
    state.known.warns.settle(is_due);
}

/// Ends the pauses that are over. If none is, no tube is checked.
#[tactic(auto, using(crate::proofs::KnowledgeLemmas::pauses_end))]
pub fn end_pauses(state: &mut CoreParts)
    ensures after { machine_of state.new ≡ with_pauses_ended (machine_of state.old) }
    ensures jobs { state.new.store.jobs ≡ state.old.store.jobs }
{
    if !is_over(state.store.first_pause_end(), state.moment) {
        return;
    }
    state.store.fire_timers(state.moment);
    state.known.wanted = Wanted::Any;
}

/// Changes the record of a tube that has an entry. It is looked for at the number `hint` first.
pub fn change_tube(state: &mut CoreParts, tube: &TubeName, hint: TubeNumber, what: TubeChange)
    requires entry { has_entry tube.now (records state.old.store.tubes) ≡ true }
    ensures after { machine_of state.new
        ≡ with_tube tube.now (tube_changed what) (machine_of state.old) }
    ensures jobs { state.new.store.jobs ≡ state.old.store.jobs }
{
    state.store.change_tube(tube, hint, what);
    state.known.wanted.change_tube(tube, hint, what);
}

/// Ensures that a tube has an entry and a number, and returns the number. The allocations for that
/// come before any change. Returns `NoMemory` if one fails.
#[tactic(auto, using(crate::proofs::KnowledgeLemmas::counted_new, crate::proofs::KnowledgeLemmas::has_new))]
pub fn provide_tube(
    state: &mut CoreParts,
    alloc: Global,
    tube: &TubeName,
) -> Result<TubeNumber, NoMemory>
    ensures after { machine_of state.new ≡ machine_of state.old }
    ensures entry { IfOk result (λ _. has_entry tube.now (records state.new.store.tubes) ≡ true) }
    ensures number { IfOk result (λ n. HasNumber tube.now n state.new.store.tubes.numbers) }
    ensures refused { OnErr result (has_entry tube.now (records state.old.store.tubes) ≡ false) }
    ensures seats { state.new.seats ≡ state.old.seats }
    ensures wanted { state.new.known.wanted ≡ state.old.known.wanted }
    ensures asks { Asks 0 state.old.store.jobs state.new.store.jobs }
{
    if let Some(number) = state.store.number_of(tube, TubeNumber::unknown()) {
        return Ok(number);
    }
    let number = state.store.provide(alloc, tube)?;
    state.known.maybe_gone.add_tube(tube, number);
    Ok(number)
}

/// The client at the seat watches one more tube. The allocations for that come before any change.
/// Returns how many tubes it then watches.
#[tactic(auto, using(crate::proofs::SeatPlaces::at_seats))]
pub fn watch_tube(
    state: &mut CoreParts,
    alloc: Global,
    seat: Seat,
    tube: &TubeName,
) -> Result<u64, NoMemory>
    requires fresh { AtSeat seat state.old (λ s. watches tube.now s ≡ false) }
    ensures count { IfOk result
        (λ n. AtSeat seat state.old (λ s. n ≡ length (more_watched tube.now s))) }
    ensures watched { IfOk result (λ _. Watches seat (more_watched tube.now) state.old state.new) }
    ensures same { OnErr result (machine_of state.new ≡ machine_of state.old) }
    ensures wanted { IfOk result (λ _. AtSeat seat state.old
        (λ s. is_waiting s ≡ false → state.new.known.wanted ≡ state.old.known.wanted)) }
    ensures asks { Asks 0 state.old.store.jobs state.new.store.jobs }
{
    let number = provide_tube(state, alloc, tube)?;
    if usize::from(seat) >= state.seats.len() {
        return Ok(0);
    }
    let roles = roles::of_watcher(&state.seats[usize::from(seat)]);
    let watched = Tube::new(tube, number);
    match seats::watch(&mut state.seats, alloc, seat, &watched) {
        Ok(count) => {
            state.store.recount(tube, number, AddOrRemove::Add, roles);
            state.known.wanted.add_all_if(roles.waiting);
            Ok(count)
        }
        Err(fault) => Err(fault),
    }
}

/// The client at the seat no longer watches a tube; it still watches another one. Returns how many
/// tubes it then watches.
#[tactic(auto, using(crate::proofs::SeatPlaces::at_seats))]
pub fn ignore_tube(state: &mut CoreParts, seat: Seat, tube: &TubeName) -> u64
    requires other { AtSeat seat state.old (λ s. watches_other tube.now s ≡ true) }
    ensures count { AtSeat seat state.old (λ s. result ≡ length (fewer_watched tube.now s)) }
    ensures after { Watches seat (fewer_watched tube.now) state.old state.new }
    ensures jobs { state.new.store.jobs ≡ state.old.store.jobs }
{
    if usize::from(seat) < state.seats.len() {
        let roles = roles::at(&state.seats[usize::from(seat)], tube);
        state
            .store
            .recount(tube, TubeNumber::unknown(), AddOrRemove::Remove, roles);
        state.known.maybe_gone.add_tube(tube, TubeNumber::unknown());
        seats::ignore(&mut state.seats, seat, tube)
    } else {
        0
    }
}

/// Returns the number of a tube, or one that no tube has if it has no entry.
pub fn number_of(state: &CoreParts, tube: &TubeName) -> TubeNumber
    ensures { number_in result
        ≡ unwrap_or (lookup (is_named_at tube.now) state.now.store.tubes.numbers) 1073741823 }
{
    let unknown = TubeNumber::unknown();
    state.store.number_of(tube, unknown).unwrap_or(unknown)
}

/// Returns true if the tube exists. It is looked for at the number `hint` first.
#[tactic(auto, using(crate::proofs::CountedLemmas::tube_there))]
pub fn is_tube(state: &CoreParts, tube: &TubeName, hint: TubeNumber) -> bool
    ensures { result
        ≡ is_tube_of (machine_of state.now).jobs (machine_of state.now).seats tube.now }
{
    state.store.is_tube(tube, hint)
}

/// Returns how many tubes exist. If no entry is of a tube that may have gone, that is the number of
/// entries.
pub fn tube_count(state: &CoreParts) -> u64
    ensures { result ≡ length (tubes (machine_of state.now)) }
{
    match &state.known.maybe_gone {
        MaybeGone::Nothing => state.store.tube_count() as u64,
        _ => state.store.count_alive(),
    }
}

/// Drops the entries and the numbers of tubes that no longer exist. Only tubes that may have gone
/// are checked. After most commands there are none, and it returns at once.
#[inline(always)]
#[tactic(auto, using(crate::proofs::KnowledgeLemmas::none_forgotten))]
pub fn forget_tubes(state: &mut CoreParts)
    ensures after { machine_of state.new ≡ forgetting (machine_of state.old) }
    ensures jobs { state.new.store.jobs ≡ record state.old.store.jobs { tubes = state.new.store.jobs.tubes } }
{
    if !state.known.maybe_gone.is_nothing() {
        forget_gone(state);
    }
}

// Does the same where some tube may have gone. It is not inlined, since it is rare.
#[inline(never)]
#[tactic(auto, using(crate::proofs::KnowledgeLemmas::once_forgotten, crate::proofs::KnowledgeLemmas::sound_forgotten))]
fn forget_gone(state: &mut CoreParts)
    ensures after { machine_of state.new ≡ forgetting (machine_of state.old) }
    ensures jobs { state.new.store.jobs ≡ record state.old.store.jobs { tubes = state.new.store.jobs.tubes } }
{
    state.store.forget_gone(&state.known.maybe_gone);
    state.known.maybe_gone = MaybeGone::Nothing;
}

/// Counts a connection that was opened.
pub fn count_connection(state: &mut CoreParts)
    ensures { fields state.new ≡ record (fields state.old) { connections = raised state.old.connections } }
{
    state.connections = state.connections.saturating_add(1);
}

/// Counts a put, and gives the next id out.
#[tactic(auto, using(crate::proofs::PartsLemmas::sound_given))]
pub fn count_put(state: &mut CoreParts)
    requires accepts { state.old.draining ≡ false }
    ensures { fields state.new ≡ record (fields state.old)
        { next_id = state.old.next_id + 1; puts = raised state.old.puts; draining = nat_le last_id state.old.next_id } }
{
    state.draining = state.next_id >= LAST_ID;
    state.next_id += 1;
    state.puts = state.puts.saturating_add(1);
}

/// Returns the next ticket, for a client that begins to wait.
pub fn give_ticket(state: &mut CoreParts) -> u64
    ensures ticket { result ≡ raised state.old.tickets }
    ensures after { fields state.new ≡ record (fields state.old) { tickets = raised state.old.tickets } }
{
    state.tickets = state.tickets.saturating_add(1);
    state.tickets
}

/// Sets the current moment. A moment below the last one counts as the last one.
pub fn raise_moment(state: &mut CoreParts, at: Moment)
    ensures after { machine_of state.new ≡ at_moment at (machine_of state.old) }
    ensures jobs { state.new.store.jobs ≡ state.old.store.jobs }
{
    state.moment = state.moment.max(at);
}

/// Returns a state without jobs and without clients.
pub fn new_parts(
    config: Config,
    store: Store,
    seats: Vec<SeatRecord, Global>,
    waiting: WaitingList,
) -> CoreParts
    requires first { store ≡ first_store store.tubes.numbers }
    requires free { seats.items ≡ map empty_seat (numbers 0 config.seats) }
    requires nobody { waiting.waiters ≡ [] }
    requires room { config.seats ≤ waiting.room }
    ensures empty { machine_of result ≡ new_machine config }
    ensures comparisons { result.store.jobs.comparisons ≡ 0 }
{
    CoreParts {
        config,
        store,
        seats,
        waiting,
        known: Known {
            tally: Tally::none(),
            connected: 0,
            maybe_gone: MaybeGone::Nothing,
            wanted: Wanted::Nothing,
            warns: Warns::Nothing,
            first_timeout: FirstTimeout::Known(None),
        },
        moment: 0,
        next_id: 1,
        burials: 0,
        tickets: 0,
        draining: false,
        timeouts: 0,
        puts: 0,
        connections: 0,
    }
}
