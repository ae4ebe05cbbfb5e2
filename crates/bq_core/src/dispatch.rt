//! Hands ready jobs out: to the clients that wait for them, and to a client whose reserve finds one at
//! once.
ghost use Rattle.std.specs.{List.sum_by, Option.option_map, Prelude.{IfOk, IfSome, None, Some}};
ghost use Rattle.std.specs.Prelude.{fold, if◌then◌else◌, is_some, length, true, ◌&&◌, ◌<◌, ◌≡◌};
ghost use Rattle.bq_core.specs.{AtOnce.{ActsOrGives, TakesAtOnce, is_reserve, may_take}, HandOuts.{HandsOut, IsPicked}};
ghost use Rattle.bq_core.specs.{Serving.NoneIsGone, Turns.{Gives, HasRoom}};
ghost use Rattle.bq_job.specs.{beside.Computed.waiting_count, machine.Changes.seat_with};
ghost use Rattle.bq_job.specs.machine.{Dispatch.{DispatchTurn, next_job}, Steps.has_refused_share};
ghost use Rattle.bq_jobs.specs.{Searching.Asks, Seen.IsBodyOf};
ghost use Rattle.bq_state.specs.{Asking.AsksByTurn, CoreParts.{AtSeat, machine_of}, Cost.{waited, waited_tubes}, Keeping.{OnlySearches, SearchesStore}};
ghost use Rattle.bq_state.specs.Offers.{better_rank, is_waited_at, next_rank, offered, these, with_offer, with_offers};
ghost use Rattle.bq_state.specs.{SeatChanges.AreNumbered, WaitingList.{by_seat, waited_at, waiters_of}};
ghost use Rattle.bq_state.specs.{TubesSeen.records, WantedJobs.is_nothing};

use crate::{acts, answering};
use bq_core_api::Outs;
use bq_job::{Body, JobId, NoMemory, Request, Seat, Step};
use bq_jobs::{JobList, Tube};
use bq_state::core_parts::CoreParts;
use bq_state::job_store::JobChange;
use bq_state::known::Wanted;
use bq_state::seats::{SeatRecord, Waiter};
use bq_state::store::Store;
use bq_state::{changes, seats};
use std::alloc::Global;

// A client that watches more tubes than this waits first, so that a search that finds no job costs
// little.
const MOST_TUBES: usize = 8;

/// A ready job, as its priority and its id.
pub(crate) type Offer = (u64, JobId);

// Returns the one of two ready jobs that goes first.
fn better(best: Option<Offer>, other: Option<Offer>) -> Option<Offer>
    ensures { result ≡ better_rank best other }
{
    match (best, other) {
        (None, other) => other,
        (Some(best), None) => Some(best),
        (Some((pri, id)), Some((other_pri, other_id))) => {
            if other_pri < pri || (other_pri == pri && other_id < id) {
                Some((other_pri, other_id))
            } else {
                Some((pri, id))
            }
        }
    }
}

// Returns the most urgent ready job in the tube, unless the tube is paused.
fn offer_of(store: &mut Store, tube: &Tube) -> Option<Offer>
    ensures offer { result ≡ offered store.old.jobs.jobs (records store.old.tubes) tube.now }
    ensures kept { SearchesStore 1 store.old store.new }
{
    if store.is_paused(tube.name(), tube.number()) {
        None
    } else {
        store.first_listed(JobList::Ready, tube)
    }
}

/// Returns the best of this job and those that these tubes offer.
#[inline(always)]
pub(crate) fn best_among(store: &mut Store, watched: &[Tube], first: Option<Offer>) -> Option<Offer>
    ensures best { result ≡ fold (with_offer store.old.jobs.jobs (records store.old.tubes)) first watched.now }
    ensures kept { SearchesStore (length watched.now) store.old store.new }
{
    let mut best = first;
    for i in 0..watched.len() {
        best = better(best, offer_of(store, &watched[i]));
    }
    best
}

// Returns the most urgent ready job in the tube, unless the tube is paused or no client waits for
// its jobs.
fn offer_to(store: &mut Store, tube: &Tube) -> Option<Offer>
    ensures offer { result
        ≡ (if is_waited_at tube.now store.old.tubes
        then offered store.old.jobs.jobs (records store.old.tubes) tube.now else None) }
    ensures kept { SearchesStore (if is_waited_at tube.now store.old.tubes then 1 else 0) store.old store.new }
{
    if store.crowd_of(tube.name(), tube.number()).waiting > 0 {
        offer_of(store, tube)
    } else {
        None
    }
}

// Returns the best of this job and those that the client at this seat waits for, if there is a
// client.
#[tactic(auto, using(crate::proofs::AskLemmas::asks_more, crate::proofs::AskLemmas::asks_none))]
fn best_of_client(
    store: &mut Store,
    seats: &[SeatRecord],
    seat: Seat,
    first: Option<Offer>,
) -> Option<Offer>
    requires numbered { AreNumbered seats.now }
    ensures best { result
        ≡ fold (with_offers store.old.jobs.jobs (records store.old.tubes)) first
        (these (seat_with seat seats.now)) }
    ensures kept { SearchesStore (sum_by waited_tubes (these (seat_with seat seats.now))) store.old store.new }
{
    match seats::find(seats, seat) {
        None => first,
        Some(client) => if client.is_waiting() {
            best_among(store, client.watched(), first)
        } else {
            first
        },
    }
}

// Returns the best of the jobs that these waiters wait for.
#[tactic(auto, using(crate::proofs::AskLemmas::asks_summed, bq_state::proofs::LoopLemmas::folded_beside))]
fn best_of_waiters(store: &mut Store, seats: &[SeatRecord], waiters: &[Waiter]) -> Option<Offer>
    requires numbered { AreNumbered seats.now }
    ensures best { result
        ≡ fold (by_seat (with_offers store.old.jobs.jobs (records store.old.tubes)) seats.now) None waiters.now }
    ensures kept { SearchesStore (sum_by (waited_at seats.now) waiters.now) store.old store.new }
{
    let mut best = None;
    for i in 0..waiters.len() {
        best = best_of_client(store, seats, waiters[i].1, best);
    }
    best
}

// Returns the best of the jobs that waiting clients may have. Only waiting clients are checked.
#[tactic(auto, using(crate::proofs::OfferLemmas::asks_walked, crate::proofs::OfferLemmas::offers_walked))]
fn best_offer(store: &mut Store, seats: &[SeatRecord], waiters: &[Waiter]) -> Option<Offer>
    requires numbered { AreNumbered seats.now }
    requires waiters { waiters.now ≡ waiters_of seats.now }
    ensures best { result ≡ fold (with_offers store.old.jobs.jobs (records store.old.tubes)) None seats.now }
    ensures kept { SearchesStore (sum_by waited_tubes seats.now) store.old store.new }
{
    best_of_waiters(store, seats, waiters)
}

// Returns the job that is handed out next. Only jobs that may have become available are checked.
#[tactic(auto, using(crate::proofs::SearchLemmas::offers_found))]
fn next_offer(state: &mut CoreParts) -> Option<Offer>
    ensures next { result ≡ next_rank (machine_of state.old) }
    ensures kept { OnlySearches (waited (machine_of state.old)) state.old state.new }
{
    match &state.known.wanted {
        Wanted::Nothing => None,
        Wanted::Tube(tube) => offer_to(&mut state.store, tube),
        Wanted::Client(seat) => best_of_client(
            &mut state.store,
            state.seats.as_slice(),
            *seat,
            None,
        ),
        Wanted::Any => best_offer(
            &mut state.store,
            state.seats.as_slice(),
            state.waiting.as_slice(),
        ),
    }
}

// Returns the id of the job that is handed out next. If no job is ready or no client waits, nothing
// is searched.
#[tactic(auto, using(crate::proofs::AskLemmas::asks_more, crate::proofs::AskLemmas::asks_none, crate::proofs::DispatchLemmas::id_of_best, crate::proofs::IdleLemmas::no_id_ready, crate::proofs::IdleLemmas::no_id_waited))]
fn next_job(state: &mut CoreParts) -> Option<JobId>
    ensures id { result ≡ option_map (λ j. j.id) (next_job (machine_of state.old)) }
    ensures kept { OnlySearches (waited (machine_of state.old)) state.old state.new }
{
    if !state.has_ready() {
        return None;
    }
    if !state.has_waiter() {
        return None;
    }
    match next_offer(state) {
        None => None,
        Some((_, id)) => Some(id),
    }
}

// Returns the client that has waited longest for jobs of the next job's tube, and another reference
// to the job's body, unless the body cannot be shared. Not inlined, because it reserves room for
// the tube's name.
#[inline(never)]
#[tactic(auto, using(crate::proofs::DispatchLemmas::next_there, crate::proofs::DispatchLemmas::body_of_next))]
fn pick_at_tube(state: &mut CoreParts, id: JobId) -> Option<(Seat, Result<Body, NoMemory>)>
    requires next { Some id ≡ option_map (λ j. j.id) (next_job (machine_of state.old)) }
    ensures some { is_some result ≡ true }
    ensures picked { IfSome result (λ p. IsPicked (machine_of state.old) p.0) }
    ensures share { IfSome result (λ p. IfOk p.1 (IsBodyOf (next_job (machine_of state.old)))) }
    ensures kept { OnlySearches 1 state.old state.new }
{
    let (tube, shared) = state.store.share(id)?;
    let seat = seats::first_waiting(
        state.seats.as_slice(),
        state.waiting.as_slice(),
        tube.name(),
    )?;
    Some((seat, shared))
}

// Returns the client that gets the next job, and another reference to the job's body, unless that
// is refused. If only one client may have any job, it is that one, and neither the other clients
// nor the job's tube are checked. If only jobs of one tube may be had, the job is in that tube.
#[tactic(auto, using(crate::proofs::DispatchLemmas::next_there, crate::proofs::DispatchLemmas::body_of_next))]
fn pick(state: &mut CoreParts, id: JobId) -> Option<(Seat, Result<Body, NoMemory>)>
    requires next { Some id ≡ option_map (λ j. j.id) (next_job (machine_of state.old)) }
    ensures some { is_some result ≡ true }
    ensures picked { IfSome result (λ p. IsPicked (machine_of state.old) p.0) }
    ensures share { IfSome result (λ p. IfOk p.1 (IsBodyOf (next_job (machine_of state.old)))) }
    ensures kept { OnlySearches 1 state.old state.new }
{
    match &state.known.wanted {
        Wanted::Client(seat) => {
            let seat = *seat;
            let shared = state.store.share_body(id)?;
            Some((seat, shared))
        }
        Wanted::Tube(tube) => {
            let seat = seats::first_waiting(
                state.seats.as_slice(),
                state.waiting.as_slice(),
                tube.name(),
            )?;
            let shared = state.store.share_body(id)?;
            Some((seat, shared))
        }
        _ => pick_at_tube(state, id),
    }
}

// Hands the job out to the client at the seat, unless another reference to its body is refused: then
// the client is answered OUT_OF_MEMORY. In either case it no longer waits.
#[tactic(auto, using(crate::proofs::TurnLemmas::given_in_turn, crate::proofs::TurnLemmas::refused_given))]
fn hand_out(
    state: &mut CoreParts,
    outs: &mut Outs,
    id: JobId,
    number: Seat,
    shared: Result<Body, NoMemory>,
)
    requires room { length outs.old.given < outs.old.most }
    ensures given { HandsOut (machine_of state.old) id number shared outs.old outs.new
        (machine_of state.new) }
    ensures asks { Asks 8 state.old.store.jobs state.new.store.jobs }
{
    match shared {
        Ok(body) => {
            let change = JobChange::HandOut(number, state.moment);
            // First, because no client holds a job while it waits.
            changes::stop_waiting(state, number);
            changes::change_job(state, id, &change);
            answering::reserved(outs, number, id, body);
        }
        Err(_) => {
            changes::stop_waiting(state, number);
            answering::unshared(outs, number);
        }
    }
}

// Hands out the next job, which has this id. Some client waits for it.
fn hand_out_one(state: &mut CoreParts, outs: &mut Outs, id: JobId)
    requires next { Some id ≡ option_map (λ j. j.id) (next_job (machine_of state.old)) }
    requires room { HasRoom 0 (machine_of state.old) outs.old }
    ensures given { Gives DispatchTurn has_refused_share (machine_of state.old)
        (machine_of state.new) outs.old outs.new }
    ensures fewer { waiting_count (machine_of state.new) < waiting_count (machine_of state.old) }
    ensures asks { Asks 9 state.old.store.jobs state.new.store.jobs }
{
    if let Some((number, shared)) = pick(state, id) {
        hand_out(state, outs, id, number, shared);
    }
}

// While a waiting client may have a ready job, hands the least such job out to the client that has
// waited longest. Not inlined, because it reserves and initializes room for a name, and usually no
// client may have a job.
#[inline(never)]
fn dispatch_all(state: &mut CoreParts, outs: &mut Outs)
    requires room { HasRoom 0 (machine_of state.old) outs.old }
    ensures given { Gives DispatchTurn has_refused_share
        (machine_of state.old) (machine_of state.new) outs.old outs.new }
    ensures done { next_job (machine_of state.new) ≡ None }
    ensures asks { AsksByTurn
        (waited (machine_of state.old)) outs.old outs.new state.old.store.jobs state.new.store.jobs }
{
    while let Some(id) = next_job(state) {
        hand_out_one(state, outs, id);
    }
}

/// While a waiting client may have a ready job, hands the least such job out to the client that has
/// waited longest. If no job is ready, or it is known that no client may have one, nothing is searched.
#[tactic(auto, using(crate::proofs::IdleLemmas::none_next, crate::proofs::IdleLemmas::none_ready, crate::proofs::TurnLemmas::gives_nothing))]
pub(crate) fn dispatch(state: &mut CoreParts, outs: &mut Outs)
    requires room { HasRoom 0 (machine_of state.old) outs.old }
    ensures given { Gives DispatchTurn has_refused_share
        (machine_of state.old) (machine_of state.new) outs.old outs.new }
    ensures done { next_job (machine_of state.new) ≡ None }
    ensures idle { is_nothing state.old.known.wanted ≡ true → state.new.store.jobs ≡ state.old.store.jobs }
    ensures asks { AsksByTurn
        (waited (machine_of state.old)) outs.old outs.new state.old.store.jobs state.new.store.jobs }
{
    if !state.known.wanted.is_nothing() {
        if state.has_ready() {
            dispatch_all(state, outs);
        }
        changes::record_none_wanted(state);
    }
}

fn is_reserve(what: &Step) -> bool
    ensures { result ≡ is_reserve what.now }
{
    matches!(
        *what,
        Step::Ask(Request::Reserve | Request::ReserveWithTimeout { .. })
    )
}

// Returns true if the step is a reserve of a client that can ask, and no waiting client may have a
// job.
fn may_take(state: &CoreParts, seat: Seat, what: &Step) -> bool
    ensures { result ≡ may_take seat what.now state.now }
{
    is_reserve(what) && (state.known.wanted.is_nothing() && state.is_asking(seat))
}

// Returns the job that the client at the seat may be handed at once. Returns None if the step may
// take no job, if there is none, or if the client watches many tubes.
fn job_at_once(state: &mut CoreParts, seat: Seat, what: &Step) -> Option<JobId>
    ensures may { IfSome result (λ _. may_take seat what.now state.old ≡ true) }
    ensures job { IfSome result (λ id. AtSeat seat state.old (λ s. Some id
        ≡ option_map (λ r. r.1) (fold (with_offer state.old.store.jobs.jobs (records state.old.store.tubes)) None s.watched))) }
    ensures few { IfSome result (λ _. AtSeat seat state.old (λ s. Asks (length s.watched) state.old.store.jobs state.new.store.jobs)) }
    ensures kept { OnlySearches 8 state.old state.new }
{
    if !may_take(state, seat, what) {
        return None;
    }
    if state.known.tally.ready == 0 {
        return None;
    }
    let client = seats::find(state.seats.as_slice(), seat)?;
    if client.watch_count() > MOST_TUBES {
        return None;
    }
    let (_, id) = best_among(&mut state.store, client.watched(), None)?;
    Some(id)
}

// Makes the client at the seat hold the job that it gets at once, if there is one, and returns that
// job's id and another reference to its body. The ticket of the client's wait is used up. If there is
// no job, or the reference is refused, nothing is changed.
fn take_at_once(state: &mut CoreParts, seat: Seat, what: &Step) -> Option<(JobId, Body)>
    ensures taken { IfSome result (λ p. TakesAtOnce seat what.now p.0 p.1 state.old state.new) }
    ensures kept { result ≡ None → OnlySearches 9 state.old state.new }
{
    let id = job_at_once(state, seat, what)?;
    match changes::hand_out(state, seat, id)? {
        Ok(body) => {
            changes::give_ticket(state);
            Some((id, body))
        }
        Err(_) => None,
    }
}

/// Carries out the command's own effect and drops tubes that are gone. If the command is a reserve
/// and its client may have a job, the client is handed the job: by the rules it begins to wait, and
/// dispatch then hands it the job and ends its wait. Here it is not entered among the clients that
/// wait, and the model is the same afterwards.
#[tactic(auto, using(crate::proofs::AtOnceLemmas::given_at_once, crate::proofs::AtOnceLemmas::reserves))]
pub(crate) fn act_or_hand_out(
    state: &mut CoreParts,
    alloc: Global,
    seat: Seat,
    what: &Step,
    outs: &mut Outs,
)
    requires tubes { NoneIsGone (machine_of state.old) }
    requires room { HasRoom 1 (machine_of state.old) outs.old }
    ensures { ActsOrGives (machine_of state.old) seat what.now outs.old outs.new (machine_of state.new) state.old.store.jobs state.new.store.jobs }
{
    match take_at_once(state, seat, what) {
        Some((id, body)) => answering::reserved(outs, seat, id, body),
        None => {
            acts::act(state, alloc, seat, what, outs);
            changes::forget_tubes(state);
        }
    }
}
