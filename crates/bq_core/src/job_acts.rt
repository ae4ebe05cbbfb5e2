//! Commands on one job, and those that wait for one.
ghost use Rattle.std.specs.Prelude.{Some, false, length, true, ◌<◌, ◌≡◌};
ghost use Rattle.bq_core.specs.{Acting.{Acts, put_of}, Replying.{RepliesBy, RepliesTo, Waits}};
ghost use Rattle.bq_job.specs.machine.{Changes.seat_with, JobCommands.{bury_effect, is_full as is_full_of}};
ghost use Rattle.bq_job.specs.machine.JobCommands.{kick_job_effect, new_job as job_of_put, release_effect, reserve_job_effect};
ghost use Rattle.bq_job.specs.machine.{JobCommands.touch_effect, Limits.later as later_by, Machine.SeatRecord};
ghost use Rattle.bq_jobs.specs.Numbering.{HasNumber};
ghost use Rattle.bq_state.specs.{Asking.AsksAsChanged, CoreParts.machine_of, SeatStates.is_asking, TubeEntries.has_entry, TubesSeen.records};
ghost use Rattle.bq_job.specs.declared.answer.Answer.TheVariants as answers;
ghost use Rattle.bq_job.specs.declared.request.Request.TheVariants as requests;
ghost use Rattle.bq_job.specs.declared.step.Step.TheVariants as steps;

use crate::acts::{Reply, set_answer};
use crate::answering;
use bq_core_api::Outs;
use bq_job::{Answer, Body, Counts, Job, JobId, Moment, Pri, Seat};
use bq_jobs::{Tube, TubeNumber, adds_at_the_end, next_is_free};
use bq_state::core_parts::CoreParts;
use bq_state::job_store::{JobChange, JobTest};
use bq_state::{changes, job_store, seats};
use std::alloc::Global;

/// A new job, as its client wants it, without its body.
#[derive(Clone, Copy)]
pub(crate) struct NewJob {
    pub(crate) pri: Pri,
    pub(crate) delay: u32,
    pub(crate) ttr: u32,
}

/// The new values of a released job.
#[derive(Clone, Copy)]
pub(crate) struct PriAndDelay {
    pub(crate) pri: Pri,
    pub(crate) delay: u32,
}

// Returns the job that a put with this id makes; its time to run is at least one second.
fn new_job(state: &CoreParts, id: JobId, tube: &Tube, new: NewJob, body: Body) -> Job
    ensures { (s : SeatRecord) → s.used ≡ tube.now → result
        ≡ record (job_of_put (machine_of state.now) s new.pri new.delay new.ttr body) { id = id } }
{
    Job {
        id,
        tube: *tube.name(),
        pri: new.pri,
        delay: new.delay,
        ttr: new.ttr.max(1),
        body,
        put_at: state.moment,
        counts: Counts::default(),
        state: job_store::delayed_by(new.delay, state.moment),
    }
}

// Returns the number of a tube that has an entry.
fn number_of(state: &CoreParts, tube: &Tube) -> TubeNumber
    requires { has_entry tube.now (records state.now.store.tubes) ≡ true }
    ensures { HasNumber tube.now result state.now.store.tubes.numbers }
{
    state.store.number_of(tube.name(), tube.number()).unwrap()
}

// Returns true if the job limit is reached.
fn is_full(state: &CoreParts) -> bool
    ensures { result ≡ is_full_of state.now.config.max_jobs (machine_of state.now).jobs }
{
    match state.config.max_jobs {
        None => false,
        Some(most) => state.store.len() >= most as usize,
    }
}

/// Puts a job. The boxes that it needs are allocated before any change; if the job limit is
/// reached, nothing is allocated. The job shares the body with the client's step.
#[inline(never)]
#[tactic(auto, using(crate::proofs::ActLemmas::puts))]
pub(crate) fn put(
    state: &mut CoreParts,
    alloc: Global,
    seat: Seat,
    new: NewJob,
    body: &Body,
    outs: &mut Outs,
)
    requires asks { is_asking (seat_with seat state.old.seats.items) ≡ true }
    requires room { length outs.old.given < outs.old.most }
    ensures acts { Acts (machine_of state.old) seat (put_of new body.now) outs.old outs.new
        (machine_of state.new) }
    ensures asks { AsksAsChanged state.old.store.jobs state.new.store.jobs }
{
    if state.draining {
        return answering::draining(outs, seat);
    }
    if is_full(state) {
        return answering::out_of_memory(outs, seat);
    }
    let Ok(shared) = body.share() else {
        return answering::left_out(outs, seat);
    };
    put_shared(state, alloc, seat, new, shared, outs);
}

// Puts a job with this body into the tube that the client uses.
#[tactic(auto, using(crate::proofs::ActLemmas::puts))]
fn put_shared(
    state: &mut CoreParts,
    alloc: Global,
    seat: Seat,
    new: NewJob,
    body: Body,
    outs: &mut Outs,
)
    requires asks { is_asking (seat_with seat state.old.seats.items) ≡ true }
    requires accepts { state.old.draining ≡ false }
    requires limit { is_full_of state.old.config.max_jobs (machine_of state.old).jobs ≡ false }
    requires room { length outs.old.given < outs.old.most }
    ensures acts { Acts (machine_of state.old) seat (put_of new body) outs.old outs.new
        (machine_of state.new) }
    ensures asks { AsksAsChanged state.old.store.jobs state.new.store.jobs }
{
    let Ok(()) = state.store.reserve_one(alloc) else {
        drop(body);
        return answering::left_out(outs, seat);
    };
    let id = state.next_id;
    next_is_free();
    adds_at_the_end();
    changes::count_put(state);
    // The client asks, so it is found, and so is its tube.
    let Some(client) = seats::find(state.seats.as_slice(), seat) else {
        drop(body);
        return;
    };
    let tube = client.used();
    let number = number_of(state, tube);
    let job = new_job(state, id, tube, new, body);
    changes::add(state, job, number);
    answering::inserted(outs, seat, id);
}

/// The client waits, until this moment if there is one.
#[tactic(auto, using(bq_state::proofs::CrowdLemmas::asking_is_connected, bq_state::proofs::WarningLemmas::known_holds))]
pub(crate) fn reserve(state: &mut CoreParts, seat: Seat, until: Option<Moment>) -> Reply
    requires asks { is_asking (seat_with seat state.old.seats.items) ≡ true }
    ensures reply { Waits seat until state.old state.new }
    ensures silent { result ≡ Reply.Silent }
    ensures asks { AsksAsChanged state.old.store.jobs state.new.store.jobs }
{
    changes::note_leases(state, seat);
    let ticket = changes::give_ticket(state);
    changes::start_waiting(state, seat, ticket, until);
    Reply::Silent
}

/// The client waits for at most this many seconds.
pub(crate) fn reserve_until(state: &mut CoreParts, seat: Seat, seconds: u32) -> Reply
    requires asks { is_asking (seat_with seat state.old.seats.items) ≡ true }
    ensures reply { Waits seat (Some (later_by state.old.moment seconds)) state.old state.new }
    ensures silent { result ≡ Reply.Silent }
    ensures asks { AsksAsChanged state.old.store.jobs state.new.store.jobs }
{
    let until = job_store::later(state.moment, seconds);
    reserve(state, seat, Some(until))
}

/// Reserves a job that no client holds, in any tube.
#[inline(never)]
#[tactic(auto, using(bq_state::proofs::PartsLemmas::compared_sound))]
pub(crate) fn reserve_job(
    state: &mut CoreParts,
    seat: Seat,
    id: JobId,
    answer: &mut Answer,
) -> Reply
    ensures reply { RepliesTo seat false
        (reserve_job_effect id) state.old result answer.new state.new }
    ensures asks { AsksAsChanged state.old.store.jobs state.new.store.jobs }
{
    if !state.has_job(id, JobTest::Free) {
        return not_found(answer);
    }
    let Some(shared) = state.store.share_body(id) else {
        return not_found(answer);
    };
    let Ok(body) = shared else {
        return Reply::Unshared;
    };
    let change = JobChange::HandOut(seat, state.moment);
    changes::change_job(state, id, &change);
    set_answer(answer, Answer::Reserved(id, body));
    Reply::Told
}

/// Removes a job that no client holds, or that this client holds.
#[inline(never)]
#[tactic(auto, using(crate::proofs::ActLemmas::asked_in_all, crate::proofs::ActLemmas::deletes))]
pub(crate) fn delete(state: &mut CoreParts, seat: Seat, id: JobId, outs: &mut Outs)
    requires asks { is_asking (seat_with seat state.old.seats.items) ≡ true }
    requires room { length outs.old.given < outs.old.most }
    ensures acts { Acts (machine_of state.old) seat (steps.Ask (requests.Delete id)) outs.old outs.new
        (machine_of state.new) }
    ensures asks { AsksAsChanged state.old.store.jobs state.new.store.jobs }
{
    if changes::delete(state, id, JobTest::FreeFor(seat)) {
        answering::deleted(outs, seat);
    } else {
        answering::not_found(outs, seat);
    }
}

/// Answers that there is no such job or tube. Not inlined, because its caller would otherwise
/// reserve and initialize room for an answer.
#[inline(never)]
pub(crate) fn not_found(answer: &mut Answer) -> Reply
    ensures answer { answer.new ≡ answers.NotFound }
    ensures reply { result ≡ Reply.Told }
{
    set_answer(answer, Answer::NotFound);
    Reply::Told
}

/// Releases a job that the client holds.
#[inline(never)]
pub(crate) fn release(
    state: &mut CoreParts,
    seat: Seat,
    id: JobId,
    with: PriAndDelay,
    answer: &mut Answer,
) -> Reply
    ensures reply { RepliesTo seat false
        (release_effect id with.pri with.delay) state.old result answer.new state.new }
    ensures asks { AsksAsChanged state.old.store.jobs state.new.store.jobs }
{
    if !state.has_job(id, JobTest::HeldBy(seat)) {
        return not_found(answer);
    }
    let change = JobChange::Release(with.pri, with.delay, state.moment);
    changes::change_job(state, id, &change);
    set_answer(answer, Answer::Released);
    Reply::Told
}

/// Buries a job that the client holds.
#[inline(never)]
pub(crate) fn bury(
    state: &mut CoreParts,
    seat: Seat,
    id: JobId,
    pri: Pri,
    answer: &mut Answer,
) -> Reply
    ensures reply { RepliesTo seat false
        (bury_effect id pri) state.old result answer.new state.new }
    ensures asks { AsksAsChanged state.old.store.jobs state.new.store.jobs }
{
    if !state.has_job(id, JobTest::HeldBy(seat)) {
        return not_found(answer);
    }
    state.burials = state.burials.saturating_add(1);
    let change = JobChange::Bury(state.burials, pri);
    changes::change_job(state, id, &change);
    set_answer(answer, Answer::Buried);
    Reply::Told
}

/// Restarts the time to run of a job that the client holds.
#[inline(never)]
pub(crate) fn touch(state: &mut CoreParts, seat: Seat, id: JobId, answer: &mut Answer) -> Reply
    ensures reply { RepliesTo seat false (touch_effect id) state.old result answer.new state.new }
    ensures asks { AsksAsChanged state.old.store.jobs state.new.store.jobs }
{
    let Some(ttr) = state.time_to_run(id, seat) else {
        return not_found(answer);
    };
    let change = JobChange::Touch(seat, job_store::later(state.moment, ttr));
    changes::change_job(state, id, &change);
    set_answer(answer, Answer::Touched);
    Reply::Told
}

/// Makes a buried or delayed job ready.
#[inline(never)]
pub(crate) fn kick_job(state: &mut CoreParts, id: JobId, answer: &mut Answer) -> Reply
    ensures reply { (s : SeatRecord)
        → RepliesBy false (λ m. kick_job_effect id m s) state.old result answer.new state.new }
    ensures asks { AsksAsChanged state.old.store.jobs state.new.store.jobs }
{
    if !state.has_job(id, JobTest::Kickable) {
        return not_found(answer);
    }
    changes::change_job(state, id, &JobChange::Kick);
    set_answer(answer, Answer::Kicked);
    Reply::Told
}
