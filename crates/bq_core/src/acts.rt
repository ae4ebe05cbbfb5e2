//! The command's own effect, by kind, and its answer.
ghost use Rattle.std.specs.Prelude.{◌<◌, ◌≡◌, false, length, true};
ghost use Rattle.bq_core.specs.{Acting.{Acts, is_request, needs_no_room, with_answer, with_reply}, Replying.{RepliesAt, RepliesBy}, Turns.HasRoom};
ghost use Rattle.bq_job.specs.machine.{Asked.{asked, effect, refusal_answer as answer_of_refusal}, Changes.seat_with};
ghost use Rattle.bq_job.specs.machine.Steps.{step_takes_memory, takes_memory};
ghost use Rattle.bq_state.specs.{Asking.AsksAsChanged, CoreParts.machine_of, SeatStates.is_asking};
ghost use Rattle.bq_job.specs.declared.answer.Answer.TheVariants as answers;
ghost use Rattle.bq_job.specs.declared.step.Step.TheVariants as steps;

use crate::job_acts::{NewJob, PriAndDelay};
use crate::{answering, job_acts, kicks, statistics_acts, timers, tube_acts};
use bq_core_api::Outs;
use bq_job::{Answer, Refusal, Request, Seat, Step};
use bq_jobs::JobList;
use bq_state::core_parts::CoreParts;
use bq_state::seats::SeatChange;
use bq_state::{changes, job_store};
use std::alloc::Global;
use std::mem::replace;

#[tactic(auto, using(crate::proofs::ToldLemmas::connects))]
fn connect(state: &mut CoreParts, seat: Seat)
    ensures after { machine_of state.new
        ≡ (effect (machine_of state.old) seat steps.Connect).machine }
    ensures jobs { state.new.store.jobs ≡ state.old.store.jobs }
{
    if state.is_free(seat) {
        changes::change_seat(state, seat, &SeatChange::Connect);
        changes::count_connection(state);
    }
}

#[tactic(auto, using(crate::proofs::ToldLemmas::ends))]
fn end(state: &mut CoreParts, seat: Seat)
    ensures after { machine_of state.new ≡ (effect (machine_of state.old) seat steps.End).machine }
    ensures jobs { state.new.store.jobs ≡ state.old.store.jobs }
{
    if state.is_connected(seat) {
        changes::change_seat(state, seat, &SeatChange::End);
    }
}

// The jobs that the client holds become ready or delayed, and the seat is free.
#[tactic(auto, using(std::proofs::lemmas::Grind::common_steps, crate::proofs::ToldLemmas::closes, crate::proofs::ToldLemmas::close_asks))]
fn close(state: &mut CoreParts, seat: Seat) -> Reply
    ensures reply { RepliesBy false
        (λ m. effect m seat steps.Close) state.old result answers.Closed state.new }
    ensures asks { AsksAsChanged state.old.store.jobs state.new.store.jobs }
{
    if !state.is_connected(seat) {
        return Reply::Silent;
    }
    let becomes = job_store::delayed_by(state.config.requeue_delay, state.moment);
    timers::give_back_all(state, seat, becomes);
    changes::change_seat(state, seat, &SeatChange::Clear);
    Reply::Told
}

fn refusal_answer(why: Refusal) -> Answer
    ensures { result ≡ answer_of_refusal why }
{
    match why {
        Refusal::UnknownCommand => Answer::UnknownCommand,
        Refusal::BadFormat => Answer::BadFormat,
        Refusal::JobTooBig => Answer::JobTooBig,
        Refusal::ExpectedCrlf => Answer::ExpectedCrlf,
        Refusal::OutOfMemory => Answer::OutOfMemory,
    }
}

// Answers that the reader refused the request. Not inlined, because its caller would otherwise
// reserve and initialize room for an answer. So it is with the commands below that store an answer.
#[inline(never)]
fn refuse(why: Refusal, answer: &mut Answer) -> Reply
    ensures answer { answer.new ≡ answer_of_refusal why }
    ensures reply { result ≡ Reply.Told }
{
    set_answer(answer, refusal_answer(why));
    Reply::Told
}

// Carries out a request that a connected client may make, other than a put, a delete or a plain
// reserve. A call initializes the room for all its large values before it begins, whichever branch it
// takes. So commands that need a name or a job by value are kept in functions of their own
// (`inline(never)`).
#[tactic(auto, using(std::proofs::lemmas::Grind::common_steps, crate::proofs::ActLemmas::number_found))]
fn carry_out(
    state: &mut CoreParts,
    alloc: Global,
    seat: Seat,
    request: &Request,
    answer: &mut Answer,
) -> Reply
    requires asks { is_asking (seat_with seat state.old.seats.items) ≡ true }
    requires other { needs_no_room request.now ≡ false }
    ensures reply { RepliesAt seat (takes_memory request.now)
        (asked request.now) state.old result answer.new state.new }
    ensures asks { AsksAsChanged state.old.store.jobs state.new.store.jobs }
{
    match *request {
        Request::Put { .. } | Request::Delete { .. } | Request::Reserve => Reply::Silent,
        Request::ReserveWithTimeout { seconds } => job_acts::reserve_until(state, seat, seconds),
        Request::ReserveJob { id } => job_acts::reserve_job(state, seat, id, answer),
        Request::Release { id, pri, delay } => {
            job_acts::release(state, seat, id, PriAndDelay { pri, delay }, answer)
        }
        Request::Bury { id, pri } => job_acts::bury(state, seat, id, pri, answer),
        Request::Touch { id } => job_acts::touch(state, seat, id, answer),
        Request::Kick { bound } => kicks::kick(state, seat, bound, answer),
        Request::KickJob { id } => job_acts::kick_job(state, id, answer),
        Request::Use { ref tube } => tube_acts::use_tube(state, alloc, seat, tube, answer),
        Request::ListTubeUsed => tube_acts::list_tube_used(state, seat, answer),
        Request::Watch { ref tube } => tube_acts::watch(state, alloc, seat, tube, answer),
        Request::Ignore { ref tube } => tube_acts::ignore(state, seat, tube, answer),
        Request::Peek { id } => tube_acts::peek(state, id, answer),
        Request::PeekReady => tube_acts::peek_first(state, seat, JobList::Ready, answer),
        Request::PeekDelayed => tube_acts::peek_first(state, seat, JobList::Delayed, answer),
        Request::PeekBuried => tube_acts::peek_first(state, seat, JobList::Buried, answer),
        Request::PauseTube { ref tube, delay } => {
            tube_acts::pause(state, tube, delay, answer);
            Reply::Told
        }
        Request::StatsJob { id } => statistics_acts::stats_job(state, alloc, id, answer),
        Request::StatsTube { ref tube } => statistics_acts::stats_tube(state, alloc, tube, answer),
        Request::Stats => statistics_acts::stats(state, alloc, answer),
        Request::ListTubes => statistics_acts::list_tubes(state, alloc, answer),
        Request::ListTubesWatched => statistics_acts::list_tubes_watched(
            state, alloc, seat, answer,
        ),
        Request::Quit => Reply::Silent,
        Request::Refused(why) => refuse(why, answer),
    }
}

// Appends an answer that was stored. Not inlined, because few answers are.
#[inline(never)]
fn append(outs: &mut Outs, seat: Seat, answer: &mut Answer)
    requires { length outs.old.given < outs.old.most }
    ensures { outs.new ≡ with_answer seat answer.old outs.old }
{
    outs.push(seat, replace(answer, Answer::Closed));
}

// Appends the answer to a request with this outcome.
fn append_reply(outs: &mut Outs, seat: Seat, reply: Reply, answer: &mut Answer)
    requires { length outs.old.given < outs.old.most }
    ensures { outs.new ≡ with_reply seat reply answer.old outs.old }
{
    match reply {
        Reply::Silent => {}
        Reply::Told => append(outs, seat, answer),
        Reply::LeftOut => answering::left_out(outs, seat),
        Reply::Unshared => answering::unshared(outs, seat),
    }
}

// Carries out one of the other requests, and appends its answer. Not inlined, because it initializes
// room for an answer, which puts, deletes and reserves do not need.
#[inline(never)]
#[tactic(auto, using(crate::proofs::ActLemmas::acts_replied))]
fn ask_other(state: &mut CoreParts, alloc: Global, seat: Seat, request: &Request, outs: &mut Outs)
    requires asks { is_asking (seat_with seat state.old.seats.items) ≡ true }
    requires other { needs_no_room request.now ≡ false }
    requires room { length outs.old.given < outs.old.most }
    ensures acts { Acts (machine_of state.old) seat (steps.Ask request.now) outs.old outs.new
        (machine_of state.new) }
    ensures asks { AsksAsChanged state.old.store.jobs state.new.store.jobs }
{
    // Dropped once, at the end: a branch that owned the answer would take it apart by itself.
    let mut answer = Answer::Closed;
    let reply = carry_out(state, alloc, seat, request, &mut answer);
    append_reply(outs, seat, reply, &mut answer);
}

// Carries out a request of a client that may make one, and appends its answer.
#[tactic(auto, using(crate::proofs::ActLemmas::waits_asked))]
fn ask(state: &mut CoreParts, alloc: Global, seat: Seat, request: &Request, outs: &mut Outs)
    requires asks { is_asking (seat_with seat state.old.seats.items) ≡ true }
    requires room { length outs.old.given < outs.old.most }
    ensures acts { Acts (machine_of state.old) seat (steps.Ask request.now) outs.old outs.new
        (machine_of state.new) }
    ensures asks { AsksAsChanged state.old.store.jobs state.new.store.jobs }
{
    match *request {
        Request::Put {
            pri,
            delay,
            ttr,
            ref body,
        } => job_acts::put(state, alloc, seat, NewJob { pri, delay, ttr }, body, outs),
        Request::Delete { id } => job_acts::delete(state, seat, id, outs),
        Request::Reserve => {
            let _silent = job_acts::reserve(state, seat, None);
        }
        _ => ask_other(state, alloc, seat, request, outs),
    }
}

// Carries out a step without a request. The only answer to one is that the client has disconnected.
fn reply_without_request(state: &mut CoreParts, seat: Seat, what: &Step) -> Reply
    requires other { is_request what.now ≡ false }
    ensures reply { RepliesBy (step_takes_memory what.now)
        (λ m. effect m seat what.now) state.old result answers.Closed state.new }
    ensures asks { AsksAsChanged state.old.store.jobs state.new.store.jobs }
{
    match *what {
        Step::Connect => {
            connect(state, seat);
            Reply::Silent
        }
        Step::End => {
            end(state, seat);
            Reply::Silent
        }
        Step::Close => close(state, seat),
        Step::Drain => {
            state.draining = true;
            Reply::Silent
        }
        Step::Ask(_) | Step::Tick | Step::Gone => Reply::Silent,
    }
}

// Does the same, and appends the answer. Not inlined, because most steps have a request.
#[inline(never)]
#[tactic(auto, using(crate::proofs::ActLemmas::acts_outcome))]
fn act_without_request(state: &mut CoreParts, seat: Seat, what: &Step, outs: &mut Outs)
    requires other { is_request what.now ≡ false }
    requires room { length outs.old.given < outs.old.most }
    ensures acts { Acts (machine_of state.old) seat what.now outs.old outs.new
        (machine_of state.new) }
    ensures asks { AsksAsChanged state.old.store.jobs state.new.store.jobs }
{
    let mut closed = Answer::Closed;
    let reply = reply_without_request(state, seat, what);
    append_reply(outs, seat, reply, &mut closed);
    drop(closed);
}

/// Carries out the command's own effect, and appends its answer.
pub(crate) fn act(state: &mut CoreParts, alloc: Global, seat: Seat, what: &Step, outs: &mut Outs)
    requires room { HasRoom 1 (machine_of state.old) outs.old }
    ensures acts { Acts (machine_of state.old) seat what.now outs.old outs.new
        (machine_of state.new) }
    ensures asks { AsksAsChanged state.old.store.jobs state.new.store.jobs }
{
    match *what {
        Step::Ask(ref request) => if state.is_asking(seat) {
            ask(state, alloc, seat, request, outs);
        },
        _ => act_without_request(state, seat, what, outs),
    }
}

/// Stores an answer. A separate function, because the code that takes apart the answer that was
/// stored before is long to prove.
pub(crate) fn set_answer(place: &mut Answer, answer: Answer)
    ensures { place.new ≡ answer }
{
    *place = answer;
}

/// The outcome of a request. An answer is written to the `answer` argument, because it may contain a
/// tube's name, which would have to be copied. The most frequent answers have outcomes of their own:
/// these are put together where the answer goes, and not copied at all.
#[derive(Clone, Copy)]
pub(crate) enum Reply {
    Silent,
    Told,
    /// An allocation failed, and nothing was changed.
    LeftOut,
    /// A body could not be shared, and nothing was changed.
    Unshared,
}
