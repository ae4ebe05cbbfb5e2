ghost use Rattle.std.specs.{Option.option_map, Prelude.{false, true, ◌≡◌}};
ghost use Rattle.bq_core.specs.Replying.{RepliesAt, RepliesBy, RepliesTo, peek_first_effect};
ghost use Rattle.bq_job.specs.machine.{Acts.telling, TubeCommands.{ignore_effect, pause_effect, peek_effect, use_effect, watch_effect}};
ghost use Rattle.bq_jobs.specs.{Ranks.first_in, Searching.Asks};
ghost use Rattle.bq_state.specs.{Asking.AsksAsChanged, CoreParts.{AtSeat, machine_of}, Keeping.OnlySearches};
ghost use Rattle.bq_job.specs.declared.answer.Answer.TheVariants as answers;

use crate::acts::{Reply, set_answer};
use crate::job_acts::not_found;
use bq_job::{Answer, JobId, Seat, TubeName};
use bq_jobs::{JobList, Tube};
use bq_state::core_parts::CoreParts;
use bq_state::seats::SeatChange;
use bq_state::tubes::TubeChange;
use bq_state::{changes, job_store, seats};
use std::alloc::Global;

/// The client's jobs go into this tube from now on. The allocations for a new tube come before any
/// change.
#[inline(never)]
#[tactic(auto, using(crate::proofs::ToldLemmas::use_told))]
pub(crate) fn use_tube(
    state: &mut CoreParts,
    alloc: Global,
    seat: Seat,
    tube: &TubeName,
    answer: &mut Answer,
) -> Reply
    ensures reply { RepliesTo seat true (use_effect tube.now) state.old result answer.new state.new }
    ensures asks { AsksAsChanged state.old.store.jobs state.new.store.jobs }
{
    let Ok(number) = changes::provide_tube(state, alloc, tube) else {
        return Reply::LeftOut;
    };
    let change = SeatChange::Use(Tube::new(tube, number));
    changes::change_seat(state, seat, &change);
    set_answer(answer, Answer::Using(*tube));
    Reply::Told
}

/// Answers with the tube that the client's jobs go into.
#[inline(never)]
pub(crate) fn list_tube_used(state: &CoreParts, seat: Seat, answer: &mut Answer) -> Reply
    ensures { RepliesAt seat false
        (λ m s. telling (answers.Using s.used) m) state.now result answer.new state.now }
{
    match seats::find(state.seats.as_slice(), seat) {
        None => Reply::Silent,
        Some(client) => {
            set_answer(answer, Answer::Using(*client.used().name()));
            Reply::Told
        }
    }
}

/// The client also watches this tube. The allocations that it needs come before any change.
#[inline(never)]
pub(crate) fn watch(
    state: &mut CoreParts,
    alloc: Global,
    seat: Seat,
    tube: &TubeName,
    answer: &mut Answer,
) -> Reply
    ensures reply { RepliesAt seat true
        (watch_effect tube.now) state.old result answer.new state.new }
    ensures asks { AsksAsChanged state.old.store.jobs state.new.store.jobs }
{
    let Some(client) = seats::find(state.seats.as_slice(), seat) else {
        return Reply::Silent;
    };
    if client.watches(tube) {
        set_answer(answer, Answer::Watching(client.watch_count() as u64));
        return Reply::Told;
    }
    match changes::watch_tube(state, alloc, seat, tube) {
        Ok(count) => {
            set_answer(answer, Answer::Watching(count));
            Reply::Told
        }
        Err(_) => Reply::LeftOut,
    }
}

/// The client no longer watches this tube, unless it is the only one.
#[inline(never)]
#[tactic(auto, using(std::proofs::lemmas::Grind::common_steps, crate::proofs::ActLemmas::not_ignored))]
pub(crate) fn ignore(
    state: &mut CoreParts,
    seat: Seat,
    tube: &TubeName,
    answer: &mut Answer,
) -> Reply
    ensures reply { RepliesAt seat false
        (ignore_effect tube.now) state.old result answer.new state.new }
    ensures asks { AsksAsChanged state.old.store.jobs state.new.store.jobs }
{
    let Some(client) = seats::find(state.seats.as_slice(), seat) else {
        return Reply::Silent;
    };
    if !client.watches_other(tube) {
        set_answer(answer, Answer::NotIgnored);
        return Reply::Told;
    }
    let count = changes::ignore_tube(state, seat, tube);
    set_answer(answer, Answer::Watching(count));
    Reply::Told
}

/// Pauses a tube, if it exists.
#[inline(never)]
#[tactic(auto, using(bq_state::proofs::PartsLemmas::tube_has_entry))]
pub(crate) fn pause(state: &mut CoreParts, tube: &TubeName, seconds: u32, answer: &mut Answer)
    ensures reply { pause_effect tube.now seconds (machine_of state.old)
        ≡ telling answer.new (machine_of state.new) }
    ensures asks { AsksAsChanged state.old.store.jobs state.new.store.jobs }
{
    let hint = changes::number_of(state, tube);
    if !changes::is_tube(state, tube, hint) {
        set_answer(answer, Answer::NotFound);
        return;
    }
    let change = TubeChange::Pause(seconds, state.moment);
    changes::change_tube(state, tube, hint, change);
    set_answer(answer, Answer::Paused);
}

/// Shows the job with this id.
#[inline(never)]
#[tactic(auto, using(crate::proofs::ToldLemmas::shown_so, bq_state::proofs::PartsLemmas::compared_sound))]
pub(crate) fn peek(state: &mut CoreParts, id: JobId, answer: &mut Answer) -> Reply
    ensures reply { RepliesBy false (peek_effect id) state.old result answer.new state.new }
    ensures asks { Asks 1 state.old.store.jobs state.new.store.jobs }
{
    match state.store.share_body(id) {
        None => not_found(answer),
        Some(Ok(body)) => {
            set_answer(answer, Answer::Found(id, body));
            Reply::Told
        }
        Some(Err(_)) => Reply::Unshared,
    }
}

// Returns the id of the first job in this list of the tube that the client uses.
fn first_used(state: &mut CoreParts, seat: Seat, list: JobList) -> Option<JobId>
    ensures id { AtSeat seat state.old
        (λ s. result ≡ option_map (λ j. j.id) (first_in list s.used state.old.store.jobs.jobs)) }
    ensures kept { OnlySearches 1 state.old state.new }
{
    let client = seats::find(state.seats.as_slice(), seat)?;
    job_store::first(&mut state.store, list, client.used())
}

/// Shows the first job in this list of the tube that the client uses.
pub(crate) fn peek_first(
    state: &mut CoreParts,
    seat: Seat,
    list: JobList,
    answer: &mut Answer,
) -> Reply
    ensures reply { RepliesAt seat false
        (peek_first_effect list) state.old result answer.new state.new }
    ensures asks { AsksAsChanged state.old.store.jobs state.new.store.jobs }
{
    match first_used(state, seat, list) {
        None => not_found(answer),
        Some(id) => peek(state, id, answer),
    }
}
