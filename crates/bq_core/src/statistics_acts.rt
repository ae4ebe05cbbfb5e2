//! Commands that count or list. They change nothing.
ghost use Rattle.std.specs.Prelude.{IfOk, IfSome, is_some, true, ◌≡◌};
ghost use Rattle.bq_core.specs.{Numbers.{AreOfServer, AreOfTube}, Replying.{RepliesAt, RepliesBy}, Texts.TellsJob};
ghost use Rattle.bq_job.specs.machine.{Changes.job_with, StatisticsCommands.{list_tubes_effect, list_watched_effect, stats_effect}};
ghost use Rattle.bq_job.specs.machine.StatisticsCommands.{stats_job_effect, stats_tube_effect};
ghost use Rattle.bq_state.specs.{Asking.AsksAsChanged, CoreParts.machine_of, Keeping.SearchesStore};

use crate::acts::{Reply, set_answer};
use crate::job_acts::not_found;
use crate::texts::{ServerNumbers, TubeNumbers, job_text, names_text, server_text, tube_text};
use bq_job::{Answer, JobId, Moment, NoMemory, Seat, Text, TubeName};
use bq_jobs::TubeNumber;
use bq_state::core_parts::CoreParts;
use bq_state::store::Store;
use bq_state::tubes::TubeEntry;
use bq_state::{changes, name_lists, seats};
use std::alloc::Global;

// Returns the text of the job with this id, or `NoMemory` if its allocation fails; None if there is
// no job.
#[tactic(auto, using(crate::proofs::TextLemmas::id_of_packed))]
fn text_of_job(
    store: &mut Store,
    alloc: Global,
    id: JobId,
    moment: Moment,
) -> Option<Result<Text, NoMemory>>
    ensures none { is_some result ≡ is_some (job_with id store.old.jobs.jobs) }
    ensures text { IfSome result (λ text. IfOk text (TellsJob moment (job_with id store.old.jobs.jobs))) }
    ensures kept { SearchesStore 2 store.old store.new }
{
    let tube = store.tube_of(id)?;
    match store.get(id) {
        None => None,
        Some(job) => Some(job_text(alloc, id, job, tube.name(), moment)),
    }
}

/// Answers with the statistics of the job with this id.
#[inline(never)]
pub(crate) fn stats_job(
    state: &mut CoreParts,
    alloc: Global,
    id: JobId,
    answer: &mut Answer,
) -> Reply
    ensures reply { RepliesBy true (stats_job_effect id) state.old result answer.new state.new }
    ensures asks { AsksAsChanged state.old.store.jobs state.new.store.jobs }
{
    match text_of_job(&mut state.store, alloc, id, state.moment) {
        None => not_found(answer),
        Some(Ok(text)) => {
            set_answer(answer, Answer::Ok(text));
            Reply::Told
        }
        Some(Err(_)) => Reply::LeftOut,
    }
}

// Returns the statistics of the tube with this name.
#[tactic(auto, using(bq_state::proofs::NameLemmas::lent_or))]
fn tube_numbers(state: &CoreParts, tube: &TubeName, hint: TubeNumber) -> TubeNumbers
    ensures { AreOfTube result tube.now (machine_of state.now) }
{
    let fresh = TubeEntry::new();
    let entry = state.entry_of(tube, hint).unwrap_or(&fresh);
    let crowd = entry.crowd();
    TubeNumbers {
        jobs: entry.tally(),
        puts: entry.puts(),
        using: crowd.using,
        watching: crowd.watching,
        waiting: crowd.waiting,
        deletes: entry.deletes(),
        pauses: entry.pauses(),
        pause: entry.pause(),
        moment: state.moment,
    }
}

/// Answers with the statistics of a tube, if it exists.
#[inline(never)]
pub(crate) fn stats_tube(
    state: &CoreParts,
    alloc: Global,
    tube: &TubeName,
    answer: &mut Answer,
) -> Reply
    ensures { RepliesBy true (stats_tube_effect tube.now) state.now result answer.new state.now }
{
    let hint = changes::number_of(state, tube);
    if !changes::is_tube(state, tube, hint) {
        return not_found(answer);
    }
    match tube_text(alloc, tube, &tube_numbers(state, tube, hint)) {
        Ok(text) => {
            set_answer(answer, Answer::Ok(text));
            Reply::Told
        }
        Err(_) => Reply::LeftOut,
    }
}

// Returns the statistics of the server.
fn server_numbers(state: &CoreParts) -> ServerNumbers
    ensures { AreOfServer result (machine_of state.now) }
{
    ServerNumbers {
        jobs: state.known.tally,
        timeouts: state.timeouts,
        puts: state.puts,
        max_job_size: state.config.max_job_size,
        tubes: changes::tube_count(state),
        connected: state.known.connected,
        waiting: state.waiter_count(),
        connections: state.connections,
        draining: state.draining,
    }
}

/// Answers with the statistics of the server.
#[inline(never)]
pub(crate) fn stats(state: &CoreParts, alloc: Global, answer: &mut Answer) -> Reply
    ensures { RepliesBy true stats_effect state.now result answer.new state.now }
{
    match server_text(alloc, &server_numbers(state)) {
        Ok(text) => {
            set_answer(answer, Answer::Ok(text));
            Reply::Told
        }
        Err(_) => Reply::LeftOut,
    }
}

/// Answers with the list of the existing tubes.
#[inline(never)]
#[tactic(auto, using(bq_state::proofs::NameLemmas::alive_in_order, bq_state::proofs::NameLemmas::names_by_counts))]
pub(crate) fn list_tubes(state: &CoreParts, alloc: Global, answer: &mut Answer) -> Reply
    ensures { RepliesBy true list_tubes_effect state.now result answer.new state.now }
{
    let Ok(names) = state.store.names_alive(alloc) else {
        return Reply::LeftOut;
    };
    match names_text(alloc, names) {
        Ok(text) => {
            set_answer(answer, Answer::Ok(text));
            Reply::Told
        }
        Err(_) => Reply::LeftOut,
    }
}

/// Answers with the list of the tubes that the client watches.
#[inline(never)]
#[tactic(auto, using(bq_job::proofs::NameOrderLemmas::in_order_fold, bq_state::proofs::NameLemmas::list_of_order))]
pub(crate) fn list_tubes_watched(
    state: &CoreParts,
    alloc: Global,
    seat: Seat,
    answer: &mut Answer,
) -> Reply
    ensures { RepliesAt seat true list_watched_effect state.now result answer.new state.now }
{
    let Some(client) = seats::find(state.seats.as_slice(), seat) else {
        return Reply::Silent;
    };
    let Ok(names) = name_lists::in_order(alloc, client.watched()) else {
        return Reply::LeftOut;
    };
    match names_text(alloc, names) {
        Ok(text) => {
            set_answer(answer, Answer::Ok(text));
            Reply::Told
        }
        Err(_) => Reply::LeftOut,
    }
}
