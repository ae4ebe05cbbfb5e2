//! The roles of a client at the tubes that it uses and watches.
ghost use Rattle.std.specs.{Option.option_copied, Prelude.◌≡◌};
ghost use Rattle.bq_state.specs.{Counting.recounted_for, Crowds.roles_as_user, TubesSeen.{entry_recounted, with_entries, with_entry}};
ghost use Rattle.bq_state.specs.Crowds.{roles_as_watcher, roles_of_watcher, roles_of_watching, touched};

use crate::seats::{SeatChange, SeatRecord};
use crate::store::Store;
use crate::tubes::{AddOrRemove, Roles};
use bq_job::TubeName;
use bq_jobs::Tube;

/// Returns the roles that a change of a seat can affect.
pub(crate) fn touched(what: &SeatChange) -> Roles
    ensures { result ≡ touched what.now }
{
    match what {
        SeatChange::StopWaiting | SeatChange::Wait(_, _) => Roles {
            using: false,
            watching: false,
            waiting: true,
        },
        SeatChange::Connect | SeatChange::Clear => Roles {
            using: true,
            watching: true,
            waiting: true,
        },
        SeatChange::End => Roles {
            using: false,
            watching: false,
            waiting: false,
        },
        SeatChange::Use(_) => Roles {
            using: true,
            watching: false,
            waiting: false,
        },
    }
}

/// Returns the roles of a client at one more tube that it watches.
pub(crate) fn of_watcher(client: &SeatRecord) -> Roles
    ensures { result ≡ roles_of_watcher client.now }
{
    Roles {
        using: false,
        watching: client.is_connected(),
        waiting: client.is_waiting(),
    }
}

/// Returns the roles of a client at a tube, as far as it watches it.
pub(crate) fn at(client: &SeatRecord, name: &TubeName) -> Roles
    ensures { result ≡ roles_of_watching name.now client.now }
{
    Roles {
        using: false,
        watching: client.is_connected() && client.watches(name),
        waiting: client.is_waiting() && client.watches(name),
    }
}

// Counts a client with these roles at a tube, or stops counting it. Without a role no tube is searched for.
#[inline(always)]
#[tactic(auto, using(crate::proofs::CrowdLemmas::same_recounted))]
fn recount_at(store: &mut Store, tube: &Tube, how: AddOrRemove, roles: Roles)
    ensures { store.new ≡ record store.old { tubes = with_entry tube.now (entry_recounted how roles) store.old.tubes } }
{
    if !roles.is_none() {
        store.recount(tube.name(), tube.number(), how, roles);
    }
}

// Does the same at each of these tubes.
#[inline(always)]
#[tactic(auto, using(crate::proofs::CrowdLemmas::all_recounted_same, crate::proofs::LoopLemmas::folded_more))]
fn recount_all(store: &mut Store, watched: &[Tube], how: AddOrRemove, roles: Roles)
    ensures { store.new ≡ record store.old
        { tubes = with_entries watched.now (entry_recounted how roles) store.old.tubes } }
{
    if roles.is_none() {
        return;
    }
    for i in 0..watched.len() {
        let tube = &watched[i];
        store.recount(tube.name(), tube.number(), how, roles);
    }
}

// Returns the roles of a client at the tube that it uses, restricted to `what`.
fn as_user(client: &SeatRecord, what: Roles) -> Roles
    ensures { result ≡ roles_as_user what client.now }
{
    Roles {
        using: what.using && client.is_connected(),
        watching: false,
        waiting: false,
    }
}

// Returns the roles of a client at each tube that it watches, restricted to `what`.
fn as_watcher(client: &SeatRecord, what: Roles) -> Roles
    ensures { result ≡ roles_as_watcher what client.now }
{
    Roles {
        using: false,
        watching: what.watching && client.is_connected(),
        waiting: what.waiting && client.is_waiting(),
    }
}

/// Counts a client at its tubes, or stops counting it, with those of its roles that are in `what`.
#[inline(always)]
pub(crate) fn recount(store: &mut Store, client: Option<&SeatRecord>, how: AddOrRemove, what: Roles)
    ensures { store.new ≡ record store.old
        { tubes = recounted_for how what (option_copied client.entry) store.old.tubes } }
{
    let Some(client) = client else {
        return;
    };
    recount_at(store, client.used(), how, as_user(client, what));
    recount_all(store, client.watched(), how, as_watcher(client, what));
}
