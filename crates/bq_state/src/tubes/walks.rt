//! Queries of all entries of tubes, and which of them are dropped.
ghost use Rattle.std.specs.{Cmp.Lexicographic.slice_cmp, List.list_any, Map.{lookup, remove_entry}, Option.option_map, Ordering.nat_cmp};
ghost use Rattle.std.specs.Prelude.{false, filter, find, map, ◌≡◌};
ghost use Rattle.bq_index.specs.Order.{InOrder};
ghost use Rattle.bq_job.specs.reading.TubeName.{is_same_name};
ghost use Rattle.bq_jobs.specs.Numbering.{named};
ghost use Rattle.bq_state.specs.TubesSeen.{is_alive_at, is_alive_with, is_gone_by, is_gone_from, is_named_at};
ghost use Rattle.bq_state.specs.{Counting.AreTallied, Store.AreStored, TubesSeen.{with_alive, without_gone}};

use super::entry::TubeEntry;
use super::pauses::{self, PauseEnds};
use crate::watch_list::default_tube;
use bq_index::{Test, Visitor};
use bq_job::TubeName;
use bq_jobs::{NumberedJobs, Tube, TubeTable};

/// How many of the entries visited so far are of tubes that exist. The count stops at 2^64 - 1.
#[derive(Clone, Copy)]
pub(crate) struct HowMany {
    pub(crate) count: u64,
}

impl Visitor<TubeName, TubeEntry> for HowMany {
    ghost after = { λ s n t. record { count = with_alive s.count n t } };

    fn visit(&mut self, name: &TubeName, entry: &TubeEntry) {
        if is_alive(name, entry) {
            self.count = self.count.saturating_add(1);
        }
    }
}

/// Returns true if the tube of an entry exists. Its name is compared last, because the default
/// tube's name has to be made for that.
#[tactic(auto, using(crate::proofs::GoneLemmas::name_last))]
pub(crate) fn is_alive(name: &TubeName, entry: &TubeEntry) -> bool
    ensures { result ≡ is_alive_with name.now entry.now }
{
    entry.tally().has_jobs() || entry.crowd().has_seats() || *name == default_tube()
}

/// The test of an entry whose tube exists.
#[derive(Clone, Copy)]
pub(crate) struct AliveTube;

impl Test<TubeName, TubeEntry> for AliveTube {
    ghost passed = { λ _ n t. is_alive_with n t };

    fn passes(&self, name: &TubeName, entry: &TubeEntry) -> bool {
        is_alive(name, entry)
    }
}

// The test of an entry whose tube no longer exists.
#[derive(Clone, Copy)]
struct GoneTube;

impl Test<TubeName, TubeEntry> for GoneTube {
    ghost use Rattle.std.specs.Prelude.{not};
    ghost use Rattle.bq_state.specs.TubesSeen.{is_alive_with};

    ghost passed = { λ _ n t. not (is_alive_with n t) };

    fn passes(&self, name: &TubeName, entry: &TubeEntry) -> bool {
        !is_alive(name, entry)
    }
}

// Returns true if a tube has an entry and no longer exists.
fn is_gone(catalog: &TubeTable<TubeEntry>, tube: &Tube) -> bool
    ensures { result ≡ is_gone_by tube.now (lookup (is_named_at tube.now) catalog.now.entries) }
{
    match catalog.get(tube.name(), tube.number()) {
        None => false,
        Some(entry) => !is_alive(tube.name(), entry),
    }
}

// Drops the entry and the number of a tube that has no job.
#[tactic(auto, using(bq_jobs::proofs::NamedJobs::named_left))]
fn drop_tube(
    catalog: &mut TubeTable<TubeEntry>,
    ends: &mut PauseEnds,
    jobs: &NumberedJobs,
    name: &TubeName,
)
    requires stored { AreStored jobs.now catalog.old ends.old }
    requires none { list_any (λ j. is_same_name name.now j.tube) (map (named catalog.old.tubes) jobs.now.jobs) ≡ false }
    ensures kept { catalog.new.entries ≡ remove_entry (is_named_at name.now) catalog.old.entries }
    ensures stored { AreStored jobs.now catalog.new ends.new }
    ensures ordered { InOrder (slice_cmp nat_cmp) catalog.old.entries }
    ensures jobs { map (named catalog.new.tubes) jobs.now.jobs ≡ map (named catalog.old.tubes) jobs.now.jobs }
{
    pauses::drop_entry(catalog, ends, name);
    let _ = jobs;
}

/// Drops the entry and the number of a tube, if it no longer exists.
pub(crate) fn forget_one(
    catalog: &mut TubeTable<TubeEntry>,
    ends: &mut PauseEnds,
    jobs: &NumberedJobs,
    tube: &Tube,
)
    requires stored { AreStored jobs.now catalog.old ends.old }
    requires tallies { AreTallied (map (named catalog.old.tubes) jobs.now.jobs) catalog.old.entries }
    ensures stored { AreStored jobs.now catalog.new ends.new }
    ensures kept { catalog.new.entries ≡ without_gone tube.now catalog.old.entries }
    ensures jobs { map (named catalog.new.tubes) jobs.now.jobs ≡ map (named catalog.old.tubes) jobs.now.jobs }
{
    if is_gone(catalog, tube) {
        drop_tube(catalog, ends, jobs, tube.name());
    }
}

// Returns the name of the first entry whose tube no longer exists, from this name on if it is
// given.
fn next_gone(catalog: &TubeTable<TubeEntry>, from: &Option<TubeName>) -> Option<TubeName>
    ensures { result ≡ option_map (λ e. e.0) (find (is_gone_from from.now) catalog.now.entries) }
{
    let found = match from {
        None => catalog.first(&GoneTube),
        Some(name) => catalog.first_from(name, &GoneTube),
    };
    match found {
        None => None,
        Some((name, _)) => Some(*name),
    }
}

/// Drops all entries whose tubes no longer exist, and their numbers. After each, the search
/// continues from there.
#[tactic(auto, using(crate::proofs::CountedLemmas::all_removed, crate::proofs::GoneLemmas::name_removed, crate::proofs::GoneLemmas::none_gone))]
pub(crate) fn forget_all(
    catalog: &mut TubeTable<TubeEntry>,
    ends: &mut PauseEnds,
    jobs: &NumberedJobs,
)
    requires stored { AreStored jobs.now catalog.old ends.old }
    requires tallies { AreTallied (map (named catalog.old.tubes) jobs.now.jobs) catalog.old.entries }
    ensures stored { AreStored jobs.now catalog.new ends.new }
    ensures kept { catalog.new.entries ≡ filter is_alive_at catalog.old.entries }
    ensures jobs { map (named catalog.new.tubes) jobs.now.jobs ≡ map (named catalog.old.tubes) jobs.now.jobs }
{
    let mut last = None;
    while let Some(name) = next_gone(catalog, &last) {
        drop_tube(catalog, ends, jobs, &name);
        last = Some(name);
    }
}
