//! The tubes of a store: what is kept of each that exists.
ghost use Rattle.std.specs.{List.list_any, Map.{keys_of, lookup}, Option.option_map, Prelude.IfOk};
ghost use Rattle.std.specs.Prelude.{Some, false, filter, if◌then◌else◌, is_ok, is_some, length, ◌&&◌, ◌≡◌};
ghost use Rattle.bq_job.specs.reading.TubeName.{is_same_name};
ghost use Rattle.bq_jobs.specs.{Names.number_in, Numbering.{Extends, HasNumber}};
ghost use Rattle.bq_state.specs.{Counting.{AreTallied, forgotten}, Dues.first_pause_end, Leaving.exists_in};
ghost use Rattle.bq_state.specs.{Names.names_of, TubeEntries.has_entry, TubesSeen.{KeepsPause, entry_at, entry_changed, entry_recounted}};
ghost use Rattle.bq_state.specs.TubesSeen.{is_alive_at, is_named_at, records, tubes_with, with_ended, with_entry};

use crate::known::MaybeGone;
use crate::name_lists::Names;
use crate::store::Store;
use crate::watch_list::default_tube;
use bq_index::Edit;
use bq_job::{Moment, NoMemory, TubeName};
use bq_jobs::{GhostName, TubeNumber};
pub use entry::{Crowd, Pausing, TubeChange, TubeEntry};
pub(crate) use entry::{AddOrRemove, Roles, RolesChange};
pub(crate) use pauses::PauseEnds;
use std::alloc::Global;
use walks::{AliveTube, HowMany};

mod entry;
mod pauses;
mod walks;

impl Store {
    ghost use Rattle.bq_state.specs.TubesSeen.{crowd_by};

    /// Returns the number of entries.
    pub(crate) fn tube_count(&self) -> usize
        ensures { result ≡ length self.now.tubes.entries }
    {
        self.table.len()
    }

    /// Returns the name of a tube that has this number.
    pub(crate) fn name_of(&self, tube: &GhostName, number: TubeNumber) -> &TubeName
        requires { HasNumber tube.now number self.now.tubes.numbers }
        ensures { result.now ≡ tube.now }
    {
        let _ = tube;
        self.table.name_of(number).unwrap()
    }

    /// Returns the number of a tube, if it has an entry.
    #[tactic(auto, using(crate::proofs::NamedLemmas::have_numbers, crate::proofs::NamedLemmas::number_there))]
    pub fn number_of(&self, name: &TubeName, hint: TubeNumber) -> Option<TubeNumber>
        ensures number { option_map number_in result ≡ lookup (is_named_at name.now) self.now.tubes.numbers }
        ensures there { is_some result ≡ has_entry name.now (records self.now.tubes) }
    {
        self.table.number_of(name, hint)
    }

    /// Gives an entry and a number to a tube that has none, and returns the number. The allocations
    /// for that come before any change.
    #[tactic(auto, using(crate::proofs::NamedLemmas::none_found, crate::proofs::NumberLemmas::number_given, bq_jobs::proofs::NamedJobs::named_more))]
    pub(crate) fn provide(&mut self, alloc: Global, name: &TubeName) -> Result<TubeNumber, NoMemory>
        requires { has_entry name.now (records self.old.tubes) ≡ false }
        ensures after { self.new.tubes
            ≡ (if is_ok result then tubes_with name.now self.new.tubes.numbers self.old.tubes else self.old.tubes) }
        ensures extends { Extends self.old.tubes.numbers self.new.tubes.numbers }
        ensures number { IfOk result (λ n. HasNumber name.now n self.new.tubes.numbers) }
        ensures jobs { self.new.jobs ≡ record self.old.jobs { tubes = self.new.jobs.tubes } }
    {
        pauses::make_room(&mut self.ends, alloc, self.table.len())?;
        let number = self.table.insert(alloc, name, TubeEntry::new())?;
        Ok(number)
    }

    /// Changes the tube with this name.
    #[tactic(auto, using(crate::proofs::NamedLemmas::store_edited))]
    pub(crate) fn change_tube(&mut self, name: &TubeName, hint: TubeNumber, what: TubeChange)
        ensures { self.new ≡ record self.old { tubes = with_entry name.now (entry_changed what) self.old.tubes } }
    {
        pauses::change(&mut self.table, &mut self.ends, name, hint, what);
    }

    /// Ends pauses that are due.
    pub fn fire_timers(&mut self, moment: Moment)
        ensures { self.new ≡ record self.old
            { tubes = record self.old.tubes { entries = with_ended moment self.old.tubes.entries } } }
    {
        pauses::end_all(&mut self.table, &mut self.ends, moment);
    }

    /// Returns the entry with this name.
    pub(crate) fn entry_of(&self, name: &TubeName, hint: TubeNumber) -> Option<&TubeEntry>
        ensures { option_map (λ t. t.now) result ≡ entry_at name.now self.now.tubes }
    {
        self.table.get(name, hint)
    }

    /// Returns true if the tube with this name is paused. If no tube is, nothing is searched.
    pub fn is_paused(&self, name: &TubeName, hint: TubeNumber) -> bool
        ensures { result
            ≡ list_any (λ t. is_same_name name.now t.name && is_some t.pause) (records self.now.tubes) }
    {
        if self.ends.len() == 0 {
            return false;
        }
        match self.table.get(name, hint) {
            None => false,
            Some(entry) => entry.pause().is_some(),
        }
    }

    /// Edits the entry of a tube that is registered under this number, and returns what the edit
    /// returns. The edit keeps the tube's pause.
    #[tactic(auto, using(crate::proofs::NamedLemmas::store_edited))]
    pub(crate) fn edit_entry<T: Drop, E: Edit<TubeEntry, T>>(
        &mut self,
        name: &GhostName,
        number: TubeNumber,
        edit: &E,
    ) -> T
        requires number { HasNumber name.now number self.old.tubes.numbers }
        requires pause { KeepsPause (E.edited edit.now) }
        ensures after { self.new ≡ record self.old { tubes = with_entry name.now (E.edited edit.now) self.old.tubes } }
        ensures told { Some result ≡ option_map (E.told edit.now) (entry_at name.now self.old.tubes) }
    {
        self.table.edit_numbered(name, number, edit)
    }

    /// Counts a client with these roles at the tube with this name, or stops counting it.
    #[tactic(auto, using(crate::proofs::NamedLemmas::store_edited))]
    pub(crate) fn recount(
        &mut self,
        name: &TubeName,
        hint: TubeNumber,
        how: AddOrRemove,
        roles: Roles,
    )
        ensures { self.new ≡ record self.old { tubes = with_entry name.now (entry_recounted how roles) self.old.tubes } }
    {
        let _counted = self.table.edit(name, hint, &RolesChange { how, roles });
    }

    /// Returns how many clients use or watch the tube with this name or wait for its jobs; none if
    /// it has no entry.
    pub fn crowd_of(&self, name: &TubeName, hint: TubeNumber) -> Crowd
        ensures { result ≡ crowd_by (entry_at name.now self.now.tubes) }
    {
        match self.entry_of(name, hint) {
            None => Crowd::none(),
            Some(entry) => entry.crowd(),
        }
    }

    /// Returns the same for a tube that is registered under this number. Nothing is searched.
    pub(crate) fn crowd_numbered(&self, name: &TubeName, number: TubeNumber) -> Crowd
        requires { HasNumber name.now number self.now.tubes.numbers }
        ensures { result ≡ crowd_by (entry_at name.now self.now.tubes) }
    {
        self.table.get_numbered(name, number).crowd()
    }

    /// Returns true if the tube exists.
    pub(crate) fn is_tube(&self, name: &TubeName, hint: TubeNumber) -> bool
        ensures { result ≡ exists_in self.now.tubes name.now }
    {
        match self.entry_of(name, hint) {
            None => *name == default_tube(),
            Some(entry) => walks::is_alive(name, entry),
        }
    }

    /// Returns how many tubes exist, by their counts.
    #[tactic(auto, using(crate::proofs::GoneLemmas::counted_alive))]
    pub(crate) fn count_alive(&self) -> u64
        ensures { result ≡ length (filter is_alive_at self.now.tubes.entries) }
    {
        let alive = self.table.walk(HowMany { count: 0 });
        alive.count
    }

    /// Returns the names of the tubes that exist, by their counts, in byte order. Their memory is
    /// allocated first.
    pub fn names_alive<'a>(&'a self, alloc: Global) -> Result<Names<'a>, NoMemory>
        ensures { IfOk result
            (λ names. names_of names.items ≡ keys_of (filter is_alive_at self.now.tubes.entries)) }
    {
        self.table.names_passing(alloc, &AliveTube)
    }

    /// Drops the entries and numbers of tubes that no longer exist, which are among those that may
    /// have gone.
    pub(crate) fn forget_gone(&mut self, maybe_gone: &MaybeGone)
        requires tallies { AreTallied self.old.jobs.jobs self.old.tubes.entries }
        ensures after { self.new.tubes.entries ≡ forgotten maybe_gone.now self.old.tubes.entries }
        ensures jobs { self.new.jobs ≡ record self.old.jobs { tubes = self.new.jobs.tubes } }
    {
        match maybe_gone {
            MaybeGone::Nothing => {}
            MaybeGone::Tube(gone) => walks::forget_one(
                &mut self.table,
                &mut self.ends,
                &self.jobs,
                gone,
            ),
            MaybeGone::Any => walks::forget_all(&mut self.table, &mut self.ends, &self.jobs),
        }
    }

    /// Returns when the first pause ends. Most of the time no tube is paused, and nothing is
    /// searched.
    #[inline(always)]
    #[tactic(auto, using(crate::proofs::EndLemmas::first_seen))]
    pub fn first_pause_end(&self) -> Option<Moment>
        ensures { result ≡ first_pause_end (records self.now.tubes) }
    {
        if self.ends.len() == 0 {
            return None;
        }
        match pauses::first(&self.ends) {
            None => None,
            Some(end) => Some(end.until),
        }
    }
}
