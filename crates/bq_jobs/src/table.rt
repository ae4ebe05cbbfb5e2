//! The registered tubes, with a number and a value for each.
ghost use Rattle.std.specs.Prelude.{◌≡◌, ◌<◌, ◌∷◌, ◌^◌, [], None, Some, filter, find, fold, length, map, option_and_then, slice_get};
ghost use Rattle.std.specs.Prelude.{IfOk, IfSome, OnErr, OnOk};
ghost use Rattle.std.specs.BTreeMap.{is_at, insert_entry};
ghost use Rattle.std.specs.Cmp.Lexicographic.{slice_cmp};
ghost use Rattle.std.specs.Map.{keys_of, lookup, remove_entry};
ghost use Rattle.std.specs.Option.{option_map};
ghost use Rattle.std.specs.Ordering.{nat_cmp};
ghost use Rattle.bq_index.specs.Edited.{edited_at};
ghost use Rattle.bq_index.specs.Order.{InOrder};
ghost use Rattle.bq_index.specs.Walk.{entry_of, passes_by, passes_from, seen_by};
ghost use Rattle.bq_jobs.specs.FreeNumbers.{AreAllUsed, values_in};
ghost use Rattle.bq_jobs.specs.Names.{number_in};
ghost use Rattle.bq_jobs.specs.Numbering.{Extends, HasNumber, IsPaired, name_of, number_of, put_at};
ghost use Rattle.bq_jobs.specs.Table.{passes_if, valued_in, visited};

use crate::ghost_name::GhostName;
use crate::slots::{self, Slot};
use crate::tube_number::TubeNumber;
use bq_index::{Catalog, Edit, Test, Visitor};
use bq_job::{NoMemory, TubeName};
use std::alloc::Global;
use std::marker::Model;

/// The registered tubes, each found by its name and by its number, and each with a value. Code that
/// knows the number of a tube reads and changes its value without a search. The numbers are dense:
/// one that was used before is used again before a new one. A tube keeps its number as long as it
/// is registered.
#[derive(Drop)]
pub struct TubeTable<V: Drop> {
    numbers: Catalog<TubeName, u32>,
    slots: Vec<Slot<V>, Global>,
    // The number that was freed last and is still free. The slots of the free numbers form a chain,
    // which begins here. If no number is free, it is that of a slot in use, or of none.
    free: u32,
}

impl<V: Drop> Model for TubeTable<V> {
    ghost use Rattle.bq_jobs.specs.FreeNumbers.{AreFreeFrom};
    ghost use Rattle.bq_jobs.specs.Numbering.{IsPaired};
    ghost use Rattle.bq_jobs.specs.Table.{Tabled, numbering_of, table_seen};

    ghost Value = { Tabled V };

    ghost view = { λ t. table_seen t.numbers.entries t.slots.items };

    ghost invariant = { λ t. IsPaired (numbering_of t.numbers.entries t.slots.items) × AreFreeFrom t.free t.slots.items };
}

// A visitor of tubes and their numbers. It shows each tube and its value to another visitor.
struct Shown<'v, V: Drop, T> {
    slots: &'v [Slot<V>],
    visitor: T,
}

impl<'v, V: Drop, T: Visitor<TubeName, V>> Visitor<TubeName, u32> for Shown<'v, V, T> {
    ghost after = { λ s name n. record s { visitor = visited T.after s.visitor name (slice_get (values_in s.slots.now) n) } };

    fn visit(&mut self, name: &TubeName, number: &u32) {
        match slots::value_at(self.slots, *number) {
            None => {}
            Some(value) => self.visitor.visit(name, value),
        }
    }
}

// A test of tubes and their numbers: a tube passes if its value passes another test.
#[derive(Drop)]
struct Passing<'v, 't, V: Drop, T> {
    slots: &'v [Slot<V>],
    test: &'t T,
}

impl<'v, 't, V: Drop, T: Test<TubeName, V>> Test<TubeName, u32> for Passing<'v, 't, V, T> {
    ghost passed = { λ p name n. passes_if (T.passed p.test.now name) (slice_get (values_in p.slots.now) n) };

    fn passes(&self, name: &TubeName, number: &u32) -> bool {
        match slots::value_at(self.slots, *number) {
            None => false,
            Some(value) => self.test.passes(name, value),
        }
    }
}

// Returns a tube with the value at its number.
fn valued<'a, V: Drop>(
    slots: &'a [Slot<V>],
    found: Option<(&'a TubeName, &'a u32)>,
) -> Option<(&'a TubeName, &'a V)>
    ensures { option_map entry_of result
        ≡ option_and_then (valued_in (values_in slots.now)) (option_map entry_of found.entry) }
{
    let (name, number) = found?;
    match slots::value_at(slots, *number) {
        None => None,
        Some(value) => Some((name, value)),
    }
}

// Returns the names of the tubes that pass a test, in the order of the list. The memory of the names
// is allocated before they are listed.
fn list_passing<'a, T: Test<TubeName, u32>>(
    alloc: Global,
    listed: &[(&'a TubeName, &'a u32)],
    test: &T,
) -> Result<Vec<&'a [u8], Global>, NoMemory>
    ensures { IfOk result (λ names. map (λ n. n.now) names.items
        ≡ keys_of (filter (passes_by (T.passed test.now)) (map entry_of listed.now))) }
{
    let Ok(mut names) = Vec::with_capacity(alloc, listed.len()) else {
        return Err(NoMemory);
    };
    for i in 0..listed.len() {
        let (name, number) = listed[i];
        if test.passes(name, number) {
            names.push_reserved(name.as_slice());
        }
    }
    Ok(names)
}

impl<V: Drop> TubeTable<V> {
    /// Returns a table with no tubes. It allocates nothing.
    pub fn new(alloc: Global) -> Self
        ensures { result ≡ record { entries = []; tubes = record { numbers = []; names = [] } } }
    {
        TubeTable {
            numbers: Catalog::new(),
            slots: Vec::new(alloc),
            free: u32::MAX,
        }
    }

    /// Returns the number of tubes. The contract also states that their names ascend.
    #[tactic(auto, using(crate::proofs::TableViews::table_length, crate::proofs::TableViews::table_order))]
    pub fn len(&self) -> usize
        ensures len { result ≡ length self.now.entries }
        ensures ordered { InOrder (slice_cmp nat_cmp) self.now.entries }
    {
        self.numbers.len()
    }

    /// Returns the number of a tube, if it is registered. If the tube has the number `hint`, one
    /// comparison finds that out, and no search is needed.
    #[tactic(auto, using(crate::proofs::TableViews::not_there, crate::proofs::TableViews::table_keys, crate::proofs::TableViews::table_order))]
    pub fn number_of(&self, name: &TubeName, hint: TubeNumber) -> Option<TubeNumber>
        ensures number { option_map number_in result ≡ number_of name.now self.now.tubes }
        ensures alone { IfSome result (λ n. n ≡ number_in n ∷ []) }
        ensures none { result ≡ None → lookup (is_at (slice_cmp nat_cmp name.now)) self.now.entries ≡ None }
        ensures ordered { InOrder (slice_cmp nat_cmp) self.now.entries }
        ensures keys { keys_of self.now.entries ≡ keys_of self.now.tubes.numbers }
        ensures paired { IsPaired self.now.tubes }
    {
        if slots::is_named(self.slots.as_slice(), hint.get(), name) {
            return Some(hint);
        }
        self.search(name)
    }

    // Returns the number of a tube, if it is registered. It is not inlined, so that a hint that is
    // right needs no code of a search.
    #[inline(never)]
    fn search(&self, name: &TubeName) -> Option<TubeNumber>
        ensures number { option_map number_in result ≡ number_of name.now self.now.tubes }
        ensures alone { IfSome result (λ n. n ≡ number_in n ∷ []) }
    {
        match self.numbers.peek(name) {
            None => None,
            Some(number) => Some(TubeNumber::of(*number)),
        }
    }

    /// Returns the name of the tube with this number.
    #[tactic(auto, using(crate::proofs::TableViews::table_keys))]
    pub fn name_of(&self, number: TubeNumber) -> Option<&TubeName>
        ensures name { option_map (λ name. name.now) result ≡ name_of (number_in number) self.now.tubes }
        ensures keys { keys_of self.now.entries ≡ keys_of self.now.tubes.numbers }
        ensures paired { IsPaired self.now.tubes }
    {
        match self.slots.get(number.get() as usize) {
            None => None,
            Some(slot) => slot.name.as_ref(),
        }
    }

    /// Returns the value of a tube, if it is registered. If the tube has the number `hint`, no
    /// search is needed.
    #[tactic(auto, using(crate::proofs::TableViews::not_there, crate::proofs::TableViews::table_order))]
    pub fn get(&self, name: &TubeName, hint: TubeNumber) -> Option<&V>
        ensures value { option_map (λ v. v.now) result
            ≡ lookup (is_at (slice_cmp nat_cmp name.now)) self.now.entries }
        ensures ordered { InOrder (slice_cmp nat_cmp) self.now.entries }
    {
        let number = self.number_of(name, hint)?;
        Some(self.get_numbered(name, number))
    }

    /// Returns the value of a tube that is registered under this number. No names are compared.
    #[tactic(auto, using(crate::proofs::TableViews::slot_there))]
    pub fn get_numbered(&self, name: &TubeName, number: TubeNumber) -> &V
        requires number { HasNumber name.now number self.now.tubes.numbers }
        ensures { Some result.now ≡ lookup (is_at (slice_cmp nat_cmp name.now)) self.now.entries }
    {
        let _ = name;
        &self.slots[number.get() as usize].value
    }

    /// Changes the value of a tube in place. Returns what the change returns, or `None` if the tube
    /// is not registered. If the tube has the number `hint`, no search is needed.
    #[tactic(auto, using(crate::proofs::TableViews::not_there, crate::proofs::TableViews::table_order))]
    pub fn edit<T: Drop, E: Edit<V, T>>(
        &mut self,
        name: &TubeName,
        hint: TubeNumber,
        edit: &E,
    ) -> Option<T>
        ensures told { result ≡ option_map (E.told edit.now)
            (lookup (is_at (slice_cmp nat_cmp name.now)) self.old.entries) }
        ensures entries { self.new.entries
            ≡ edited_at (is_at (slice_cmp nat_cmp name.now)) (E.edited edit.now) self.old.entries }
        ensures ordered { InOrder (slice_cmp nat_cmp) self.old.entries }
        ensures tubes { self.new.tubes ≡ self.old.tubes }
    {
        let number = self.number_of(name, hint)?;
        let name = GhostName::of(name);
        Some(self.edit_numbered(&name, number, edit))
    }

    /// Changes the value of a tube that is registered under this number. Returns what the change
    /// returns. No names are compared.
    #[tactic(auto, using(crate::proofs::TableViews::edits))]
    pub fn edit_numbered<T: Drop, E: Edit<V, T>>(
        &mut self,
        name: &GhostName,
        number: TubeNumber,
        edit: &E,
    ) -> T
        requires number { HasNumber name.now number self.old.tubes.numbers }
        ensures told { Some result ≡ option_map (E.told edit.now)
            (lookup (is_at (slice_cmp nat_cmp name.now)) self.old.entries) }
        ensures entries { self.new.entries
            ≡ edited_at (is_at (slice_cmp nat_cmp name.now)) (E.edited edit.now) self.old.entries }
        ensures ordered { InOrder (slice_cmp nat_cmp) self.old.entries }
        ensures tubes { self.new.tubes ≡ self.old.tubes }
    {
        let _ = name;
        slots::edit_at(&mut self.slots, number.get(), edit)
    }

    /// Registers a tube that is not registered, with its value. Returns the number that the tube
    /// gets. The memory that this needs is allocated before any change.
    ///
    /// # Errors
    ///
    /// `NoMemory` if that allocation fails, or if 2^30 tubes are registered.
    #[tactic(auto, using(crate::proofs::TableViews::absent_by, crate::proofs::TableViews::look, crate::proofs::TableViews::table_extends))]
    pub fn insert(
        &mut self,
        alloc: Global,
        name: &TubeName,
        value: V,
    ) -> Result<TubeNumber, NoMemory>
        requires absent { lookup (is_at (slice_cmp nat_cmp name.now)) self.old.entries ≡ None }
        ensures entries { OnOk result (self.new.entries
            ≡ insert_entry (slice_cmp nat_cmp) self.old.entries name.now value) }
        ensures numbers { IfOk result (λ n. self.new.tubes.numbers
            ≡ insert_entry (slice_cmp nat_cmp) self.old.tubes.numbers name.now (number_in n)) }
        ensures extends { OnOk result (Extends self.old.tubes.numbers self.new.tubes.numbers) }
        ensures fresh { IfOk result (λ n. name_of (number_in n) self.old.tubes ≡ None) }
        ensures names { IfOk result (λ n. self.new.tubes.names
            ≡ put_at self.old.tubes.names (number_in n) (Some name.now)) }
        // A number that was never used is given only if no other is free.
        ensures reused { IfOk result
            (λ n. number_in n ≡ length self.old.tubes.names → AreAllUsed self.old.tubes.names) }
        ensures paired { OnOk result (IsPaired self.new.tubes) }
        ensures same { OnErr result (self.new ≡ self.old) }
    {
        let Ok(()) = self.numbers.reserve(alloc, 1) else {
            return Err(NoMemory);
        };
        let number = slots::give(&mut self.slots, &mut self.free, name, value)?;
        self.numbers.insert(*name, number);
        Ok(TubeNumber::of(number))
    }

    /// Removes a tube, if it is registered. Its value stays where it is, until another tube gets
    /// the number.
    #[tactic(auto, using(crate::proofs::TableLemmas::removed_entries, crate::proofs::TableViews::table_order, crate::proofs::TableViews::valued))]
    pub fn remove(&mut self, name: &TubeName)
        ensures entries { self.new.entries
            ≡ remove_entry (is_at (slice_cmp nat_cmp name.now)) self.old.entries }
        ensures numbers { self.new.tubes.numbers
            ≡ remove_entry (is_at (slice_cmp nat_cmp name.now)) self.old.tubes.numbers }
        ensures paired { IsPaired self.new.tubes }
        ensures ordered { InOrder (slice_cmp nat_cmp) self.old.entries }
    {
        let Some(number) = self.numbers.remove(name) else {
            return;
        };
        slots::release(&mut self.slots, number, self.free);
        self.free = number;
    }

    /// Shows each tube and its value to a visitor, in the order of the names, and returns the
    /// visitor. The contract also states that there are fewer than 2^64 tubes, so a visitor can
    /// count them in 64 bits.
    #[tactic(auto, using(crate::proofs::TableViews::table_length))]
    pub fn walk<T: Visitor<TubeName, V>>(&self, visitor: T) -> T
        ensures visitor { result ≡ fold (seen_by T.after) visitor self.now.entries }
        ensures few { length self.now.entries < 2 ^ 64 }
    {
        let mut shown = Shown {
            slots: self.slots.as_slice(),
            visitor,
        };
        self.numbers.walk(&mut shown);
        let Shown { slots: _, visitor } = shown;
        visitor
    }

    /// Returns the first tube that passes a test, with its value.
    #[tactic(auto, using(crate::proofs::TableViews::table_order))]
    pub fn first<T: Test<TubeName, V>>(&self, test: &T) -> Option<(&TubeName, &V)>
        ensures entry { option_map entry_of result
            ≡ find (passes_by (T.passed test.now)) self.now.entries }
        ensures ordered { InOrder (slice_cmp nat_cmp) self.now.entries }
    {
        let slots = self.slots.as_slice();
        let passing = Passing { slots, test };
        valued(slots, self.numbers.first(&passing))
    }

    /// Returns the first tube that passes a test, with its value, among those whose name is `from`
    /// or above.
    pub fn first_from<T: Test<TubeName, V>>(
        &self,
        from: &TubeName,
        test: &T,
    ) -> Option<(&TubeName, &V)>
        ensures { option_map entry_of result
            ≡ find (passes_from (slice_cmp nat_cmp from.now) (T.passed test.now)) self.now.entries }
    {
        let slots = self.slots.as_slice();
        let passing = Passing { slots, test };
        valued(slots, self.numbers.first_from(from, &passing))
    }

    /// Returns the names of the tubes that pass a test, in byte order. It makes two allocations: a
    /// list of all tubes with their numbers, and the list of names, each before it is filled.
    ///
    /// # Errors
    ///
    /// `NoMemory` if an allocation fails.
    pub fn names_passing<T: Test<TubeName, V>>(
        &self,
        alloc: Global,
        test: &T,
    ) -> Result<Vec<&[u8], Global>, NoMemory>
        ensures { IfOk result (λ names. map (λ n. n.now) names.items
            ≡ keys_of (filter (passes_by (T.passed test.now)) self.now.entries)) }
    {
        let Ok(listed) = self.numbers.list(alloc) else {
            return Err(NoMemory);
        };
        let slots = self.slots.as_slice();
        list_passing(alloc, listed.as_slice(), &Passing { slots, test })
    }
}
