// An ordered map that can be read through a shared reference and does not count comparisons.
ghost use Rattle.std.specs.Prelude.{◌≡◌, ◌+◌, ◌<◌, ◌≤◌, ◌^◌, [], find, fold, length, map, is_some, if◌then◌else◌, None, IfOk, OnOk};
ghost use Rattle.std.specs.Option.{option_map};
ghost use Rattle.bq_index.specs.Order.{InOrder};
ghost use Rattle.std.specs.Map.{lookup, remove_entry};
ghost use Rattle.std.specs.BTreeMap.{is_at, insert_entry};
ghost use Rattle.bq_index.specs.Edited.{edited_at};

use super::edit::Edit;
use super::shelf::Shelf;
use super::walk::{Test, Visitor};
use super::{NoMemory, find, walk};
use std::alloc::Global;
use std::marker::Model;

/// An ordered map whose insertions allocate nothing as long as there are spare boxes.
///
/// It does not report how many keys it compares, so a shared reference is enough to search it and
/// to visit its entries. Code that has to keep a bound on comparisons uses a `Shelf`, which has no
/// call that goes uncounted.
#[derive(Drop)]
pub struct Catalog<K: Ord + Drop, V: Drop> {
    shelf: Shelf<K, V>,
}

impl<K: Ord + Drop, V: Drop> Model for Catalog<K, V> {
    ghost use Rattle.bq_index.specs.Catalog.{CatalogSeen};

    ghost Value = { CatalogSeen K V };

    ghost view = { λ c. record { entries = c.shelf.entries; spare = c.shelf.spare } };
}

impl<K: Ord + Drop, V: Drop> Catalog<K, V> {
    ghost use Rattle.bq_index.specs.Walk.{entry_of, passes_by, passes_from, seen_by};

    /// Returns a catalog with no entries and no spare boxes. It allocates nothing.
    pub fn new() -> Self
        ensures { result ≡ record { entries = []; spare = 0 } }
    {
        Catalog {
            shelf: Shelf::new(),
        }
    }

    /// Returns the number of entries. The contract also states that their keys ascend.
    pub fn len(&self) -> usize
        ensures len { result ≡ length self.now.entries }
        ensures ordered { InOrder K.cmp self.now.entries }
    {
        self.shelf.len()
    }

    /// Returns the number of spare boxes. That many insertions allocate nothing.
    pub fn spare(&self) -> usize
        ensures { result ≡ self.now.spare }
    {
        self.shelf.spare()
    }

    /// Allocates boxes until `n` are spare. If `n` or more are spare already, it allocates nothing.
    ///
    /// # Errors
    ///
    /// `NoMemory` if the allocation of a box fails. Boxes are allocated one by one, and the ones
    /// before the failure are kept.
    pub fn reserve(&mut self, alloc: Global, n: usize) -> Result<(), NoMemory>
        ensures ok { OnOk result (n ≤ self.new.spare) }
        ensures entries { self.new.entries ≡ self.old.entries }
        ensures not_fewer { self.old.spare ≤ self.new.spare }
    {
        self.shelf.reserve(alloc, n)
    }

    /// Adds an entry whose key is not in the catalog. The entry takes a spare box.
    pub fn insert(&mut self, key: K, value: V)
        requires spare { 0 < self.old.spare }
        requires absent { lookup (is_at (K.cmp key)) self.old.entries ≡ None }
        ensures entries { self.new.entries ≡ insert_entry K.cmp self.old.entries key value }
        ensures spare { self.new.spare + 1 ≡ self.old.spare }
    {
        self.shelf.insert(key, value);
    }

    /// Removes the entry of a key and returns its value, or `None` if there is no such entry. Its
    /// box becomes spare.
    pub fn remove(&mut self, key: &K) -> Option<V>
        ensures value { result ≡ lookup (is_at (K.cmp key.now)) self.old.entries }
        ensures entries { self.new.entries ≡ remove_entry (is_at (K.cmp key.now)) self.old.entries }
        ensures spare { self.new.spare ≡ self.old.spare + (if is_some result then 1 else 0) }
        ensures ordered { InOrder K.cmp self.old.entries }
    {
        self.shelf.remove(key)
    }

    /// Returns the value at a key.
    pub fn peek(&self, key: &K) -> Option<&V>
        ensures value { option_map (λ v. v.now) result
            ≡ lookup (is_at (K.cmp key.now)) self.now.entries }
        ensures ordered { InOrder K.cmp self.now.entries }
    {
        let mut uncounted = 0;
        find::get(self.shelf.tree.top(), key, &mut uncounted)
    }

    /// Changes the value at a key in place. Returns what the change returns, or `None` if there is
    /// no such key.
    pub fn edit<T: Drop, E: Edit<V, T>>(&mut self, key: &K, edit: &E) -> Option<T>
        ensures told { result ≡ option_map (E.told edit.now) (lookup (is_at (K.cmp key.now)) self.old.entries) }
        ensures entries { self.new.entries ≡ edited_at (is_at (K.cmp key.now)) (E.edited edit.now) self.old.entries }
        ensures spare { self.new.spare ≡ self.old.spare }
        ensures ordered { InOrder K.cmp self.old.entries }
    {
        self.shelf.edit(key, edit)
    }

    /// Shows each entry to a visitor, in the order of the keys. The contract also states that there
    /// are fewer than 2^64 entries, so a visitor can count them in 64 bits.
    pub fn walk<T: Visitor<K, V>>(&self, visitor: &mut T)
        ensures visitor { visitor.new ≡ fold (seen_by T.after) visitor.old self.now.entries }
        ensures few { length self.now.entries < 2 ^ 64 }
    {
        walk::walk(self.shelf.tree.top(), visitor);
    }

    /// Returns the first entry that passes a test.
    pub fn first<T: Test<K, V>>(&self, test: &T) -> Option<(&K, &V)>
        ensures entry { option_map entry_of result
            ≡ find (passes_by (T.passed test.now)) self.now.entries }
        ensures ordered { InOrder K.cmp self.now.entries }
    {
        walk::first(self.shelf.tree.top(), test)
    }

    /// Returns the first entry that passes a test, among those whose key is `from` or above.
    pub fn first_from<T: Test<K, V>>(&self, from: &K, test: &T) -> Option<(&K, &V)>
        ensures { option_map entry_of result
            ≡ find (passes_from (K.cmp from.now) (T.passed test.now)) self.now.entries }
    {
        walk::first_from(self.shelf.tree.top(), from, test)
    }

    /// Returns the entries in the order of their keys. The memory of the list is allocated before
    /// it is filled.
    ///
    /// # Errors
    ///
    /// `NoMemory` if that allocation fails.
    pub fn list(&self, alloc: Global) -> Result<Vec<(&K, &V), Global>, NoMemory>
        ensures { IfOk result (λ listed. map entry_of listed.items ≡ self.now.entries) }
    {
        let Ok(mut listed) = Vec::with_capacity(alloc, self.len()) else {
            return Err(NoMemory);
        };
        walk::list(self.shelf.tree.top(), &mut listed);
        Ok(listed)
    }
}
