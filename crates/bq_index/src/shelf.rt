// An ordered map whose insertions allocate nothing.
ghost use Rattle.std.specs.Prelude.{◌≡◌, ◌+◌, ◌-◌, ◌<◌, ◌≤◌, ◌^◌, max};
ghost use Rattle.std.specs.Prelude.{[], find, fold, length, map, is_some, if◌then◌else◌, None, IfOk, OnOk, OnErr};
ghost use Rattle.std.specs.Option.{option_map, option_copied_mut};
ghost use Rattle.bq_index.specs.Order.{InOrder, entry_from};
ghost use Rattle.std.specs.Map.{lookup, remove_entry};
ghost use Rattle.std.specs.BTreeMap.{is_at, insert_entry};
ghost use Rattle.bq_index.specs.Edited.{MayReturn, edited_at, edited_by};
ghost use Rattle.bq_index.specs.Removed.{lookup_if, removed_if};
ghost use Rattle.bq_index.specs.Tree.{entries};

use super::boxes::{BoxSource, Boxes};
use super::edit::{self, Edit, Sure, TryEdit};
use super::remove::Always;
use super::tree::Tree;
use super::walk::{Test, Visitor};
use super::{NoMemory, find, insert, remove, walk};
use std::alloc::Global;
use std::marker::Model;

/// An ordered map whose insertions allocate nothing as long as there are spare boxes.
///
/// Contracts see three things: the entries in the order of their keys, the number of spare boxes,
/// and how often two keys were compared. A call makes at most two comparisons for each binary digit
/// of one more than the number of entries. No call visits all entries, so code that keeps
/// everything in shelves cannot search them one by one.
#[derive(Drop)]
pub struct Shelf<K: Ord, V> {
    // A catalog reads it too.
    pub(crate) tree: Tree<K, V>,
    len: usize,
    spares: Boxes<K, V>,
    comparisons: u64,
}

impl<K: Ord, V> Model for Shelf<K, V> {
    ghost use Rattle.bq_index.specs.Tree.{entries};
    ghost use Rattle.bq_index.specs.Shelf.{Seen, IsWhole};

    ghost Value = { Seen K V };

    ghost view = { λ s. record { entries = entries s.tree; spare = s.spares; comparisons = s.comparisons } };

    ghost invariant = { λ s. IsWhole K.cmp s.tree s.len s.spares };
}

impl<K: Ord + Drop, V: Drop> Shelf<K, V> {
    ghost use Rattle.std.specs.Borrow.{sem};
    ghost use Rattle.bq_index.specs.Shelf.{ComparesFew};
    ghost use Rattle.bq_index.specs.ShelfLent.{LeavesEntries, LendsValue};
    ghost use Rattle.bq_index.specs.Walk.{entry_of, passes_by, passes_from, seen_by};

    /// Returns a shelf with no entries and no spare boxes. It allocates nothing.
    #[tactic(auto, using(crate::proofs::Order::order_none))]
    pub fn new() -> Self
        ensures { result ≡ record { entries = []; spare = 0; comparisons = 0 } }
    {
        Shelf {
            tree: Tree::Leaf,
            len: 0,
            spares: Boxes::new(),
            comparisons: 0,
        }
    }

    /// Returns the number of entries. The contract also states that their keys ascend.
    pub fn len(&self) -> usize
        ensures len { result ≡ length self.now.entries }
        ensures ordered { InOrder K.cmp self.now.entries }
    {
        self.len
    }

    /// Returns the number of spare boxes. That many insertions allocate nothing.
    pub fn spare(&self) -> usize
        ensures { result ≡ self.now.spare }
    {
        self.spares.count()
    }

    /// Returns how often two keys were compared so far. The count stops at 2^64 - 1.
    pub fn comparisons(&self) -> u64
        ensures { result ≡ self.now.comparisons }
    {
        self.comparisons
    }

    /// Allocates boxes until `n` are spare. If `n` or more are spare already, it allocates nothing.
    ///
    /// # Errors
    ///
    /// `NoMemory` if the allocation of a box fails. Boxes are allocated one by one, and the ones
    /// before the failure are kept.
    pub fn reserve(&mut self, alloc: Global, n: usize) -> Result<(), NoMemory>
        ensures ok { OnOk result (n ≤ self.new.spare) }
        ensures refused { OnErr result (self.new.spare < n) }
        ensures entries { self.new.entries ≡ self.old.entries }
        ensures not_fewer { self.old.spare ≤ self.new.spare }
        ensures no_more { self.new.spare ≤ max n self.old.spare }
        ensures comparisons { self.new.comparisons ≡ self.old.comparisons }
    {
        let mut heap = alloc;
        self.reserve_from(&mut heap, n)
    }

    /// The same, with boxes from a source. Each box is linked into the chain before the next one is
    /// requested.
    pub fn reserve_from<S: BoxSource>(&mut self, source: &mut S, n: usize) -> Result<(), NoMemory>
        ensures ok { OnOk result (n ≤ self.new.spare) }
        ensures refused { OnErr result (self.new.spare < n) }
        ensures entries { self.new.entries ≡ self.old.entries }
        ensures not_fewer { self.old.spare ≤ self.new.spare }
        ensures no_more { self.new.spare ≤ max n self.old.spare }
        ensures comparisons { self.new.comparisons ≡ self.old.comparisons }
    {
        self.spares.reserve_from(source, n, self.len)
    }

    /// Returns one spare box to the allocator, if there is one. It allocates nothing and compares
    /// no keys.
    ///
    /// Boxes of removed entries stay spare, so without this call a shelf would keep the memory of
    /// its peak for ever. Regular calls return that memory in small steps, so that no single call
    /// has to free many boxes.
    pub fn give_back(&mut self)
        ensures { self.new ≡ record self.old { spare = self.old.spare - 1 } }
    {
        self.spares.give_back();
    }

    /// Adds an entry whose key is not on the shelf. The entry takes a spare box.
    pub fn insert(&mut self, key: K, value: V)
        requires spare { 0 < self.old.spare }
        requires absent { lookup (is_at (K.cmp key)) self.old.entries ≡ None }
        ensures entries { self.new.entries ≡ insert_entry K.cmp self.old.entries key value }
        ensures spare { self.new.spare + 1 ≡ self.old.spare }
        ensures comparisons { ComparesFew self.old self.new }
    {
        insert::insert(
            &mut self.tree,
            &mut self.spares,
            &mut self.comparisons,
            key,
            value,
        );
        self.len += 1;
    }

    /// Removes the entry of a key and returns its value, or `None` if there is no such entry. Its
    /// box becomes spare.
    #[tactic(auto, using(crate::proofs::Removed::all_removed, crate::proofs::Removed::all_pass))]
    pub fn remove(&mut self, key: &K) -> Option<V>
        ensures value { result ≡ lookup (is_at (K.cmp key.now)) self.old.entries }
        ensures entries { self.new.entries ≡ remove_entry (is_at (K.cmp key.now)) self.old.entries }
        ensures spare { self.new.spare ≡ self.old.spare + (if is_some result then 1 else 0) }
        ensures ordered { InOrder K.cmp self.old.entries }
        ensures comparisons { ComparesFew self.old self.new }
    {
        self.remove_if(key, &Always)
    }

    /// Removes the entry of a key if its value passes a test, and returns the value. Its box becomes
    /// spare. If there is no such entry, or it does not pass, only the count of comparisons changes.
    ///
    /// The test gets `key`. It takes no second search: the test runs where the search has ended.
    #[tactic(auto, using(crate::proofs::Bound::height_small))]
    pub fn remove_if<T: Test<K, V>>(&mut self, key: &K, test: &T) -> Option<V>
        ensures value { result
            ≡ lookup_if (is_at (K.cmp key.now)) (T.passed test.now key.now) self.old.entries }
        ensures entries { self.new.entries
            ≡ removed_if (is_at (K.cmp key.now)) result self.old.entries }
        ensures spare { self.new.spare ≡ self.old.spare + (if is_some result then 1 else 0) }
        ensures ordered { InOrder K.cmp self.old.entries }
        ensures comparisons { ComparesFew self.old self.new }
    {
        let value = remove::remove_if(
            &mut self.tree,
            &mut self.spares,
            &mut self.comparisons,
            key,
            test,
        )?;
        self.len -= 1;
        Some(value)
    }

    /// Returns the value at a key. Only the count of comparisons changes.
    #[tactic(auto, using(crate::proofs::Bound::height_bound))]
    pub fn get(&mut self, key: &K) -> Option<&V>
        ensures* after { sem 𝓛 (LeavesEntries K.row V.row K.Ord self.entry) }
        ensures value { option_map (λ v. v.now) result
            ≡ lookup (is_at (K.cmp key.now)) self.old.entries }
    {
        find::get(self.tree.top(), key, &mut self.comparisons)
    }

    /// Returns the entry with the lowest key that is `key` or above. Only the count of comparisons
    /// changes.
    #[tactic(auto, using(crate::proofs::Bound::height_bound))]
    pub fn next_from(&mut self, key: &K) -> Option<(&K, &V)>
        ensures* after { sem 𝓛 (LeavesEntries K.row V.row K.Ord self.entry) }
        ensures entry { option_map (λ p. (p.0.now, p.1.now)) result
            ≡ entry_from (K.cmp key.now) self.old.entries }
    {
        find::next_from(self.tree.top(), key, &mut self.comparisons)
    }

    /// Changes the value at a key in place. Returns what the change returns, or `None` if there is
    /// no such key. It needs fewer instructions than a change through `get_mut`.
    pub fn edit<T: Drop, E: Edit<V, T>>(&mut self, key: &K, edit: &E) -> Option<T>
        ensures told { result ≡ option_map (E.told edit.now) (lookup (is_at (K.cmp key.now)) self.old.entries) }
        ensures entries { self.new.entries ≡ edited_at (is_at (K.cmp key.now)) (E.edited edit.now) self.old.entries }
        ensures spare { self.new.spare ≡ self.old.spare }
        ensures ordered { InOrder K.cmp self.old.entries }
        ensures comparisons { ComparesFew self.old self.new }
    {
        self.try_edit(key, &Sure { edit })
    }

    /// Changes the value at a key in place, or leaves it unchanged if the change fails. Returns what
    /// the change returns, or `None` if there is no such key. The key is searched once.
    #[tactic(auto, using(crate::proofs::Bound::height_bound))]
    pub fn try_edit<T: Drop, E: TryEdit<V, T>>(&mut self, key: &K, edit: &E) -> Option<T>
        ensures told { MayReturn (E.MayTell edit.now) (lookup (is_at (K.cmp key.now)) self.old.entries) result }
        ensures entries { self.new.entries
            ≡ edited_at (is_at (K.cmp key.now)) (edited_by (E.edited edit.now) result) self.old.entries }
        ensures spare { self.new.spare ≡ self.old.spare }
        ensures ordered { InOrder K.cmp self.old.entries }
        ensures comparisons { ComparesFew self.old self.new }
    {
        edit::edit_tree(&mut self.tree, key, &mut self.comparisons, edit)
    }

    /// Returns a mutable reference to the value at a key.
    #[tactic(auto, using(crate::proofs::Bound::height_small))]
    pub fn get_mut(&mut self, key: &K) -> Option<&mut V>
        ensures* writes_back { sem 𝓛
            (LendsValue K.row V.row K.Ord self.entry (K.cmp key.now) result) }
        ensures value { option_copied_mut result ≡ lookup (is_at (K.cmp key.now)) self.old.entries }
        ensures ordered { InOrder K.cmp self.old.entries }
    {
        find::value_mut(&mut self.tree, key, &mut self.comparisons)
    }
}
