// An ordered map like a shelf, with a tree for each part of its keys.
ghost use Rattle.std.specs.Prelude.{◌≡◌, ◌+◌, ◌-◌, ◌<◌, ◌≤◌, ◌^◌, max, min, get_or, replicate, set};
ghost use Rattle.std.specs.Prelude.{[], length, is_some, if◌then◌else◌, None, IfOk, OnOk, OnErr};
ghost use Rattle.std.specs.Map.{lookup, remove_entry};
ghost use Rattle.std.specs.BTreeMap.{is_at, insert_entry};
ghost use Rattle.bq_index.specs.Order.{InOrder};
ghost use Rattle.bq_index.specs.Shelf.{CountsFew};
ghost use Rattle.bq_index.specs.Shelves.{AreSpread, entries_over, key_from, of_part, tree_of};
ghost use Rattle.bq_index.specs.Tree.{entries, IsBalanced};
ghost use Rattle.bq_index.specs.declared.tree.Tree.TheVariants.{Leaf};

use super::boxes::{BoxSource, Boxes};
use super::remove::Always;
use super::tree::Tree;
use super::{NoMemory, find, insert, remove};
use std::alloc::Global;
use std::marker::Model;

/// A key with a part: a number that comes first in the order of the keys.
pub trait Parted: Ord {
    ghost use Rattle.std.specs.Prelude.{ℕ, ◌≡◌, ◌<◌};
    ghost use Rattle.std.specs.declared.cmp.Ordering.TheVariants.{Less};

    /// The part of a key.
    ghost part: { Self → ℕ };

    /// Returns the part of the key.
    fn part(&self) -> u64
        ensures { result ≡ part self.now };

    /// A key of a lower part is a lower key.
    ghost apart: { (key other : Self) → part key < part other → Self.cmp key other ≡ Less };
}

/// An ordered map like [`Shelf`](crate::Shelf), which keeps the entries of each low part of its keys
/// in a tree of their own. So a call that deals with a key searches only the entries of its part,
/// which are few if there are many parts.
///
/// The number of these trees is chosen at first, and does not change. The entries of all higher
/// parts are in one more tree. All trees use the same spare boxes.
#[derive(Drop)]
pub struct Shelves<K: Parted, V> {
    // A tree for each low part, and a last one for all others.
    trees: Vec<Tree<K, V>, Global>,
    len: usize,
    spares: Boxes<K, V>,
    comparisons: u64,
}

impl<K: Parted, V> Model for Shelves<K, V> {
    ghost use Rattle.bq_index.specs.Shelf.{Seen};
    ghost use Rattle.bq_index.specs.Shelves.{entries_over, IsWholeOver};

    ghost Value = { Seen K V };

    ghost view = { λ s. record { entries = entries_over s.trees.items; spare = s.spares; comparisons = s.comparisons } };

    ghost invariant = { λ s. IsWholeOver K.cmp K.part s.trees.items s.len s.spares };
}

// Returns the place of the tree for a part.
fn tree_of<K, V>(trees: &Vec<Tree<K, V>, Global>, part: u64) -> usize
    requires { 0 < length trees.now.items }
    ensures { result ≡ min part (length trees.now.items - 1) }
{
    let last = trees.len() - 1;
    part.min(last as u64) as usize
}

// Adds an entry to the tree for its part.
#[tactic(auto, using(crate::proofs::Spread::one_tree))]
fn insert_at<K: Parted + Drop, V: Drop>(
    trees: &mut Vec<Tree<K, V>, Global>,
    boxes: &mut Boxes<K, V>,
    count: &mut u64,
    at: usize,
    key: K,
    value: V,
)
    requires at { at < length trees.old.items }
    requires part { at ≡ tree_of K.part (length trees.old.items) key }
    requires spread { AreSpread K.cmp (tree_of K.part (length trees.old.items)) 0 trees.old.items }
    requires fits { length (entries_over trees.old.items) < 2 ^ 64 }
    requires spare { 0 < boxes.old }
    requires absent { lookup (is_at (K.cmp key)) (entries_over trees.old.items) ≡ None }
    ensures is { entries_over trees.new.items
        ≡ insert_entry K.cmp (entries_over trees.old.items) key value }
    ensures spread { AreSpread K.cmp (tree_of K.part (length trees.old.items)) 0 trees.new.items }
    ensures as_many { length trees.new.items ≡ length trees.old.items }
    ensures spare { boxes.new + 1 ≡ boxes.old }
    ensures comparisons { CountsFew (entries_over trees.old.items) count.old count.new }
{
    insert::insert(&mut trees[at], boxes, count, key, value);
}

// Removes the entry of a key from the tree for its part and returns its value, if there is one.
#[tactic(auto, using(crate::proofs::Removed::all_removed, crate::proofs::Removed::all_pass, crate::proofs::Spread::one_tree))]
fn remove_at<K: Parted + Drop, V: Drop>(
    trees: &mut Vec<Tree<K, V>, Global>,
    boxes: &mut Boxes<K, V>,
    count: &mut u64,
    at: usize,
    key: &K,
) -> Option<V>
    requires at { at < length trees.old.items }
    requires part { at ≡ tree_of K.part (length trees.old.items) key.now }
    requires spread { AreSpread K.cmp (tree_of K.part (length trees.old.items)) 0 trees.old.items }
    requires fits { length (entries_over trees.old.items) + boxes.old < 2 ^ 64 }
    ensures value { result ≡ lookup (is_at (K.cmp key.now)) (entries_over trees.old.items) }
    ensures is { entries_over trees.new.items
        ≡ remove_entry (is_at (K.cmp key.now)) (entries_over trees.old.items) }
    ensures spread { AreSpread K.cmp (tree_of K.part (length trees.old.items)) 0 trees.new.items }
    ensures as_many { length trees.new.items ≡ length trees.old.items }
    ensures spare { boxes.new ≡ boxes.old + (if is_some result then 1 else 0) }
    ensures comparisons { CountsFew (entries_over trees.old.items) count.old count.new }
{
    remove::remove_if(&mut trees[at], boxes, count, key, &Always)
}

// Returns the lowest key in a tree that is `key` or above.
#[tactic(auto, using(crate::proofs::Bound::height_bound))]
fn lowest_in<K: Ord + Drop + Copy, V: Drop>(
    tree: &Tree<K, V>,
    count: &mut u64,
    key: &K,
) -> Option<K>
    requires balanced { IsBalanced tree.now }
    requires in_order { InOrder K.cmp (entries tree.now) }
    ensures key { result ≡ key_from (K.cmp key.now) (entries tree.now) }
    ensures comparisons { CountsFew (entries tree.now) count.old count.new }
{
    let (key, _) = find::next_from(tree.top(), key, count)?;
    Some(*key)
}

// Does the same in the tree for the key's part. A key of another part is no answer for the caller.
#[tactic(auto, using(crate::proofs::Spread::one_tree))]
fn lowest_at<K: Parted + Drop + Copy, V: Drop>(
    trees: &Vec<Tree<K, V>, Global>,
    count: &mut u64,
    at: usize,
    key: &K,
) -> Option<K>
    requires at { at < length trees.now.items }
    requires part { at ≡ tree_of K.part (length trees.now.items) key.now }
    requires spread { AreSpread K.cmp (tree_of K.part (length trees.now.items)) 0 trees.now.items }
    ensures key { of_part K.part (K.part key.now) result
        ≡ of_part K.part (K.part key.now) (key_from (K.cmp key.now) (entries_over trees.now.items)) }
    ensures comparisons { CountsFew (entries_over trees.now.items) count.old count.new }
{
    lowest_in(&trees[at], count, key)
}

// Returns a key, if it is of this part.
fn of_part<K: Parted + Drop>(part: u64, key: Option<K>) -> Option<K>
    ensures { result ≡ of_part K.part part key }
{
    let key = key?;
    if key.part() == part { Some(key) } else { None }
}

// Returns this many empty trees.
fn empty_trees<K: Drop, V: Drop>(
    alloc: Global,
    count: usize,
) -> Result<Vec<Tree<K, V>, Global>, NoMemory>
    ensures { IfOk result (λ trees. trees.items ≡ replicate count Leaf) }
{
    let Ok(mut trees) = Vec::with_capacity(alloc, count) else {
        return Err(NoMemory);
    };
    for _ in 0..count {
        if trees.push(Tree::Leaf).is_err() {
            return Err(NoMemory);
        }
    }
    Ok(trees)
}

impl<K: Parted + Drop + Copy, V: Drop> Shelves<K, V> {
    ghost use Rattle.bq_index.specs.Shelf.{ComparesFew};

    /// Returns shelves with no entries and no spare boxes, and with a tree for each part below
    /// `parts`.
    ///
    /// # Errors
    ///
    /// `NoMemory` if the allocation of the table of the trees fails.
    #[tactic(auto, using(crate::proofs::Spread::none_over, crate::proofs::Spread::none_spread))]
    pub fn new(alloc: Global, parts: usize) -> Result<Self, NoMemory>
        ensures { IfOk result (λ s. s ≡ record { entries = []; spare = 0; comparisons = 0 }) }
    {
        let Some(count) = parts.checked_add(1) else {
            return Err(NoMemory);
        };
        let trees = empty_trees(alloc, count)?;
        Ok(Shelves {
            trees,
            len: 0,
            spares: Boxes::new(),
            comparisons: 0,
        })
    }

    /// Returns the number of entries.
    pub fn len(&self) -> usize
        ensures { result ≡ length self.now.entries }
    {
        self.len
    }

    /// Returns how often two keys were compared so far. The count stops at 2^64 - 1.
    pub fn comparisons(&self) -> u64
        ensures { result ≡ self.now.comparisons }
    {
        self.comparisons
    }

    /// Gets boxes from a source until `n` are spare. If `n` or more are spare already, it requests
    /// none.
    ///
    /// # Errors
    ///
    /// `NoMemory` if a box can't be allocated. The ones before the failure are kept.
    pub fn reserve_from<S: BoxSource>(&mut self, source: &mut S, n: usize) -> Result<(), NoMemory>
        ensures ok { OnOk result (n ≤ self.new.spare) }
        ensures refused { OnErr result (self.new.spare < n) }
        ensures entries { self.new.entries ≡ self.old.entries }
        ensures not_fewer { self.old.spare ≤ self.new.spare }
        ensures no_more { self.new.spare ≤ max n self.old.spare }
        ensures comparisons { self.new.comparisons ≡ self.old.comparisons }
    {
        self.spares.reserve_from(source, n, self.len)
    }

    /// Returns one spare box to the allocator, if there is one, see [`Shelf::give_back`].
    pub fn give_back(&mut self)
        ensures { self.new ≡ record self.old { spare = self.old.spare - 1 } }
    {
        self.spares.give_back();
    }

    /// Adds an entry whose key is not there. The entry takes a spare box.
    #[tactic(auto, using(crate::proofs::Spread::all_trees))]
    pub fn insert(&mut self, key: K, value: V)
        requires spare { 0 < self.old.spare }
        requires absent { lookup (is_at (K.cmp key)) self.old.entries ≡ None }
        ensures entries { self.new.entries ≡ insert_entry K.cmp self.old.entries key value }
        ensures spare { self.new.spare + 1 ≡ self.old.spare }
        ensures comparisons { ComparesFew self.old self.new }
    {
        let at = tree_of(&self.trees, key.part());
        insert_at(
            &mut self.trees,
            &mut self.spares,
            &mut self.comparisons,
            at,
            key,
            value,
        );
        self.len += 1;
    }

    /// Removes the entry of a key and returns its value, or `None` if there is no such entry. Its
    /// box becomes spare.
    #[tactic(auto, using(crate::proofs::Spread::all_trees))]
    pub fn remove(&mut self, key: &K) -> Option<V>
        ensures value { result ≡ lookup (is_at (K.cmp key.now)) self.old.entries }
        ensures entries { self.new.entries ≡ remove_entry (is_at (K.cmp key.now)) self.old.entries }
        ensures spare { self.new.spare ≡ self.old.spare + (if is_some result then 1 else 0) }
        ensures comparisons { ComparesFew self.old self.new }
    {
        let at = tree_of(&self.trees, key.part());
        let value = remove_at(
            &mut self.trees,
            &mut self.spares,
            &mut self.comparisons,
            at,
            key,
        )?;
        self.len -= 1;
        Some(value)
    }

    /// Returns the lowest key that is `key` or above, if it is of the same part. Only the count of
    /// comparisons changes.
    #[tactic(auto, using(crate::proofs::Spread::all_trees))]
    pub fn lowest_of_part(&mut self, key: &K) -> Option<K>
        ensures key { result
            ≡ of_part K.part (K.part key.now) (key_from (K.cmp key.now) self.old.entries) }
        ensures entries { self.new.entries ≡ self.old.entries }
        ensures spare { self.new.spare ≡ self.old.spare }
        ensures comparisons { ComparesFew self.old self.new }
    {
        let part = key.part();
        let at = tree_of(&self.trees, part);
        of_part(part, lowest_at(&self.trees, &mut self.comparisons, at, key))
    }
}
