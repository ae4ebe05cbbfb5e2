// Functions that visit the entries of a tree in the order of the keys. Only `first_from` compares
// keys.
ghost use Rattle.std.specs.Prelude.{◌≡◌, ◌+◌, ◌≤◌, ◌++◌, Bool, find, fold, length, map, vec_len};
ghost use Rattle.std.specs.Option.{option_map};
ghost use Rattle.std.specs.Vec.{vec_capacity};
ghost use Rattle.bq_index.specs.Order.{InOrder};
ghost use Rattle.bq_index.specs.Tree.{entries_of, lent, IsBalancedFrom};
ghost use Rattle.bq_index.specs.Walk.{entry_of, passes_by, passes_from, seen_by};

use super::tree::{Node, parts};
use std::alloc::Global;

/// A visitor of entries, which sees them one after another.
pub trait Visitor<K, V> {
    /// Its state after it saw an entry.
    ghost after: { Self → K → V → Self };

    /// Sees an entry.
    fn visit(&mut self, key: &K, value: &V)
        ensures { self.new ≡ after self.old key.now value.now };
}

/// A test of entries.
pub trait Test<K, V> {
    /// Whether an entry passes.
    ghost passed: { Self → K → V → Bool };

    /// Whether an entry passes.
    fn passes(&self, key: &K, value: &V) -> bool
        ensures { result ≡ passed self.now key.now value.now };
}

// Shows each entry to a visitor.
pub(crate) fn walk<K, V, T: Visitor<K, V>>(tree: Option<&Node<K, V>>, visitor: &mut T)
    requires { IsBalancedFrom (lent tree) }
    ensures { visitor.new ≡ fold (seen_by T.after) visitor.old (entries_of (lent tree.entry)) }
{
    let Some((left, key, value, right)) = parts(tree) else {
        return;
    };
    walk(left, visitor);
    visitor.visit(key, value);
    walk(right, visitor);
}

// Returns the first entry that passes.
#[tactic(auto, using(crate::proofs::FirstPassing::found_here, crate::proofs::FirstPassing::found_left, crate::proofs::FirstPassing::found_right))]
pub(crate) fn first<'a, K, V, T: Test<K, V>>(
    tree: Option<&'a Node<K, V>>,
    test: &T,
) -> Option<(&'a K, &'a V)>
    requires { IsBalancedFrom (lent tree) }
    ensures { option_map entry_of result
        ≡ find (passes_by (T.passed test.now)) (entries_of (lent tree.entry)) }
{
    let (left, key, value, right) = parts(tree)?;
    match first(left, test) {
        None => if test.passes(key, value) {
            Some((key, value))
        } else {
            first(right, test)
        },
        found => found,
    }
}

// Returns the first entry that passes, among those whose key is `from` or above. It compares keys
// but does not count that.
#[tactic(auto, using(crate::proofs::FirstPassing::found_left))]
pub(crate) fn first_from<'a, K: Ord, V, T: Test<K, V>>(
    tree: Option<&'a Node<K, V>>,
    from: &K,
    test: &T,
) -> Option<(&'a K, &'a V)>
    requires balanced { IsBalancedFrom (lent tree) }
    requires in_order { InOrder K.cmp (entries_of (lent tree)) }
    ensures { option_map entry_of result
        ≡ find (passes_from (K.cmp from.now) (T.passed test.now)) (entries_of (lent tree.entry)) }
{
    let (left, key, value, right) = parts(tree)?;
    if from.cmp(key).is_gt() {
        return first_from(right, from, test);
    }
    match first_from(left, from, test) {
        None => if test.passes(key, value) {
            Some((key, value))
        } else {
            first(right, test)
        },
        found => found,
    }
}

// Appends each entry to a list that has room for all of them.
pub(crate) fn list<'a, K, V>(tree: Option<&'a Node<K, V>>, listed: &mut Vec<(&'a K, &'a V), Global>)
    requires balanced { IsBalancedFrom (lent tree) }
    requires room { vec_len listed.old + length (entries_of (lent tree)) ≤ vec_capacity listed.old }
    ensures items { map entry_of listed.new.items
        ≡ map entry_of listed.old.items ++ entries_of (lent tree.entry) }
    ensures len { vec_len listed.new ≡ vec_len listed.old + length (entries_of (lent tree.entry)) }
    ensures capacity { vec_capacity listed.new ≡ vec_capacity listed.old }
{
    let Some((left, key, value, right)) = parts(tree) else {
        return;
    };
    list(left, listed);
    listed.push_reserved((key, value));
    list(right, listed);
}
