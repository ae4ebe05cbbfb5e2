// Counted comparisons of keys, and searches in a tree that read an entry or lend its value for a
// change.
ghost use Rattle.std.specs.Prelude.{◌≡◌, ℕ, ◌+◌, ◌-◌, ◌^◌, ◌<◌, ◌≤◌, min, IsSome};
ghost use Rattle.std.specs.Borrow.{LendsIf, sem};
ghost use Rattle.std.specs.Option.{option_copied_mut, option_map};
ghost use Rattle.std.specs.Map.{lookup};
ghost use Rattle.std.specs.BTreeMap.{is_at};
ghost use Rattle.bq_index.specs.Order.{InOrder, entry_from};
ghost use Rattle.bq_index.specs.Tree.{entries_of, entry_in, height, height_in, height_of, left_in, lent, right_in};
ghost use Rattle.bq_index.specs.Tree.{IsBalanced, IsBalancedFrom, IsLevel, RaisedByAtMost, Comparison};
ghost use Rattle.bq_index.specs.Edited.{edited_here, edited_in, put_value, value_at, value_in, value_of};
ghost use Rattle.bq_index.specs.contracts.tree.Tree.{the_row as tree_row};
ghost use Rattle.bq_index.specs.contracts.tree.Node.{the_row as node_row};

use super::tree::{Node, Tree};
use std::cmp::Ordering;
use std::marker::PhantomData;

// Compares two keys and raises the count by one; the count stops at 2^64 - 1. In a call that
// counts, keys are compared by this function and `compare_within` only. No contract above states
// this: a call that compared keys elsewhere would still stay within every bound. So code that needs
// a comparison makes it by one of these two.
pub(crate) fn compare<K: Ord>(key: &K, other: &K, count: &mut u64) -> Ordering
    ensures answer { result ≡ K.cmp key.now other.now }
    ensures counts_one { count.new ≡ min (count.old + 1) (2 ^ 64 - 1) }
    ensures counted { RaisedByAtMost 1 count.old count.new }
{
    if *count < u64::MAX {
        *count += 1;
    }
    key.cmp(other)
}

// Compares two keys and raises a small count by one. An insertion or a removal counts its own
// comparisons by this function, and adds them to the count of all at its end. A tree has fewer than
// 200 levels, so that count stays small, and no level has to test for the highest number.
pub(crate) fn compare_within<K: Ord>(key: &K, other: &K, count: &mut u64) -> Ordering
    requires room { count.old < 400 }
    ensures answer { result ≡ K.cmp key.now other.now }
    ensures counts_one { count.new ≡ count.old + 1 }
{
    *count += 1;
    key.cmp(other)
}

// Compares a key with the key of a box.
pub(crate) fn compare_to<K: Ord, V>(key: &K, node: &Node<K, V>, count: &mut u64) -> Ordering
    requires { IsSome (entry_in node.now) }
    ensures answer { Comparison K.cmp key.now (entry_in node.now) result }
    ensures counted { RaisedByAtMost 1 count.old count.new }
{
    compare(key, node.key(), count)
}

// Returns the value at a key.
#[tactic(auto, using(crate::proofs::Parts::lent_filled))]
pub(crate) fn get<'a, K: Ord, V>(
    tree: Option<&'a Node<K, V>>,
    key: &K,
    count: &mut u64,
) -> Option<&'a V>
    requires balanced { IsBalancedFrom (lent tree) }
    requires in_order { InOrder K.cmp (entries_of (lent tree)) }
    ensures value { option_map (λ v. v.now) result
        ≡ lookup (is_at (K.cmp key.now)) (entries_of (lent tree.entry)) }
    ensures counted { RaisedByAtMost (height_of (lent tree.entry)) count.old count.new }
{
    let mut below = tree;
    while let Some(node) = below {
        match compare_to(key, node, count) {
            Ordering::Less => below = node.left(),
            Ordering::Greater => below = node.right(),
            Ordering::Equal => return Some(node.entry().1),
        }
    }
    None
}

// Returns the first entry whose key is `key` or above.
#[tactic(auto, using(crate::proofs::Parts::lent_filled))]
pub(crate) fn next_from<'a, K: Ord, V>(
    tree: Option<&'a Node<K, V>>,
    key: &K,
    count: &mut u64,
) -> Option<(&'a K, &'a V)>
    requires balanced { IsBalancedFrom (lent tree) }
    requires in_order { InOrder K.cmp (entries_of (lent tree)) }
    ensures entry { option_map (λ p. (p.0.now, p.1.now)) result
        ≡ entry_from (K.cmp key.now) (entries_of (lent tree.entry)) }
    ensures counted { RaisedByAtMost (height_of (lent tree.entry)) count.old count.new }
{
    let mut below = tree;
    // The lowest entry so far whose key is above: that of the last box at which the descent went
    // left.
    let mut above = None;
    while let Some(node) = below {
        match compare_to(key, node, count) {
            Ordering::Less => {
                above = Some(node.entry());
                below = node.left();
            }
            Ordering::Greater => below = node.right(),
            Ordering::Equal => return Some(node.entry()),
        }
    }
    above
}

// Lends the value at a key for a change, through a tree of bounded height. No proof can be
// generated for a recursive function that returns a loan, but one can for a chain of calls up to a
// bound: each level of `Deeper` goes one step down.
pub(crate) fn value_mut<'a, K: Ord, V>(
    tree: &'a mut Tree<K, V>,
    key: &K,
    count: &mut u64,
) -> Option<&'a mut V>
    requires balanced { IsBalanced tree.old }
    requires reached { height tree.old ≤ 136 }
    ensures* writes_back { sem 𝓛
        (LendsIf (tree_row K.row V.row) V.row tree.entry result
        (put_value (K.cmp key.now) tree.old) tree.old) }
    ensures value { option_copied_mut result ≡ value_at (K.cmp key.now) tree.old }
    ensures counted { RaisedByAtMost (height tree.old) count.old count.new }
{
    if let Tree::Fork(node) = tree {
        Deepest::value_in(node, key, count)
    } else {
        None
    }
}

trait Descent {
    ghost depth: { ℕ };

    fn value_in<'a, K: Ord, V>(
        node: &'a mut Node<K, V>,
        key: &K,
        count: &mut u64,
    ) -> Option<&'a mut V>
        requires balanced { IsLevel node.old }
        requires reached { height_in node.old ≤ depth }
        ensures* writes_back { sem 𝓛
            (LendsIf (node_row K.row V.row) V.row node.entry result
            (λ w. edited_in (K.cmp key.now) (λ v. w) node.old) node.old) }
        ensures value { option_copied_mut result ≡ value_in (K.cmp key.now) node.old }
        ensures counted { RaisedByAtMost (height_in node.old) count.old count.new };
}

// A box with nothing below it.
struct Bottom;

impl Descent for Bottom {
    ghost depth = { 1 };

    fn value_in<'a, K: Ord, V>(
        node: &'a mut Node<K, V>,
        key: &K,
        count: &mut u64,
    ) -> Option<&'a mut V> {
        match compare_to(key, node, count) {
            Ordering::Less => None,
            Ordering::Greater => None,
            Ordering::Equal => here(node),
        }
    }
}

struct Deeper<D>(PhantomData<D>);

impl<D: Descent> Descent for Deeper<D> {
    ghost depth = { D.depth + 1 };

    fn value_in<'a, K: Ord, V>(
        node: &'a mut Node<K, V>,
        key: &K,
        count: &mut u64,
    ) -> Option<&'a mut V> {
        match compare_to(key, node, count) {
            Ordering::Less => match node {
                Node::OnLeft { left, .. } => D::value_in(left, key, count),
                Node::Both { left, .. } => D::value_in(left, key, count),
                _ => None,
            },
            Ordering::Greater => match node {
                Node::OnRight { right, .. } => D::value_in(right, key, count),
                Node::Both { right, .. } => D::value_in(right, key, count),
                _ => None,
            },
            Ordering::Equal => here(node),
        }
    }
}

// Lends the value of a box.
fn here<'a, K, V>(node: &'a mut Node<K, V>) -> Option<&'a mut V>
    ensures* writes_back { sem 𝓛
        (LendsIf (node_row K.row V.row) V.row node.entry result
        (λ w. edited_here (λ v. w) node.old) node.old) }
    ensures value { option_copied_mut result ≡ value_of node.old }
{
    match node {
        Node::Alone { value, .. } => Some(value),
        Node::OnLeft { value, .. } => Some(value),
        Node::OnRight { value, .. } => Some(value),
        Node::Both { value, .. } => Some(value),
        Node::Spare | Node::SpareBefore(_) => None,
    }
}

struct Eight<D>(PhantomData<D>);

impl<D: Descent> Descent for Eight<D> {
    ghost depth = { D.depth + 8 };

    fn value_in<'a, K: Ord, V>(
        node: &'a mut Node<K, V>,
        key: &K,
        count: &mut u64,
    ) -> Option<&'a mut V> {
        EightSteps::<D>::value_in(node, key, count)
    }
}

type EightSteps<D> = Deeper<Deeper<Deeper<Deeper<Deeper<Deeper<Deeper<Deeper<D>>>>>>>>;

type Forty<D> = Eight<Eight<Eight<Eight<Eight<D>>>>>;

// 137 levels.
type Deepest = Eight<Eight<Forty<Forty<Forty<Bottom>>>>>;
