// Boxes with nothing below them: their keys, their entries, and the box of a removed entry.
ghost use Rattle.std.specs.Prelude.{◌≡◌, ◌+◌, ◌<◌, Some, IfSome};
ghost use Rattle.std.specs.Option.{option_map};
ghost use Rattle.bq_index.specs.Edited.{value_of};
ghost use Rattle.bq_index.specs.Tree.{entry_in, entry_of_top, height_in, HasOneSideAtMost, IsKeyOf, Comparison, ComparisonOfEntries, IsLevel};
ghost use Rattle.bq_index.specs.declared.tree.Node.TheVariants.{Spare};

use super::find::compare_within;
use super::tree::{Node, Tree};
use std::cmp::Ordering;
use std::mem;

// Returns the key of a box with nothing below it. It needs fewer tests than `key`, and an insertion
// asks for it at each level.
pub(crate) fn key_alone<K, V>(node: &Node<K, V>) -> &K
    requires level { IsLevel node.now }
    requires alone { height_in node.now ≡ 1 }
    ensures { IsKeyOf (entry_in node.now) result.now }
{
    match node {
        Node::Alone { key, .. } => key,
        _ => unreachable!(),
    }
}

// Compares a key with that of a box with nothing below it.
#[tactic(auto, using(crate::proofs::Parts::by_other))]
pub(crate) fn compare_alone<K: Ord, V>(key: &K, node: &Node<K, V>, count: &mut u64) -> Ordering
    requires level { IsLevel node.now }
    requires alone { height_in node.now ≡ 1 }
    requires room { count.old < 400 }
    ensures answer { Comparison K.cmp key.now (entry_in node.now) result }
    ensures counted { count.new ≡ count.old + 1 }
{
    compare_within(key, key_alone(node), count)
}

// Compares the keys of two boxes with nothing below them.
#[tactic(auto, using(crate::proofs::Parts::by_key))]
pub(crate) fn compare_single<K: Ord, V>(
    node: &Node<K, V>,
    low: &Node<K, V>,
    count: &mut u64,
) -> Ordering
    requires level { IsLevel node.now }
    requires alone { height_in node.now ≡ 1 }
    requires low_level { IsLevel low.now }
    requires low_alone { height_in low.now ≡ 1 }
    requires room { count.old < 400 }
    ensures answer { ComparisonOfEntries K.cmp (entry_in node.now) (entry_in low.now) result }
    ensures counted { count.new ≡ count.old + 1 }
{
    compare_alone(key_alone(node), low, count)
}

// Swaps an entry with that of a box that has nothing below it.
pub(crate) fn swap_with<K, V>(key: &mut K, value: &mut V, node: &mut Node<K, V>)
    requires level { IsLevel node.old }
    requires alone { height_in node.old ≡ 1 }
    ensures level { IsLevel node.new }
    ensures alone { height_in node.new ≡ 1 }
    ensures there { entry_in node.new ≡ Some (key.old, value.old) }
    ensures here { Some (key.new, value.new) ≡ entry_in node.old }
{
    match node {
        Node::Alone {
            key: other_key,
            value: other_value,
        } => {
            mem::swap(key, other_key);
            mem::swap(value, other_value);
        }
        _ => unreachable!(),
    }
}

// Takes the value out of the box of a removed entry. The box is spare then. Such a box has nothing
// below it, so the code for others is in a function of its own.
#[inline(always)]
pub(crate) fn taken<K, V>(found: Tree<K, V>) -> Option<(Box<Node<K, V>>, V)>
where
    K: Drop,
    V: Drop,
    ensures value { option_map (λ p. p.1) result ≡ option_map (λ e. e.1) (entry_of_top found) }
    ensures spare { IfSome result (λ p. p.0.value ≡ Spare) }
{
    match found {
        Tree::Leaf => None,
        Tree::Fork(node) => match &*node {
            Node::Alone { .. } => taken_alone(node),
            _ => taken_from(node),
        },
    }
}

// Takes the value out of a box with nothing below it.
#[inline(always)]
fn taken_alone<K, V>(mut node: Box<Node<K, V>>) -> Option<(Box<Node<K, V>>, V)>
where
    K: Drop,
    V: Drop,
    requires low { HasOneSideAtMost node.value }
    requires alone { height_in node.value ≡ 1 }
    ensures value { option_map (λ p. p.1) result ≡ value_of node.value }
    ensures spare { IfSome result (λ p. p.0.value ≡ Spare) }
{
    match mem::replace(&mut *node, Node::Spare) {
        Node::Alone { value, .. } => Some((node, value)),
        _ => unreachable!(),
    }
}

// Takes the value out of a box.
#[inline(never)]
fn taken_from<K, V>(mut node: Box<Node<K, V>>) -> Option<(Box<Node<K, V>>, V)>
where
    K: Drop,
    V: Drop,
    ensures value { option_map (λ p. p.1) result ≡ value_of node.value }
    ensures spare { IfSome result (λ p. p.0.value ≡ Spare) }
{
    match mem::replace(&mut *node, Node::Spare) {
        Node::Alone { value, .. } => Some((node, value)),
        Node::OnLeft { value, .. } => Some((node, value)),
        Node::OnRight { value, .. } => Some((node, value)),
        Node::Both { value, .. } => Some((node, value)),
        Node::Spare | Node::SpareBefore(_) => None,
    }
}
