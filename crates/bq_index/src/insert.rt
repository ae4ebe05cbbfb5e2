// Insertion. Boxes are changed in place: an entry moves only if its box gains a side, or if the tree
// is rotated there. Each step of a descent returns whether the height of its box has changed. If it
// has not, the boxes above stay as they are. The last step of a descent is a separate function, so
// that the steps on the way have small stack frames and ask no more than they need.
ghost use Rattle.std.specs.Prelude.{◌≡◌, ◌+◌, ◌<◌, ◌≤◌, ◌^◌, ◌++◌, length, Some, None};
ghost use Rattle.std.specs.BTreeMap.{is_at, insert_entry};
ghost use Rattle.std.specs.Map.{lookup};
ghost use Rattle.std.specs.Option.{option_to_list};
ghost use Rattle.bq_index.specs.Order.{InOrder, LacksKeyOf, with_entry};
ghost use Rattle.bq_index.specs.Shelf.{CountsFew};
ghost use Rattle.bq_index.specs.Tree.{entries, entries_in, entries_of, entry_in, far, height, height_in, height_of, HasOneSideAtMost, joined, near};
ghost use Rattle.bq_index.specs.Tree.{HasParts, IsBalanced, IsLevel, IsRaised, RaisedByAtMost};

use super::alone::{compare_single, key_alone, swap_with};
use super::boxes::Boxes;
use super::find::compare_within;
use super::rotation::mend;
use super::tree::{Node, Side, Tree, fill, keep};
use std::cmp::Ordering;
use std::mem;

// Attaches a box with a single entry on a side of a box that has nothing there. Returns whether the
// height of the box has changed.
#[tactic(auto, using(crate::proofs::Sides::free_on_left, crate::proofs::Sides::free_on_right))]
#[inline(never)]
fn hang<K, V>(here: &mut Node<K, V>, side: Side, node: Box<Node<K, V>>) -> bool
where
    K: Drop,
    V: Drop,
    requires here_level { IsLevel here.old }
    requires none { near side here.old ≡ None }
    requires level { IsLevel node.value }
    requires low { height_in node.value ≡ 1 }
    ensures is { entries_in here.new
        ≡ joined side (entries_in node.value) (option_to_list (entry_in here.old)) (entries_of (far side here.old)) }
    ensures raised { IsRaised here.old here.new result }
{
    match mem::replace(here, Node::Spare) {
        Node::Alone { key, value } => {
            fill(here, Node::on(side, key, node, value));
            true
        }
        Node::OnLeft { key, left, value } => {
            fill(here, Node::fork(left, key, node, value));
            false
        }
        Node::OnRight { key, right, value } => {
            fill(here, Node::fork(node, key, right, value));
            false
        }
        _ => unreachable!(),
    }
}

// Returns two boxes with a single entry in the order of their keys.
#[tactic(auto, using(crate::proofs::Single::lower_first, crate::proofs::Single::higher_last, crate::proofs::Single::not_equal))]
fn in_order<K: Ord, V>(
    low: Box<Node<K, V>>,
    node: Box<Node<K, V>>,
    count: &mut u64,
) -> (Box<Node<K, V>>, Box<Node<K, V>>)
    requires low_level { IsLevel low.value }
    requires low_alone { height_in low.value ≡ 1 }
    requires level { IsLevel node.value }
    requires alone { height_in node.value ≡ 1 }
    requires absent { LacksKeyOf K.cmp (entry_in node.value) (entries_in low.value) }
    requires room { count.old < 400 }
    ensures is { entries_in result.0.value ++ entries_in result.1.value
        ≡ with_entry K.cmp (entry_in node.value) (entries_in low.value) }
    ensures first_level { IsLevel result.0.value }
    ensures first_alone { height_in result.0.value ≡ 1 }
    ensures second_level { IsLevel result.1.value }
    ensures second_alone { height_in result.1.value ≡ 1 }
    ensures counted { count.new ≡ count.old + 1 }
{
    match compare_single(&node, &low, count) {
        Ordering::Less => (node, low),
        Ordering::Greater => (low, node),
        Ordering::Equal => unreachable!(),
    }
}

// Inserts a box with a single entry on a side of a box that has a single box there and nothing on
// the other side. The three boxes then are one with two sides, of the same height.
#[tactic(auto, using(crate::proofs::Sides::single_on_left, crate::proofs::Sides::single_on_right))]
#[inline(never)]
fn spread<K: Ord, V>(
    here: &mut Node<K, V>,
    side: Side,
    node: Box<Node<K, V>>,
    count: &mut u64,
) -> bool
where
    K: Drop,
    V: Drop,
    requires here_level { IsLevel here.old }
    requires low { height_of (near side here.old) ≡ 1 }
    requires none { far side here.old ≡ None }
    requires level { IsLevel node.value }
    requires alone { height_in node.value ≡ 1 }
    requires absent { LacksKeyOf K.cmp (entry_in node.value) (entries_of (near side here.old)) }
    requires room { count.old < 400 }
    ensures is { entries_in here.new ≡ joined side (with_entry K.cmp (entry_in node.value) (entries_of (near side here.old)))
        (option_to_list (entry_in here.old)) (entries_of (far side here.old)) }
    ensures raised { IsRaised here.old here.new result }
    ensures counted { count.new ≡ count.old + 1 }
{
    match mem::replace(here, Node::Spare) {
        Node::OnLeft { key, left, value } => {
            let (first, second) = in_order(left, node, count);
            let (mut key, mut value, mut second) = (key, value, second);
            swap_with(&mut key, &mut value, &mut *second);
            fill(here, Node::fork(first, key, second, value));
            false
        }
        Node::OnRight { key, right, value } => {
            let (first, second) = in_order(right, node, count);
            let (mut key, mut value, mut first) = (key, value, first);
            swap_with(&mut key, &mut value, &mut *first);
            fill(here, Node::fork(first, key, second, value));
            false
        }
        _ => unreachable!(),
    }
}

// Inserts a box with a single entry below a box that has at most one side.
#[inline(never)]
fn insert_low<K: Ord, V>(here: &mut Node<K, V>, node: Box<Node<K, V>>, count: &mut u64) -> bool
where
    K: Drop,
    V: Drop,
    requires here_level { IsLevel here.old }
    requires in_order { InOrder K.cmp (entries_in here.old) }
    requires alone { HasParts (Some node.value) None (entry_in node.value) None }
    requires level { IsLevel node.value }
    requires absent { LacksKeyOf K.cmp (entry_in node.value) (entries_in here.old) }
    requires fits { height_in here.old < 200 }
    requires room { count.old + height_in here.old < 400 }
    requires low { HasOneSideAtMost here.old }
    ensures is { entries_in here.new ≡ with_entry K.cmp (entry_in node.value) (entries_in here.old) }
    ensures raised { IsRaised here.old here.new result }
    ensures counted { RaisedByAtMost (height_in here.old) count.old count.new }
{
    match compare_within(key_alone(&node), here.key(), count) {
        Ordering::Less => match here {
            Node::OnLeft { .. } => spread(here, Side::Left, node, count),
            _ => hang(here, Side::Left, node),
        },
        Ordering::Greater => match here {
            Node::OnRight { .. } => spread(here, Side::Right, node, count),
            _ => hang(here, Side::Right, node),
        },
        Ordering::Equal => unreachable!(),
    }
}

// Inserts a box with a single entry below another box. Returns whether the height of that box has
// changed.
fn insert_below<K: Ord, V>(here: &mut Node<K, V>, node: Box<Node<K, V>>, count: &mut u64) -> bool
where
    K: Drop,
    V: Drop,
    requires here_level { IsLevel here.old }
    requires in_order { InOrder K.cmp (entries_in here.old) }
    requires alone { HasParts (Some node.value) None (entry_in node.value) None }
    requires level { IsLevel node.value }
    requires absent { LacksKeyOf K.cmp (entry_in node.value) (entries_in here.old) }
    requires fits { height_in here.old < 200 }
    requires room { count.old + height_in here.old < 400 }
    ensures is { entries_in here.new ≡ with_entry K.cmp (entry_in node.value) (entries_in here.old) }
    ensures raised { IsRaised here.old here.new result }
    ensures counted { RaisedByAtMost (height_in here.old) count.old count.new }
{
    match here {
        Node::Both {
            key,
            left,
            right,
            ..
        } => match compare_within(key_alone(&node), key, count) {
            Ordering::Less => {
                let grown = insert_below(left, node, count);
                mend(here, grown)
            }
            Ordering::Greater => {
                let grown = insert_below(right, node, count);
                mend(here, grown)
            }
            Ordering::Equal => unreachable!(),
        },
        _ => insert_low(here, node, count),
    }
}

// Adds an entry whose key is not in the tree. The entry takes a spare box.
#[tactic(auto, using(crate::proofs::Bound::height_small, crate::proofs::Bound::height_bound))]
pub(crate) fn insert<K: Ord, V>(
    tree: &mut Tree<K, V>,
    boxes: &mut Boxes<K, V>,
    count: &mut u64,
    key: K,
    value: V,
)
where
    K: Drop,
    V: Drop,
    requires spare { 0 < boxes.old }
    requires balanced { IsBalanced tree.old }
    requires in_order { InOrder K.cmp (entries tree.old) }
    requires fits { length (entries tree.old) < 2 ^ 64 }
    requires absent { lookup (is_at (K.cmp key)) (entries tree.old) ≡ None }
    ensures is { entries tree.new ≡ insert_entry K.cmp (entries tree.old) key value }
    ensures balanced { IsBalanced tree.new }
    ensures spare { boxes.new + 1 ≡ boxes.old }
    ensures comparisons { CountsFew (entries tree.old) count.old count.new }
{
    let node = boxes.take_with(key, value);
    insert_box(tree, node, count);
}

// Inserts a box with a single entry at its place in a tree.
fn insert_box<K: Ord, V>(tree: &mut Tree<K, V>, node: Box<Node<K, V>>, count: &mut u64)
where
    K: Drop,
    V: Drop,
    requires balanced { IsBalanced tree.old }
    requires in_order { InOrder K.cmp (entries tree.old) }
    requires alone { HasParts (Some node.value) None (entry_in node.value) None }
    requires level { IsLevel node.value }
    requires absent { LacksKeyOf K.cmp (entry_in node.value) (entries tree.old) }
    requires fits { height tree.old < 200 }
    ensures is { entries tree.new ≡ with_entry K.cmp (entry_in node.value) (entries tree.old) }
    ensures balanced { IsBalanced tree.new }
    ensures not_lower { height tree.old ≤ height tree.new }
    ensures not_higher { height tree.new ≤ height tree.old + 1 }
    ensures counted { RaisedByAtMost (height tree.old) count.old count.new }
{
    match tree {
        Tree::Leaf => keep(tree, Tree::Fork(node)),
        Tree::Fork(top) => {
            let mut compared = 0;
            let _changed = insert_below(top, node, &mut compared);
            *count = count.saturating_add(compared);
        }
    }
}
