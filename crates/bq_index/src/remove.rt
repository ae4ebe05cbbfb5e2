// Removal. Boxes are changed in place: an entry moves only if its box loses a side, if the tree is
// rotated there, or if it takes the place of a removed one. Each step of a descent returns whether
// the height of its box has changed. If it has not, the boxes above stay as they are. The last step
// of a descent is a separate function, so that the steps on the way have small stack frames.
ghost use Rattle.std.specs.Prelude.{◌≡◌, ◌+◌, ◌<◌, ◌≤◌, ◌^◌, ◌++◌, [], Some, cond, if◌then◌else◌, is_some, length, true, IfSome};
ghost use Rattle.std.specs.Option.{option_map, option_to_list};
ghost use Rattle.std.specs.Map.{lookup, remove_entry};
ghost use Rattle.std.specs.BTreeMap.{is_at};
ghost use Rattle.bq_index.specs.Edited.{value_of};
ghost use Rattle.bq_index.specs.Order.{InOrder};
ghost use Rattle.bq_index.specs.Removed.{lookup_if, passing, removed_if, value_of_top};
ghost use Rattle.bq_index.specs.Shelf.{CountsFew};
ghost use Rattle.bq_index.specs.Tree.{entries, entries_in, entries_of, entry_in, entry_of_top, far, height, height_in, height_of};
ghost use Rattle.bq_index.specs.Tree.{HasOneSideAtMost, joined, left_in, near, right_in, IsBalanced, IsBalancedFrom, IsLevel, IsLevelWithSide, IsLowered};
ghost use Rattle.bq_index.specs.Tree.{IsWithoutFirst, LosesEntry, RaisedByAtMost};
ghost use Rattle.bq_index.specs.declared.tree.Node.TheVariants.{Spare};
ghost use Rattle.bq_index.specs.declared.tree.Tree.TheVariants.{Leaf};

use super::alone::{compare_alone, swap_with, taken};
use super::boxes::Boxes;
use super::find::compare_within;
use super::rotation::{mend, sink};
use super::tree::{Node, Side, Tree, fill, keep};
use super::walk::Test;
use std::cmp::Ordering;
use std::mem;

// Returns whether the key is that of a box with nothing below it.
#[tactic(auto, using(crate::proofs::Single::answer_of))]
fn is_key_of<K: Ord, V>(key: &K, node: &Node<K, V>, count: &mut u64) -> bool
    requires level { IsLevel node.now }
    requires alone { height_in node.now ≡ 1 }
    requires room { count.old < 400 }
    ensures answer { result ≡ is_some (lookup (is_at (K.cmp key.now)) (entries_in node.now)) }
    ensures counted { RaisedByAtMost 1 count.old count.new }
{
    compare_alone(key, node, count).is_eq()
}

// Returns whether the value of a box passes the test.
fn passes_in<K, V, T: Test<K, V>>(key: &K, node: &Node<K, V>, test: &T) -> bool
    ensures { result ≡ is_some (passing (T.passed test.now key.now) (value_of node.now)) }
{
    match node {
        Node::Alone { value, .. } => test.passes(key, value),
        Node::OnLeft { value, .. } => test.passes(key, value),
        Node::OnRight { value, .. } => test.passes(key, value),
        Node::Both { value, .. } => test.passes(key, value),
        Node::Spare | Node::SpareBefore(_) => false,
    }
}

// Returns whether the key is that of a box with nothing below it, and its value passes the test.
#[tactic(auto, using(crate::proofs::Removed::passes_single, crate::proofs::Removed::not_there))]
fn is_passing_key_of<K: Ord, V, T: Test<K, V>>(
    key: &K,
    node: &Node<K, V>,
    count: &mut u64,
    test: &T,
) -> bool
    requires level { IsLevel node.now }
    requires alone { height_in node.now ≡ 1 }
    requires room { count.old < 400 }
    ensures answer { result
        ≡ is_some (lookup_if (is_at (K.cmp key.now)) (T.passed test.now key.now) (entries_in node.now)) }
    ensures counted { RaisedByAtMost 1 count.old count.new }
{
    if !is_key_of(key, node, count) {
        return false;
    }
    passes_in(key, node, test)
}

// Returns whether the key is that of a side of a box, which is a single box or nothing, and its value
// passes the test.
fn is_on<K: Ord, V, T: Test<K, V>>(
    here: &Node<K, V>,
    side: Side,
    key: &K,
    count: &mut u64,
    test: &T,
) -> bool
    requires balanced { IsBalancedFrom (near side here.now) }
    requires low { height_of (near side here.now) ≤ 1 }
    requires room { count.old < 400 }
    ensures answer { result
        ≡ is_some (lookup_if (is_at (K.cmp key.now)) (T.passed test.now key.now) (entries_of (near side here.now))) }
    ensures counted { RaisedByAtMost (height_of (near side here.now)) count.old count.new }
{
    match here.side(side) {
        None => false,
        Some(node) => is_passing_key_of(key, node, count, test),
    }
}

// Takes a side, which is a single box, off a box. Returns that box.
#[tactic(auto, using(crate::proofs::Sides::single_on_left, crate::proofs::Sides::single_on_right))]
#[inline(always)]
fn detach<K, V>(here: &mut Node<K, V>, side: Side) -> Box<Node<K, V>>
where
    K: Drop,
    V: Drop,
    requires here_level { IsLevel here.old }
    requires low { height_of (near side here.old) ≡ 1 }
    ensures detached { Some result.value ≡ near side here.old }
    ensures none { near side here.new ≡ None }
    ensures other { far side here.new ≡ far side here.old }
    ensures entry { entry_in here.new ≡ entry_in here.old }
    ensures is { entries_in here.new
        ≡ joined side [] (option_to_list (entry_in here.old)) (entries_of (far side here.old)) }
{
    match mem::replace(here, Node::Spare) {
        Node::OnLeft { key, left, value } => {
            fill(here, Node::Alone { key, value });
            left
        }
        Node::OnRight { key, right, value } => {
            fill(here, Node::Alone { key, value });
            right
        }
        Node::Both {
            key,
            left,
            right,
            value,
            ..
        } => match side {
            Side::Left => {
                fill(here, Node::OnRight { key, right, value });
                left
            }
            Side::Right => {
                fill(here, Node::OnLeft { key, left, value });
                right
            }
        },
        _ => unreachable!(),
    }
}

// Takes a side, which is a single box, off a box. Returns that box, and whether the height of `here`
// has changed.
#[inline(never)]
fn shed<K, V>(here: &mut Node<K, V>, side: Side) -> (Box<Node<K, V>>, bool)
where
    K: Drop,
    V: Drop,
    requires here_level { IsLevel here.old }
    requires low { height_of (near side here.old) ≡ 1 }
    ensures is { entries_in here.new
        ≡ joined side [] (option_to_list (entry_in here.old)) (entries_of (far side here.old)) }
    ensures lowered { IsLowered here.old here.new result.1 }
    ensures shed { Some result.0.value ≡ near side here.old }
{
    let high = here.height();
    let near = detach(here, side);
    if high > 2 {
        let changed = sink(here, side);
        return (near, changed);
    }
    let changed = here.height() != high;
    (near, changed)
}

// Removes the key from a side of a box, which is a single box or nothing, if the value there passes
// the test. Returns whether the height of `here` has changed.
#[tactic(auto, using(crate::proofs::Parts::come_apart, crate::proofs::Single::height_if_found))]
fn cut<K: Ord, V, T: Test<K, V>>(
    here: &mut Node<K, V>,
    side: Side,
    key: &K,
    count: &mut u64,
    found: &mut Tree<K, V>,
    test: &T,
) -> bool
where
    K: Drop,
    V: Drop,
    requires here_level { IsLevel here.old }
    requires low { height_of (near side here.old) ≤ 1 }
    requires none { found.old ≡ Leaf }
    requires room { count.old < 400 }
    ensures is { entries_in here.new
        ≡ joined side (removed_if (is_at (K.cmp key.now)) (value_of_top found.new) (entries_of (near side here.old)))
        (option_to_list (entry_in here.old)) (entries_of (far side here.old)) }
    ensures found { value_of_top found.new
        ≡ lookup_if (is_at (K.cmp key.now)) (T.passed test.now key.now) (entries_of (near side here.old)) }
    ensures lowered { IsLowered here.old here.new result }
    ensures counted { RaisedByAtMost (height_of (near side here.old)) count.old count.new }
{
    if is_on(here, side, key, count, test) {
        let (removed, changed) = shed(here, side);
        keep(found, Tree::Fork(removed));
        changed
    } else {
        false
    }
}

// Takes the entry out of a box of which a side is a single box, and puts the entry of that box in its
// place. Returns the box, which has the entry now, and whether the height of `here` has changed.
#[inline(never)]
fn trade<K, V>(here: &mut Node<K, V>, side: Side) -> (Box<Node<K, V>>, bool)
where
    K: Drop,
    V: Drop,
    requires here_level { IsLevel here.old }
    requires low { height_of (near side here.old) ≡ 1 }
    ensures traded { LosesEntry here.old here.new result.0.value result.1 }
    ensures level { IsLevel result.0.value }
    ensures alone { height_in result.0.value ≡ 1 }
{
    match here {
        Node::OnLeft { key, left, value } => swap_with(key, value, left),
        Node::OnRight { key, right, value } => swap_with(key, value, right),
        Node::Both {
            key,
            left,
            right,
            value,
            ..
        } => match side {
            Side::Left => swap_with(key, value, left),
            Side::Right => swap_with(key, value, right),
        },
        _ => unreachable!(),
    }
    shed(here, side)
}

// Takes the first entry out of a box that has a side, or out of a box below it. Returns a box with
// that entry and nothing below it, and whether the height of `here` has changed.
#[tactic(auto, using(crate::proofs::Parts::come_apart))]
fn take_first<K, V>(here: &mut Node<K, V>) -> (Box<Node<K, V>>, bool)
where
    K: Drop,
    V: Drop,
    requires { IsLevelWithSide here.old }
    ensures { IsWithoutFirst here.old here.new result.0.value result.1 }
{
    let low = here.left_height();
    if low == 0 {
        return trade(here, Side::Right);
    }
    if low == 1 {
        return shed(here, Side::Left);
    }
    match here {
        Node::Both { left, .. } => {
            let (first, shrunk) = take_first(left);
            let changed = mend(here, shrunk);
            (first, changed)
        }
        _ => unreachable!(),
    }
}

// Takes the entry out of a box whose right side has more than one level. The first entry of that
// side takes its place. Returns a box with the entry, and whether the height of `here` has changed.
fn trade_below<K, V>(here: &mut Node<K, V>) -> (Box<Node<K, V>>, bool)
where
    K: Drop,
    V: Drop,
    requires here_level { IsLevel here.old }
    requires high { 1 < height_of (right_in here.old) }
    requires fits { height_in here.old < 200 }
    ensures { LosesEntry here.old here.new result.0.value result.1 }
{
    match here {
        Node::Both {
            key,
            right,
            value,
            ..
        } => {
            let (first, shrunk) = take_first(right);
            let mut first = first;
            swap_with(key, value, &mut *first);
            let changed = mend(here, shrunk);
            (first, changed)
        }
        _ => unreachable!(),
    }
}

// Takes the entry out of a box that has a side. Returns a box with that entry, and whether the
// height of `here` has changed.
#[tactic(auto, using(crate::proofs::Parts::come_apart))]
fn take_entry<K, V>(here: &mut Node<K, V>) -> (Box<Node<K, V>>, bool)
where
    K: Drop,
    V: Drop,
    requires { IsLevelWithSide here.old }
    ensures { LosesEntry here.old here.new result.0.value result.1 }
{
    let low = here.right_height();
    if low == 0 {
        return trade(here, Side::Left);
    }
    if low == 1 {
        return trade(here, Side::Right);
    }
    trade_below(here)
}

// Takes the entry out of a box that has a side. A box with that entry goes to `found`. Returns
// whether the height of `here` has changed.
#[inline(never)]
fn take_out<K, V>(here: &mut Node<K, V>, found: &mut Tree<K, V>) -> bool
where
    K: Drop,
    V: Drop,
    requires here_level { IsLevelWithSide here.old }
    requires none { found.old ≡ Leaf }
    ensures is { entries_in here.new ≡ entries_of (left_in here.old) ++ entries_of (right_in here.old) }
    ensures value { option_map (λ e. e.1) (entry_of_top found.new) ≡ option_map (λ e. e.1) (entry_in here.old) }
    ensures lowered { IsLowered here.old here.new result }
{
    let (removed, changed) = take_entry(here);
    keep(found, Tree::Fork(removed));
    changed
}

// Takes the entry out of a box that has a side, if its value passes the test. Returns whether the
// height of `here` has changed.
#[tactic(auto, using(crate::proofs::Removed::passed_value, crate::proofs::Removed::no_value))]
fn take_out_if<K, V, T: Test<K, V>>(
    here: &mut Node<K, V>,
    key: &K,
    found: &mut Tree<K, V>,
    test: &T,
) -> bool
where
    K: Drop,
    V: Drop,
    requires here_level { IsLevelWithSide here.old }
    requires none { found.old ≡ Leaf }
    ensures is { entries_in here.new
        ≡ cond (is_some (value_of_top found.new)) (entries_of (left_in here.old) ++ entries_of (right_in here.old))
        (entries_in here.old) }
    ensures value { value_of_top found.new ≡ passing (T.passed test.now key.now) (value_of here.old) }
    ensures lowered { IsLowered here.old here.new result }
{
    if !passes_in(key, here, test) {
        return false;
    }
    take_out(here, found)
}

// Removes the key from a box that has a side
#[inline(never)]
fn remove_low<K: Ord, V, T: Test<K, V>>(
    here: &mut Node<K, V>,
    key: &K,
    count: &mut u64,
    found: &mut Tree<K, V>,
    test: &T,
) -> bool
where
    K: Drop,
    V: Drop,
    requires here_level { IsLevelWithSide here.old }
    requires in_order { InOrder K.cmp (entries_in here.old) }
    requires none { found.old ≡ Leaf }
    requires room { count.old + height_in here.old < 400 }
    requires low { HasOneSideAtMost here.old }
    ensures is { entries_in here.new
        ≡ removed_if (is_at (K.cmp key.now)) (value_of_top found.new) (entries_in here.old) }
    ensures found { value_of_top found.new
        ≡ lookup_if (is_at (K.cmp key.now)) (T.passed test.now key.now) (entries_in here.old) }
    ensures lowered { IsLowered here.old here.new result }
    ensures counted { RaisedByAtMost (height_in here.old) count.old count.new }
{
    match compare_within(key, here.key(), count) {
        Ordering::Less => cut(here, Side::Left, key, count, found, test),
        Ordering::Greater => cut(here, Side::Right, key, count, found, test),
        Ordering::Equal => take_out_if(here, key, found, test),
    }
}

fn remove_below<K: Ord, V, T: Test<K, V>>(
    here: &mut Node<K, V>,
    key: &K,
    count: &mut u64,
    found: &mut Tree<K, V>,
    test: &T,
) -> bool
where
    K: Drop,
    V: Drop,
    requires here_level { IsLevelWithSide here.old }
    requires in_order { InOrder K.cmp (entries_in here.old) }
    requires none { found.old ≡ Leaf }
    requires room { count.old + height_in here.old < 400 }
    ensures is { entries_in here.new
        ≡ removed_if (is_at (K.cmp key.now)) (value_of_top found.new) (entries_in here.old) }
    ensures found { value_of_top found.new
        ≡ lookup_if (is_at (K.cmp key.now)) (T.passed test.now key.now) (entries_in here.old) }
    ensures lowered { IsLowered here.old here.new result }
    ensures counted { RaisedByAtMost (height_in here.old) count.old count.new }
{
    match here {
        Node::Both {
            key: own,
            left,
            right,
            ..
        } => match compare_within(key, own, count) {
            Ordering::Less => {
                if !left.is_high() {
                    return cut(here, Side::Left, key, count, found, test);
                }
                let shrunk = remove_below(left, key, count, found, test);
                mend(here, shrunk)
            }
            Ordering::Greater => {
                if !right.is_high() {
                    return cut(here, Side::Right, key, count, found, test);
                }
                let shrunk = remove_below(right, key, count, found, test);
                mend(here, shrunk)
            }
            Ordering::Equal => take_out_if(here, key, found, test),
        },
        _ => remove_low(here, key, count, found, test),
    }
}

// Returns whether a tree that is a single box or empty has the key, and its value passes the test.
fn is_passing_tree<K: Ord, V, T: Test<K, V>>(
    tree: &Tree<K, V>,
    key: &K,
    count: &mut u64,
    test: &T,
) -> bool
    requires balanced { IsBalanced tree.now }
    requires low { height tree.now ≤ 1 }
    ensures answer { result
        ≡ is_some (lookup_if (is_at (K.cmp key.now)) (T.passed test.now key.now) (entries tree.now)) }
    ensures counted { RaisedByAtMost (height tree.now) count.old count.new }
{
    match tree {
        Tree::Leaf => false,
        Tree::Fork(top) => {
            let mut compared = 0;
            let passes = is_passing_key_of(key, top, &mut compared, test);
            *count = count.saturating_add(compared);
            passes
        }
    }
}

// Removes the key from a tree that is a single box or empty, if its value passes the test.
#[tactic(auto, using(crate::proofs::Removed::no_value))]
fn remove_single<K: Ord, V, T: Test<K, V>>(
    tree: &mut Tree<K, V>,
    key: &K,
    count: &mut u64,
    test: &T,
) -> Option<(Box<Node<K, V>>, V)>
where
    K: Drop,
    V: Drop,
    requires balanced { IsBalanced tree.old }
    requires low { height tree.old ≤ 1 }
    ensures is { entries tree.new
        ≡ removed_if (is_at (K.cmp key.now)) (option_map (λ p. p.1) result) (entries tree.old) }
    ensures balanced { IsBalanced tree.new }
    ensures found { option_map (λ p. p.1) result
        ≡ lookup_if (is_at (K.cmp key.now)) (T.passed test.now key.now) (entries tree.old) }
    ensures spare { IfSome result (λ p. p.0.value ≡ Spare) }
    ensures counted { RaisedByAtMost (height tree.old) count.old count.new }
{
    if is_passing_tree(tree, key, count, test) {
        taken(mem::replace(tree, Tree::Leaf))
    } else {
        None
    }
}

// Removes the key from a tree whose top has a side, if its value passes the test.
fn remove_within<K: Ord, V, T: Test<K, V>>(
    top: &mut Node<K, V>,
    key: &K,
    count: &mut u64,
    test: &T,
) -> Option<(Box<Node<K, V>>, V)>
where
    K: Drop,
    V: Drop,
    requires level { IsLevelWithSide top.old }
    requires in_order { InOrder K.cmp (entries_in top.old) }
    ensures is { entries_in top.new
        ≡ removed_if (is_at (K.cmp key.now)) (option_map (λ p. p.1) result) (entries_in top.old) }
    ensures balanced { IsLevel top.new }
    ensures found { option_map (λ p. p.1) result
        ≡ lookup_if (is_at (K.cmp key.now)) (T.passed test.now key.now) (entries_in top.old) }
    ensures spare { IfSome result (λ p. p.0.value ≡ Spare) }
    ensures counted { RaisedByAtMost (height_in top.old) count.old count.new }
{
    let mut compared = 0;
    let mut found = Tree::Leaf;
    let _changed = remove_below(top, key, &mut compared, &mut found, test);
    *count = count.saturating_add(compared);
    taken(found)
}

// Removes the entry of a key if its value passes a test, and returns the value. Its box becomes spare.
// Otherwise the tree does not change.
#[tactic(auto, using(crate::proofs::Bound::height_small, crate::proofs::Bound::height_bound))]
pub(crate) fn remove_if<K: Ord, V, T: Test<K, V>>(
    tree: &mut Tree<K, V>,
    boxes: &mut Boxes<K, V>,
    count: &mut u64,
    key: &K,
    test: &T,
) -> Option<V>
where
    K: Drop,
    V: Drop,
    requires balanced { IsBalanced tree.old }
    requires in_order { InOrder K.cmp (entries tree.old) }
    requires fits { length (entries tree.old) + boxes.old < 2 ^ 64 }
    ensures value { result
        ≡ lookup_if (is_at (K.cmp key.now)) (T.passed test.now key.now) (entries tree.old) }
    ensures is { entries tree.new ≡ removed_if (is_at (K.cmp key.now)) result (entries tree.old) }
    ensures balanced { IsBalanced tree.new }
    ensures spare { boxes.new ≡ boxes.old + (if is_some result then 1 else 0) }
    ensures comparisons { CountsFew (entries tree.old) count.old count.new }
{
    let (node, value) = remove_box(tree, key, count, test)?;
    boxes.put(node);
    Some(value)
}

// Removes the key from a tree if it is there and its value passes the test. Returns the removed value
// with a spare box. Otherwise the tree does not change.
fn remove_box<K: Ord, V, T: Test<K, V>>(
    tree: &mut Tree<K, V>,
    key: &K,
    count: &mut u64,
    test: &T,
) -> Option<(Box<Node<K, V>>, V)>
where
    K: Drop,
    V: Drop,
    requires balanced { IsBalanced tree.old }
    requires in_order { InOrder K.cmp (entries tree.old) }
    requires fits { height tree.old < 200 }
    ensures is { entries tree.new
        ≡ removed_if (is_at (K.cmp key.now)) (option_map (λ p. p.1) result) (entries tree.old) }
    ensures balanced { IsBalanced tree.new }
    ensures found { option_map (λ p. p.1) result
        ≡ lookup_if (is_at (K.cmp key.now)) (T.passed test.now key.now) (entries tree.old) }
    ensures spare { IfSome result (λ p. p.0.value ≡ Spare) }
    ensures counted { RaisedByAtMost (height tree.old) count.old count.new }
{
    match tree {
        Tree::Leaf => None,
        Tree::Fork(top) => {
            if !top.is_high() {
                return remove_single(tree, key, count, test);
            }
            remove_within(top, key, count, test)
        }
    }
}

// A test that every entry passes.
pub(crate) struct Always;

impl<K, V> Test<K, V> for Always {
    ghost passed = { λ t k v. true };

    fn passes(&self, _key: &K, _value: &V) -> bool {
        true
    }
}
