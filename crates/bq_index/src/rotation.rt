// Rebalancing of a tree. Code that few calls need is in separate functions, so that the others have
// small stack frames.
ghost use Rattle.std.specs.Prelude.{◌≡◌, ◌+◌, ◌<◌, ◌≤◌, max, None, Some, IsFalse, IsSome};
ghost use Rattle.bq_index.specs.Tree.{entries_in, entry_in, far, height, height_in, height_of, held, left_in, near, right_in};
ghost use Rattle.bq_index.specs.Tree.{AreBalanced, IsBalancedFrom, IsLevel, IsNearlyLevel, DifferByAtMost, HasItsHeight, IsMended};
ghost use Rattle.bq_index.specs.Tree.{IsRebalanced, differ};

use super::tree::{Node, Side, Tree, fill, open, put};
use std::mem;

// Balances a box in place after the height of one side has changed by at most one level. `changed`
// says whether it has. Returns whether the height of the box has changed.
#[tactic(auto, using(crate::proofs::Parts::unmoved))]
#[inline(always)]
pub(crate) fn mend<K, V>(node: &mut Node<K, V>, changed: bool) -> bool
where
    K: Drop,
    V: Drop,
    requires nearly { IsNearlyLevel node.old }
    requires kept { IsFalse changed → HasItsHeight node.old }
    ensures { IsMended node.old node.new result }
{
    if changed { rebalance(node) } else { false }
}

// Balances a box in place whose sides differ by at most two levels. Returns whether its height has
// changed.
#[tactic(auto, using(crate::proofs::Parts::set_level))]
#[inline(never)]
fn rebalance<K, V>(node: &mut Node<K, V>) -> bool
where
    K: Drop,
    V: Drop,
    requires { IsNearlyLevel node.old }
    ensures { IsMended node.old node.new result }
{
    // A change below a box with one side does not come here.
    let Node::Both { .. } = node else {
        return turn_apart(node);
    };
    let (left, right) = (node.left_height(), node.right_height());
    if left > right + 1 {
        return turn_apart(node);
    }
    if right > left + 1 {
        return turn_left(node);
    }
    // Only the height changed: no entry moves.
    node.set_height(left.max(right) + 1)
}

// Rotates a box to the left, in place. Its right side is two levels higher than the left one. If
// the inner box below is higher than the outer one, two rotations are needed, and the boxes are
// taken apart for it. Returns whether the height of the box has changed.
#[inline(never)]
fn turn_left<K, V>(node: &mut Node<K, V>) -> bool
where
    K: Drop,
    V: Drop,
    requires nearly { IsNearlyLevel node.old }
    requires higher { height_of (right_in node.old) ≡ height_of (left_in node.old) + 2 }
    ensures { IsMended node.old node.new result }
{
    match node {
        Node::Both {
            height,
            key,
            left,
            right,
            value,
        } => match &mut **right {
            Node::Both {
                height: low_height,
                key: low_key,
                left: inner,
                right: outer,
                value: low_value,
            } => {
                let low = inner.height();
                if outer.height() < low {
                    return turn_apart(node);
                }
                mem::swap(key, low_key);
                mem::swap(value, low_value);
                mem::swap(inner, outer);
                mem::swap(left, inner);
                *low_height = low + 1;
                mem::swap(left, right);
                let changed = *height != low + 2;
                *height = low + 2;
                changed
            }
            _ => turn_apart(node),
        },
        Node::OnRight { .. } => lift_right(node),
        _ => turn_apart(node),
    }
}

// Rotates a box that lost the only box on a side, with which it was three levels high. Returns whether
// its height has changed.
#[tactic(auto, using(crate::proofs::Heights::falls_right, crate::proofs::Parts::between_sides))]
pub(crate) fn sink<K, V>(node: &mut Node<K, V>, side: Side) -> bool
where
    K: Drop,
    V: Drop,
    requires filled { IsSome (entry_in node.old) }
    requires none { near side node.old ≡ None }
    requires balanced { IsBalancedFrom (far side node.old) }
    requires high { height_of (far side node.old) ≡ 2 }
    ensures is { entries_in node.new ≡ entries_in node.old }
    ensures level { IsLevel node.new }
    ensures high { (height_in node.new ≤ 3) × (2 ≤ height_in node.new) }
    ensures changed { result ≡ differ 3 (height_in node.new) }
{
    match side {
        Side::Left => !lift_right(node),
        Side::Right => {
            let (left, entry, right) = node.take_parts();
            lean_left(node, left, entry, right);
            node.height() != 3
        }
    }
}

// Rotates a box to the left, in place. It has nothing on its left and two levels on its right.
// Returns whether its height has changed.
#[inline(never)]
fn lift_right<K, V>(node: &mut Node<K, V>) -> bool
where
    K: Drop,
    V: Drop,
    requires none { left_in node.old ≡ None }
    requires balanced { IsBalancedFrom (right_in node.old) }
    requires high { height_of (right_in node.old) ≡ 2 }
    ensures { IsMended node.old node.new result }
{
    let Node::OnRight {
        key,
        right: low,
        value,
    } = mem::replace(node, Node::Spare)
    else {
        unreachable!()
    };
    let mut low = low;
    match mem::replace(&mut *low, Node::Spare) {
        Node::OnRight {
            key: top,
            right: outer,
            value: top_value,
        } => {
            fill(&mut *low, Node::Alone { key, value });
            fill(
                node,
                Node::Both {
                    height: 2,
                    key: top,
                    left: low,
                    right: outer,
                    value: top_value,
                },
            );
            false
        }
        Node::OnLeft {
            key: low_key,
            left: mut inner,
            value: low_value,
        } => {
            let Node::Alone {
                key: top,
                value: top_value,
            } = mem::replace(&mut *inner, Node::Spare)
            else {
                unreachable!()
            };
            fill(&mut *inner, Node::Alone { key, value });
            fill(
                &mut *low,
                Node::Alone {
                    key: low_key,
                    value: low_value,
                },
            );
            fill(
                node,
                Node::Both {
                    height: 2,
                    key: top,
                    left: inner,
                    right: low,
                    value: top_value,
                },
            );
            false
        }
        Node::Both {
            key: top,
            left: inner,
            right: outer,
            value: top_value,
            ..
        } => {
            fill(
                &mut *low,
                Node::OnRight {
                    key,
                    right: inner,
                    value,
                },
            );
            fill(
                node,
                Node::Both {
                    height: 3,
                    key: top,
                    left: low,
                    right: outer,
                    value: top_value,
                },
            );
            true
        }
        Node::Alone { .. } | Node::Spare | Node::SpareBefore(_) => unreachable!(),
    }
}

// Balances a box by taking it apart. Returns whether its height has changed.
#[inline(never)]
fn turn_apart<K, V>(node: &mut Node<K, V>) -> bool
where
    K: Drop,
    V: Drop,
    requires { IsNearlyLevel node.old }
    ensures { IsMended node.old node.new result }
{
    let high = node.height();
    let (left, entry, right) = node.take_parts();
    balance(node, left, entry, right);
    node.height() != high
}

// Fills a box with an entry and two sides whose heights differ by at most two levels.
fn balance<K, V>(node: &mut Node<K, V>, left: Tree<K, V>, entry: (K, V), right: Tree<K, V>)
where
    K: Drop,
    V: Drop,
    requires balanced { AreBalanced left right }
    requires near { DifferByAtMost 2 (height left) (height right) }
    requires fits { max (height left) (height right) < 254 }
    ensures { IsRebalanced (held left) (Some entry) (held right) (Some node.new) }
{
    let (l, r) = (left.height(), right.height());
    if l > r + 1 {
        lean_left(node, left, entry, right);
    } else if r > l + 1 {
        lean_right(node, left, entry, right);
    } else {
        put(node, Node::over(left, entry, right));
    }
}

// Rotates to the right: the box of the left side, which is the higher one, becomes the right side
// and takes the entry.
#[inline(never)]
fn lean_left<K, V>(node: &mut Node<K, V>, left: Tree<K, V>, entry: (K, V), right: Tree<K, V>)
where
    K: Drop,
    V: Drop,
    requires balanced { AreBalanced left right }
    requires higher { height left ≡ height right + 2 }
    requires fits { height left < 254 }
    ensures { IsRebalanced (held left) (Some entry) (held right) (Some node.new) }
{
    let Some((outer, mut low, top, inner)) = open(left) else {
        unreachable!()
    };
    if outer.height() >= inner.height() {
        put(&mut *low, Node::over(inner, entry, right));
        put(node, Node::over(outer, top, Tree::Fork(low)));
        return;
    }
    let Some((near, mut other, middle, far)) = open(inner) else {
        unreachable!()
    };
    put(&mut *low, Node::over(outer, top, near));
    put(&mut *other, Node::over(far, entry, right));
    put(node, Node::over(Tree::Fork(low), middle, Tree::Fork(other)));
}

#[inline(never)]
fn lean_right<K, V>(node: &mut Node<K, V>, left: Tree<K, V>, entry: (K, V), right: Tree<K, V>)
where
    K: Drop,
    V: Drop,
    requires balanced { AreBalanced left right }
    requires higher { height right ≡ height left + 2 }
    requires fits { height right < 254 }
    ensures { IsRebalanced (held left) (Some entry) (held right) (Some node.new) }
{
    let Some((inner, mut low, top, outer)) = open(right) else {
        unreachable!()
    };
    if outer.height() >= inner.height() {
        put(&mut *low, Node::over(left, entry, inner));
        put(node, Node::over(Tree::Fork(low), top, outer));
        return;
    }
    let Some((far, mut other, middle, near)) = open(inner) else {
        unreachable!()
    };
    put(&mut *other, Node::over(left, entry, far));
    put(&mut *low, Node::over(near, top, outer));
    put(node, Node::over(Tree::Fork(other), middle, Tree::Fork(low)));
}
