// A change of the value of an entry in place.
ghost use Rattle.std.specs.Prelude.{◌≡◌, None, Some};
ghost use Rattle.std.specs.Map.{lookup};
ghost use Rattle.std.specs.BTreeMap.{is_at};
ghost use Rattle.bq_index.specs.Edited.{MayReturn, edited_at, edited_by, edited_here, edited_in, value_in, value_of};
ghost use Rattle.bq_index.specs.Order.{InOrder};
ghost use Rattle.bq_index.specs.Tree.{entries, height, height_in, IsBalanced, IsLevel, RaisedByAtMost};

use super::find::compare_to;
use super::tree::{Node, Tree};
use std::cmp::Ordering;
use std::mem;

/// A change of a value, which also returns something.
pub trait Edit<V, T> {
    /// The value after the change.
    ghost edited: { Self → V → V };

    /// What the change returns.
    ghost told: { Self → V → T };

    /// Changes a value.
    fn edit(&self, value: &mut V) -> T
        ensures value { value.new ≡ edited self.now value.old }
        ensures told { result ≡ told self.now value.old };
}

/// A change of a value that may fail. What it returns determines the value after it.
pub trait TryEdit<V, T> {
    /// The value after the change, given what the change returned.
    ghost edited: { Self → T → V → V };

    /// What the change may return.
    ghost MayTell: { Self → V → T → Type 0 };

    /// Changes a value, or leaves it unchanged.
    fn try_edit(&self, value: &mut V) -> T
        ensures value { value.new ≡ edited self.now result value.old }
        ensures told { MayTell self.now value.old result };
}

/// A change that never fails.
#[derive(Drop)]
pub(crate) struct Sure<'e, E> {
    pub(crate) edit: &'e E,
}

impl<'e, V, T, E: Edit<V, T>> TryEdit<V, T> for Sure<'e, E> {
    ghost edited = { λ s _ v. E.edited s.edit.now v };

    ghost MayTell = { λ s v t. t ≡ E.told s.edit.now v };

    fn try_edit(&self, value: &mut V) -> T {
        self.edit.edit(value)
    }
}

// Changes the value at a key in a tree.
#[tactic(auto, using(crate::proofs::Edited::edited_level, crate::proofs::Edited::value_looked_up))]
pub(crate) fn edit_tree<K: Ord, V, T: Drop, E: TryEdit<V, T>>(
    tree: &mut Tree<K, V>,
    key: &K,
    count: &mut u64,
    edit: &E,
) -> Option<T>
    requires balanced { IsBalanced tree.old }
    requires in_order { InOrder K.cmp (entries tree.old) }
    ensures is { entries tree.new
        ≡ edited_at (is_at (K.cmp key.now)) (edited_by (E.edited edit.now) result) (entries tree.old) }
    ensures balanced { IsBalanced tree.new }
    ensures told { MayReturn (E.MayTell edit.now) (lookup (is_at (K.cmp key.now)) (entries tree.old)) result }
    ensures counted { RaisedByAtMost (height tree.old) count.old count.new }
{
    match tree {
        Tree::Leaf => None,
        Tree::Fork(top) => {
            let mut told = None;
            edit_below(top, key, count, edit, &mut told);
            told
        }
    }
}

// Changes the value at a key in a box or below it. A call that lends the value to its caller cannot
// be recursive (see `value_mut`), so it costs more at each level. What the change returns goes to
// `told`. So the recursive call is the last thing that happens, and this compiles to a loop.
fn edit_below<K: Ord, V, T: Drop, E: TryEdit<V, T>>(
    node: &mut Node<K, V>,
    key: &K,
    count: &mut u64,
    edit: &E,
    told: &mut Option<T>,
)
    requires level { IsLevel node.old }
    requires none { told.old ≡ None }
    ensures is { node.new ≡ edited_in (K.cmp key.now) (edited_by (E.edited edit.now) told.new) node.old }
    ensures told { MayReturn (E.MayTell edit.now) (value_in (K.cmp key.now) node.old) told.new }
    ensures counted { RaisedByAtMost (height_in node.old) count.old count.new }
{
    match compare_to(key, node, count) {
        Ordering::Less => match node {
            Node::Both { left, .. } => edit_below(left, key, count, edit, told),
            Node::OnLeft { left, .. } => edit_below(left, key, count, edit, told),
            _ => {}
        },
        Ordering::Greater => match node {
            Node::Both { right, .. } => edit_below(right, key, count, edit, told),
            Node::OnRight { right, .. } => edit_below(right, key, count, edit, told),
            _ => {}
        },
        Ordering::Equal => edit_here(node, edit, told),
    }
}

// Changes the value in a box.
fn edit_here<K, V, T: Drop, E: TryEdit<V, T>>(node: &mut Node<K, V>, edit: &E, told: &mut Option<T>)
    requires { told.old ≡ None }
    ensures is { node.new ≡ edited_here (edited_by (E.edited edit.now) told.new) node.old }
    ensures told { MayReturn (E.MayTell edit.now) (value_of node.old) told.new }
{
    match node {
        Node::Alone { value, .. } => edit_value(value, edit, told),
        Node::OnLeft { value, .. } => edit_value(value, edit, told),
        Node::OnRight { value, .. } => edit_value(value, edit, told),
        Node::Both { value, .. } => edit_value(value, edit, told),
        Node::Spare | Node::SpareBefore(_) => {}
    }
}

// Changes a value. Not inlined, because what the change returns may be large, and each level of the
// descent would reserve and initialize room for it.
#[inline(never)]
fn edit_value<V, T: Drop, E: TryEdit<V, T>>(value: &mut V, edit: &E, told: &mut Option<T>)
    requires { told.old ≡ None }
    ensures is { value.new ≡ edited_by (E.edited edit.now) told.new value.old }
    ensures told { MayReturn (E.MayTell edit.now) (Some value.old) told.new }
{
    // There was nothing in `told`, so there is nothing to drop.
    mem::forget(mem::replace(told, Some(edit.try_edit(value))));
}
