// A balanced tree of boxes, which contracts see by its entries in order and its height.
ghost use Rattle.std.specs.Prelude.{◌∷◌, ◌++◌, ◌≡◌, ◌+◌, ◌<◌, ◌≤◌, max, [], IsSome, IfSome, IfNone, IfOk, Some, true, false};
ghost use Rattle.bq_index.specs.Tree.{entries, entries_in, entries_of, entry_in, height, height_in};
ghost use Rattle.bq_index.specs.Tree.{height_of, held, joined, left_in, lent, near, right_in, with_height, differ};
ghost use Rattle.bq_index.specs.Tree.{AreBalanced, IsBalanced, IsBalancedFrom, IsKeyOf, IsLevel, HasParts, DifferByAtMost};
ghost use Rattle.bq_index.specs.declared.tree.Node.TheVariants.{Spare};
ghost use Rattle.bq_index.specs.declared.tree.Tree.TheVariants.{Leaf};

use std::mem;

// A tree, or a chain of spare boxes.
#[derive(Drop)]
pub(crate) enum Tree<K, V> {
    Leaf,
    Fork(Box<Node<K, V>>),
}

// The content of a box. One byte says which variant it is, the height is in the next byte, and the
// other fields follow in the order given here. So a box takes 24 bytes besides its key and its
// value. A search reads a key and a side, which are next to each other before the value, which may
// be large. Only a box with two sides stores its height: in a balanced tree, a box with one side
// has a single box there.
#[derive(Drop)]
pub(crate) enum Node<K, V> {
    // Spare boxes: the last one of a chain, and one with another after it.
    Spare,
    SpareBefore(Box<Node<K, V>>),
    // Entries: with nothing below, with one side, and with two.
    Alone {
        key: K,
        value: V,
    },
    OnLeft {
        key: K,
        left: Box<Node<K, V>>,
        value: V,
    },
    OnRight {
        key: K,
        right: Box<Node<K, V>>,
        value: V,
    },
    Both {
        height: u8,
        key: K,
        left: Box<Node<K, V>>,
        right: Box<Node<K, V>>,
        value: V,
    },
}

// A side of a box. What is done alike on both sides takes it as an argument.
#[derive(Clone, Copy)]
pub(crate) enum Side {
    Left,
    Right,
}

impl<K, V> Node<K, V> {
    pub(crate) fn height(&self) -> u8
        ensures { result ≡ height_in self.now }
    {
        match self {
            Node::Both { height, .. } => *height,
            Node::OnLeft { .. } | Node::OnRight { .. } => 2,
            Node::Alone { .. } => 1,
            Node::Spare | Node::SpareBefore(_) => 0,
        }
    }

    pub(crate) fn left_height(&self) -> u8
        ensures { result ≡ height_of (left_in self.now) }
    {
        match self {
            Node::OnLeft { left, .. } => left.height(),
            Node::Both { left, .. } => left.height(),
            _ => 0,
        }
    }

    pub(crate) fn right_height(&self) -> u8
        ensures { result ≡ height_of (right_in self.now) }
    {
        match self {
            Node::OnRight { right, .. } => right.height(),
            Node::Both { right, .. } => right.height(),
            _ => 0,
        }
    }

    // Returns whether a box has something below it.
    #[tactic(auto, using(crate::proofs::Parts::high_with_both))]
    pub(crate) fn is_high(&self) -> bool
        requires { IsLevel self.now }
        ensures high { result ≡ true → 1 < height_in self.now }
        ensures low { result ≡ false → height_in self.now ≤ 1 }
    {
        match self {
            Node::Alone { .. } => false,
            Node::OnLeft { .. } | Node::OnRight { .. } => true,
            Node::Both { .. } => true,
            Node::Spare | Node::SpareBefore(_) => false,
        }
    }

    // Stores a new height in a box with two sides, and returns whether it differs from the old one.
    // Other boxes store none, and do not change.
    #[inline(always)]
    pub(crate) fn set_height(&mut self, high: u8) -> bool
        ensures is { self.new ≡ with_height high self.old }
        ensures changed { result ≡ differ (height_in self.old) (height_in self.new) }
    {
        match self {
            Node::Both { height, .. } => {
                let changed = *height != high;
                *height = high;
                changed
            }
            _ => false,
        }
    }

    pub(crate) fn key(&self) -> &K
        requires { IsSome (entry_in self.now) }
        ensures { IsKeyOf (entry_in self.now) result.now }
    {
        match self {
            Node::Alone { key, .. } => key,
            Node::OnLeft { key, .. } => key,
            Node::OnRight { key, .. } => key,
            Node::Both { key, .. } => key,
            Node::Spare | Node::SpareBefore(_) => unreachable!(),
        }
    }

    // Returns the entry.
    pub(crate) fn entry(&self) -> (&K, &V)
        requires { IsSome (entry_in self.now) }
        ensures { Some (result.0.now, result.1.now) ≡ entry_in self.now }
    {
        match self {
            Node::Alone { key, value } => (key, value),
            Node::OnLeft { key, value, .. } => (key, value),
            Node::OnRight { key, value, .. } => (key, value),
            Node::Both { key, value, .. } => (key, value),
            Node::Spare | Node::SpareBefore(_) => unreachable!(),
        }
    }

    // Returns the box of the left side. A search asks for the one side that it goes to, because to
    // take a box apart (`parts`) costs more at each level.
    pub(crate) fn left(&self) -> Option<&Node<K, V>>
        ensures { lent result ≡ left_in self.now }
    {
        match self {
            Node::OnLeft { left, .. } => Some(left),
            Node::Both { left, .. } => Some(left),
            _ => None,
        }
    }

    // Returns the box of the right side.
    pub(crate) fn right(&self) -> Option<&Node<K, V>>
        ensures { lent result ≡ right_in self.now }
    {
        match self {
            Node::OnRight { right, .. } => Some(right),
            Node::Both { right, .. } => Some(right),
            _ => None,
        }
    }

    // Returns the box of a side.
    pub(crate) fn side(&self, side: Side) -> Option<&Node<K, V>>
        ensures { lent result ≡ near side self.now }
    {
        match side {
            Side::Left => self.left(),
            Side::Right => self.right(),
        }
    }

    // Returns a box with an entry, with a box on a side of it and nothing on the other one.
    #[inline(always)]
    pub(crate) fn on(side: Side, key: K, node: Box<Node<K, V>>, value: V) -> Self
        ensures high { height_in result ≡ 2 }
        ensures level { IsLevel node.value → height_in node.value ≡ 1 → IsLevel result }
        ensures is { entries_in result ≡ joined side (entries_in node.value) ((key, value) ∷ []) [] }
    {
        match side {
            Side::Left => Node::OnLeft {
                key,
                left: node,
                value,
            },
            Side::Right => Node::OnRight {
                key,
                right: node,
                value,
            },
        }
    }

    // Returns a box with an entry, with a single box on each side.
    #[inline(always)]
    pub(crate) fn fork(left: Box<Node<K, V>>, key: K, right: Box<Node<K, V>>, value: V) -> Self
        ensures high { height_in result ≡ 2 }
        ensures level { IsLevel left.value → height_in left.value ≡ 1 → IsLevel right.value → height_in right.value ≡ 1
            → IsLevel result }
        ensures is { entries_in result ≡ entries_in left.value ++ ((key, value) ∷ entries_in right.value) }
    {
        Node::Both {
            height: 2,
            key,
            left,
            right,
            value,
        }
    }

    // Returns a box of two trees with an entry between them, whose height is `high`.
    pub(crate) fn of(high: u8, left: Tree<K, V>, entry: (K, V), right: Tree<K, V>) -> Self
        requires balanced { AreBalanced left right }
        requires near { DifferByAtMost 1 (height left) (height right) }
        requires known { high ≡ max (height left) (height right) + 1 }
        ensures parts { HasParts (Some result) (held left) (Some entry) (held right) }
        ensures balanced { IsLevel result }
    {
        let (key, value) = entry;
        match (left, right) {
            (Tree::Leaf, Tree::Leaf) => Node::Alone { key, value },
            (Tree::Fork(left), Tree::Leaf) => Node::OnLeft { key, left, value },
            (Tree::Leaf, Tree::Fork(right)) => Node::OnRight { key, right, value },
            (Tree::Fork(left), Tree::Fork(right)) => Node::Both {
                height: high,
                key,
                left,
                right,
                value,
            },
        }
    }

    // The same, with the height computed from the heights of both sides.
    pub(crate) fn over(left: Tree<K, V>, entry: (K, V), right: Tree<K, V>) -> Self
        requires balanced { AreBalanced left right }
        requires near { DifferByAtMost 1 (height left) (height right) }
        requires fits { max (height left) (height right) < 255 }
        ensures parts { HasParts (Some result) (held left) (Some entry) (held right) }
        ensures balanced { IsLevel result }
    {
        let high = left.height().max(right.height()) + 1;
        Node::of(high, left, entry, right)
    }

    // Returns the sides and the entry of a filled box.
    fn into_parts(self) -> (Tree<K, V>, (K, V), Tree<K, V>)
        requires { IsSome (entry_in self) }
        ensures left { held result.0 ≡ left_in self }
        ensures entry { Some result.1 ≡ entry_in self }
        ensures right { held result.2 ≡ right_in self }
    {
        match self {
            Node::Alone { key, value } => (Tree::Leaf, (key, value), Tree::Leaf),
            Node::OnLeft { key, left, value } => (Tree::Fork(left), (key, value), Tree::Leaf),
            Node::OnRight { key, right, value } => (Tree::Leaf, (key, value), Tree::Fork(right)),
            Node::Both {
                key,
                left,
                right,
                value,
                ..
            } => (Tree::Fork(left), (key, value), Tree::Fork(right)),
            Node::Spare | Node::SpareBefore(_) => unreachable!(),
        }
    }

    // The same, without taking the box itself, which stays allocated.
    pub(crate) fn take_parts(&mut self) -> (Tree<K, V>, (K, V), Tree<K, V>)
        requires { IsSome (entry_in self.old) }
        ensures left { held result.0 ≡ left_in self.old }
        ensures entry { Some result.1 ≡ entry_in self.old }
        ensures right { held result.2 ≡ right_in self.old }
        ensures spare { self.new ≡ Spare }
    {
        mem::replace(self, Node::Spare).into_parts()
    }
}

impl<K, V> Tree<K, V> {
    pub(crate) fn height(&self) -> u8
        ensures { result ≡ height self.now }
    {
        match self {
            Tree::Leaf => 0,
            Tree::Fork(node) => node.height(),
        }
    }

    // Returns the box at the top.
    pub(crate) fn top(&self) -> Option<&Node<K, V>>
        ensures { lent result ≡ held self.now }
    {
        match self {
            Tree::Leaf => None,
            Tree::Fork(node) => Some(node),
        }
    }
}

// Takes the top of a tree apart: returns the two sides, the box, which is spare now, and the entry.
pub(crate) fn open<K, V>(
    tree: Tree<K, V>,
) -> Option<(Tree<K, V>, Box<Node<K, V>>, (K, V), Tree<K, V>)>
    requires { IsBalanced tree }
    ensures parts { IfSome result (λ p. HasParts (held tree) (held p.0) (Some p.2) (held p.3)) }
    ensures empty { IfNone result (entries tree ≡ []) }
    ensures low { IfNone result (height tree ≡ 0) }
{
    match tree {
        Tree::Leaf => None,
        Tree::Fork(mut node) => {
            let (left, entry, right) = node.take_parts();
            Some((left, node, entry, right))
        }
    }
}

// Returns the two sides of a tree and the entry between them.
pub(crate) fn parts<K, V>(
    top: Option<&Node<K, V>>,
) -> Option<(Option<&Node<K, V>>, &K, &V, Option<&Node<K, V>>)>
    requires { IsBalancedFrom (lent top) }
    ensures parts { IfSome result
        (λ p. HasParts (lent top.entry) (lent p.0) (Some (p.1.now, p.2.now)) (lent p.3)) }
    ensures empty { IfNone result (entries_of (lent top.entry) ≡ []) }
{
    match top? {
        Node::Alone { key, value } => Some((None, key, value, None)),
        Node::OnLeft { key, left, value } => Some((Some(left), key, value, None)),
        Node::OnRight { key, right, value } => Some((None, key, value, Some(right))),
        Node::Both {
            key,
            left,
            right,
            value,
            ..
        } => Some((Some(left), key, value, Some(right))),
        Node::Spare | Node::SpareBefore(_) => unreachable!(),
    }
}

// Stores a value in a place. An assignment would do the same, but a proof about it has to consider
// every value that the place may have held.
#[inline(always)]
pub(crate) fn put<T: Drop>(place: &mut T, value: T)
    ensures { place.new ≡ value }
{
    *place = value;
}

// Stores a tree in a place that has none, so there is nothing to drop.
#[inline(always)]
pub(crate) fn keep<K, V>(place: &mut Tree<K, V>, tree: Tree<K, V>)
where
    K: Drop,
    V: Drop,
    requires none { place.old ≡ Leaf }
    ensures { place.new ≡ tree }
{
    mem::forget(mem::replace(place, tree));
}

// Fills a spare box. A spare box has nothing to drop, so what it held is forgotten.
#[inline(always)]
pub(crate) fn fill<K, V>(place: &mut Node<K, V>, node: Node<K, V>)
where
    K: Drop,
    V: Drop,
    requires spare { place.old ≡ Spare }
    ensures { place.new ≡ node }
{
    mem::forget(mem::replace(place, node));
}
