// The spare boxes of one tree, or of several.
ghost use Rattle.std.specs.Prelude.{◌≡◌, ◌+◌, ◌-◌, ◌<◌, ◌≤◌, ◌^◌, max, IfOk, OnErr, OnOk};
ghost use Rattle.bq_index.specs.Tree.{chain_length, length_behind};
ghost use Rattle.bq_index.specs.declared.tree.Node.TheVariants.{Alone, Spare};

use super::NoMemory;
use super::tree::{Node, Tree, fill, keep};
use std::alloc::Global;
use std::marker::Model;
use std::mem;

/// A source of boxes, one at a time: the heap, or in a test a source that fails for some requests.
pub trait BoxSource {
    /// Returns a box with this value, or `NoMemory` if none can be allocated.
    fn box_of<T: Drop>(&mut self, value: T) -> Result<Box<T>, NoMemory>
        ensures { IfOk result (λ b. b.value ≡ value) };
}

/// The heap. Each box is one allocation.
impl BoxSource for Global {
    fn box_of<T: Drop>(&mut self, value: T) -> Result<Box<T>, NoMemory> {
        match Box::new(*self, value) {
            Ok(filled) => Ok(filled),
            Err(_) => Err(NoMemory),
        }
    }
}

// Spare boxes, which contracts see by their number.
pub(crate) struct Boxes<K, V> {
    chain: Tree<K, V>,
    count: usize,
}

impl<K, V> Model for Boxes<K, V> {
    ghost use Rattle.std.specs.Prelude.{◌≡◌, ℕ};
    ghost use Rattle.bq_index.specs.Tree.{chain_length};

    ghost Value = { ℕ };

    ghost view = { λ b. b.count };

    ghost invariant = { λ b. b.count ≡ chain_length b.chain };
}

impl<K: Drop, V: Drop> Drop for Boxes<K, V> {
    fn drop(self) {
        let Boxes { chain, count: _ } = self;
        drop_chain(chain);
    }
}

impl<K: Drop, V: Drop> Boxes<K, V> {
    // Returns no boxes.
    pub(crate) fn new() -> Self
        ensures { result ≡ 0 }
    {
        Boxes {
            chain: Tree::Leaf,
            count: 0,
        }
    }

    // Returns the number of the boxes.
    pub(crate) fn count(&self) -> usize
        ensures { result ≡ self.now }
    {
        self.count
    }

    // Gets boxes from a source until there are `n`. Beside `entries` boxes in use, their number stays
    // within `usize`. Each box is linked into the chain before the next one is requested.
    pub(crate) fn reserve_from<S: BoxSource>(
        &mut self,
        source: &mut S,
        n: usize,
        entries: usize,
    ) -> Result<(), NoMemory>
        requires { entries + self.old < 2 ^ 64 }
        ensures ok { OnOk result (n ≤ self.new) }
        ensures refused { OnErr result (self.new < n) }
        ensures not_fewer { self.old ≤ self.new }
        ensures no_more { self.new ≤ max n self.old }
        ensures fits { entries + self.new < 2 ^ 64 }
    {
        while self.count() < n {
            if entries >= usize::MAX - self.count() {
                return Err(NoMemory);
            }
            self.add(source)?;
        }
        Ok(())
    }

    // Gets one more box from a source.
    fn add<S: BoxSource>(&mut self, source: &mut S) -> Result<(), NoMemory>
        requires { self.old + 1 < 2 ^ 64 }
        ensures ok { OnOk result (self.new ≡ self.old + 1) }
        ensures err { OnErr result (self.new ≡ self.old) }
    {
        let node = source.box_of(Node::Spare)?;
        self.put(node);
        Ok(())
    }

    // Takes back a box.
    pub(crate) fn put(&mut self, node: Box<Node<K, V>>)
        requires spare { node.value ≡ Spare }
        requires fits { self.old + 1 < 2 ^ 64 }
        ensures { self.new ≡ self.old + 1 }
    {
        let chain = mem::replace(&mut self.chain, Tree::Leaf);
        keep(&mut self.chain, link(node, chain));
        self.count += 1;
    }

    // Gives out a box.
    fn take(&mut self) -> Box<Node<K, V>>
        requires { 0 < self.old }
        ensures spare { result.value ≡ Spare }
        ensures count { self.new + 1 ≡ self.old }
    {
        let (node, chain) = unlink(mem::replace(&mut self.chain, Tree::Leaf));
        keep(&mut self.chain, chain);
        self.count -= 1;
        node
    }

    // Gives out a box that has an entry now, and nothing below it.
    pub(crate) fn take_with(&mut self, key: K, value: V) -> Box<Node<K, V>>
        requires { 0 < self.old }
        ensures alone { result.value ≡ Alone key value }
        ensures count { self.new + 1 ≡ self.old }
    {
        let mut node = self.take();
        fill(&mut *node, Node::Alone { key, value });
        node
    }

    // Returns one box to the allocator, if there is one.
    pub(crate) fn give_back(&mut self)
        ensures { self.new ≡ self.old - 1 }
    {
        if self.count > 0 {
            drop(self.take());
        }
    }
}

// Puts a spare box in front of a chain.
fn link<K, V>(mut node: Box<Node<K, V>>, chain: Tree<K, V>) -> Tree<K, V>
where
    K: Drop,
    V: Drop,
    requires { node.value ≡ Spare }
    ensures { chain_length result ≡ chain_length chain + 1 }
{
    let spare = match chain {
        Tree::Leaf => Node::Spare,
        Tree::Fork(next) => Node::SpareBefore(next),
    };
    fill(&mut *node, spare);
    Tree::Fork(node)
}

// Returns the first box of a chain, and the rest of the chain.
fn unlink<K, V>(chain: Tree<K, V>) -> (Box<Node<K, V>>, Tree<K, V>)
where
    K: Drop,
    V: Drop,
    requires { 0 < chain_length chain }
    ensures rest { chain_length chain ≡ chain_length result.1 + 1 }
    ensures spare { result.0.value ≡ Spare }
{
    match chain {
        Tree::Leaf => unreachable!(),
        Tree::Fork(mut node) => {
            let rest = behind(mem::replace(&mut *node, Node::Spare));
            (node, rest)
        }
    }
}

// Returns the chain after a box.
fn behind<K, V>(node: Node<K, V>) -> Tree<K, V>
where
    K: Drop,
    V: Drop,
    ensures { chain_length result ≡ length_behind node }
{
    match node {
        Node::SpareBefore(next) => Tree::Fork(next),
        last => {
            mem::forget(last);
            Tree::Leaf
        }
    }
}

// Frees a chain. It uses a loop since a chain may be long.
fn drop_chain<K, V>(chain: Tree<K, V>)
where
    K: Drop,
    V: Drop,
{
    let mut chain = chain;
    while let Tree::Fork(mut node) = chain {
        chain = behind(mem::replace(&mut *node, Node::Spare));
    }
}
