//! A tree of slots, in which empty slots take no memory.
#![tactic(auto, using(crate::proofs::SlotLemmas::slot_rules), unfolding(crate::specs::Trees::slots_in, crate::specs::Trees::is_counted, crate::specs::Slots::kept_from))]

ghost use Rattle.std.specs.Prelude.{◌≡◌, ◌+◌, ◌^◌, ◌<◌, ◌≤◌, ◌++◌, ◌∷◌, [], None, length, replicate, slice_get, slice_set, OnOk, OnErr};
ghost use Rattle.std.specs.Option.{option_copied, option_map};
ghost use Rattle.cl_ranked.specs.Slots.{kept, kept_from, slot_at, found};
ghost use Rattle.cl_ranked.specs.Trees.{slots_in, IsCounted, IsLeaf};

use cl_types::NoMemory;
use std::alloc::Global;
use std::mem;

// Slots in a row.
#[cycle(tree)]
#[derive(Debug, Drop)]
pub(crate) enum Tree<T> {
    // As many empty slots.
    Empty(u64),
    // One slot, with its item.
    Leaf(Box<T>),
    Fork(Box<Node<T>>),
}

// The slots of one tree, and then those of another.
#[cycle(tree)]
#[derive(Debug, Drop)]
pub(crate) struct Node<T> {
    left: Tree<T>,
    // How many slots both have.
    width: u64,
    // How many items are in them.
    count: u64,
    right: Tree<T>,
}

impl<T> Tree<T> {
    // A tree of one slot, with or without an item.
    pub(crate) fn of(item: Option<Box<T>>) -> Tree<T>
        ensures slots { slots_in result ≡ option_map (λ kept. kept.value) item ∷ [] }
        ensures counted { IsCounted result }
    {
        match item {
            None => Tree::Empty(1),
            Some(item) => Tree::Leaf(item),
        }
    }

    // The number of slots.
    pub(crate) fn width(&self) -> u64
        requires { IsCounted self.now }
        ensures { result ≡ length (slots_in self.now) }
    {
        match self {
            Tree::Empty(width) => *width,
            Tree::Leaf(_) => 1,
            Tree::Fork(node) => node.width,
        }
    }

    // The number of items.
    pub(crate) fn count(&self) -> u64
        requires { IsCounted self.now }
        ensures { result ≡ length (kept (slots_in self.now)) }
    {
        match self {
            Tree::Empty(_) => 0,
            Tree::Leaf(_) => 1,
            Tree::Fork(node) => node.count,
        }
    }

    // The item in the slot of an index.
    pub(crate) fn get(&self, index: u64) -> Option<&T>
        requires { IsCounted self.now }
        ensures { option_copied result ≡ slot_at (slots_in self.now) index }
    {
        match self {
            Tree::Empty(_) => None,
            Tree::Leaf(item) => (index == 0).then_some(item),
            Tree::Fork(node) => {
                let middle = node.left.width();
                if index < middle {
                    node.left.get(index)
                } else {
                    node.right.get(index - middle)
                }
            }
        }
    }

    // The item of a rank, with its index, where the first slot has index `first`.
    pub(crate) fn nth(&self, rank: u64, first: u64) -> Option<(u64, &T)>
        requires counted { IsCounted self.now }
        requires fits { first + length (slots_in self.now) < 2 ^ 64 }
        ensures { found result ≡ slice_get (kept_from first (slots_in self.now)) rank }
    {
        match self {
            Tree::Empty(_) => None,
            Tree::Leaf(item) => (rank == 0).then_some((first, item)),
            Tree::Fork(node) => {
                let before = node.left.count();
                if rank < before {
                    node.left.nth(rank, first)
                } else {
                    node.right.nth(rank - before, first + node.left.width())
                }
            }
        }
    }

    // Becomes a fork of itself and another tree. After an error it is as it was.
    fn join(&mut self, alloc: Global, other: Tree<T>) -> Result<(), NoMemory>
    where
        T: Drop,
        requires counted { IsCounted self.old }
        requires other { IsCounted other }
        requires fits { length (slots_in self.old) + length (slots_in other) < 2 ^ 64 }
        ensures ok { OnOk result (slots_in self.new ≡ slots_in self.old ++ slots_in other) }
        ensures err { OnErr result (slots_in self.new ≡ slots_in self.old) }
        ensures counted { IsCounted self.new }
    {
        let width = self.width() + other.width();
        let count = self.count() + other.count();
        if count == 0 {
            *self = Tree::Empty(width);
            return Ok(());
        }
        let mut node = Box::new(
            alloc,
            Node {
                left: Tree::Empty(0),
                width,
                count,
                right: other,
            },
        )?;
        node.left = mem::replace(self, Tree::Empty(0));
        *self = Tree::Fork(node);
        Ok(())
    }

    // Puts the one slot of another tree behind its own. It goes into the right part until that is as wide as the left one,
    // so that no path gets long. After an error the tree is as it was.
    pub(crate) fn append(&mut self, alloc: Global, other: Tree<T>) -> Result<(), NoMemory>
    where
        T: Drop,
        requires counted { IsCounted self.old }
        requires other { IsCounted other }
        requires fits { length (slots_in self.old) + length (slots_in other) < 2 ^ 64 }
        ensures ok { OnOk result (slots_in self.new ≡ slots_in self.old ++ slots_in other) }
        ensures err { OnErr result (slots_in self.new ≡ slots_in self.old) }
        ensures counted { IsCounted self.new }
    {
        match self {
            Tree::Fork(node) if node.right.width() < node.left.width() => {
                let (width, count) = (other.width(), other.count());
                node.right.append(alloc, other)?;
                node.width += width;
                node.count += count;
                Ok(())
            }
            _ => self.join(alloc, other),
        }
    }

    // Takes the item out of the slot of an index, in its box: so the way back from a deep slot moves no item.
    pub(crate) fn take(&mut self, index: u64) -> Option<Box<T>>
    where
        T: Drop,
        requires { IsCounted self.old }
        ensures result { option_map (λ taken. taken.value) result ≡ slot_at (slots_in self.old) index }
        ensures slots { slots_in self.new ≡ slice_set (slots_in self.old) index None }
        ensures counted { IsCounted self.new }
    {
        match self {
            Tree::Empty(_) => None,
            Tree::Leaf(_) => self.take_leaf(index),
            Tree::Fork(node) => {
                let middle = node.left.width();
                let taken = if index < middle {
                    node.left.take(index)?
                } else {
                    node.right.take(index - middle)?
                };
                node.count -= 1;
                self.prune();
                Some(taken)
            }
        }
    }

    // Takes the item out of the slot of an index, where the tree is one slot with an item.
    fn take_leaf(&mut self, index: u64) -> Option<Box<T>>
    where
        T: Drop,
        requires { IsLeaf self.old }
        ensures result { option_map (λ taken. taken.value) result ≡ slot_at (slots_in self.old) index }
        ensures slots { slots_in self.new ≡ slice_set (slots_in self.old) index None }
        ensures counted { IsCounted self.new }
    {
        if index > 0 {
            return None;
        }
        let Tree::Leaf(item) = mem::replace(self, Tree::Empty(1)) else {
            unreachable!()
        };
        Some(item)
    }

    // Lets go of the memory of a tree with no items.
    fn prune(&mut self)
    where
        T: Drop,
        requires { IsCounted self.old }
        ensures slots { slots_in self.new ≡ slots_in self.old }
        ensures counted { IsCounted self.new }
    {
        if self.count() == 0 {
            *self = Tree::Empty(self.width());
        }
    }

    // Takes left parts without an item off the front, and returns how many slots they had. So the tree stays as high as
    // what is kept needs, and not what was ever added.
    pub(crate) fn trim(&mut self) -> u64
    where
        T: Drop,
        requires counted { IsCounted self.old }
        requires fits { length (slots_in self.old) < 2 ^ 64 }
        ensures slots { slots_in self.old ≡ replicate result None ++ slots_in self.new }
        ensures counted { IsCounted self.new }
    {
        match self {
            Tree::Empty(width) => mem::replace(width, 0),
            Tree::Leaf(_) => 0,
            Tree::Fork(node) => {
                if node.left.count() > 0 {
                    return 0;
                }
                let front = node.left.width() + node.right.trim();
                let rest = mem::replace(&mut node.right, Tree::Empty(0));
                *self = rest;
                front
            }
        }
    }
}
