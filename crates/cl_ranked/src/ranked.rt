//! A ranked store.
#![tactic(auto, using(crate::proofs::SlotLemmas::slot_rules), unfolding(crate::specs::Trees::slots_in, crate::specs::Trees::is_counted, crate::specs::Slots::kept_from))]

ghost use Rattle.std.specs.Prelude.{◌≡◌, ◌+◌, ◌<◌, ◌≤◌, ◌++◌, ◌∷◌, [], None, length, slice_get, slice_set, OnOk, OnErr};
ghost use Rattle.std.specs.Option.{option_copied};
ghost use Rattle.cl_ranked.specs.Slots.{kept, slot_at, found};

use crate::tree::Tree;
use cl_types::NoMemory;
use std::alloc::Global;
use std::marker::Model;

/// The most slots that a store can have.
pub const SLOTS_MAX: u64 = u64::MAX;

/// Numbered slots, each with an item or empty. They are added at the end alone.
///
/// Contracts see the slots by index, from 0: of each item that was ever added, the item, or nothing once it was taken.
///
/// The items stand in a tree without the empty slots in front of the first item. A path in it has at most twice as many
/// forks as the number of its slots has binary digits, so each call takes logarithmic time. Memory goes with the items:
/// an item has an allocation of its own, and one for each fork that leads to it.
#[derive(Debug, Drop)]
pub struct Ranked<T> {
    alloc: Global,
    // How many slots at the front are empty and in no tree.
    base: u64,
    tree: Tree<T>,
}

impl<T> Model for Ranked<T> {
    ghost use Rattle.std.specs.Prelude.{◌+◌, ◌≤◌, ◌++◌, List, Option, None, length, replicate};
    ghost use Rattle.cl_ranked.specs.declared.ranked.TheConstants.{SLOTS_MAX};
    ghost use Rattle.cl_ranked.specs.Trees.{slots_in, IsCounted};

    ghost Value = { List (Option T) };

    ghost view = { λ ranked. replicate ranked.base None ++ slots_in ranked.tree };

    ghost invariant = { λ ranked. IsCounted ranked.tree × (ranked.base + length (slots_in ranked.tree) ≤ SLOTS_MAX) };
}

impl<T> Ranked<T> {
    /// A store with no slots. It allocates nothing.
    pub fn new(alloc: Global) -> Self
        ensures { result ≡ [] }
    {
        Ranked {
            alloc,
            base: 0,
            tree: Tree::Empty(0),
        }
    }

    /// Adds a slot at the end, with an item or empty. After an error the item is dropped, and the slots are as before.
    pub fn add(&mut self, item: Option<T>) -> Result<(), NoMemory>
    where
        T: Drop,
        requires { length self.old < SLOTS_MAX }
        ensures ok { OnOk result (self.new ≡ self.old ++ item ∷ []) }
        ensures err { OnErr result (self.new ≡ self.old) }
    {
        let slot = match item {
            Some(item) => Some(Box::new(self.alloc, item)?),
            None => None,
        };
        self.tree.append(self.alloc, Tree::of(slot))?;
        self.base += self.tree.trim();
        Ok(())
    }

    /// The item in the slot of an index. It is `None` where the slot is empty, and past the last slot.
    pub fn get(&self, index: u64) -> Option<&T>
        ensures { option_copied result ≡ slot_at self.now index }
    {
        self.tree.get(index.checked_sub(self.base)?)
    }

    /// Takes the item out of the slot of an index, which is empty from then on. It cannot fail, and allocates nothing.
    pub fn take(&mut self, index: u64) -> Option<T>
    where
        T: Drop,
        ensures result { result ≡ slot_at self.old index }
        ensures slots { self.new ≡ slice_set self.old index None }
    {
        let taken = self.tree.take(index.checked_sub(self.base)?);
        self.base += self.tree.trim();
        taken.map(Box::into_inner)
    }

    /// The number of items that are there.
    pub fn count(&self) -> u64
        ensures { result ≡ length (kept self.now) }
    {
        self.tree.count()
    }

    /// The number of slots.
    pub fn added(&self) -> u64
        ensures { result ≡ length self.now }
    {
        self.base + self.tree.width()
    }

    /// Of the items that are there, by index, the one of a rank from 0, with its index. Past the last it is `None`.
    pub fn nth(&self, rank: u64) -> Option<(u64, &T)>
        ensures { found result ≡ slice_get (kept self.now) rank }
    {
        self.tree.nth(rank, self.base)
    }
}
