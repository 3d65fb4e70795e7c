//! The arena: items, each on one list of each side.
ghost use Rattle.std.specs.Prelude.{◌≡◌, ◌<◌, ◌^◌, length, true};
ghost use Rattle.cl_lists.specs.declared.slots.Side.TheVariants.{X, Y};
ghost use Rattle.cl_lists.specs.Entries.{AreLinked, frees, free_count as free_among};
ghost use Rattle.cl_lists.specs.FreeList.{is_free_list};

use crate::slots::{Content, Ends, LinkedSlot, Side, Slot};
use crate::{both_sides, contents, links};
use cl_types::NoMemory;
use std::alloc::Global;

/// Keeps items, each on one list of side X and on one list of side Y.
///
/// Contracts see the item at each slot, and how many more items there is room for. They see the lists of each side
/// by their numbers, each as its slots from first to last.
#[derive(Debug, Drop)]
pub struct Arena<T> {
    slots: Vec<LinkedSlot<T>>,
    x_ends: Vec<Ends>,
    y_ends: Vec<Ends>,
    first_free: Option<Slot>,
    free_count: usize,
    ghost x_linked: { ∥ AreLinked X slots.items x_ends.items ∥₁ },
    ghost y_linked: { ∥ AreLinked Y slots.items y_ends.items ∥₁ },
    ghost x_few: { length x_ends.items < 2 ^ 32 },
    ghost y_few: { length y_ends.items < 2 ^ 32 },
    ghost free_linked: { is_free_list (frees slots.items) free_count first_free ≡ true },
    ghost free_counted: { free_count ≡ free_among slots.items },
}

impl<T> Arena<T> {
    ghost use Rattle.std.specs.Prelude.{◌≡◌, ◌+◌, ◌≤◌, ◌<◌, ◌^◌, ◌++◌, max, [], ℕ, Some, None, IsOk, OnOk, OnErr, IfSome, replicate};
    ghost use Rattle.cl_lists.specs.SlotList.{IsOn, first_of, last_of, after_in, before_in};
    ghost use Rattle.cl_lists.specs.Sides.{opposite};
    ghost use Rattle.cl_lists.specs.Arena.{lists_on, list_of, list_count, item_at, IsInUse, free_slots, IsPlaced, Pushes, Unlinks, IsUnchanged};

    /// An arena with no item and no list. It allocates nothing.
    pub fn new(alloc: Global) -> Self
        ensures x { lists_on result Side.X ≡ [] }
        ensures y { lists_on result Side.Y ≡ [] }
        ensures items { (slot : ℕ) → item_at result slot ≡ None }
        ensures room { free_slots result ≡ 0 }
    {
        Arena {
            slots: Vec::new(alloc),
            x_ends: Vec::new(alloc),
            y_ends: Vec::new(alloc),
            first_free: None,
            free_count: 0,
        }
    }

    /// How many more items there is room for.
    pub fn room(&self) -> usize
        ensures { result ≡ free_slots self.now }
    {
        self.free_count
    }

    /// How many lists a side has.
    pub fn lists(&self, side: Side) -> u32
        ensures count { result ≡ list_count self.now side }
        ensures placed { IsPlaced self.now side }
    {
        match side {
            Side::X => self.x_ends.len() as u32,
            Side::Y => self.y_ends.len() as u32,
        }
    }

    /// Adds empty lists to a side. Their numbers follow those of the lists that are there.
    pub fn add_lists(&mut self, side: Side, count: u32) -> Result<(), NoMemory>
        requires { list_count self.old side + count < 2 ^ 32 }
        ensures ok { OnOk result (lists_on self.new side ≡ lists_on self.old side ++ replicate count []) }
        ensures err { OnErr result (lists_on self.new side ≡ lists_on self.old side) }
        ensures none { count ≡ 0 → IsOk result }
        ensures other { lists_on self.new (opposite side) ≡ lists_on self.old (opposite side) }
        ensures items { (slot : ℕ) → item_at self.new slot ≡ item_at self.old slot }
        ensures room { free_slots self.new ≡ free_slots self.old }
    {
        match side {
            Side::X => links::add_lists(&mut self.x_ends, count),
            Side::Y => links::add_lists(&mut self.y_ends, count),
        }
    }

    /// Makes room for `count` more items, and no more. The items and the lists stay as they are, also after an error.
    ///
    /// It takes one step for each slot that it adds.
    pub fn reserve(&mut self, count: usize) -> Result<(), NoMemory>
        ensures same { IsUnchanged self.old self.new }
        ensures ok { OnOk result (count ≤ free_slots self.new) }
        ensures roomy { count ≤ free_slots self.old → IsOk result }
        ensures keeps_room { free_slots self.old ≤ free_slots self.new }
        ensures most { free_slots self.new ≤ max count (free_slots self.old) }
    {
        self.slots.reserve(count.saturating_sub(self.free_count))?;
        while self.free_count < count {
            self.add_slot()?;
        }
        Ok(())
    }

    // Adds a free slot.
    fn add_slot(&mut self) -> Result<(), NoMemory>
        ensures same { IsUnchanged self.old self.new }
        ensures ok { OnOk result (free_slots self.new ≡ free_slots self.old + 1) }
        ensures err { OnErr result (free_slots self.new ≡ free_slots self.old) }
    {
        let index = self.slots.len();
        contents::add_free(&mut self.slots, self.first_free)?;
        self.first_free = Some(Slot { index });
        self.free_count += 1;
        Ok(())
    }

    /// Appends an item to list `x` of side X and to list `y` of side Y. It allocates nothing and takes constant time.
    pub fn push_back(&mut self, x: u32, y: u32, item: T) -> Slot
        requires room { 1 ≤ free_slots self.old }
        requires x_exists { x < list_count self.old Side.X }
        requires y_exists { y < list_count self.old Side.Y }
        ensures pushes { Pushes self.old self.new x y result item }
        ensures as_many { (side : Side) → list_count self.new side ≡ list_count self.old side }
        ensures room { free_slots self.new + 1 ≡ free_slots self.old }
    {
        let Some(slot) = self.first_free else {
            unreachable!()
        };
        self.first_free = both_sides::insert(
            &mut self.slots,
            &mut self.x_ends,
            &mut self.y_ends,
            x,
            y,
            slot,
            item,
        );
        self.free_count -= 1;
        slot
    }

    /// Removes an item from both its lists. The order of the others stays. It allocates nothing and takes constant time.
    pub fn unlink(&mut self, slot: Slot) -> T
        requires { IsInUse self.old slot }
        ensures unlinks { Unlinks self.old self.new slot result }
        ensures as_many { (side : Side) → list_count self.new side ≡ list_count self.old side }
        ensures room { free_slots self.new ≡ free_slots self.old + 1 }
    {
        let item = both_sides::extract(
            &mut self.slots,
            &mut self.x_ends,
            &mut self.y_ends,
            slot,
            self.first_free,
        );
        self.first_free = Some(slot);
        self.free_count += 1;
        item
    }

    /// The item at a slot.
    pub fn get(&self, slot: Slot) -> &T
        requires { IsInUse self.now slot }
        ensures { item_at self.now slot ≡ Some result.now }
    {
        match &self.slots[slot.index].content {
            Content::Item(item) => item,
            Content::Free(_) => unreachable!(),
        }
    }

    /// The next slot on the slot's list of the side, or `None` at the end of the list.
    pub fn next(&self, side: Side, slot: Slot) -> Option<Slot>
        requires { IsInUse self.now slot }
        ensures value { (list : ℕ) → IsOn (list_of self.now side list) slot → result ≡ after_in (list_of self.now side list) slot }
        ensures in_use { IfSome result (λ other. IsInUse self.now other) }
    {
        links::link(&self.slots, side, slot).next
    }

    /// The previous slot on the slot's list of the side, or `None` at the start of the list.
    pub fn prev(&self, side: Side, slot: Slot) -> Option<Slot>
        requires { IsInUse self.now slot }
        ensures value { (list : ℕ) → IsOn (list_of self.now side list) slot → result ≡ before_in (list_of self.now side list) slot }
        ensures in_use { IfSome result (λ other. IsInUse self.now other) }
    {
        links::link(&self.slots, side, slot).prev
    }

    /// The first slot of a list, or `None` if the list is empty or there is no such list.
    pub fn first(&self, side: Side, list: u32) -> Option<Slot>
        ensures value { result ≡ first_of (list_of self.now side list) }
        ensures in_use { IfSome result (λ slot. IsInUse self.now slot) }
    {
        self.ends(side, list).first
    }

    /// The last slot of a list, or `None` if the list is empty or there is no such list.
    pub fn last(&self, side: Side, list: u32) -> Option<Slot>
        ensures value { result ≡ last_of (list_of self.now side list) }
        ensures in_use { IfSome result (λ slot. IsInUse self.now slot) }
    {
        self.ends(side, list).last
    }

    // The two ends of a list.
    fn ends(&self, side: Side, list: u32) -> Ends
        ensures first { result.first ≡ first_of (list_of self.now side list) }
        ensures last { result.last ≡ last_of (list_of self.now side list) }
    {
        match side {
            Side::X => links::ends(&self.x_ends, list),
            Side::Y => links::ends(&self.y_ends, list),
        }
    }
}
