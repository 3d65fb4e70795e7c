//! What the slots have: an item, or the next free slot.
ghost use Rattle.std.specs.Prelude.{◌≡◌, ◌<◌, [], ◌∷◌, ◌++◌, length, OnOk, OnErr, IsSome, Some, None, map, true, false, slice_get, slice_index_or, slice_set};
ghost use Rattle.cl_lists.specs.Entries.{contents, links_on, frees, used, item_of, SameLinks};
ghost use Rattle.cl_lists.specs.Links.{no_link};

use crate::slots::{Content, LinkedSlot, Side, Slot};
use cl_types::NoMemory;
use std::mem;

// Replaces the content of a slot, and returns the one that was there.
fn exchange<T>(slots: &mut [LinkedSlot<T>], slot: Slot, content: Content<T>) -> Content<T>
    requires { slot < length slots.old }
    ensures had { slice_get (contents slots.old) slot ≡ Some result }
    ensures contents { contents slots.new ≡ slice_set (contents slots.old) slot content }
    ensures links { SameLinks slots.old slots.new }
{
    mem::replace(&mut slots[slot.index].content, content)
}

// Puts an item into a free slot. Returns the next free slot, which the slot named.
pub(crate) fn fill<T>(slots: &mut [LinkedSlot<T>], slot: Slot, item: T) -> Option<Slot>
    requires { IsSome (slice_index_or (frees slots.old) slot None) }
    ensures next { slice_index_or (frees slots.old) slot None ≡ Some result }
    ensures contents { contents slots.new ≡ slice_set (contents slots.old) slot (Content.Item item) }
    ensures links { SameLinks slots.old slots.new }
{
    match exchange(slots, slot, Content::Item(item)) {
        Content::Free(next) => next,
        Content::Item(_) => unreachable!(),
    }
}

// Takes the item out of a slot, which is then free and names the next free slot.
pub(crate) fn vacate<T>(slots: &mut [LinkedSlot<T>], slot: Slot, next: Option<Slot>) -> T
    requires { slice_index_or (used slots.old) slot false ≡ true }
    ensures item { slice_index_or (map item_of (contents slots.old)) slot None ≡ Some result }
    ensures contents { contents slots.new ≡ slice_set (contents slots.old) slot (Content.Free next) }
    ensures links { SameLinks slots.old slots.new }
{
    match exchange(slots, slot, Content::Free(next)) {
        Content::Item(item) => item,
        Content::Free(_) => unreachable!(),
    }
}

// Appends a free slot, which names the next free slot.
pub(crate) fn add_free<T>(
    slots: &mut Vec<LinkedSlot<T>>,
    next: Option<Slot>,
) -> Result<(), NoMemory>
    ensures contents { OnOk result (contents slots.new.items ≡ contents slots.old.items ++ Content.Free next ∷ []) }
    ensures links { OnOk result ((side : Side) → links_on side slots.new.items ≡ links_on side slots.old.items ++ no_link ∷ []) }
    ensures err { OnErr result (slots.new.items ≡ slots.old.items) }
{
    slots.reserve(1)?;
    match slots.push(LinkedSlot::free(next)) {
        Ok(()) => Ok(()),
        Err(_) => unreachable!(),
    }
}
