//! Items are inserted and removed on both sides at once.
ghost use Rattle.std.specs.Prelude.{◌≡◌, ◌<◌, IsSome, Some, None, length, true, false, slice_index_or, slice_set};
ghost use Rattle.cl_lists.specs.Entries.{contents, frees, items, used, lists_on_side, AreLinked};
ghost use Rattle.cl_lists.specs.Lists.{appended, removed};

use crate::slots::{Content, Ends, LinkedSlot, Side, Slot};
use crate::{contents, links};

// Puts an item into a free slot, and appends the slot to a list of each side. Returns the next free slot, which the
// slot named.
pub(crate) fn insert<T>(
    slots: &mut [LinkedSlot<T>],
    x_ends: &mut [Ends],
    y_ends: &mut [Ends],
    x: u32,
    y: u32,
    slot: Slot,
    item: T,
) -> Option<Slot>
    requires x_linked { AreLinked Side.X slots.old x_ends.old }
    requires y_linked { AreLinked Side.Y slots.old y_ends.old }
    requires x_exists { x < length x_ends.old }
    requires y_exists { y < length y_ends.old }
    requires is_free { IsSome (slice_index_or (frees slots.old) slot None) }
    ensures next { slice_index_or (frees slots.old) slot None ≡ Some result }
    ensures contents { contents slots.new ≡ slice_set (contents slots.old) slot (Content.Item item) }
    ensures x_linked { AreLinked Side.X slots.new x_ends.new }
    ensures y_linked { AreLinked Side.Y slots.new y_ends.new }
    ensures x { lists_on_side Side.X slots.new x_ends.new ≡ appended (lists_on_side Side.X slots.old x_ends.old) x slot }
    ensures y { lists_on_side Side.Y slots.new y_ends.new ≡ appended (lists_on_side Side.Y slots.old y_ends.old) y slot }
{
    links::append(slots, x_ends, Side::X, x, slot);
    links::append(slots, y_ends, Side::Y, y, slot);
    contents::fill(slots, slot, item)
}

// Takes the item out of a slot, and removes the slot from its lists. The slot is then free and names the next free slot.
pub(crate) fn extract<T>(
    slots: &mut [LinkedSlot<T>],
    x_ends: &mut [Ends],
    y_ends: &mut [Ends],
    slot: Slot,
    next: Option<Slot>,
) -> T
    requires x_linked { AreLinked Side.X slots.old x_ends.old }
    requires y_linked { AreLinked Side.Y slots.old y_ends.old }
    requires in_use { slice_index_or (used slots.old) slot false ≡ true }
    ensures item { slice_index_or (items slots.old) slot None ≡ Some result }
    ensures contents { contents slots.new ≡ slice_set (contents slots.old) slot (Content.Free next) }
    ensures x_linked { AreLinked Side.X slots.new x_ends.new }
    ensures y_linked { AreLinked Side.Y slots.new y_ends.new }
    ensures x { lists_on_side Side.X slots.new x_ends.new ≡ removed (lists_on_side Side.X slots.old x_ends.old) slot }
    ensures y { lists_on_side Side.Y slots.new y_ends.new ≡ removed (lists_on_side Side.Y slots.old y_ends.old) slot }
{
    links::remove(slots, x_ends, Side::X, slot);
    links::remove(slots, y_ends, Side::Y, slot);
    contents::vacate(slots, slot, next)
}
