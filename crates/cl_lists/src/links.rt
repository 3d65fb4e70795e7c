//! The lists of one side: the links between slots, and the ends of each list.
ghost use Rattle.std.specs.Prelude.{◌≡◌, ◌+◌, ◌^◌, ◌<◌, ◌++◌, true, false, length, replicate, slice_index_or, slice_set, vec_len, IsOk, OnOk, OnErr};
ghost use Rattle.cl_lists.specs.Entries.{links_on, lists_on_side, used, AreLinked, DifferOn};
ghost use Rattle.cl_lists.specs.Lists.{appended, removed};
ghost use Rattle.cl_lists.specs.Links.{IsInside, IsLinked, no_ends, link_at, ends_at, links_with, ends_with};

use crate::slots::Direction::{Backward, Forward};
use crate::slots::{Direction, Ends, Link, LinkedSlot, Side, Slot};
use cl_types::NoMemory;

// The links of a slot on one side.
pub(crate) fn link<T>(slots: &[LinkedSlot<T>], side: Side, slot: Slot) -> Link
    requires { slot < length slots.now }
    ensures { result ≡ link_at (links_on side slots.now) slot }
{
    slots[slot.index].link(side)
}

// Writes the links of a slot on one side.
fn set_link<T>(slots: &mut [LinkedSlot<T>], side: Side, slot: Slot, link: &Link)
    requires { slot < length slots.old }
    ensures links { links_on side slots.new ≡ slice_set (links_on side slots.old) slot link.now }
    ensures rest { DifferOn side slots.old slots.new }
{
    slots[slot.index].set_link(side, link);
}

// Writes the neighbour of a position of a list. `None` is the position before the first slot and
// after the last.
fn set_neighbour<T>(
    slots: &mut [LinkedSlot<T>],
    ends: &mut [Ends],
    side: Side,
    list: u32,
    direction: Direction,
    position: Option<Slot>,
    neighbour: Option<Slot>,
)
    requires { IsInside (links_on side slots.old) ends.old list position }
    ensures links { links_on side slots.new ≡ links_with direction (links_on side slots.old) position neighbour }
    ensures ends { ends.new ≡ ends_with direction ends.old list position neighbour }
    ensures rest { DifferOn side slots.old slots.new }
{
    match (position, direction) {
        (Some(slot), Forward) => {
            let mut link = link(slots, side, slot);
            link.next = neighbour;
            set_link(slots, side, slot, &link);
        }
        (Some(slot), Backward) => {
            let mut link = link(slots, side, slot);
            link.prev = neighbour;
            set_link(slots, side, slot, &link);
        }
        (None, Forward) => ends[list as usize].first = neighbour,
        (None, Backward) => ends[list as usize].last = neighbour,
    }
}

// Appends a slot that is on no list to one of the side's lists.
pub(crate) fn append<T>(
    slots: &mut [LinkedSlot<T>],
    ends: &mut [Ends],
    side: Side,
    list: u32,
    slot: Slot,
)
    requires linked { AreLinked side slots.old ends.old }
    requires list_exists { list < length ends.old }
    requires slot_exists { slot < length slots.old }
    requires is_free { slice_index_or (used slots.old) slot false ≡ false }
    ensures linked { IsLinked (links_on side slots.new) ends.new (slice_set (used slots.old) slot true) (appended (lists_on_side side slots.old ends.old) list slot) }
    ensures rest { DifferOn side slots.old slots.new }
{
    let link = Link {
        prev: ends[list as usize].last,
        next: None,
        list,
    };
    set_link(slots, side, slot, &link);
    set_neighbour(slots, ends, side, list, Forward, link.prev, Some(slot));
    set_neighbour(slots, ends, side, list, Backward, link.next, Some(slot));
}

// Removes a slot that is in use from its list of the side.
pub(crate) fn remove<T>(slots: &mut [LinkedSlot<T>], ends: &mut [Ends], side: Side, slot: Slot)
    requires linked { AreLinked side slots.old ends.old }
    requires in_use { slice_index_or (used slots.old) slot false ≡ true }
    ensures linked { IsLinked (links_on side slots.new) ends.new (slice_set (used slots.old) slot false) (removed (lists_on_side side slots.old ends.old) slot) }
    ensures rest { DifferOn side slots.old slots.new }
{
    let old = link(slots, side, slot);
    set_neighbour(slots, ends, side, old.list, Forward, old.prev, old.next);
    set_neighbour(slots, ends, side, old.list, Backward, old.next, old.prev);
}

// The ends of a list, or those of an empty list if there is no such list.
pub(crate) fn ends(all: &[Ends], list: u32) -> Ends
    ensures { result ≡ ends_at all.now list }
{
    all.get(list as usize).copied().unwrap_or(Ends::NONE)
}

// Adds the ends of empty lists.
pub(crate) fn add_lists(ends: &mut Vec<Ends>, count: u32) -> Result<(), NoMemory>
    requires { vec_len ends.old + count < 2 ^ 32 }
    ensures ok { OnOk result (ends.new.items ≡ ends.old.items ++ replicate count no_ends) }
    ensures err { OnErr result (ends.new.items ≡ ends.old.items) }
    ensures none { count ≡ 0 → IsOk result }
{
    if count == 0 {
        return Ok(());
    }
    ends.resize(ends.len() + count as usize, Ends::NONE)?;
    Ok(())
}
