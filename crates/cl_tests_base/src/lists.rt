//! Tests of `cl_lists`.
ghost use Rattle.std.specs.Prelude.{IfOk};
ghost use Rattle.cl_lists.specs.Arena.{IsInUse};

use cl_lists::{Arena, Side, Slot};
use cl_types::NoMemory;
use std::alloc::Global;
use std::test::Fail;

// The items of a list, from its first to its last, and the number of the list.
type Row<'a> = (Side, u32, &'a [u32]);

// Whether the list has these items in this order.
fn has_items(arena: &Arena<u32>, row: &Row<'_>) -> bool {
    let (side, list, items) = *row;
    let mut next = arena.first(side, list);
    for item in items {
        match next {
            Some(slot) if arena.get(slot) == item => next = arena.next(side, slot),
            _ => return false,
        }
    }
    next.is_none()
}

// Whether the list has these items where it is walked from its last to its first.
fn has_items_reversed(arena: &Arena<u32>, row: &Row<'_>) -> bool {
    let (side, list, items) = *row;
    let mut prev = arena.last(side, list);
    for item in items.iter().rev() {
        match prev {
            Some(slot) if arena.get(slot) == item => prev = arena.prev(side, slot),
            _ => return false,
        }
    }
    prev.is_none()
}

// An arena of three items, and the slot of the item 20. On side Y it is on a list of its own.
fn three_items(alloc: Global) -> Result<(Arena<u32>, Slot), NoMemory>
    ensures { IfOk result (λ made. IsInUse made.0 made.1) }
{
    let mut arena = Arena::new(alloc);
    arena.add_lists(Side::X, 1)?;
    arena.add_lists(Side::Y, 2)?;
    arena.reserve(3)?;
    arena.push_back(0, 0, 10);
    let slot = arena.push_back(0, 1, 20);
    arena.push_back(0, 0, 30);
    Ok((arena, slot))
}

#[test]
fn an_item_comes_last_on_both_its_lists(rt: HostRuntime) -> Result<(), Fail> {
    let (arena, _) = three_items(rt.alloc())?;
    let rows = [
        (Side::X, 0, [10, 20, 30].as_slice()),
        (Side::X, 1, &[]),
        (Side::Y, 0, &[10, 30]),
        (Side::Y, 1, &[20]),
    ];
    for row in rows {
        assert!(rt;
            has_items(&arena, &row) && has_items_reversed(&arena, &row),
            "{row:?}"
        );
    }
    Ok(())
}

#[test]
fn an_item_leaves_both_its_lists(rt: HostRuntime) -> Result<(), Fail> {
    let (mut arena, slot) = three_items(rt.alloc())?;
    let item = arena.unlink(slot);
    assert_eq!(rt; (item, arena.room(), arena.lists(Side::Y)), (20, 1, 2));
    let rows = [
        (Side::X, 0, [10, 30].as_slice()),
        (Side::Y, 0, &[10, 30]),
        (Side::Y, 1, &[]),
    ];
    for row in rows {
        assert!(rt;
            has_items(&arena, &row) && has_items_reversed(&arena, &row),
            "{row:?}"
        );
    }
    Ok(())
}

// Whether an item that owns memory comes back, and another stays.
fn items_own_memory(alloc: Global) -> Result<bool, Fail> {
    let mut arena = Arena::new(alloc);
    arena.add_lists(Side::X, 1)?;
    arena.add_lists(Side::Y, 1)?;
    arena.reserve(2)?;
    let kept = arena.push_back(0, 0, String::from_str(alloc, "kept")?);
    let gone = arena.push_back(0, 0, String::from_str(alloc, "gone")?);
    Ok(arena.unlink(gone).as_str() == "gone" && arena.get(kept).as_str() == "kept")
}

#[test]
fn items_that_own_memory_come_back(rt: HostRuntime) -> Result<(), Fail> {
    assert!(rt; items_own_memory(rt.alloc())?);
    Ok(())
}

#[test]
fn an_allocation_that_fails_leaves_the_arena(rt: HostRuntime) -> Result<(), Fail> {
    let (mut arena, _) = three_items(rt.alloc())?;
    let is_refused = arena.reserve(usize::MAX).is_err();
    let row = (Side::X, 0, [10, 20, 30].as_slice());
    assert!(rt; is_refused && has_items(&arena, &row));
    Ok(())
}

fn moves<T: Send + Drop>(_value: T) {}

#[test]
fn an_arena_moves_between_threads(rt: HostRuntime) {
    moves(Arena::<u64>::new(rt.alloc()));
}
