//! Small stores, whose order is worked out from the hashes of their keys.
use cl_samples::{NoSample, is_value, key, optional_value, table};
use cl_store::{Item, ItemList, Store};
use cl_types::{Key, NoMemory, TableName, hash};
use std::alloc::Global;
use std::process::Abort;
use std::test::Fail;

// A record as a test tells it: table, key, state number and the bytes of its value, none where it is dead.
#[derive(Clone, Copy)]
struct Told<'a>(&'a [u8], &'a [u8], u64, Option<&'a [u8]>);

fn is_item(item: &Item, told: Told<'_>) -> bool {
    let Told(table, key, number, bytes) = told;
    item.table.bytes() == table
        && item.key.bytes() == key
        && item.number == number
        && is_value(item.value.as_ref(), bytes)
}

fn are_items(items: &[Item], wanted: &[Told<'_>]) -> bool {
    if items.len() != wanted.len() {
        return false;
    }
    for (item, told) in items.iter().zip(wanted) {
        if !is_item(item, *told) {
            return false;
        }
    }
    true
}

// A store with these writes, in this order, with room made for each.
fn store_of(rt: &impl Abort, alloc: Global, writes: &[Told<'_>]) -> Result<Store, NoSample> {
    let mut store = Store::new(alloc);
    for Told(t, k, number, bytes) in writes {
        let (table, key) = (table(*t)?, key(*k)?);
        let value = optional_value(alloc, *bytes)?;
        store.reserve(1)?;
        assert!(rt; store.get(&table, &key).0 < *number, "write {number}");
        store.write(&table, &key, value, *number);
    }
    Ok(store)
}

// The records after that place, or the first ones, at most so many.
fn scan_after(
    store: &Store,
    table: &TableName,
    after: Option<&Key>,
    max: usize,
) -> Result<ItemList, NoMemory> {
    match after {
        Some(key) => store.scan(Some((table, key)), max),
        None => store.scan(None, max),
    }
}

// Whether the state number and the value at that place are these.
fn stands(store: &Store, told: Told<'_>) -> Result<bool, NoSample> {
    let Told(name, bytes, number, value) = told;
    let (found, stored) = store.get(&table(name)?, &key(bytes)?);
    Ok(found == number && is_value(stored, value))
}

// In the order of their hashes, 0xE30C2799 and 0xE70C2DE5. That of `a`, 0xE40C292C, is between them.
const RECORDS: [Told<'static>; 2] = [Told(b"t", b"f", 5, None), Told(b"t", b"b", 8, Some(b"7"))];

#[test]
fn a_scan_goes_by_the_hashes_of_keys(rt: HostRuntime) -> Result<(), Fail> {
    let [first, second] = RECORDS;
    let store = store_of(&rt, rt.alloc(), &[second, first])?;
    let (t, f, a, b) = (table(b"t")?, key(b"f")?, key(b"a")?, key(b"b")?);
    // The key after which the scan begins, how many it may give, and which of the records it gives.
    let rows = [
        ("all", None, 4, 0, 2),
        ("the first", None, 1, 0, 1),
        ("none of them", None, 0, 0, 0),
        ("after f", Some(&f), 4, 1, 2),
        ("after a, which has no record", Some(&a), 4, 1, 2),
        ("after b", Some(&b), 4, 2, 2),
    ];
    for (name, after, max, from, to) in rows {
        let list = scan_after(&store, &t, after, max)?;
        assert!(rt; are_items(list.as_slice(), &RECORDS[from..to]), "{name}");
    }
    Ok(())
}

#[test]
fn the_keys_have_these_hashes(rt: HostRuntime) -> Result<(), Fail> {
    let rows = [
        ("f", b"f", 0xE30C2799),
        ("a", b"a", 0xE40C292C),
        ("b", b"b", 0xE70C2DE5),
    ];
    for (name, bytes, wanted) in rows {
        assert!(rt; hash(&key(bytes)?) == wanted, "{name}");
    }
    Ok(())
}

#[test]
fn one_key_in_two_tables_goes_by_table(rt: HostRuntime) -> Result<(), Fail> {
    let (of_s, of_t) = (
        Told(b"s", b"b", 2, Some(b"1")),
        Told(b"t", b"b", 1, Some(b"2")),
    );
    let store = store_of(&rt, rt.alloc(), &[of_t, of_s])?;
    let list = store.scan(None, 4)?;
    assert!(rt; are_items(list.as_slice(), &[of_s, of_t]));
    Ok(())
}

// Whether the store has the one record, by look-up and by scan, and counts so many live ones.
fn has_only(store: &Store, told: Told<'_>, live: u64) -> Result<bool, NoSample> {
    let list = store.scan(None, 4)?;
    Ok(stands(store, told)? && are_items(list.as_slice(), &[told]) && store.live_count() == live)
}

#[test]
fn a_place_has_what_was_written_last(rt: HostRuntime) -> Result<(), Fail> {
    let (seven, nine) = (
        Told(b"t", b"b", 8, Some(b"7")),
        Told(b"t", b"b", 10, Some(b"9")),
    );
    let (dead, again) = (Told(b"t", b"b", 11, None), Told(b"t", b"b", 12, Some(b"1")));
    let writes = [seven, nine, dead, again];
    // How many of the writes were made, and how many places then have a value.
    for (count, live) in [(1, 1), (2, 1), (3, 0), (4, 1)] {
        let store = store_of(&rt, rt.alloc(), &writes[..count])?;
        assert!(rt;
            has_only(&store, writes[count - 1], live)?,
            "after {count} writes"
        );
    }
    Ok(())
}

#[test]
fn the_live_ones_are_counted(rt: HostRuntime) -> Result<(), Fail> {
    let writes = [
        Told(b"t", b"f", 5, None),
        Told(b"t", b"b", 8, Some(b"7")),
        Told(b"t", b"f", 9, Some(b"1")),
        Told(b"t", b"b", 10, None),
    ];
    for (count, live) in [(0, 0), (1, 0), (2, 1), (3, 2), (4, 1)] {
        let store = store_of(&rt, rt.alloc(), &writes[..count])?;
        assert!(rt; store.live_count() == live, "after {count} writes");
    }
    Ok(())
}

#[test]
fn nothing_stands_where_nothing_was_written(rt: HostRuntime) -> Result<(), Fail> {
    let store = store_of(&rt, rt.alloc(), &RECORDS)?;
    let rows = [
        ("a key between two", b"t", b"a"),
        ("another table", b"s", b"b"),
    ];
    for (name, table, key) in rows {
        assert!(rt; stands(&store, Told(table, key, 0, None))?, "{name}");
    }
    Ok(())
}

// A store with two dead records, for which room was made at once.
fn store_of_two(rt: &impl Abort, alloc: Global) -> Result<Store, NoSample> {
    let (t, f, b) = (table(b"t")?, key(b"f")?, key(b"b")?);
    let mut store = Store::new(alloc);
    store.reserve(2)?;
    assert!(rt; store.get(&t, &f).0 == 0);
    store.write(&t, &f, None, 5);
    assert!(rt; store.get(&t, &b).0 == 0);
    store.write(&t, &b, None, 8);
    Ok(store)
}

#[test]
fn room_for_two_is_made_at_once(rt: HostRuntime) -> Result<(), Fail> {
    let store = store_of_two(&rt, rt.alloc())?;
    let list = store.scan(None, 4)?;
    let wanted = [Told(b"t", b"f", 5, None), Told(b"t", b"b", 8, None)];
    assert!(rt; are_items(list.as_slice(), &wanted));
    Ok(())
}

#[test]
fn a_failed_allocation_leaves_the_store(rt: HostRuntime) -> Result<(), Fail> {
    let mut store = store_of(&rt, rt.alloc(), &RECORDS)?;
    assert!(rt; store.reserve(usize::MAX).is_err());
    let list = store.scan(None, 4)?;
    assert!(rt; are_items(list.as_slice(), &RECORDS));
    Ok(())
}

fn moves<T: Send + Drop>(_value: T) {}

#[test]
fn a_store_moves_between_threads(rt: HostRuntime) {
    moves(Store::new(rt.alloc()));
}
