//! Records with an index of them in scan order.
ghost use Rattle.std.specs.Prelude.{◌≡◌, [], vec_len, IsOk, IfOk};
ghost use Rattle.std.specs.List.{All};
ghost use Rattle.std.proofs.Props.{props};
ghost use Rattle.cl_types.specs.GrowingList.{items};
ghost use Rattle.cl_store.specs.Index.{indexed, IsEntryOf};
ghost use Rattle.cl_store.specs.Items.{IsInScanOrder, IsWritten};

use crate::index_entry::IndexEntry;
use crate::{Item, ItemList};
use cl_types::{Key, NoMemory, TableName, Value, hash};
use std::alloc::Global;

// Records, with an index that has an entry for each of them, in scan order.
//
// A record stays in the slot in which it was first written, and none is removed. So a new record moves
// entries, which are small, and no record.
#[derive(Debug, Drop)]
pub(crate) struct IndexedItems {
    index: Vec<IndexEntry>,
    items: Vec<Item>,
    ghost entries: { All (IsEntryOf items.items) index.items } by { Prim.hlevel props },
    ghost as_many: { vec_len index ≡ vec_len items },
    ghost written: { IsWritten items.items } by { Prim.hlevel props },
    ghost in_order: { IsInScanOrder (indexed items.items index.items) } by { Prim.hlevel props },
}

#[tactic(auto, unfolding(crate::specs::IndexedItems::in_scan_order, crate::specs::IndexedItems::spare))]
impl IndexedItems {
    ghost use Rattle.std.specs.Prelude.{ℕ, ◌≡◌, ◌+◌, ◌^◌, ◌<◌, ◌≤◌, [], length, take, drop, slice_set, IsOk, OnOk, IfOk, IfErr};
    ghost use Rattle.std.specs.List.{insert};
    ghost use Rattle.cl_types.specs.GrowingList.{items};
    ghost use Rattle.cl_store.specs.Index.{item_at};
    ghost use Rattle.cl_store.specs.IndexedItems.{in_scan_order, spare};
    ghost use Rattle.cl_store.specs.Items.{place_of, place_read, records_after};
    ghost use Rattle.cl_store.specs.Search.{IsFoundAt, BelongsAt};

    // No records. It takes no memory.
    pub(crate) fn new(alloc: Global) -> IndexedItems
        ensures records { in_scan_order result ≡ [] }
        ensures room { spare result ≡ 0 }
    {
        IndexedItems {
            index: Vec::new(alloc),
            items: Vec::new(alloc),
        }
    }

    // How many records there are.
    pub(crate) fn len(&self) -> usize
        ensures count { result ≡ length (in_scan_order self.now) }
        ensures few { result < 2 ^ 60 }
    {
        self.index.as_slice().len()
    }

    // Where in scan order the record of a place is, or where it would be. It computes one hash, and makes comparisons
    // as the logarithm of the number of records.
    pub(crate) fn find(&self, table: &TableName, key: &Key) -> Result<usize, usize>
        ensures found { IfOk result (IsFoundAt (in_scan_order self.now) (table.now, key.now)) }
        ensures absent { IfErr result (BelongsAt (in_scan_order self.now) (table.now, key.now)) }
        ensures few { length (in_scan_order self.now) < 2 ^ 60 }
    {
        let hash = hash(key);
        let items = self.items.as_slice();
        self.index
            .as_slice()
            .binary_search_by(|entry| entry.order(items, hash, table, key))
    }

    // Where in scan order the records after a place begin, or all of them where there is no place.
    pub(crate) fn find_after(&self, after: Option<(&TableName, &Key)>) -> usize
        ensures within { result ≤ length (in_scan_order self.now) }
        ensures rest { drop result (in_scan_order self.now) ≡ records_after (in_scan_order self.now) (place_read after.entry) }
    {
        let Some((table, key)) = after else {
            return 0;
        };
        match self.find(table, key) {
            Ok(at) => at + 1,
            Err(at) => at,
        }
    }

    // The record that is so far in scan order.
    pub(crate) fn at(&self, at: usize) -> &Item
        requires { at < length (in_scan_order self.now) }
        ensures { result.now ≡ item_at (in_scan_order self.now) at }
    {
        &self.items[self.index[at].slot]
    }

    // Makes room for `count` more records.
    pub(crate) fn reserve(&mut self, count: usize) -> Result<(), NoMemory>
        ensures records { in_scan_order self.new ≡ in_scan_order self.old }
        ensures ok { OnOk result (count ≤ spare self.new) }
        ensures roomy { count ≤ spare self.old → IsOk result }
        ensures keeps_room { spare self.old ≤ spare self.new }
    {
        self.index.reserve(count)?;
        self.items.reserve(count)?;
        Ok(())
    }

    // Gives a record a number and a value. What it had is dropped.
    pub(crate) fn overwrite(&mut self, at: usize, number: u64, value: Option<Value>)
        requires inside { at < length (in_scan_order self.old) }
        requires written { 1 ≤ number }
        ensures records { in_scan_order self.new
            ≡ slice_set (in_scan_order self.old) at (record (item_at (in_scan_order self.old) at) { number = number; value = value }) }
        ensures room { spare self.new ≡ spare self.old }
    {
        let item = &mut self.items[self.index[at].slot];
        item.number = number;
        item.value = value;
    }

    // Adds a record where its place belongs in scan order. It takes no memory.
    pub(crate) fn insert(&mut self, at: usize, item: Item)
        requires belongs { BelongsAt (in_scan_order self.old) (place_of item) at }
        requires written { 1 ≤ item.number }
        requires room { 1 ≤ spare self.old }
        ensures records { in_scan_order self.new ≡ insert (in_scan_order self.old) at item }
        ensures room { spare self.old ≡ spare self.new + 1 }
    {
        let entry = IndexEntry::new(&item.key, self.items.len());
        match self.index.insert(at, entry) {
            Ok(()) => self.items.push_reserved(item),
            Err(_) => unreachable!(),
        }
    }

    // The first `max` records from one on, in scan order, copied.
    pub(crate) fn copied(
        &self,
        from: usize,
        max: usize,
        alloc: Global,
    ) -> Result<ItemList, NoMemory>
        requires { from ≤ length (in_scan_order self.now) }
        ensures ok { IfOk result (λ list. items list ≡ take max (drop from (in_scan_order self.now))) }
        ensures none { take max (drop from (in_scan_order self.now)) ≡ [] → IsOk result }
    {
        let rest = &self.index[from..];
        copied_items(alloc, self.items.as_slice(), &rest[..max.min(rest.len())])
    }
}

// The records that entries point to, copied.
fn copied_items(alloc: Global, kept: &[Item], entries: &[IndexEntry]) -> Result<ItemList, NoMemory>
    requires { All (IsEntryOf kept.now) entries.now }
    ensures ok { IfOk result (λ list. items list ≡ indexed kept.now entries.now) }
    ensures none { indexed kept.now entries.now ≡ [] → IsOk result }
{
    let mut list = ItemList::new(alloc);
    list.reserve(entries.len())?;
    for entry in entries {
        list.push(kept[entry.slot].copy(alloc)?)?;
    }
    Ok(list)
}
