//! The store of a replica.
ghost use Rattle.std.specs.Prelude.{◌≡◌, is_some, if◌then◌else◌};
ghost use Rattle.cl_store.specs.IndexedItems.{in_scan_order};
ghost use Rattle.cl_store.specs.Items.{live};

use crate::indexed_items::IndexedItems;
use crate::{Item, ItemList};
use cl_types::{Key, NoMemory, TableName, Value};
use std::alloc::Global;

/// Records with their state numbers: a map from places, each a table and a key.
///
/// Contracts see the records in scan order, which is by the hash of the key, then by table, then by key
/// (`records`), what stands at each place (`stored`), and for how many more records there is room (`room`).
#[derive(Debug, Drop)]
pub struct Store {
    items: IndexedItems,
    live_count: u64,
    alloc: Global,
    ghost counted: { live_count ≡ live (in_scan_order items) },
}

// How many live records a value makes: one, or none where it is absent.
fn one_if_live(value: &Option<Value>) -> u64
    ensures { result ≡ (if is_some value.now then 1 else 0) }
{
    u64::from(value.is_some())
}

#[tactic(auto, unfolding(crate::specs::Store::records, crate::specs::Store::room))]
impl Store {
    ghost use Rattle.std.specs.Prelude.{◌≡◌, ◌+◌, ◌^◌, ◌<◌, ◌≤◌, ◌⊎◌, [], OnOk, IsOk, IfOk, if◌then◌else◌};
    ghost use Rattle.std.specs.Option.{option_copied};
    ghost use Rattle.cl_types.specs.GrowingList.{items};
    ghost use Rattle.cl_types.specs.Places.{Place, same_place};
    ghost use Rattle.cl_store.specs.Items.{scanned, place_read, live};
    ghost use Rattle.cl_store.specs.Store.{records, room, stored};

    /// A store in which nothing was written. It takes no memory.
    pub fn new(alloc: Global) -> Store
        ensures records { records result ≡ [] }
        ensures room { room result ≡ 0 }
    {
        Store {
            items: IndexedItems::new(alloc),
            live_count: 0,
            alloc,
        }
    }

    /// The state number and the value of a place: 0 and none where it was never written, and a number alone
    /// where its record is dead.
    ///
    /// It computes one hash, and makes comparisons as the logarithm of the number of records.
    pub fn get(&self, table: &TableName, key: &Key) -> (u64, Option<&Value>)
        ensures number { result.0 ≡ (stored self.now (table.now, key.now)).0 }
        ensures value { option_copied result.1 ≡ (stored self.now (table.now, key.now)).1 }
    {
        match self.items.find(table, key) {
            Ok(at) => {
                let item = self.items.at(at);
                (item.number, item.value.as_ref())
            }
            Err(_) => (0, None),
        }
    }

    /// Makes room for `count` more records. The records stay, whatever the answer.
    pub fn reserve(&mut self, count: usize) -> Result<(), NoMemory>
        ensures records { records self.new ≡ records self.old }
        ensures ok { OnOk result (count ≤ room self.new) }
        ensures roomy { count ≤ room self.old → IsOk result }
        ensures keeps_room { room self.old ≤ room self.new }
    {
        self.items.reserve(count)
    }

    /// Writes a value, or none where the record dies, with a state number above the one that stands there.
    ///
    /// It takes no memory, and finds the place as `get` does. A place that is new moves, of each record after
    /// it in scan order, an entry of the index of 16 bytes, and no record. The value that stood there is dropped.
    pub fn write(&mut self, table: &TableName, key: &Key, value: Option<Value>, number: u64)
        requires above { (stored self.old (table.now, key.now)).0 < number }
        requires room { (0 < (stored self.old (table.now, key.now)).0) ⊎ (1 ≤ room self.old) }
        ensures stored { (other : Place) → stored self.new other
            ≡ (if same_place (table.now, key.now) other then (number, value) else stored self.old other) }
        ensures room { room self.old ≤ room self.new + 1 }
        ensures keeps_room { 0 < (stored self.old (table.now, key.now)).0 → room self.old ≤ room self.new }
    {
        let added = one_if_live(&value);
        match self.items.find(table, key) {
            Ok(at) => {
                let removed = one_if_live(&self.items.at(at).value);
                self.items.overwrite(at, number, value);
                self.live_count = self.live_count - removed + added;
            }
            Err(at) => {
                let item = Item {
                    table: table.copy(),
                    key: key.copy(),
                    number,
                    value,
                };
                self.items.insert(at, item);
                self.live_count += added;
            }
        }
    }

    /// How many records have a value. It takes constant time.
    pub fn live_count(&self) -> u64
        ensures count { result ≡ live (records self.now) }
        ensures few { result < 2 ^ 60 }
    {
        let _few = self.items.len();
        self.live_count
    }

    /// The first `max` records after a place, or of all where there is none, in scan order: dead ones too.
    ///
    /// It finds the place as `get` does, and copies no more records than it gives. Where it gives none it does not
    /// fail.
    pub fn scan(&self, after: Option<(&TableName, &Key)>, max: usize) -> Result<ItemList, NoMemory>
        ensures ok { IfOk result (λ list. items list ≡ scanned (records self.now) (place_read after.entry) max) }
        ensures none { scanned (records self.now) (place_read after.entry) max ≡ [] → IsOk result }
    {
        let from = self.items.find_after(after);
        self.items.copied(from, max, self.alloc)
    }
}
