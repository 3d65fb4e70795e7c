//! The records of a store.
ghost use Rattle.std.specs.Prelude.{◌≡◌, IfOk};

use cl_types::{GrowingList, Key, NoMemory, TableName, Value, copy_value};
use std::alloc::Global;

/// A record: its place, its state number (in a store at least 1) and its value, absent where the record is dead.
#[derive(Debug, PartialEq, Eq, Drop)]
pub struct Item {
    pub table: TableName,
    pub key: Key,
    pub number: u64,
    pub value: Option<Value>,
}

/// Records, in scan order where a scan gives them.
pub type ItemList = GrowingList<Item>;

impl Item {
    /// Another record of the same content. It allocates only for a value.
    pub fn copy(&self, alloc: Global) -> Result<Item, NoMemory>
        ensures { IfOk result (λ item. item ≡ self.now) }
    {
        Ok(Item {
            table: self.table.copy(),
            key: self.key.copy(),
            number: self.number,
            value: copy_value(alloc, self.value.as_ref())?,
        })
    }
}
