//! The entries of the index in scan order.
ghost use Rattle.std.specs.Prelude.{◌≡◌};
ghost use Rattle.cl_types.specs.Placement.{hash_of};

use crate::Item;
use cl_types::{Key, TableName, hash};
use std::cmp::Ordering;

// Where a record is kept, with the hash of its key. It is small, since a new record moves the entries after it, and
// a search looks at a record only where its hash is the one that it looks for.
#[derive(Debug, Drop)]
pub(crate) struct IndexEntry {
    hash: u32,
    pub(crate) slot: usize,
}

impl IndexEntry {
    ghost use Rattle.cl_store.specs.Index.{entry_order};

    pub(crate) fn new(key: &Key, slot: usize) -> IndexEntry
        ensures { result ≡ record { hash = hash_of key.now; slot = slot } }
    {
        IndexEntry {
            hash: hash(key),
            slot,
        }
    }

    // How the place of the entry's record, which is one of `items`, stands to another in scan order.
    pub(crate) fn order(&self, items: &[Item], hash: u32, table: &TableName, key: &Key) -> Ordering
        requires { hash ≡ hash_of key.now }
        ensures { result ≡ entry_order items.now (table.now, key.now) self.now }
    {
        self.hash.cmp(&hash).then_with(|| match items.get(self.slot) {
            Some(item) => item.table.cmp(table).then_with(|| item.key.cmp(key)),
            None => Ordering::Equal,
        })
    }
}
