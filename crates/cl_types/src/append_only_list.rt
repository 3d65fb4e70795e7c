//! The list that only grows: its entries are never removed.
ghost use Rattle.std.specs.Prelude.{◌≡◌, ◌+◌, ◌≤◌, ◌↔◌, [], ◌∷◌, ◌++◌, length, IsTrue, IsOk, OnOk, OnErr, slice_get};
ghost use Rattle.std.specs.Option.{option_copied};
ghost use Rattle.cl_types.specs.AppendOnlyList.{entries, room};

use crate::{GrowingList, NoMemory};
use std::alloc::Global;

/// A list to which entries are appended, and from which none is removed.
///
/// Contracts see its entries, first to last, and `room`: how many more entries fit without an allocation.
#[derive(Debug, Drop)]
pub struct AppendOnlyList<T> {
    list: GrowingList<T>,
}

impl<T> AppendOnlyList<T> {
    /// An empty list. It allocates nothing.
    pub fn new(alloc: Global) -> Self
        ensures { entries result ≡ [] }
    {
        AppendOnlyList {
            list: GrowingList::new(alloc),
        }
    }

    /// Makes room for `count` more entries. The entries stay as they are, also after an error.
    pub fn reserve(&mut self, count: usize) -> Result<(), NoMemory>
        ensures entries { entries self.new ≡ entries self.old }
        ensures ok { OnOk result (count ≤ room self.new) }
        ensures roomy { count ≤ room self.old → IsOk result }
        ensures keeps_room { room self.old ≤ room self.new }
    {
        self.list.reserve(count)
    }

    /// Appends an entry. It allocates only where there is no room. After an error the entry is dropped.
    pub fn push(&mut self, entry: T) -> Result<(), NoMemory>
    where
        T: Drop,
        ensures ok { OnOk result (entries self.new ≡ entries self.old ++ entry ∷ []) }
        ensures err { OnErr result (entries self.new ≡ entries self.old) }
        ensures roomy { 1 ≤ room self.old → IsOk result }
        ensures keeps_room { room self.old ≤ room self.new + 1 }
    {
        self.list.push(entry)
    }

    /// Appends an entry where there is room. It allocates nothing, so it cannot fail.
    pub fn push_reserved(&mut self, entry: T)
        requires { 1 ≤ room self.old }
        ensures entries { entries self.new ≡ entries self.old ++ entry ∷ [] }
        ensures room { room self.new + 1 ≡ room self.old }
    {
        self.list.push_reserved(entry);
    }

    /// The number of entries.
    pub fn len(&self) -> usize
        ensures { result ≡ length (entries self.now) }
    {
        self.list.len()
    }

    /// Whether the list is empty.
    pub fn is_empty(&self) -> bool
        ensures { IsTrue result ↔ (entries self.now ≡ []) }
    {
        self.list.is_empty()
    }

    /// The entry at an index, counted from 0, or `None` past the end.
    pub fn at(&self, index: usize) -> Option<&T>
        ensures { option_copied result ≡ slice_get (entries self.now) index }
    {
        self.list.at(index)
    }

    /// The entries, first to last.
    pub fn as_slice(&self) -> &[T]
        ensures { result.now ≡ entries self.now }
    {
        self.list.as_slice()
    }
}
