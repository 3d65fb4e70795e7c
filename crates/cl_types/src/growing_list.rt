//! The list that every list of the server is built on.
ghost use Rattle.std.specs.Prelude.{◌≡◌, ◌+◌, ◌≤◌, ◌↔◌, [], ◌∷◌, ◌++◌, length, IsTrue, IsOk, OnOk, OnErr, IfOk, IfNone, IfSome, slice_get};
ghost use Rattle.std.specs.Option.{option_copied, option_to_list};
ghost use Rattle.cl_types.specs.GrowingList.{items, room};

use crate::NoMemory;
use std::alloc::Global;

/// A list of bytes.
pub type Text = GrowingList<u8>;

/// A list that grows and shrinks at its end.
///
/// Contracts see its items, first to last, and `room`: how many more items fit without an allocation.
#[derive(Debug, Drop)]
pub struct GrowingList<T> {
    items: Vec<T>,
}

impl<T> GrowingList<T> {
    /// An empty list. It allocates nothing.
    pub fn new(alloc: Global) -> Self
        ensures { items result ≡ [] }
    {
        GrowingList {
            items: Vec::new(alloc),
        }
    }

    /// Makes room for `count` more items. The items stay as they are, also after an error.
    pub fn reserve(&mut self, count: usize) -> Result<(), NoMemory>
        ensures items { items self.new ≡ items self.old }
        ensures ok { OnOk result (count ≤ room self.new) }
        ensures roomy { count ≤ room self.old → IsOk result }
        ensures keeps_room { room self.old ≤ room self.new }
    {
        self.items.reserve(count)?;
        Ok(())
    }

    /// Appends an item. It allocates only where there is no room. After an error the item is dropped.
    pub fn push(&mut self, item: T) -> Result<(), NoMemory>
    where
        T: Drop,
        ensures ok { OnOk result (items self.new ≡ items self.old ++ item ∷ []) }
        ensures err { OnErr result (items self.new ≡ items self.old) }
        ensures roomy { 1 ≤ room self.old → IsOk result }
        ensures keeps_room { room self.old ≤ room self.new + 1 }
    {
        self.items.push(item)?;
        Ok(())
    }

    /// Appends an item where there is room. It allocates nothing, so it cannot fail.
    pub fn push_reserved(&mut self, item: T)
        requires { 1 ≤ room self.old }
        ensures items { items self.new ≡ items self.old ++ item ∷ [] }
        ensures room { room self.new + 1 ≡ room self.old }
    {
        self.items.push_reserved(item);
    }

    /// Removes the last item. Its room stays reserved.
    pub fn pop(&mut self) -> Option<T>
        ensures items { items self.old ≡ items self.new ++ option_to_list result }
        ensures empty { IfNone result (items self.old ≡ []) }
        ensures room { IfSome result (λ _. room self.new ≡ room self.old + 1) }
        ensures same { IfNone result (room self.new ≡ room self.old) }
    {
        self.items.pop()
    }

    /// The number of items.
    pub fn len(&self) -> usize
        ensures { result ≡ length (items self.now) }
    {
        self.items.len()
    }

    /// Whether the list is empty.
    pub fn is_empty(&self) -> bool
        ensures { IsTrue result ↔ (items self.now ≡ []) }
    {
        self.items.is_empty()
    }

    /// The item at an index, counted from 0, or `None` past the end.
    pub fn at(&self, index: usize) -> Option<&T>
        ensures { option_copied result ≡ slice_get (items self.now) index }
    {
        self.items.get(index)
    }

    /// The items, first to last.
    pub fn as_slice(&self) -> &[T]
        ensures { result.now ≡ items self.now }
    {
        self.items.as_slice()
    }

    /// The items, first to last, taken out.
    pub fn into_items(self) -> Vec<T>
        ensures { result.items ≡ items self }
    {
        self.items
    }
}

impl GrowingList<u8> {
    /// A copy of the bytes, as a text.
    pub fn copy_of(alloc: Global, bytes: &[u8]) -> Result<Text, NoMemory>
        ensures { IfOk result (λ text. items text ≡ bytes.now) }
    {
        let items = Vec::from_slice(alloc, bytes)?;
        Ok(GrowingList { items })
    }

    /// The bytes, first to last.
    pub fn bytes(&self) -> &[u8]
        ensures { result.now ≡ items self.now }
    {
        self.as_slice()
    }
}
