//! The records of a log, each with what is known of it.
ghost use Rattle.std.specs.Prelude.{◌≡◌, ℕ, Bool, ◌+◌, ◌^◌, ◌<◌, ◌≤◌, ◌||◌, ◌==◌, List, [], ◌∷◌, ◌++◌, length, map, false, not, ◌&&◌, OnOk, IsOk, vec_capacity};
ghost use Rattle.std.specs.Option.{option_copied};
ghost use Rattle.std.specs.List.{list_any};
ghost use Rattle.cl_log.specs.LogEntry.{LogEntry, content_at};
ghost use Rattle.cl_log.specs.Kind.{txn_of, undoes, can_be_undone};
ghost use Rattle.cl_log.specs.Rest.{is_undone, is_left_of};
ghost use Rattle.cl_log.specs.Slots.{contents, listed, last_of, last_that, KnowPrevious, KnowUndone, IsSlotOf};

use crate::{LOG_NUMBER_MAX, LogRec};
use cl_types::NoMemory;
use std::alloc::Global;

/// A record with what is known of it.
#[derive(Debug, Drop)]
pub(crate) struct Slot {
    pub(crate) content: LogRec,
    /// The number of the last record before it of its transaction.
    pub(crate) previous: Option<u64>,
    /// Whether a compensation names it.
    pub(crate) is_undone: bool,
}

impl Slot {
    // Whether it is left to undo.
    fn is_left(&self) -> bool
        ensures { result ≡ (can_be_undone self.now.content && not self.now.is_undone) }
    {
        self.content.can_be_undone() && !self.is_undone
    }
}

/// The records of a log, in order, whose numbers count up by one.
///
/// No compensation names a number greater than `greatest_named`.
#[derive(Debug, Drop)]
pub(crate) struct SlotList {
    slots: Vec<Slot>,
    first: u64,
    greatest_named: u64,
    ghost counts_from_one: { 1 ≤ first },
    ghost has_numbers: { first + length slots.items < 2 ^ 64 },
    ghost knows_previous: { KnowPrevious slots.items (listed first slots.items) },
    ghost knows_undone: { KnowUndone slots.items (listed first slots.items) },
    ghost knows_greatest: { (number : ℕ) → greatest_named < number
        → is_undone (listed first slots.items) number ≡ false },
}

// Marks the record of a number as undone, where it is kept. The first record has the number `first`.
fn mark_undone(slots: &mut Vec<Slot>, first: u64, number: u64)
    requires { first + length slots.old.items < 2 ^ 64 }
    ensures capacity { vec_capacity slots.new ≡ vec_capacity slots.old }
    ensures contents { contents slots.new.items ≡ contents slots.old.items }
    ensures previous { map (λ slot. slot.previous) slots.new.items ≡ map (λ slot. slot.previous) slots.old.items }
    ensures undone { (test : ℕ → Bool)
        → map (λ slot. slot.is_undone) slots.old.items ≡ map (λ entry. test entry.number) (listed first slots.old.items)
        → map (λ slot. slot.is_undone) slots.new.items ≡ map (λ entry. test entry.number || (number == entry.number)) (listed first slots.old.items) }
{
    if number < first {
        return;
    }
    let index = (number - first) as usize;
    if index < slots.len() {
        slots[index].is_undone = true;
    }
}

// Whether one of these records names the number as undone.
fn is_named_by(slots: &[Slot], number: u64) -> bool
    ensures { result ≡ list_any (λ slot. undoes number slot.content) slots.now }
{
    slots.iter().any(|slot| slot.content.undoes(number))
}

impl SlotList {
    ghost use Rattle.cl_log.specs.SlotList.{entries_in, next_in, room_in};

    /// No records, where the first will have this number.
    pub(crate) fn new(alloc: Global, first: u64) -> SlotList
        requires { 1 ≤ first }
        ensures entries { entries_in result ≡ [] }
        ensures first { result.first ≡ first }
    {
        SlotList {
            slots: Vec::new(alloc),
            first,
            greatest_named: 0,
        }
    }

    /// Makes room for `count` more records.
    pub(crate) fn reserve(&mut self, count: usize) -> Result<(), NoMemory>
        ensures entries { entries_in self.new ≡ entries_in self.old }
        ensures first { self.new.first ≡ self.old.first }
        ensures ok { OnOk result (count ≤ room_in self.new) }
        ensures roomy { count ≤ room_in self.old → IsOk result }
        ensures keeps_room { room_in self.old ≤ room_in self.new }
    {
        self.slots.reserve(count)?;
        Ok(())
    }

    /// The number that the next record will have.
    pub(crate) fn next(&self) -> u64
        ensures { result ≡ next_in self.now }
    {
        self.first + self.slots.len() as u64
    }

    /// The number of the first record.
    pub(crate) fn first(&self) -> u64
        ensures { result ≡ self.now.first }
    {
        self.first
    }

    /// The slots, first to last.
    pub(crate) fn as_slice(&self) -> &[Slot]
        ensures slots { result.now ≡ self.now.slots.items }
        ensures numbers { self.now.first + length result.now < 2 ^ 64 }
    {
        let _first = self.first;
        &self.slots
    }

    /// The record of a number, or `None` where it is not kept.
    pub(crate) fn at(&self, number: u64) -> Option<&LogRec>
        ensures { option_copied result ≡ content_at (entries_in self.now) number }
    {
        if number < self.first {
            return None;
        }
        match self.slots.get((number - self.first) as usize) {
            Some(slot) => Some(&slot.content),
            None => None,
        }
    }

    /// The slot of a number that is kept.
    pub(crate) fn slot(&self, number: u64) -> &Slot
        requires kept { (self.now.first ≤ number) × (number < next_in self.now) }
        ensures { IsSlotOf (entries_in self.now) number result.now }
    {
        &self.slots[(number - self.first) as usize]
    }

    /// Whether a compensation names the number. It reads all records where one names this number or
    /// a greater one, and none otherwise.
    pub(crate) fn is_named(&self, number: u64) -> bool
        ensures { result ≡ is_undone (entries_in self.now) number }
    {
        number <= self.greatest_named && is_named_by(&self.slots, number)
    }

    /// Appends a record. It takes no memory.
    pub(crate) fn push(&mut self, slot: Slot)
        requires room { 1 ≤ room_in self.old }
        requires numbers { next_in self.old ≤ LOG_NUMBER_MAX }
        requires previous { slot.previous ≡ last_of (entries_in self.old) (txn_of slot.content) }
        requires undone { slot.is_undone ≡ is_undone (entries_in self.old) (next_in self.old) }
        ensures entries { entries_in self.new ≡ entries_in self.old ++ record { number = next_in self.old; content = slot.content } ∷ [] }
        ensures first { self.new.first ≡ self.old.first }
        ensures room { room_in self.old ≡ room_in self.new + 1 }
    {
        let named = slot.content.names();
        self.slots.push_reserved(slot);
        if let Some(named) = named {
            self.greatest_named = named.max(self.greatest_named);
            mark_undone(&mut self.slots, self.first, named);
        }
    }

    /// The number of the last write before this record, and of its transaction, that is not undone.
    /// It reads the records of that transaction between the two.
    pub(crate) fn left_before(&self, number: u64) -> Option<u64>
        requires kept { (self.now.first ≤ number) × (number < next_in self.now) }
        ensures { (before : List LogEntry) (entry : LogEntry) (after : List LogEntry)
            → entries_in self.now ≡ before ++ entry ∷ after → entry.number ≡ number
            → result ≡ last_that (is_left_of (entries_in self.now) (txn_of entry.content)) before }
    {
        let mut cursor = self.slot(number).previous;
        while let Some(earlier) = cursor {
            let slot = self.slot(earlier);
            if slot.is_left() {
                return Some(earlier);
            }
            cursor = slot.previous;
        }
        None
    }
}
