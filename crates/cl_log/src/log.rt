//! The log of a replica.
ghost use Rattle.std.specs.Prelude.{◌≡◌, IfOk, reverse};
ghost use Rattle.cl_types.specs.GrowingList.{items};
ghost use Rattle.cl_types.specs.declared.operations.TxnId.{TxnId};
ghost use Rattle.cl_log.specs.Known.{known_at, known_from};
ghost use Rattle.cl_log.specs.Open.{is_among};
ghost use Rattle.cl_log.specs.SlotList.{entries_in};

use crate::kinds::is_same_txn;
use crate::known::{Index, known_of, put, uncover};
use crate::slots::{Slot, SlotList};
use crate::{LogRec, Stage};
use cl_types::{GrowingList, NoMemory, TxnId};
use std::alloc::Global;

/// The greatest number of a record.
pub const LOG_NUMBER_MAX: u64 = 1 << 62;

/// Log numbers in order.
pub type NumberList = GrowingList<u64>;

/// Names of transactions in order.
pub type TxnList = GrowingList<TxnId>;

/// A log: records in order, whose numbers count up by one.
///
/// Contracts see the records that are kept with their numbers (`entries`), the number of the first
/// that is kept (`first_kept`), the number of the next (`next_number`), and for how many more there
/// is room (`room`).
#[derive(Debug, Drop)]
pub struct Log {
    records: SlotList,
    index: Index,
    alloc: Global,
    ghost is_indexed: { (txn : TxnId) → known_at index txn ≡ known_from (entries_in records) txn },
}

#[tactic(auto, unfolding(crate::specs::Log::entries, crate::specs::Log::first_kept, crate::specs::Log::next_number, crate::specs::Log::room))]
impl Log {
    ghost use Rattle.std.specs.Prelude.{◌≡◌, ◌+◌, ◌-◌, ◌^◌, ◌≤◌, true, [], ◌∷◌, ◌++◌, OnOk, IsOk, IfOk, IfSome};
    ghost use Rattle.cl_types.specs.GrowingList.{items};
    ghost use Rattle.std.specs.Option.{option_copied};
    ghost use Rattle.cl_log.specs.Known.{is_known, left_past, left_after};
    ghost use Rattle.cl_log.specs.Log.{entries, first_kept, next_number, room};
    ghost use Rattle.cl_log.specs.LogEntry.{content_at};
    ghost use Rattle.cl_log.specs.Open.{has_ended, is_open, stage_of, chain_of, low_of, unended_of};
    ghost use Rattle.cl_log.specs.Rest.{rest_to_undo, first_number};

    /// An empty log whose next number is `first`. It takes no memory.
    pub fn new(alloc: Global, first: u64) -> Log
        requires { 1 ≤ first }
        ensures entries { entries result ≡ [] }
        ensures first { first_kept result ≡ first }
        ensures next { next_number result ≡ first }
    {
        Log {
            records: SlotList::new(alloc, first),
            index: Index::new(alloc),
            alloc,
        }
    }

    /// Makes room for `count` more records. The log stays, whatever the answer.
    pub fn reserve(&mut self, count: usize) -> Result<(), NoMemory>
        ensures entries { entries self.new ≡ entries self.old }
        ensures first { first_kept self.new ≡ first_kept self.old }
        ensures next { next_number self.new ≡ next_number self.old }
        ensures ok { OnOk result (count ≤ room self.new) }
        ensures roomy { count ≤ room self.old → IsOk result }
        ensures keeps_room { room self.old ≤ room self.new }
    {
        self.records.reserve(count)?;
        self.index.reserve(count)?;
        Ok(())
    }

    /// The number of the last record that was appended, or the one below the first number where
    /// none was.
    pub fn last(&self) -> u64
        ensures { result ≡ next_number self.now - 1 }
    {
        self.records.next() - 1
    }

    // The transaction whose last write that is not undone is the one that a record names, with the
    // last one before that. It reads the records of that transaction between the two.
    fn uncovered(&self, content: &LogRec) -> Option<(TxnId, Option<u64>)>
        ensures left { (txn : TxnId) → left_past (entries self.now) content.now txn
            ≡ left_after result (first_number (rest_to_undo (entries self.now) txn)) txn }
        ensures known { IfSome result (λ found. is_known self.now.index found.0 ≡ true) }
    {
        let named = content.names()?;
        let undone = self.records.at(named)?.txn();
        if known_of(&self.index, undone).left != Some(named) {
            return None;
        }
        Some((undone, self.records.left_before(named)))
    }

    /// Appends a record and gives its number, which is at most `LOG_NUMBER_MAX`. It takes no memory.
    ///
    /// It looks up the transaction of the record. A compensation reads also the records of the
    /// transaction whose write it names, from that write back to the one to be undone next. Where a
    /// compensation has named this number or a greater one, as in no lawful log, it reads all records.
    pub fn append(&mut self, content: LogRec) -> u64
        requires room { 1 ≤ room self.old }
        requires numbers { next_number self.old ≤ LOG_NUMBER_MAX }
        ensures number { result ≡ next_number self.old }
        ensures entries { entries self.new ≡ entries self.old ++ record { number = result; content = content } ∷ [] }
        ensures first { first_kept self.new ≡ first_kept self.old }
        ensures next { next_number self.new ≡ result + 1 }
        ensures keeps_room { room self.old ≤ room self.new + 1 }
    {
        let number = self.records.next();
        let txn = content.txn();
        let uncovered = self.uncovered(&content);
        uncover(&mut self.index, uncovered);
        let known = known_of(&self.index, txn);
        let is_undone = self.records.is_named(number);
        put(
            &mut self.index,
            txn,
            known.with(&content, number, is_undone),
        );
        self.records.push(Slot {
            content,
            previous: known.last,
            is_undone,
        });
        number
    }

    /// The record of a number, or `None` where the log does not keep it.
    pub fn at(&self, number: u64) -> Option<&LogRec>
        ensures { option_copied result ≡ content_at (entries self.now) number }
    {
        self.records.at(number)
    }

    // Whether a transaction is open.
    fn is_open(&self, txn: TxnId) -> bool
        ensures { result ≡ is_open (entries self.now) txn }
    {
        known_of(&self.index, txn).is_open()
    }

    /// The number of the first record of an open transaction, or the next number where none is open.
    ///
    /// It reads the records before that one, and looks up the transaction of each.
    pub fn low(&self) -> u64
        ensures { result ≡ low_of (entries self.now) (next_number self.now) }
    {
        for (index, slot) in self.records.as_slice().iter().enumerate() {
            if self.is_open(slot.content.txn()) {
                return self.records.first() + index as u64;
            }
        }
        self.records.next()
    }

    /// How far a transaction is. It is one look-up.
    pub fn stage(&self, txn: TxnId) -> Stage
        ensures { result ≡ stage_of (entries self.now) txn }
    {
        known_of(&self.index, txn).stage()
    }

    /// Whether the log has an End of the transaction. It is one look-up.
    pub fn has_ended(&self, txn: TxnId) -> bool
        ensures { result ≡ has_ended (entries self.now) txn }
    {
        known_of(&self.index, txn).ended
    }

    /// The numbers of all records of a transaction that are kept, of whichever kind, in order. It
    /// reads these records alone.
    pub fn chain(&self, txn: TxnId) -> Result<NumberList, NoMemory>
        ensures { IfOk result (λ numbers. items numbers ≡ chain_of (entries self.now) txn) }
    {
        let mut backward = NumberList::new(self.alloc);
        let mut cursor = known_of(&self.index, txn).last;
        while let Some(number) = cursor {
            backward.push(number)?;
            cursor = self.records.slot(number).previous;
        }
        reversed(self.alloc, backward)
    }

    /// The open transactions, by first log number.
    ///
    /// It looks up the transaction of each record. A record of an open one costs also a walk over the
    /// open ones that were found before it.
    pub fn unended(&self) -> Result<TxnList, NoMemory>
        ensures { IfOk result (λ txns. items txns ≡ unended_of (entries self.now)) }
    {
        let mut txns = TxnList::new(self.alloc);
        for slot in self.records.as_slice() {
            let txn = slot.content.txn();
            if self.is_open(txn) && !is_among(txns.as_slice(), txn) {
                txns.push(txn)?;
            }
        }
        Ok(txns)
    }

    /// The number of a transaction's last write that is not undone, or `None` where nothing is left
    /// to undo. It is one look-up.
    pub fn rest_to_undo(&self, txn: TxnId) -> Option<u64>
        ensures { result ≡ first_number (rest_to_undo (entries self.now) txn) }
    {
        known_of(&self.index, txn).left
    }
}

// Whether the transaction is among these.
fn is_among(txns: &[TxnId], txn: TxnId) -> bool
    ensures { result ≡ is_among txn txns.now }
{
    txns.iter().any(|other| is_same_txn(txn, *other))
}

// The numbers from last to first.
fn reversed(alloc: Global, mut numbers: NumberList) -> Result<NumberList, NoMemory>
    ensures { IfOk result (λ turned. items turned ≡ reverse (items numbers)) }
{
    let mut turned = NumberList::new(alloc);
    while let Some(number) = numbers.pop() {
        turned.push(number)?;
    }
    Ok(turned)
}
