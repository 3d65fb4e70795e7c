//! The open transactions of a controller, by name.
ghost use Rattle.std.specs.Prelude.{◌≡◌, ℕ, ◌<◌, ◌≤◌, ◌^◌, false, [], ◌∷◌, ◌++◌, length, map, option_map, option_copied, IfSome, OnOk, OnErr};
ghost use Rattle.std.specs.List.{list_any, IsDistinct};
ghost use Rattle.std.specs.Option.{option_map_or};
ghost use Rattle.cl_types.specs.Transactions.{same_txn};
ghost use Rattle.cl_control.specs.Calls.{asked, committing, voted, numbered, is_logged, without_told};
ghost use Rattle.cl_control.specs.State.{new_entry, entry_named, changed, without, joined, with_phase};
ghost use Rattle.cl_control.specs.Table.{named};

use crate::entry::{OpenTransaction, Phase, VIRTUAL_NODES_MAX, VirtualNodes};
use cl_types::{NoMemory, TxnId};
use indexmap::IndexMap;
use std::alloc::Global;
use std::marker::Model;

/// The open transactions by name, in order of opening. Contracts see the list of them.
#[derive(Drop)]
pub(crate) struct OpenTable {
    entries: IndexMap<TxnId, OpenTransaction>,
}

impl Model for OpenTable {
    ghost use Rattle.std.specs.Prelude.{List, map};
    ghost use Rattle.std.specs.List.{IsDistinct};
    ghost use Rattle.indexmap.specs.IndexMap.{keys};
    ghost use Rattle.cl_types.specs.Transactions.{same_txn};
    ghost use Rattle.cl_control.specs.State.{Entry};
    ghost use Rattle.cl_control.specs.Table.{entry_of_pair};

    ghost Value = { List Entry };

    ghost view = { λ table. map entry_of_pair table.entries.entries };

    ghost invariant = { λ table. IsDistinct same_txn (keys table.entries) };
}

impl OpenTable {
    /// A table without transactions. It allocates nothing.
    pub(crate) fn new(alloc: Global) -> OpenTable
        ensures { result ≡ [] }
    {
        OpenTable {
            entries: IndexMap::new(alloc),
        }
    }

    /// The number of open transactions.
    pub(crate) fn len(&self) -> usize
        ensures len { result ≡ length self.now }
        ensures small { result < 2 ^ 63 }
    {
        self.entries.len()
    }

    /// What is kept of the transaction, where it is open.
    pub(crate) fn get(&self, txn: TxnId) -> Option<&OpenTransaction>
        ensures { option_map (named txn) (option_copied result) ≡ entry_named txn self.now }
    {
        self.entries.get(&txn)
    }

    /// Opens a transaction, as the last.
    pub(crate) fn open(&mut self, txn: TxnId) -> Result<(), NoMemory>
        requires { list_any (λ entry. same_txn txn entry.txn) self.old ≡ false }
        ensures ok { OnOk result (self.new ≡ self.old ++ new_entry txn ∷ []) }
        ensures err { OnErr result (self.new ≡ self.old) }
    {
        let transaction = OpenTransaction {
            participants: VirtualNodes::new(),
            votes: VirtualNodes::new(),
            phase: Phase::Idle,
        };
        self.entries.insert(txn, transaction)?;
        Ok(())
    }

    /// Puts the transaction, where it is open, in another phase.
    pub(crate) fn set_phase(&mut self, txn: TxnId, phase: Phase)
        ensures { self.new ≡ changed txn (with_phase phase) self.old }
    {
        if let Some(transaction) = self.entries.get_mut(&txn) {
            transaction.phase = phase;
        }
    }

    /// The command of this number, an operation, is sent to the virtual node: it becomes a
    /// participant, and the transaction waits for its answer.
    pub(crate) fn ask(&mut self, txn: TxnId, number: u32, v: u32)
        requires { IfSome (entry_named txn self.old) (λ entry. length (joined v entry.participants) ≤ VIRTUAL_NODES_MAX) }
        ensures { self.new ≡ changed txn (asked number v) self.old }
    {
        if let Some(transaction) = self.entries.get_mut(&txn) {
            transaction.join(v);
            transaction.phase = Phase::Asked(number, v);
        }
    }

    /// COMMIT, the command of this number, came for the transaction.
    pub(crate) fn commit(&mut self, txn: TxnId, number: u32)
        ensures { self.new ≡ changed txn (committing number) self.old }
    {
        if let Some(transaction) = self.entries.get_mut(&txn) {
            transaction.commit(number);
        }
    }

    /// The virtual node has voted on the transaction.
    pub(crate) fn add_vote(&mut self, txn: TxnId, v: u32)
        requires { IfSome (entry_named txn self.old) (λ entry. length entry.votes < VIRTUAL_NODES_MAX) }
        ensures { self.new ≡ changed txn (voted v) self.old }
    {
        if let Some(transaction) = self.entries.get_mut(&txn) {
            transaction.add_vote(v);
        }
    }

    /// The log number of the transaction's Decide is told.
    pub(crate) fn set_logged(&mut self, txn: TxnId)
        ensures { self.new ≡ changed txn numbered self.old }
    {
        if let Some(transaction) = self.entries.get_mut(&txn) {
            transaction.set_logged();
        }
    }

    /// Removes the transaction, where it is open. The others keep their order.
    pub(crate) fn remove(&mut self, txn: TxnId)
        ensures { self.new ≡ without txn self.old }
    {
        self.entries.shift_remove(&txn);
    }

    // Whether it is open and the log number of its Decide was told. The names differ.
    fn is_logged(&self, txn: TxnId) -> bool
        ensures logged { result ≡ option_map_or (λ entry. is_logged entry.phase) (entry_named txn self.now) false }
        ensures names { IsDistinct same_txn (map (λ entry. entry.txn) self.now) }
    {
        match self.entries.get(&txn) {
            Some(transaction) => transaction.is_logged(),
            None => false,
        }
    }

    /// Removes the transaction, where it is open and the log number of its Decide was told.
    pub(crate) fn remove_logged(&mut self, txn: TxnId)
        ensures { (number : ℕ) → self.new ≡ without_told (record { number = number; txn = txn } ∷ []) self.old }
    {
        if self.is_logged(txn) {
            self.remove(txn);
        }
    }
}
