//! One lock, and the lists that it is on.
ghost use Rattle.std.specs.Prelude.{◌≡◌, ◌<◌, Some, ◌&&◌};
ghost use Rattle.cl_types.specs.Modes.{is_conflict};
ghost use Rattle.cl_types.specs.Places.{same_place};
ghost use Rattle.cl_types.specs.Transactions.{same_txn};
ghost use Rattle.cl_locks.specs.Grants.{is_of, is_in_conflict};
ghost use Rattle.cl_locks.specs.Listed as listed;

use cl_types::{Key, Mode, SESSIONS_MAX, TableName, TxnId, hash};
use std::marker::Model;

/// The number of lists by key.
pub(crate) const PLACE_LISTS: u32 = 1024;

/// The number of lists by session: one for each.
pub(crate) const TXN_LISTS: u32 = SESSIONS_MAX;

/// The lock of a transaction at a place. Contracts see it as a grant.
#[derive(Debug, Drop)]
pub(crate) struct Lock {
    pub(crate) txn: TxnId,
    pub(crate) table: TableName,
    pub(crate) key: Key,
    pub(crate) mode: Mode,
}

impl Model for Lock {
    ghost use Rattle.cl_locks.specs.Grants.{Grant};

    ghost Value = { Grant };

    ghost view = { λ lock.
        record { txn = lock.txn; place = (lock.table, lock.key); mode = lock.mode } };
}

impl Lock {
    // Whether it is a lock of the transaction.
    pub(crate) fn is_held_by(&self, txn: TxnId) -> bool
        ensures { result ≡ same_txn txn self.now.txn }
    {
        txn == self.txn
    }

    // Whether it is a lock at the place.
    fn is_at(&self, table: &TableName, key: &Key) -> bool
        ensures { result ≡ same_place (table.now, key.now) self.now.place }
    {
        *table == self.table && *key == self.key
    }

    // Whether it is the lock of the transaction at the place.
    pub(crate) fn is_of(&self, txn: TxnId, table: &TableName, key: &Key) -> bool
        ensures { result ≡ is_of txn (table.now, key.now) self.now }
    {
        self.is_held_by(txn) && self.is_at(table, key)
    }

    // Whether it is another transaction's lock at the place, in a mode that conflicts.
    pub(crate) fn is_in_conflict(
        &self,
        txn: TxnId,
        table: &TableName,
        key: &Key,
        mode: Mode,
    ) -> bool
        ensures { result ≡ is_in_conflict txn (table.now, key.now) mode self.now }
    {
        self.is_at(table, key) && !self.is_held_by(txn) && are_in_conflict(self.mode, mode)
    }
}

// Whether two locks of one place in these modes conflict.
fn are_in_conflict(held: Mode, asked: Mode) -> bool
    ensures { result ≡ is_conflict (Some held) (Some asked) }
{
    !matches!((held, asked), (Mode::Shared, Mode::Shared))
}

// The list of the places with the key.
#[tactic(auto, unfolding(crate::specs::Listed::place_list))]
pub(crate) fn place_list(key: &Key) -> u32
    ensures value { result ≡ listed.place_list key.now }
    ensures below { result < PLACE_LISTS }
{
    hash(key) % PLACE_LISTS
}

// The list of the session's transactions.
#[tactic(auto, unfolding(crate::specs::Listed::txn_list))]
pub(crate) fn txn_list(txn: TxnId) -> u32
    ensures value { result ≡ listed.txn_list txn }
    ensures below { result < TXN_LISTS }
{
    txn.session % TXN_LISTS
}
