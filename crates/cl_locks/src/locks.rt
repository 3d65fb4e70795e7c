//! The lock table itself.
ghost use Rattle.std.specs.Prelude.{IsTrue, ◌≡◌, ◌≤◌, ◌<◌, ◌^◌, OnOk};
ghost use Rattle.cl_lists.specs.Arena.{list_count};
ghost use Rattle.cl_lists.specs.Sides.{opposite};
ghost use Rattle.cl_types.specs.Places.{Place};
ghost use Rattle.cl_locks.specs.Grants.{Grant, are_compatible};
ghost use Rattle.cl_locks.specs.Listed.{IsListed, IsKept, HasRoomFor, grants_on};

use crate::lock::{Lock, PLACE_LISTS, TXN_LISTS, place_list, txn_list};
use crate::{Granted, LockRefused};
use cl_lists::{Arena, Side, Slot};
use cl_types::{Key, Mode, NoMemory, TableName, TxnId};
use std::alloc::Global;

/// The locks that transactions hold at the places of a replica, each a table and a key.
///
/// Contracts see the grants at each place, in order of grant (`grants_at`), and which mode a
/// transaction holds where (`held`). A lock is on one of `PLACE_LISTS` lists by its key, and on one
/// of `TXN_LISTS` by its session. There is one of these for each session.
#[derive(Debug, Drop)]
pub struct Locks {
    // Each lock is on the list of its key on side X, and on that of its session on side Y.
    granted: Arena<Lock>,
    ghost listed: { IsListed granted },
    ghost compatible: { (place : Place) → IsTrue (are_compatible (grants_on granted place)) },
}

impl Locks {
    ghost use Rattle.std.specs.Prelude.{◌↔◌, ◌++◌, ◌∷◌, [], Some, None, Err, OnErr, IfOk, IfSome, if◌then◌else◌, ◌&&◌, option_and_then, Bool, find};
    ghost use Rattle.std.specs.Fn.{FnReturnsAt};
    ghost use Rattle.cl_locks.specs.Listed as listed;
    ghost use Rattle.cl_lists.specs.Arena.{item_at, items_on, IsInUse, Unlinks};
    ghost use Rattle.cl_types.specs.Modes.{stronger};
    ghost use Rattle.cl_types.specs.Places.{same_place};
    ghost use Rattle.cl_types.specs.Transactions.{same_txn};
    ghost use Rattle.cl_locks.specs.Grants.{own_grant, first_conflict, granted_as, with_grant, after_grant, without_txn};
    ghost use Rattle.cl_locks.specs.Table.{grants_at, held};

    /// A table with no lock. It allocates nothing.
    pub fn new(alloc: Global) -> Locks
        ensures { (place : Place) → grants_at result place ≡ [] }
    {
        Locks {
            granted: Arena::new(alloc),
        }
    }

    /// Requests a lock for the transaction at a place. The lock is granted or refused at once. After
    /// a refusal the locks are as they were. Only a new lock allocates. The call walks the list of
    /// the key.
    pub fn ask(
        &mut self,
        txn: TxnId,
        table: &TableName,
        key: &Key,
        mode: Mode,
    ) -> Result<Granted, LockRefused>
        ensures held { let place : Place = (table.now, key.now) in
            (holder : TxnId) → (result ≡ Err (LockRefused.Held holder))
            ↔ (first_conflict (grants_at self.old place) txn place mode ≡ Some holder) }
        ensures free { let place : Place = (table.now, key.now) in
            OnOk result (first_conflict (grants_at self.old place) txn place mode ≡ None) }
        ensures granted { let place : Place = (table.now, key.now) in
            IfOk result (λ granted. granted ≡ granted_as (held self.old txn place) mode) }
        ensures grants { let place : Place = (table.now, key.now) in
            let grant : Grant = record { txn = txn; place = place; mode = mode } in
            OnOk result ((other : Place) → grants_at self.new other ≡ (if same_place place other
            then after_grant (grants_at self.old other) grant else grants_at self.old other)) }
        ensures modes { let place : Place = (table.now, key.now) in
            OnOk result ((t : TxnId) (p : Place) → held self.new t p
            ≡ (if same_txn txn t && same_place place p
            then stronger (held self.old t p) (Some mode) else held self.old t p)) }
        ensures memory { result ≡ Err LockRefused.NoMemory
            → held self.old txn (table.now, key.now) ≡ None }
        ensures err { OnErr result ((place : Place) →
            grants_at self.new place ≡ grants_at self.old place) }
    {
        if let Some(holder) = self.first_conflict(txn, table, key, mode) {
            return Err(LockRefused::Held(holder));
        }
        match self.slot_of(txn, table, key) {
            Some(slot) => Ok(self.strengthen(slot, mode)),
            None => {
                self.reserve()?;
                self.push(Lock {
                    txn,
                    table: table.copy(),
                    key: key.copy(),
                    mode,
                });
                Ok(Granted::New)
            }
        }
    }

    /// Releases every lock of the transaction, and no other. It allocates nothing, and walks the
    /// list of the session.
    pub fn release(&mut self, txn: TxnId)
        ensures grants { (place : Place) → grants_at self.new place
            ≡ without_txn txn (grants_at self.old place) }
        ensures modes { (t : TxnId) (place : Place) → held self.new t place
            ≡ (if same_txn txn t then None else held self.old t place) }
    {
        let mut next = self.granted.first(Side::Y, txn_list(txn));
        while let Some(slot) = next {
            next = self.granted.next(Side::Y, slot);
            if self.granted.get(slot).is_held_by(txn) {
                self.unlink(slot);
            }
        }
    }

    /// The mode that the transaction holds at a place, or `None` where it holds no lock there. It
    /// walks the list of the key.
    pub fn holds(&self, txn: TxnId, table: &TableName, key: &Key) -> Option<Mode>
        ensures { result ≡ held self.now txn (table.now, key.now) }
    {
        let slot = self.slot_of(txn, table, key)?;
        Some(self.granted.get(slot).mode)
    }

    /// The first other transaction, in order of grant, that holds a lock at a place in conflict with
    /// the mode, or `None` where a request would be granted. It walks the list of the key.
    pub fn first_conflict(
        &self,
        txn: TxnId,
        table: &TableName,
        key: &Key,
        mode: Mode,
    ) -> Option<TxnId>
        ensures { let place : Place = (table.now, key.now) in
            result ≡ first_conflict (grants_at self.now place) txn place mode }
    {
        let slot = self.find(key, |lock| lock.is_in_conflict(txn, table, key, mode))?;
        Some(self.granted.get(slot).txn)
    }

    // The slot of the transaction's lock at a place.
    fn slot_of(&self, txn: TxnId, table: &TableName, key: &Key) -> Option<Slot>
        ensures grant { let place : Place = (table.now, key.now) in
            option_and_then (item_at self.now.granted) result
            ≡ own_grant (grants_at self.now place) txn place }
        ensures in_use { IfSome result (λ slot. IsInUse self.now.granted slot) }
    {
        self.find(key, |lock| lock.is_of(txn, table, key))
    }

    // The slot of the first lock, in order of grant, on the list of the key that meets the test.
    fn find<F: Fn(&Lock) -> bool>(&self, key: &Key, meets: F) -> Option<Slot>
        requires { F.IsAlwaysCallable meets }
        ensures grant { (test : Grant → Bool)
            → ((grant : Grant) (answer : Bool)
            → FnReturnsAt F.Fn meets grant answer → answer ≡ test grant)
            → option_and_then (item_at self.now.granted) result
            ≡ find test (items_on self.now.granted Side.X (listed.place_list key.now)) }
        ensures in_use { IfSome result (λ slot. IsInUse self.now.granted slot) }
    {
        let mut next = self.granted.first(Side::X, place_list(key));
        while let Some(slot) = next {
            if meets(self.granted.get(slot)) {
                return Some(slot);
            }
            next = self.granted.next(Side::X, slot);
        }
        None
    }

    // Makes the lock at a slot as strong as the mode. A lock that became stronger comes last.
    fn strengthen(&mut self, slot: Slot, mode: Mode) -> Granted
        requires in_use { IsInUse self.old.granted slot }
        requires free { (grant : Grant) → item_at self.old.granted slot ≡ Some grant
            → first_conflict (grants_at self.old grant.place) grant.txn grant.place mode ≡ None }
        ensures granted { (grant : Grant) → item_at self.old.granted slot ≡ Some grant
            → result ≡ granted_as (Some grant.mode) mode }
        ensures grants { (grant : Grant) (place : Place)
            → item_at self.old.granted slot ≡ Some grant
            → grants_at self.new place ≡ (if same_place grant.place place
            then with_grant result (grants_at self.old place) (record grant { mode = mode })
            else grants_at self.old place) }
    {
        match (self.granted.get(slot).mode, mode) {
            (Mode::Shared, Mode::Exclusive) => {
                let mut lock = self.unlink(slot);
                lock.mode = mode;
                self.push(lock);
                Granted::Stronger
            }
            _ => Granted::Already,
        }
    }

    // Makes room for one lock more.
    fn reserve(&mut self) -> Result<(), NoMemory>
        ensures same { (place : Place) → grants_at self.new place ≡ grants_at self.old place }
        ensures ok { OnOk result ((grant : Grant) → HasRoomFor self.new.granted grant) }
    {
        make_room(&mut self.granted)
    }

    // Appends a lock.
    fn push(&mut self, lock: Lock)
        requires room { HasRoomFor self.old.granted lock }
        requires only { own_grant (grants_at self.old lock.place) lock.txn lock.place ≡ None }
        requires free { let before = grants_at self.old lock.place in
            first_conflict before lock.txn lock.place lock.mode ≡ None }
        ensures { (place : Place) → grants_at self.new place ≡ (if same_place lock.place place
            then grants_at self.old place ++ lock ∷ [] else grants_at self.old place) }
    {
        let x = place_list(&lock.key);
        let y = txn_list(lock.txn);
        self.granted.push_back(x, y, lock);
    }

    // Removes the lock at a slot.
    fn unlink(&mut self, slot: Slot) -> Lock
        requires { IsInUse self.old.granted slot }
        ensures unlinks { Unlinks self.old.granted self.new.granted slot result }
        ensures room { HasRoomFor self.new.granted result }
    {
        self.granted.unlink(slot)
    }
}

// Makes room for one lock more: the lists, where they are not there yet, and a slot.
fn make_room(granted: &mut Arena<Lock>) -> Result<(), NoMemory>
    ensures kept { IsKept granted.old granted.new }
    ensures ok { OnOk result ((grant : Grant) → HasRoomFor granted.new grant) }
{
    add_missing_lists(granted, Side::X, PLACE_LISTS)?;
    add_missing_lists(granted, Side::Y, TXN_LISTS)?;
    granted.reserve(1)
}

// Adds the lists that a side lacks.
fn add_missing_lists(granted: &mut Arena<Lock>, side: Side, count: u32) -> Result<(), NoMemory>
    requires { count < 2 ^ 31 }
    ensures kept { IsKept granted.old granted.new }
    ensures ok { OnOk result (count ≤ list_count granted.new side) }
    ensures other { list_count granted.new (opposite side)
        ≡ list_count granted.old (opposite side) }
{
    let missing = count.saturating_sub(granted.lists(side));
    granted.add_lists(side, missing)
}
