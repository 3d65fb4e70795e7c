//! Taking the next record of a log.
ghost use Rattle.std.specs.Prelude.{◌≡◌, ◌↔◌, ◌≢◌, ◌≤◌, ◌<◌, ◌+◌, ◌^◌, ◌++◌, ◌∷◌, [], true, false, ◌&&◌, if◌then◌else◌, Some, IsOk, IfOk, OnOk, OnErr};
ghost use Rattle.cl_types.specs.declared.operations.TxnId.{TxnId};
ghost use Rattle.cl_types.specs.Modes.{is_conflict, stronger};
ghost use Rattle.cl_types.specs.Places.{Place, same_place};
ghost use Rattle.cl_types.specs.Transactions.{same_txn};
ghost use Rattle.cl_log.specs.Log.{entries, next_number, room as room_of_log};
ghost use Rattle.cl_log.specs.Kind.{writes};
ghost use Rattle.cl_log.specs.Locks.{locks_after};
ghost use Rattle.cl_log.specs.Store.{redo_by_guard};
ghost use Rattle.cl_locks.specs.Table.{grants_at, held};
ghost use Rattle.cl_store.specs.Store.{stored, room};
ghost use Rattle.cl_redo.specs.Condition.{MeetsWrite, IsFree, IsUnended};
ghost use Rattle.cl_redo.specs.Redo.{redone_as, with_lock, grants_after, needs_no_memory, IsStoreOf, AreLocksOf};

use crate::Redone;
use crate::write::{finish, guard};
use cl_locks::{LockRefused, Locks};
use cl_log::{LOG_NUMBER_MAX, Log, LogRec};
use cl_store::Store;
use cl_types::{Key, Mode, NoMemory, TableName, TxnId};
use std::alloc::Global;

/// Makes room in the store and in the log for `count` more records each. What they have stays,
/// whatever the answer; where there is room already it takes no memory.
pub fn reserve(store: &mut Store, log: &mut Log, count: usize) -> Result<(), NoMemory>
    ensures store { (place : Place) → stored store.new place ≡ stored store.old place }
    ensures entries { entries log.new ≡ entries log.old }
    ensures next { next_number log.new ≡ next_number log.old }
    ensures ok { OnOk result ((count ≤ room store.new) × (count ≤ room_of_log log.new)) }
    ensures roomy { count ≤ room store.old → count ≤ room_of_log log.old → IsOk result }
    ensures keeps_room { (room store.old ≤ room store.new) × (room_of_log log.old ≤ room_of_log log.new) }
{
    store.reserve(count)?;
    log.reserve(count)
}

// Enters a lock that no other transaction's conflicts with.
fn lock(
    locks: &mut Locks,
    txn: TxnId,
    table: &TableName,
    key: &Key,
    mode: Mode,
) -> Result<(), NoMemory>
    requires { (other : TxnId) → other ≢ txn → is_conflict (held locks.old other (table.now, key.now)) (Some mode) ≡ false }
    ensures ok { OnOk result ((place : Place) → grants_at locks.new place ≡ with_lock txn (table.now, key.now) mode place (grants_at locks.old place)) }
    ensures modes { let place : Place = (table.now, key.now) in OnOk result ((t : TxnId) (p : Place) → held locks.new t p
        ≡ (if same_txn txn t && same_place place p then stronger (held locks.old t p) (Some mode) else held locks.old t p)) }
    ensures err { OnErr result ((place : Place) → grants_at locks.new place ≡ grants_at locks.old place) }
{
    match locks.ask(txn, table, key, mode) {
        Ok(_) => Ok(()),
        Err(LockRefused::NoMemory) => Err(NoMemory),
        Err(LockRefused::Held(_)) => unreachable!(),
    }
}

// Does what a record does to the store and to the locks. Where it gives up for want of memory it does nothing.
fn redo(
    alloc: Global,
    store: &mut Store,
    locks: &mut Locks,
    number: u64,
    content: &LogRec,
) -> Result<Redone, NoMemory>
    requires meets { MeetsWrite (stored store.old) (record { number = number; content = content.now }) }
    requires free { IsFree (held locks.old) content.now }
    ensures redone { IfOk result (λ redone. redone ≡ redone_as (stored store.old) content.now) }
    ensures store { OnOk result ((place : Place) → stored store.new place ≡ redo_by_guard place (stored store.old place) (record { number = number; content = content.now })) }
    ensures locks { OnOk result ((place : Place) → grants_at locks.new place ≡ grants_after content.now place (grants_at locks.old place)) }
    ensures modes { OnOk result ((txn : TxnId) (place : Place) → held locks.new txn place ≡ locks_after (held locks.old) (record { number = number; content = content.now }) txn place) }
    ensures room { room store.old ≤ room store.new + 1 }
    ensures err_room { OnErr result (room store.old ≤ room store.new) }
    ensures err_store { OnErr result ((place : Place) → stored store.new place ≡ stored store.old place) }
    ensures err_locks { OnErr result ((place : Place) → grants_at locks.new place ≡ grants_at locks.old place) }
    ensures roomy { needs_no_memory content.now ≡ true → IsOk result }
{
    match content {
        LogRec::Touch(txn, table, key, mode) => {
            lock(locks, *txn, table, key, *mode)?;
            Ok(Redone::Marked)
        }
        LogRec::Set(txn, table, key, before, ..) | LogRec::Add(txn, table, key, before, _) => {
            let write = guard(alloc, store, table, key, *before, content)?;
            lock(locks, *txn, table, key, Mode::Exclusive)?;
            Ok(finish(store, table, key, number, write))
        }
        LogRec::Comp(_, table, key, before, ..) => {
            let write = guard(alloc, store, table, key, *before, content)?;
            Ok(finish(store, table, key, number, write))
        }
        LogRec::End(txn, _) => {
            locks.release(*txn);
            Ok(Redone::Marked)
        }
        LogRec::Prepared(_) | LogRec::Decide(_) => Ok(Redone::Marked),
    }
}

/// Takes the next record of a log: its write is made by guard, its lock entered, an End frees the
/// locks of its transaction, and the record is appended to the log.
///
/// Where the store and the locks were those of the log, they are those of the log with the record.
/// On a store that is ahead, as the copy that a spare was sent, the guard skips what the store has
/// already. An amount that does not fit the value leaves it, under the record's number. `number` is
/// the log's last number plus 1, at most `LOG_NUMBER_MAX`. After an `Err` all is as it was. A
/// Prepared, an End and a Decide take no memory where the log has room.
pub fn take(
    alloc: Global,
    store: &mut Store,
    log: &mut Log,
    locks: &mut Locks,
    number: u64,
    content: LogRec,
) -> Result<Redone, NoMemory>
    requires number { number ≡ next_number log.old }
    requires below { number ≤ LOG_NUMBER_MAX }
    requires meets { MeetsWrite (stored store.old) (record { number = number; content = content }) }
    requires free { IsFree (held locks.old) content }
    requires unended { IsUnended (entries log.old) content }
    ensures redone { IfOk result (λ redone. redone ≡ redone_as (stored store.old) content) }
    ensures skipped { IfOk result (λ redone. (place : Place) → writes place content ≡ true
        → (redone ≡ Redone.Skipped) ↔ (number ≤ (stored store.old place).0)) }
    ensures store { OnOk result ((place : Place) → stored store.new place ≡ redo_by_guard place (stored store.old place) (record { number = number; content = content })) }
    ensures grants { OnOk result ((place : Place) → grants_at locks.new place ≡ grants_after content place (grants_at locks.old place)) }
    ensures locks { OnOk result ((txn : TxnId) (place : Place) → held locks.new txn place ≡ locks_after (held locks.old) (record { number = number; content = content }) txn place) }
    ensures log { OnOk result (entries log.new ≡ entries log.old ++ record { number = number; content = content } ∷ []) }
    ensures next { OnOk result (next_number log.new ≡ number + 1) }
    ensures room { (room store.old ≤ room store.new + 1) × (room_of_log log.old ≤ room_of_log log.new + 1) }
    ensures store_of_log { OnOk result (IsStoreOf (stored store.old) (entries log.old) → IsStoreOf (stored store.new) (entries log.new)) }
    ensures locks_of_log { OnOk result (AreLocksOf (held locks.old) (entries log.old) → AreLocksOf (held locks.new) (entries log.new)) }
    ensures err_store { OnErr result ((place : Place) → stored store.new place ≡ stored store.old place) }
    ensures err_locks { OnErr result ((place : Place) → grants_at locks.new place ≡ grants_at locks.old place) }
    ensures err_log { OnErr result ((entries log.new ≡ entries log.old) × (next_number log.new ≡ next_number log.old)) }
    ensures err_room { OnErr result ((room store.old ≤ room store.new) × (room_of_log log.old ≤ room_of_log log.new)) }
    ensures roomy { needs_no_memory content ≡ true → 1 ≤ room_of_log log.old → IsOk result }
{
    log.reserve(1)?;
    let redone = redo(alloc, store, locks, number, &content)?;
    log.append(content);
    Ok(redone)
}
