//! Which messages come to a primary, and which to a standby.
ghost use Rattle.std.specs.Prelude.{◌≡◌, ◌↔◌, true};
ghost use Rattle.cl_locks.specs.Table.{held};
ghost use Rattle.cl_log.specs.Kind.{number_before, writes};
ghost use Rattle.cl_log.specs.Log.{entries, next_number};
ghost use Rattle.cl_part.specs.State.{IsStateOf};
ghost use Rattle.cl_redo.specs.Condition.{IsFree, IsUnended};
ghost use Rattle.cl_store.specs.Store.{stored};
ghost use Rattle.cl_types.specs.Places.{Place};
ghost use Rattle.cl_vnode.specs.Inputs.{IsStandbyBelow, MayCome, MayComeToStandby};
ghost use Rattle.cl_vnode.specs.Replica.{ReplicaState};
ghost use Rattle.cl_vnode.specs.Taking.{IsLockFree, TakesHere};
ghost use Rattle.cl_wire.specs.Message.{content_of};

use cl_control::Control;
use cl_locks::Locks;
use cl_log::{Log, LogRec};
use cl_part::Part;
use cl_repair::Mode;
use cl_steps::FRONT;
use cl_store::Store;
use cl_types::{Key, Mode as LockMode, TableName, TxnId};
use cl_wire::Body;

/// Whether the message may come to the primary that has this mode, this controller and this
/// participant, whose standby, where there is one, is a node.
pub(crate) fn may_come(mode: Mode, control: &Control, part: &Part, body: &Body) -> bool
    ensures { (state : ReplicaState) → state.control ≡ control.now → IsStateOf part.now state.part
        → (result ≡ true) ↔ (IsStandbyBelow mode × MayCome state (content_of body.now)) }
{
    is_standby_below(mode) && comes(control, part, body)
}

// Whether the message may come to the primary that has this controller and this participant.
fn comes(control: &Control, part: &Part, body: &Body) -> bool
    ensures { (state : ReplicaState) → state.control ≡ control.now → IsStateOf part.now state.part
        → (result ≡ true) ↔ MayCome state (content_of body.now) }
{
    match body {
        Body::Command(_, txn, _, what) => control.may_command(*txn, what),
        Body::Answer(..)
        | Body::Vote(..)
        | Body::Ask(..)
        | Body::Prepare(..)
        | Body::Finish(..)
        | Body::Decision(..) => true,
        Body::LogAck(_, number) => *number <= part.log.last(),
        _ => false,
    }
}

// Whether the standby, where there is one, is a node.
fn is_standby_below(mode: Mode) -> bool
    ensures { (result ≡ true) ↔ IsStandbyBelow mode }
{
    match mode {
        Mode::Lone => true,
        Mode::Pair(standby) => standby < FRONT,
    }
}

/// Whether the message may come to the standby that has this participant.
pub(crate) fn may_come_to_standby(part: &Part, body: &Body) -> bool
    ensures { (state : ReplicaState) → IsStateOf part.now state.part
        → (result ≡ true) ↔ MayComeToStandby state (content_of body.now) }
{
    match body {
        Body::Log(_, number, content) => may_take(part, *number, content),
        _ => false,
    }
}

// Whether the record of this number is one that a standby may take next.
fn may_take(part: &Part, number: u64, content: &LogRec) -> bool
    ensures { (result ≡ true) ↔ TakesHere part.now number content.now }
{
    is_next(&part.log, number)
        && carries(&part.store, content)
        && is_free(&part.locks, content)
        && is_unended(&part.log, content)
}

// Whether the number is the log's next one.
fn is_next(log: &Log, number: u64) -> bool
    ensures { (result ≡ true) ↔ (number ≡ next_number log.now) }
{
    number > 0 && log.last() == number - 1
}

// Whether a write carries the number that stands at its place.
fn carries(store: &Store, content: &LogRec) -> bool
    ensures { (result ≡ true) ↔ ((place : Place) → writes place content.now ≡ true
        → (stored store.now place).0 ≡ number_before content.now) }
{
    match content {
        LogRec::Set(_, table, key, before, ..)
        | LogRec::Add(_, table, key, before, _)
        | LogRec::Comp(_, table, key, before, ..) => store.get(table, key).0 == *before,
        _ => true,
    }
}

// Whether no other transaction holds a lock at the place that conflicts with the mode.
fn is_lock_free(locks: &Locks, txn: TxnId, table: &TableName, key: &Key, mode: LockMode) -> bool
    ensures { (result ≡ true) ↔ IsLockFree (held locks.now) txn (table.now, key.now) mode }
{
    locks.first_conflict(txn, table, key, mode).is_none()
}

// Whether no other transaction's lock conflicts with what the record takes.
fn is_free(locks: &Locks, content: &LogRec) -> bool
    ensures { (result ≡ true) ↔ IsFree (held locks.now) content.now }
{
    match content {
        LogRec::Touch(txn, table, key, mode) => is_lock_free(locks, *txn, table, key, *mode),
        LogRec::Set(txn, table, key, ..) | LogRec::Add(txn, table, key, ..) => {
            is_lock_free(locks, *txn, table, key, LockMode::Exclusive)
        }
        _ => true,
    }
}

// Whether what takes a lock is of a transaction without End.
fn is_unended(log: &Log, content: &LogRec) -> bool
    ensures { (result ≡ true) ↔ IsUnended (entries log.now) content.now }
{
    match content {
        LogRec::Touch(txn, ..) | LogRec::Set(txn, ..) | LogRec::Add(txn, ..) => {
            !log.has_ended(*txn)
        }
        _ => true,
    }
}
