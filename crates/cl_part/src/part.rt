//! The participant itself.
ghost use Rattle.std.specs.Prelude.{◌≡◌, ◌≢◌, ◌+◌, ◌≤◌, ◌<◌, true, false, [], length, Some, None, Err, IfOk, OnOk, OnErr};
ghost use Rattle.cl_types.specs.declared.operations.TxnId.{TxnId};
ghost use Rattle.cl_types.specs.Places.{Place};
ghost use Rattle.cl_types.specs.Plain.{plain_reply};
ghost use Rattle.cl_log.specs.Kind.{writes, number_before, can_be_undone};
ghost use Rattle.cl_log.specs.Locks.{takes_lock};
ghost use Rattle.cl_log.specs.Log.{entries, next_number, room as room_of_log};
ghost use Rattle.cl_log.specs.Rest.{rest_to_undo};
ghost use Rattle.cl_locks.specs.Grants.{first_conflict};
ghost use Rattle.cl_locks.specs.Table.{grants_at, held};
ghost use Rattle.cl_order.specs.Operations.{mode_of, record_of};
ghost use Rattle.cl_store.specs.Store.{stored, room};
ghost use Rattle.cl_part.specs.Calls.{answer_to, after_op, after_prepare, after_decide, after_end, after_undo, after_abort, has_rest, place_of};
ghost use Rattle.cl_part.specs.Recorded.{IsSame, HasRecorded, HasRecordedOptional, HasWritten, HasAppendedOptional, touched};
ghost use Rattle.cl_part.specs.State.{State, IsStateOf, IsBelowNext, new_state};

use crate::target::{Target, mode_of};
use cl_locks::{Granted, LockRefused, Locks};
use cl_log::{LOG_NUMBER_MAX, Log, LogRec, undo_of};
use cl_redo::{reserve, take};
use cl_store::Store;
use cl_types::{
    Answer, Key, Mode, NoMemory, Op, Refused, Reply, TableName, TxnId, Value, apply_op,
};
use std::alloc::Global;

/// What a primary keeps of the transactions at a virtual node: the records, the log and the locks.
///
/// Contracts see it as a state: what stands at each place, the log, and the list of grants
/// (`IsStateOf`). Each call is a function of it.
#[derive(Debug, Drop)]
pub struct Part {
    pub store: Store,
    pub log: Log,
    pub locks: Locks,
    alloc: Global,
}

impl Part {
    /// A participant with no records and no locks, whose log begins with the number `first`. It
    /// allocates nothing.
    pub fn new(alloc: Global, first: u64) -> Part
        requires { 1 ≤ first }
        ensures state { IsStateOf result (new_state first) }
        ensures below { IsBelowNext result }
        ensures next { next_number result.log ≡ first }
    {
        Part {
            store: Store::new(alloc),
            log: Log::new(alloc, first),
            locks: Locks::new(alloc),
            alloc,
        }
    }

    /// The participant of a replica that was made otherwise, as by taking the records of a log.
    pub fn from_parts(alloc: Global, store: Store, log: Log, locks: Locks) -> Part
        ensures store { result.store ≡ store }
        ensures log { result.log ≡ log }
        ensures locks { result.locks ≡ locks }
    {
        Part {
            store,
            log,
            locks,
            alloc,
        }
    }

    // Takes a record that asks for no lock, and gives its number.
    fn record(&mut self, content: LogRec) -> Result<u64, NoMemory>
        requires numbers { next_number self.old.log ≤ LOG_NUMBER_MAX }
        requires below { IsBelowNext self.old }
        requires unlocked { takes_lock content ≡ false }
        requires meets { (place : Place) → writes place content ≡ true
            → (stored self.old.store place).0 ≡ number_before content }
        ensures number { IfOk result (λ number. number ≡ next_number self.old.log) }
        ensures recorded { OnOk result (HasRecorded self.old self.new content) }
        ensures err { OnErr result (IsSame self.old self.new) }
    {
        let number = self.log.last() + 1;
        take(
            self.alloc,
            &mut self.store,
            &mut self.log,
            &mut self.locks,
            number,
            content,
        )?;
        Ok(number)
    }

    /// Carries out an operation of the transaction at a place, unless another transaction holds a
    /// lock in conflict there.
    ///
    /// `Refused` names the first holder in conflict, in order of grant. After `Refused` and
    /// `NoMemory` all is as it was. The call looks the place up in the store and in the locks, and
    /// appends at most one record. How often it allocates does not grow with what there is.
    pub fn ask_op(&mut self, txn: TxnId, table: &TableName, key: &Key, op: &Op) -> Answer
        requires numbers { next_number self.old.log ≤ LOG_NUMBER_MAX }
        requires below { IsBelowNext self.old }
        ensures answer { (before : State) → IsStateOf self.old before → result ≢ Answer.NoMemory
            → result ≡ answer_to before txn (table.now, key.now) op.now }
        ensures state { (before : State) → IsStateOf self.old before → result ≢ Answer.NoMemory
            → IsStateOf self.new (after_op before txn (table.now, key.now) op.now) }
        ensures no_memory { (before : State) → IsStateOf self.old before → result ≡ Answer.NoMemory
            → IsStateOf self.new before }
        ensures below { IsBelowNext self.new }
        ensures next { next_number self.new.log ≤ next_number self.old.log + 1 }
    {
        match self.carry_out(txn, table, key, op) {
            Ok(reply) => Answer::Done(reply),
            Err(LockRefused::Held(holder)) => Answer::Refused(holder),
            Err(LockRefused::NoMemory) => Answer::NoMemory,
        }
    }

    // Carries out an operation whose lock is granted. It does all that may fail before it changes
    // anything.
    fn carry_out(
        &mut self,
        txn: TxnId,
        table: &TableName,
        key: &Key,
        op: &Op,
    ) -> Result<Reply, LockRefused>
        requires numbers { next_number self.old.log ≤ LOG_NUMBER_MAX }
        requires below { IsBelowNext self.old }
        ensures reply { let place : Place = (table.now, key.now) in
            IfOk result (λ reply. reply ≡ plain_reply op.now (stored self.old.store place).1) }
        ensures free { let place : Place = (table.now, key.now) in
            OnOk result
            (first_conflict (grants_at self.old.locks place) txn place (mode_of op.now) ≡ None) }
        ensures held { let place : Place = (table.now, key.now) in
            (holder : TxnId) → result ≡ Err (LockRefused.Held holder)
            → first_conflict (grants_at self.old.locks place) txn place (mode_of op.now)
            ≡ Some holder }
        ensures recorded { let place : Place = (table.now, key.now) in
            OnOk result (HasRecordedOptional self.old self.new
            (record_of txn place op.now (stored self.old.store place)
            (held self.old.locks txn place))) }
        ensures err { OnErr result (IsSame self.old self.new) }
    {
        let (before, old) = self.store.get(table, key);
        let (reply, value) = apply_op(self.alloc, op, old)?;
        let target = Target {
            txn,
            table: table.copy(),
            key: key.copy(),
            before,
        };
        let write = target.write(self.alloc, op, old, &reply)?;
        reserve(&mut self.store, &mut self.log, 1)?;
        let granted = self.locks.ask(txn, table, key, mode_of(op))?;
        match write {
            Some(content) => {
                self.write(table, key, content, value);
                Ok(reply)
            }
            None => {
                self.touch(txn, table, key, mode_of(op), granted);
                Ok(reply)
            }
        }
    }

    // Appends the record of a write, and makes it.
    fn write(&mut self, table: &TableName, key: &Key, content: LogRec, value: Option<Value>)
        requires numbers { next_number self.old.log ≤ LOG_NUMBER_MAX }
        requires below { IsBelowNext self.old }
        requires room { (1 ≤ room self.old.store) × (1 ≤ room_of_log self.old.log) }
        ensures { HasWritten self.old self.new (table.now, key.now) content value }
    {
        let number = self.log.append(content);
        self.store.write(table, key, value, number);
    }

    // Appends a Touch where a lock was granted that is new or stronger.
    fn touch(&mut self, txn: TxnId, table: &TableName, key: &Key, mode: Mode, granted: Granted)
        requires numbers { next_number self.old.log ≤ LOG_NUMBER_MAX }
        requires room { 1 ≤ room_of_log self.old.log }
        ensures { HasAppendedOptional self.old self.new
            (touched granted (LogRec.Touch txn table.now key.now mode)) }
    {
        if granted != Granted::Already {
            self.log
                .append(LogRec::Touch(txn, table.copy(), key.copy(), mode));
        }
    }

    /// Votes yes for the transaction: appends its Prepared, and gives the number of that record.
    pub fn prepare(&mut self, txn: TxnId) -> Result<u64, NoMemory>
        requires numbers { next_number self.old.log ≤ LOG_NUMBER_MAX }
        requires below { IsBelowNext self.old }
        ensures number { IfOk result (λ number. number ≡ next_number self.old.log) }
        ensures state { (before : State) → IsStateOf self.old before
            → OnOk result (IsStateOf self.new (after_prepare before txn)) }
        ensures err { (before : State) → IsStateOf self.old before
            → OnErr result (IsStateOf self.new before) }
        ensures below { IsBelowNext self.new }
        ensures next { next_number self.new.log ≤ next_number self.old.log + 1 }
    {
        self.record(LogRec::Prepared(txn))
    }

    /// Logs that the transaction is decided: appends its Decide, and gives the number of that record.
    ///
    /// The primary of the session's virtual node calls it once every participant has voted.
    pub fn decide(&mut self, txn: TxnId) -> Result<u64, NoMemory>
        requires numbers { next_number self.old.log ≤ LOG_NUMBER_MAX }
        requires below { IsBelowNext self.old }
        ensures number { IfOk result (λ number. number ≡ next_number self.old.log) }
        ensures state { (before : State) → IsStateOf self.old before
            → OnOk result (IsStateOf self.new (after_decide before txn)) }
        ensures err { (before : State) → IsStateOf self.old before
            → OnErr result (IsStateOf self.new before) }
        ensures below { IsBelowNext self.new }
        ensures next { next_number self.new.log ≤ next_number self.old.log + 1 }
    {
        self.record(LogRec::Decide(txn))
    }

    /// Ends the transaction, committed or not: appends its End, frees its locks, and gives the
    /// number of that record. A transaction that is not committed has nothing left to undo.
    pub fn end(&mut self, txn: TxnId, commit: bool) -> Result<u64, NoMemory>
        requires numbers { next_number self.old.log ≤ LOG_NUMBER_MAX }
        requires below { IsBelowNext self.old }
        requires undone { commit ≡ false → rest_to_undo (entries self.old.log) txn ≡ [] }
        ensures number { IfOk result (λ number. number ≡ next_number self.old.log) }
        ensures state { (before : State) → IsStateOf self.old before
            → OnOk result (IsStateOf self.new (after_end before txn commit)) }
        ensures err { (before : State) → IsStateOf self.old before
            → OnErr result (IsStateOf self.new before) }
        ensures below { IsBelowNext self.new }
        ensures next { next_number self.new.log ≤ next_number self.old.log + 1 }
    {
        self.record(LogRec::End(txn, commit))
    }

    /// Undoes the last write of the transaction that is not undone yet. `false` where nothing is
    /// left to undo.
    ///
    /// It appends the compensation and writes the store. So a rollback that was cut off continues
    /// where its log ends. Of the log it reads the records of the transaction, from the write back to
    /// the one that is undone next.
    pub fn undo_one(&mut self, txn: TxnId) -> Result<bool, NoMemory>
        requires numbers { next_number self.old.log ≤ LOG_NUMBER_MAX }
        requires below { IsBelowNext self.old }
        ensures undone { IfOk result (λ undone. undone ≡ has_rest (entries self.old.log) txn) }
        ensures state { (before : State) → IsStateOf self.old before
            → OnOk result (IsStateOf self.new (after_undo before txn)) }
        ensures err { (before : State) → IsStateOf self.old before
            → OnErr result (IsStateOf self.new before) }
        ensures below { IsBelowNext self.new }
        ensures next { next_number self.new.log ≤ next_number self.old.log + 1 }
    {
        let Some(number) = self.log.rest_to_undo(txn) else {
            return Ok(false);
        };
        let Some(content) = self.log.at(number) else {
            unreachable!()
        };
        let (table, key) = place_of(content);
        let (before, _) = self.store.get(&table, &key);
        let undo = undo_of(self.alloc, content, number, before)?;
        self.record(undo)?;
        Ok(true)
    }

    /// Undoes what is left of the transaction, last write first, appends its End, and frees its
    /// locks. Gives the number of the End.
    ///
    /// A primary calls it once for a transaction that is not committed. It costs an undo step for
    /// each write that is left. After an error a rollback may have begun, and the participant may
    /// only be dropped.
    pub fn abort(&mut self, txn: TxnId) -> Result<u64, Refused>
        requires { IsBelowNext self.old }
        ensures number { IfOk result (λ number. number
            ≡ next_number self.old.log + length (rest_to_undo (entries self.old.log) txn)) }
        ensures state { (before : State) → IsStateOf self.old before
            → OnOk result (IsStateOf self.new (after_abort before txn)) }
        ensures fits { OnOk result
            (next_number self.old.log + length (rest_to_undo (entries self.old.log) txn)
            ≤ LOG_NUMBER_MAX) }
        ensures spent { result ≡ Err Refused.Spent
            → LOG_NUMBER_MAX
            < next_number self.old.log + length (rest_to_undo (entries self.old.log) txn) }
        ensures below { IsBelowNext self.new }
        ensures next { next_number self.new.log
            ≤ next_number self.old.log + length (rest_to_undo (entries self.old.log) txn) + 1 }
    {
        while self.log.last() < LOG_NUMBER_MAX {
            if !self.undo_one(txn)? {
                return Ok(self.end(txn, false)?);
            }
        }
        Err(Refused::Spent)
    }
}

// The place of a Set or an Add.
fn place_of(content: &LogRec) -> (TableName, Key)
    requires { can_be_undone content.now ≡ true }
    ensures { result ≡ place_of content.now }
{
    match content {
        LogRec::Set(_, table, key, ..) | LogRec::Add(_, table, key, ..) => (
            table.copy(),
            key.copy(),
        ),
        _ => unreachable!(),
    }
}
