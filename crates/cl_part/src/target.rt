//! The record and the write of an operation.
ghost use Rattle.std.specs.Prelude.{◌≡◌, Some, IfOk};
ghost use Rattle.std.specs.Option.{option_copied};
ghost use Rattle.cl_types.specs.Plain.{plain_reply};
ghost use Rattle.cl_order.specs.Operations.{mode_of, removal_of, addition_of, record_of};

use cl_log::LogRec;
use cl_types::{Key, Mode, NoMemory, Op, Reply, TableName, TxnId, Value, copy_value};
use std::alloc::Global;

// The mode in which an operation locks its place.
pub(crate) fn mode_of(op: &Op) -> Mode
    ensures { result ≡ mode_of op.now }
{
    match op {
        Op::Get => Mode::Shared,
        _ => Mode::Exclusive,
    }
}

// Where an operation of a transaction writes, and the state number that stands there before it.
#[derive(Drop)]
pub(crate) struct Target {
    pub(crate) txn: TxnId,
    pub(crate) table: TableName,
    pub(crate) key: Key,
    pub(crate) before: u64,
}

impl Target {
    // A write of a whole value.
    fn set(&self, old: Option<Value>, new: Option<Value>) -> LogRec
        ensures { result
            ≡ LogRec.Set self.now.txn self.now.table self.now.key self.now.before old new }
    {
        LogRec::Set(
            self.txn,
            self.table.copy(),
            self.key.copy(),
            self.before,
            old,
            new,
        )
    }

    // The record of a removal: none where there is no value.
    fn removal(&self, alloc: Global, old: Option<&Value>) -> Result<Option<LogRec>, NoMemory>
        ensures { IfOk result (λ content. content ≡ removal_of self.now.txn
            (self.now.table, self.now.key) self.now.before (option_copied old.entry) (Some Mode.Exclusive)) }
    {
        match old {
            Some(value) => Ok(Some(self.set(Some(value.copy(alloc)?), None))),
            None => Ok(None),
        }
    }

    // The record of an addition: none where there is no sum, and a whole value where there was none.
    fn addition(
        &self,
        alloc: Global,
        old: Option<&Value>,
        amount: i64,
        reply: &Reply,
    ) -> Result<Option<LogRec>, NoMemory>
        ensures { IfOk result (λ content. content ≡ addition_of self.now.txn
            (self.now.table, self.now.key) (self.now.before, option_copied old.entry) amount reply.now (Some Mode.Exclusive)) }
    {
        let Reply::Sum(sum) = reply else {
            return Ok(None);
        };
        match old {
            Some(_) => Ok(Some(LogRec::Add(
                self.txn,
                self.table.copy(),
                self.key.copy(),
                self.before,
                amount,
            ))),
            None => Ok(Some(self.set(None, Some(Value::of_number(alloc, *sum)?)))),
        }
    }

    // The record of an operation that writes: none where it leaves the value as it is.
    pub(crate) fn write(
        &self,
        alloc: Global,
        op: &Op,
        old: Option<&Value>,
        reply: &Reply,
    ) -> Result<Option<LogRec>, NoMemory>
        requires { reply.now ≡ plain_reply op.now (option_copied old) }
        ensures { IfOk result (λ content. content ≡ record_of self.now.txn
            (self.now.table, self.now.key) op.now (self.now.before, option_copied old.entry) (Some Mode.Exclusive)) }
    {
        match op {
            Op::Get => Ok(None),
            Op::Put(new) => {
                let old = copy_value(alloc, old)?;
                Ok(Some(self.set(old, Some(new.copy(alloc)?))))
            }
            Op::Del => self.removal(alloc, old),
            Op::Add(amount) => self.addition(alloc, old, *amount, reply),
        }
    }
}
