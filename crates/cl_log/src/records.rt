//! The records of a log.
ghost use Rattle.std.specs.Prelude.{◌≡◌, IfOk};

use cl_types::{Key, Mode, NoMemory, TableName, TxnId, Value, copy_value};
use std::alloc::Global;

/// What a compensation does to its record.
#[derive(Debug, PartialEq, Eq, Drop)]
pub enum Form {
    /// It writes the image; an absent one leaves a dead record.
    Image(Option<Value>),
    /// It subtracts the amount.
    Amount(i64),
}

/// A record of a log.
///
/// A write (`Set`, `Add`, `Comp`) carries the state number that its record had before it: the log
/// number of that record's last write, or 0 where it was never written. An image is a value, or
/// `None` where the record is absent or dead.
#[derive(Debug, PartialEq, Eq, Drop)]
pub enum LogRec {
    /// A lock without a write.
    Touch(TxnId, TableName, Key, Mode),
    /// A write of a whole value: the number before, the old image, the new image.
    Set(TxnId, TableName, Key, u64, Option<Value>, Option<Value>),
    /// An addition to a number: the number before, the amount.
    Add(TxnId, TableName, Key, u64, i64),
    /// The undoing of a write: the number before, the log number of the undone write, what it does.
    Comp(TxnId, TableName, Key, u64, u64, Form),
    /// The transaction can be committed here.
    Prepared(TxnId),
    /// The transaction has ended here: committed or not.
    End(TxnId, bool),
    /// The transaction is committed.
    Decide(TxnId),
}

impl Form {
    /// Another form of the same content.
    pub fn copy(&self, alloc: Global) -> Result<Form, NoMemory>
        ensures { IfOk result (λ copied. copied ≡ self.now) }
    {
        match self {
            Form::Image(image) => Ok(Form::Image(copy_value(alloc, image.as_ref())?)),
            Form::Amount(amount) => Ok(Form::Amount(*amount)),
        }
    }
}

impl LogRec {
    /// Another record of the same content.
    pub fn copy(&self, alloc: Global) -> Result<LogRec, NoMemory>
        ensures { IfOk result (λ copied. copied ≡ self.now) }
    {
        Ok(match self {
            LogRec::Touch(txn, table, key, mode) => {
                LogRec::Touch(*txn, table.copy(), key.copy(), *mode)
            }
            LogRec::Set(txn, table, key, before, old, new) => LogRec::Set(
                *txn,
                table.copy(),
                key.copy(),
                *before,
                copy_value(alloc, old.as_ref())?,
                copy_value(alloc, new.as_ref())?,
            ),
            LogRec::Add(txn, table, key, before, amount) => {
                LogRec::Add(*txn, table.copy(), key.copy(), *before, *amount)
            }
            LogRec::Comp(txn, table, key, before, undone, form) => LogRec::Comp(
                *txn,
                table.copy(),
                key.copy(),
                *before,
                *undone,
                form.copy(alloc)?,
            ),
            LogRec::Prepared(txn) => LogRec::Prepared(*txn),
            LogRec::End(txn, commit) => LogRec::End(*txn, *commit),
            LogRec::Decide(txn) => LogRec::Decide(*txn),
        })
    }
}
