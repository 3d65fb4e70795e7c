//! What a log knows of a transaction.
ghost use Rattle.std.specs.Prelude.{◌≡◌, ◌+◌, ◌≤◌, ◌||◌, ◌&&◌, not, if◌then◌else◌, true, Some, None, IfSome};
ghost use Rattle.std.specs.HashMap.{spare};
ghost use Rattle.cl_types.specs.Transactions.{same_txn};
ghost use Rattle.cl_log.specs.declared.stage.Stage.{Stage};
ghost use Rattle.cl_log.specs.Kind.{opens, is_prepared, is_end};
ghost use Rattle.cl_log.specs.Known.{nothing, known_with, known_at, is_known, left_after};

use crate::{LogRec, Stage};
use cl_types::TxnId;
use std::collections::HashMap;

/// What a log knows of a transaction.
#[derive(Clone, Copy, Debug)]
pub(crate) struct Known {
    /// The number of its last record.
    pub(crate) last: Option<u64>,
    /// Whether it has a Touch, Set, Add or Prepared.
    pub(crate) begun: bool,
    pub(crate) prepared: bool,
    pub(crate) ended: bool,
    /// The number of its last write that is not undone.
    pub(crate) left: Option<u64>,
}

/// What a log knows of each transaction that has records in it.
pub(crate) type Index = HashMap<TxnId, Known>;

impl Known {
    /// What is known of a transaction without records.
    pub(crate) fn nothing() -> Known
        ensures { result ≡ nothing }
    {
        Known {
            last: None,
            begun: false,
            prepared: false,
            ended: false,
            left: None,
        }
    }

    /// With one more record, which has this number. It is `is_undone` where a compensation names it
    /// already.
    pub(crate) fn with(self, content: &LogRec, number: u64, is_undone: bool) -> Known
        ensures { result ≡ known_with self content.now number is_undone }
    {
        let is_left = content.can_be_undone() && !is_undone;
        Known {
            last: Some(number),
            begun: self.begun || content.opens(),
            prepared: self.prepared || content.is_prepared(),
            ended: self.ended || content.is_end(),
            left: if is_left { Some(number) } else { self.left },
        }
    }

    /// How far the transaction is.
    pub(crate) fn stage(self) -> Stage
        ensures { result ≡ (if not self.begun then Stage.Unknown else
            (if self.ended then Stage.Ended else (if self.prepared then Stage.Prepared else Stage.Running))) }
    {
        if !self.begun {
            Stage::Unknown
        } else if self.ended {
            Stage::Ended
        } else if self.prepared {
            Stage::Prepared
        } else {
            Stage::Running
        }
    }

    /// Whether the transaction is open.
    pub(crate) fn is_open(self) -> bool
        ensures { result ≡ (self.begun && not self.ended) }
    {
        self.begun && !self.ended
    }
}

/// What the index has for a transaction. It is one look-up.
pub(crate) fn known_of(index: &Index, txn: TxnId) -> Known
    ensures { result ≡ known_at index.now txn }
{
    match index.get(&txn) {
        Some(known) => *known,
        None => Known::nothing(),
    }
}

/// Puts down what is known of a transaction. It takes no memory.
pub(crate) fn put(index: &mut Index, txn: TxnId, known: Known)
    requires { 1 ≤ spare index.old }
    ensures known { (other : TxnId) → known_at index.new other ≡ (if same_txn txn other then known else known_at index.old other) }
    ensures spare { spare index.old ≤ spare index.new + 1 }
{
    match index.insert(txn, known) {
        Ok(_) => {}
        Err(_) => unreachable!(),
    }
}

/// Puts down another last write that is not undone, where there is one: for that transaction, which
/// has records.
pub(crate) fn uncover(index: &mut Index, uncovered: Option<(TxnId, Option<u64>)>)
    requires { IfSome uncovered (λ found. is_known index.old found.0 ≡ true) }
    ensures known { (txn : TxnId) → known_at index.new txn
        ≡ record (known_at index.old txn) { left = left_after uncovered (known_at index.old txn).left txn } }
    ensures spare { spare index.new ≡ spare index.old }
{
    let Some((txn, left)) = uncovered else { return };
    match index.get_mut(&txn) {
        Some(known) => known.left = left,
        None => unreachable!(),
    }
}
