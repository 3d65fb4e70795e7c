//! What a record says of its transaction.
ghost use Rattle.std.specs.Prelude.{◌≡◌, ℕ, Some, nat_eq};
ghost use Rattle.std.specs.Option.{option_eq};
ghost use Rattle.cl_types.specs.Transactions.{same_txn};
ghost use Rattle.cl_log.specs.Kind.{txn_of, is_of, opens, is_prepared, is_end, can_be_undone, undoes};

use crate::LogRec;
use cl_types::TxnId;

// Whether two names are of one transaction.
pub(crate) fn is_same_txn(a: TxnId, b: TxnId) -> bool
    ensures { result ≡ same_txn a b }
{
    a.session == b.session && a.number == b.number
}

impl LogRec {
    /// The transaction of the record.
    pub fn txn(&self) -> TxnId
        ensures { result ≡ txn_of self.now }
    {
        match self {
            LogRec::Touch(txn, ..)
            | LogRec::Set(txn, ..)
            | LogRec::Add(txn, ..)
            | LogRec::Comp(txn, ..)
            | LogRec::Prepared(txn)
            | LogRec::End(txn, _)
            | LogRec::Decide(txn) => *txn,
        }
    }

    /// Whether it is a record of the transaction.
    pub fn is_of(&self, txn: TxnId) -> bool
        ensures { result ≡ is_of txn self.now }
    {
        is_same_txn(self.txn(), txn)
    }

    // Whether it opens its transaction.
    pub(crate) fn opens(&self) -> bool
        ensures { result ≡ opens self.now }
    {
        matches!(
            self,
            LogRec::Touch(..) | LogRec::Set(..) | LogRec::Add(..) | LogRec::Prepared(_)
        )
    }

    pub(crate) fn is_prepared(&self) -> bool
        ensures { result ≡ is_prepared self.now }
    {
        matches!(self, LogRec::Prepared(_))
    }

    pub(crate) fn is_end(&self) -> bool
        ensures { result ≡ is_end self.now }
    {
        matches!(self, LogRec::End(..))
    }

    // Whether it is a Set or an Add.
    pub(crate) fn can_be_undone(&self) -> bool
        ensures { result ≡ can_be_undone self.now }
    {
        matches!(self, LogRec::Set(..) | LogRec::Add(..))
    }

    // The number that it names as undone, where it is a compensation.
    pub(crate) fn names(&self) -> Option<u64>
        ensures { (number : ℕ) → undoes number self.now ≡ option_eq nat_eq result (Some number) }
    {
        match self {
            LogRec::Comp(_, _, _, _, undone, _) => Some(*undone),
            _ => None,
        }
    }

    // Whether it is a compensation that names the number as undone.
    pub(crate) fn undoes(&self, number: u64) -> bool
        ensures { result ≡ undoes number self.now }
    {
        matches!(self, LogRec::Comp(_, _, _, _, undone, _) if *undone == number)
    }
}
