//! The transactions that were decided, in order.
ghost use Rattle.std.specs.Prelude.{◌≡◌, [], not, length, IfOk, OnOk, OnErr, slice_get};
ghost use Rattle.cl_backup.specs.Decisions.{with_decision};
ghost use Rattle.cl_log.specs.Open.{is_among};

use cl_types::{AppendOnlyList, NoMemory, TxnId};
use std::alloc::Global;
use std::collections::HashMap;
use std::marker::Model;

/// The decisions that a replica keeps, in the order of taking. Each stands once.
///
/// Contracts see the list of their transactions. Whether one is in it is one look-up.
#[derive(Drop)]
pub struct Decisions {
    list: AppendOnlyList<TxnId>,
    names: HashMap<TxnId, ()>,
}

impl Model for Decisions {
    ghost use Rattle.std.specs.Prelude.{List};
    ghost use Rattle.cl_types.specs.declared.operations.TxnId.{TxnId};
    ghost use Rattle.cl_backup.specs.Kept.{view_of, IsKept};

    ghost Value = { List TxnId };

    ghost view = { view_of };

    ghost invariant = { IsKept };
}

impl Decisions {
    /// No decision is kept. It allocates nothing.
    pub fn new(alloc: Global) -> Decisions
        ensures { result ≡ [] }
    {
        Decisions {
            list: AppendOnlyList::new(alloc),
            names: HashMap::new(alloc),
        }
    }

    /// Keeps the decision on a transaction, and answers whether it is new. After an error the
    /// decisions are as they were. It costs one look-up and at most one entry.
    pub fn take(&mut self, txn: TxnId) -> Result<bool, NoMemory>
        ensures new { IfOk result (λ new. new ≡ not (is_among txn self.old)) }
        ensures ok { OnOk result (self.new ≡ with_decision self.old txn) }
        ensures err { OnErr result (self.new ≡ self.old) }
    {
        if self.decided(txn) {
            return Ok(false);
        }
        self.list.reserve(1)?;
        self.names.insert(txn, ())?;
        self.list.push_reserved(txn);
        Ok(true)
    }

    /// Whether the transaction is decided. It is one look-up.
    pub fn decided(&self, txn: TxnId) -> bool
        ensures { result ≡ is_among txn self.now }
    {
        self.names.contains_key(&txn)
    }

    /// The decision at a place in the order of taking, counted from 0, or `None` past the end.
    pub fn at(&self, place: usize) -> Option<TxnId>
        ensures { result ≡ slice_get self.now place }
    {
        self.list.at(place).copied()
    }

    /// How many decisions are kept.
    pub fn len(&self) -> usize
        ensures { result ≡ length self.now }
    {
        self.list.len()
    }
}
