//! The transactions that became firm.
ghost use Rattle.cl_world.specs.Firm.{KnowsNames};

use cl_serial::History;
use cl_types::{NoMemory, TxnId};
use std::alloc::Global;
use std::collections::HashMap;

/// The history, in which each name stands once. Whether a name is in it is one look-up.
#[derive(Drop)]
pub(crate) struct Firm {
    pub(crate) history: History,
    pub(crate) names: HashMap<TxnId, ()>,
    ghost knows: { KnowsNames names history },
}

impl Firm {
    ghost use Rattle.std.specs.Prelude.{◌≡◌, ◌+◌, ◌≤◌, [], IsOk, OnOk, length};
    ghost use Rattle.cl_log.specs.Open.{is_among};
    ghost use Rattle.cl_runs.specs.World.{with_firm, with_one_firm};
    ghost use Rattle.cl_types.specs.AppendOnlyList.{entries};
    ghost use Rattle.cl_world.specs.FirmRoom.{firm_in, firm_room};

    /// No transaction is firm. It allocates nothing.
    pub(crate) fn new(alloc: Global) -> Firm
        ensures { firm_in result ≡ [] }
    {
        Firm {
            history: History::new(alloc),
            names: HashMap::new(alloc),
        }
    }

    /// Makes room for `count` more. The transactions stay, whatever the answer.
    pub(crate) fn reserve(&mut self, count: usize) -> Result<(), NoMemory>
        ensures same { firm_in self.new ≡ firm_in self.old }
        ensures ok { OnOk result (count ≤ firm_room self.new) }
        ensures roomy { count ≤ firm_room self.old → IsOk result }
    {
        if count == 0 {
            return Ok(());
        }
        self.history.reserve(count)?;
        self.names.reserve(count)?;
        Ok(())
    }

    /// Whether a transaction is firm.
    pub(crate) fn has(&self, txn: TxnId) -> bool
        ensures { result ≡ is_among txn (firm_in self.now) }
    {
        self.names.contains_key(&txn)
    }

    /// A transaction is firm from now on. It takes no memory.
    pub(crate) fn join(&mut self, txn: TxnId)
        requires { 1 ≤ firm_room self.old }
        ensures firm { firm_in self.new ≡ with_one_firm (firm_in self.old) txn }
        ensures room { firm_room self.old ≤ firm_room self.new + 1 }
    {
        if self.has(txn) {
            return;
        }
        match self.names.insert(txn, ()) {
            Ok(_) => {}
            Err(_) => unreachable!(),
        }
        self.history.push_reserved(txn);
    }

    /// These transactions are firm from now on. It takes no memory.
    pub(crate) fn join_all(&mut self, txns: &[TxnId])
        requires { length txns.now ≤ firm_room self.old }
        ensures { firm_in self.new ≡ with_firm (firm_in self.old) txns.now }
    {
        for txn in txns {
            self.join(*txn);
        }
    }

    /// The history, taken out.
    pub(crate) fn into_history(self) -> History
        ensures { entries result ≡ firm_in self }
    {
        self.history
    }
}
