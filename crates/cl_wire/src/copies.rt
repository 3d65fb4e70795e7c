//! Copies of bodies. A link keeps a body until it is acknowledged, so each sending copies it.
ghost use Rattle.std.specs.Prelude.{◌≡◌, IfOk};
ghost use Rattle.cl_types.specs.GrowingList.{items};
ghost use Rattle.cl_wire.specs.Message.{content_of};

use crate::Body;
use cl_log::TxnList;
use cl_store::ItemList;
use cl_types::NoMemory;
use std::alloc::Global;

// Another list of the same records.
fn copy_items(alloc: Global, list: &ItemList) -> Result<ItemList, NoMemory>
    ensures { IfOk result (λ copy. items copy ≡ items list.now) }
{
    let items = list.as_slice();
    let mut copy = ItemList::new(alloc);
    copy.reserve(items.len())?;
    for item in items {
        copy.push(item.copy(alloc)?)?;
    }
    Ok(copy)
}

// Another list of the same names.
fn copy_txns(alloc: Global, list: &TxnList) -> Result<TxnList, NoMemory>
    ensures { IfOk result (λ copy. items copy ≡ items list.now) }
{
    let txns = list.as_slice();
    let mut copy = TxnList::new(alloc);
    copy.reserve(txns.len())?;
    for txn in txns {
        copy.push(*txn)?;
    }
    Ok(copy)
}

impl Body {
    /// Another body that says the same. The room of its lists may differ.
    ///
    /// It allocates for values and lists alone and runs in linear time; no contract says so.
    pub fn copy(&self, alloc: Global) -> Result<Body, NoMemory>
        ensures { IfOk result (λ copy. content_of copy ≡ content_of self.now) }
    {
        Ok(match self {
            Body::Bare => Body::Bare,
            Body::Command(v, txn, command_number, command) => {
                Body::Command(*v, *txn, *command_number, command.copy(alloc)?)
            }
            Body::Outcome(txn, command_number, outcome) => {
                Body::Outcome(*txn, *command_number, outcome.copy(alloc)?)
            }
            Body::Ask(v, txn, command_number, table, key, op) => {
                let (table, key) = (table.copy(), key.copy());
                Body::Ask(*v, *txn, *command_number, table, key, op.copy(alloc)?)
            }
            Body::Answer(v, txn, command_number, answer) => {
                Body::Answer(*v, *txn, *command_number, answer.copy(alloc)?)
            }
            Body::Prepare(v, txn) => Body::Prepare(*v, *txn),
            Body::Vote(v, txn) => Body::Vote(*v, *txn),
            Body::Finish(v, txn, commit) => Body::Finish(*v, *txn, *commit),
            Body::Inquire(v, txn) => Body::Inquire(*v, *txn),
            Body::Decision(v, txn, commit) => Body::Decision(*v, *txn, *commit),
            Body::Log(v, number, entry) => Body::Log(*v, *number, entry.copy(alloc)?),
            Body::LogAck(v, number) => Body::LogAck(*v, *number),
            Body::Repair(v, node) => Body::Repair(*v, *node),
            Body::Records(v, index, list) => Body::Records(*v, *index, copy_items(alloc, list)?),
            Body::Names(v, index, last, low, list) => {
                Body::Names(*v, *index, *last, *low, copy_txns(alloc, list)?)
            }
            Body::CopyAck(v, index) => Body::CopyAck(*v, *index),
        })
    }
}
