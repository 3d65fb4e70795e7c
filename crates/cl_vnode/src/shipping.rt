//! What a primary ships to its standby.
ghost use Rattle.std.specs.Prelude.{◌≡◌, ◌+◌, ◌++◌, map, IfOk, OnOk};
ghost use Rattle.std.specs.Option.{option_copied};
ghost use Rattle.cl_log.specs.Log.{entries};
ghost use Rattle.cl_steps.specs.Steps.{step_of};
ghost use Rattle.cl_types.specs.GrowingList.{items};
ghost use Rattle.cl_vnode.specs.Sending.{found_at};
ghost use Rattle.cl_vnode.specs.Step.{entries_from, firm_at_once, log_message, log_messages};

use cl_log::{Log, LogRec};
use cl_repair::Mode;
use cl_steps::{Outgoing, SendList, Steps};
use cl_types::{NoMemory, TxnId};
use cl_wire::{Body, Payload};
use std::alloc::Global;

// Adds the record of this number, where there is one, to what is sent to the standby.
fn ship_record(
    alloc: Global,
    standby: u32,
    v: u32,
    number: u64,
    content: Option<&LogRec>,
    sends: &mut SendList,
) -> Result<(), NoMemory>
    ensures { OnOk result (items sends.new
        ≡ items sends.old ++ map (log_message standby v) (found_at number (option_copied content.entry))) }
{
    let Some(content) = content else {
        return Ok(());
    };
    let payload = Payload::new(Body::Log(v, number, content.copy(alloc)?));
    sends.push(Outgoing {
        to: standby,
        payload,
    })
}

// The records after this number, for the standby.
fn records_after(
    alloc: Global,
    standby: u32,
    v: u32,
    log: &Log,
    last: u64,
) -> Result<SendList, NoMemory>
    ensures { IfOk result (λ sends. items sends
        ≡ map (log_message standby v) (entries_from (last + 1) (entries log.now))) }
{
    let mut sends = SendList::new(alloc);
    for number in last..log.last() {
        ship_record(
            alloc,
            standby,
            v,
            number + 1,
            log.at(number + 1),
            &mut sends,
        )?;
    }
    Ok(sends)
}

// Adds the messages at the end, in order.
fn append(sends: &mut SendList, others: SendList) -> Result<(), NoMemory>
    ensures { OnOk result (items sends.new ≡ items sends.old ++ items others) }
{
    let mut others = others.into_items().into_iter();
    while let Some(message) = others.next() {
        sends.push(message)?;
    }
    Ok(())
}

/// Ships the records after this number to the standby, before what else the step sends. Without a
/// standby nothing is done.
pub(crate) fn ship(
    alloc: Global,
    mode: Mode,
    v: u32,
    log: &Log,
    last: u64,
    steps: Steps,
) -> Result<Steps, NoMemory>
    ensures { IfOk result (λ shipped. step_of shipped ≡ record (step_of steps) {
      sends = log_messages mode v (entries_from (last + 1) (entries log.now)) ++ (step_of steps).sends;
    }) }
{
    let Mode::Pair(standby) = mode else {
        return Ok(steps);
    };
    let mut send = records_after(alloc, standby, v, log, last)?;
    append(&mut send, steps.send)?;
    Ok(Steps {
        send,
        firm: steps.firm,
        entry: steps.entry,
        short: steps.short,
    })
}

/// Tells that the transaction is firm once its Decide is in the log, where there is no standby.
pub(crate) fn tell_firm_at_once(mode: Mode, steps: &mut Steps, txn: TxnId) -> Result<(), NoMemory>
    ensures { OnOk result (step_of steps.new
        ≡ record (step_of steps.old) { firm = (step_of steps.old).firm ++ firm_at_once mode txn }) }
{
    match mode {
        Mode::Lone => steps.firm.push(txn),
        Mode::Pair(_) => Ok(()),
    }
}
