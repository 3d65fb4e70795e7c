//! The messages of a step.
ghost use Rattle.std.specs.Prelude.{◌≡◌, ◌<◌, [], ◌∷◌, ◌++◌, map, OnOk};
ghost use Rattle.cl_steps.specs.Steps.{sent, step_of};
ghost use Rattle.cl_types.specs.GrowingList.{items};
ghost use Rattle.cl_wire.specs.Message as message;
ghost use Rattle.cl_wire.specs.Message.{content_of};
ghost use Rattle.cl_vnode.specs.Sending.{AreSends, IsSend, is_no_memory, message_of_act, primary_of};
ghost use Rattle.cl_vnode.specs.Sending as sending;

use crate::noted::Noted;
use cl_control::{Act, ActList};
use cl_steps::{FRONT, Steps};
use cl_types::{Answer, NoMemory, TxnId};
use cl_wire::Body;

/// Sends a message to the primary of a virtual node.
pub(crate) fn send_to_primary(
    roster: &Noted<'_>,
    steps: &mut Steps,
    v: u32,
    body: Body,
) -> Result<(), NoMemory>
    requires { v < roster.now.nodes }
    ensures { OnOk result (step_of steps.new ≡ record (step_of steps.old) {
      sends = (step_of steps.old).sends ++ sent (primary_of roster.now v) (content_of body) ∷ [];
    }) }
{
    steps.send(roster.primary(v), body)
}

// Sends an act that is a message.
fn send_act(roster: &Noted<'_>, steps: &mut Steps, act: Act) -> Result<(), NoMemory>
    requires { IsSend roster.now.nodes act }
    ensures { OnOk result (step_of steps.new ≡ record (step_of steps.old) {
      sends = (step_of steps.old).sends ++ message_of_act (primary_of roster.now) act ∷ [];
    }) }
{
    match act {
        Act::Ask(v, txn, number, table, key, op) => send_to_primary(
            roster,
            steps,
            v,
            Body::Ask(v, txn, number, table, key, op),
        ),
        Act::Prepare(v, txn) => send_to_primary(roster, steps, v, Body::Prepare(v, txn)),
        Act::Finish(v, txn, commit) => {
            send_to_primary(roster, steps, v, Body::Finish(v, txn, commit))
        }
        Act::Say(txn, number, outcome) => steps.send(FRONT, Body::Outcome(txn, number, outcome)),
        Act::Decide(_) => unreachable!(),
    }
}

/// Sends acts that are messages, in order.
pub(crate) fn send_all(roster: &Noted<'_>, steps: &mut Steps, acts: ActList) -> Result<(), NoMemory>
    requires { AreSends roster.now.nodes (items acts) }
    ensures { OnOk result (step_of steps.new ≡ record (step_of steps.old) {
      sends = (step_of steps.old).sends ++ map (message_of_act (primary_of roster.now)) (items acts);
    }) }
{
    let mut acts = acts.into_items().into_iter();
    while let Some(act) = acts.next() {
        send_act(roster, steps, act)?;
    }
    Ok(())
}

/// Sends the answer to an operation to the controller that asked. Want of memory is marked.
pub(crate) fn reply(
    steps: &mut Steps,
    to: u32,
    v: u32,
    txn: TxnId,
    number: u32,
    answer: Answer,
) -> Result<(), NoMemory>
    ensures { OnOk result (step_of steps.new ≡ record (step_of steps.old) {
      sends = (step_of steps.old).sends ++ sent to (message.Answer v txn number answer) ∷ [];
      short = is_no_memory answer;
    }) }
{
    steps.short = matches!(answer, Answer::NoMemory);
    steps.send(to, Body::Answer(v, txn, number, answer))
}

/// The transaction of a Decide that is the only act.
pub(crate) fn decide_in(acts: &ActList) -> Option<TxnId>
    ensures { result ≡ sending.decide_in (items acts.now) }
{
    match acts.as_slice() {
        [Act::Decide(txn)] => Some(*txn),
        _ => None,
    }
}
