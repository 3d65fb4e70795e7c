//! Two primaries that are called message by message, and what they are to send.
use cl_log::LogRec;
use cl_roster::Roster;
use cl_samples::{NoSample, is_value, key, table, value};
use cl_steps::{Outgoing, Steps};
use cl_types::{AbortCause, Answer, Command, Op, Outcome, Reply, TxnId};
use cl_vnode::Vnode;
use cl_wire::Body;
use std::alloc::Global;
use std::process::Abort;

// Its session is of virtual node 1.
pub(crate) const ONE: TxnId = TxnId {
    session: 1,
    number: 1,
};

// Its session is of virtual node 2.
pub(crate) const TWO: TxnId = TxnId {
    session: 2,
    number: 1,
};

// A message about one transaction. A number is a command's; key `a` is of virtual node 0, and `b` of 1.
#[derive(Clone, Copy)]
pub(crate) enum Input {
    Bare,
    Begin(u32),
    Get(u32, &'static [u8]),
    Put(u32, &'static [u8]),
    Commit(u32),
    AskGet(u32, u32, &'static [u8]),
    AskPut(u32, u32, &'static [u8]),
    Stored(u32, u32),
    Refused(u32, u32),
    NoMemory(u32, u32),
    Prepare(u32),
    Vote(u32),
    Finish(u32, bool),
    Decision(u32, bool),
    LogAck(u32, u64),
}

// The kind of a record that is shipped.
#[derive(Clone, Copy)]
pub(crate) enum Record {
    Set,
    Prepared,
    Decide,
}

// A message that a step gives.
#[derive(Clone, Copy)]
pub(crate) enum Sent {
    AskGet(u32, u32),
    AskPut(u32, u32),
    Stored(u32, u32),
    Refused(u32, u32),
    Prepare(u32),
    Vote(u32),
    Finish(u32, bool),
    Begun(u32),
    SaysStored(u32),
    Committed(u32),
    Aborted(u32, AbortCause),
    Log(u32, u64, Record),
    LogAck(u32, u64),
}

// What a primary is to do.
#[derive(Clone, Copy)]
pub(crate) enum Turn {
    // It takes a message about the transaction from the sender, and sends this and nothing else; whether the
    // transaction becomes firm.
    Takes(u32, TxnId, Input, &'static [(u32, Sent)], bool),
    // It does not admit the message about the transaction.
    Refuses(TxnId, Input),
    // It has this value at the key of table `t`.
    Has(&'static [u8], Option<&'static [u8]>),
    // It is not busy.
    Rests,
}

// A name, the virtual node, and what its primary is to do.
#[derive(Clone, Copy)]
pub(crate) struct Row(pub(crate) &'static str, pub(crate) u32, pub(crate) Turn);

fn put(alloc: Global) -> Result<Op, NoSample> {
    Ok(Op::Put(value(alloc, b"x")?))
}

fn message(alloc: Global, txn: TxnId, input: Input) -> Result<Body, NoSample> {
    Ok(match input {
        Input::Bare => Body::Bare,
        Input::Begin(number) => Body::Command(txn.session % 4, txn, number, Command::Begin),
        Input::Get(number, bytes) => {
            let what = Command::Work(table(b"t")?, key(bytes)?, Op::Get);
            Body::Command(txn.session % 4, txn, number, what)
        }
        Input::Put(number, bytes) => {
            let what = Command::Work(table(b"t")?, key(bytes)?, put(alloc)?);
            Body::Command(txn.session % 4, txn, number, what)
        }
        Input::Commit(number) => Body::Command(txn.session % 4, txn, number, Command::Commit),
        Input::AskGet(v, number, bytes) => {
            Body::Ask(v, txn, number, table(b"t")?, key(bytes)?, Op::Get)
        }
        Input::AskPut(v, number, bytes) => {
            Body::Ask(v, txn, number, table(b"t")?, key(bytes)?, put(alloc)?)
        }
        Input::Stored(v, number) => Body::Answer(v, txn, number, Answer::Done(Reply::Stored)),
        Input::Refused(v, number) => Body::Answer(v, txn, number, Answer::Refused(TWO)),
        Input::NoMemory(v, number) => Body::Answer(v, txn, number, Answer::NoMemory),
        Input::Prepare(v) => Body::Prepare(v, txn),
        Input::Vote(v) => Body::Vote(v, txn),
        Input::Finish(v, commit) => Body::Finish(v, txn, commit),
        Input::Decision(v, commit) => Body::Decision(v, txn, commit),
        Input::LogAck(v, number) => Body::LogAck(v, number),
    })
}

fn take(
    rt: &impl Abort,
    vnode: &mut Vnode,
    roster: &Roster,
    from: u32,
    body: &Body,
) -> Result<Steps, NoSample> {
    assert!(rt; vnode.admits(roster, body));
    match vnode.primary_step(roster, from, body) {
        Ok(steps) => Ok(steps),
        Err(_) => Err(NoSample::NoMemory),
    }
}

// The primary takes the message.
pub(crate) fn step(
    rt: &impl Abort,
    alloc: Global,
    roster: &Roster,
    vnode: &mut Vnode,
    from: u32,
    txn: TxnId,
    input: Input,
) -> Result<Steps, NoSample> {
    let body = message(alloc, txn, input)?;
    take(rt, vnode, roster, from, &body)
}

fn is_answer(v: u32, number: u32, answer: &Answer, wanted: Sent) -> bool {
    match (answer, wanted) {
        (Answer::Done(Reply::Stored), Sent::Stored(w, wanted)) => v == w && number == wanted,
        (Answer::Refused(holder), Sent::Refused(w, wanted)) => {
            v == w && number == wanted && *holder == TWO
        }
        _ => false,
    }
}

fn is_said(number: u32, outcome: &Outcome, wanted: Sent) -> bool {
    match (outcome, wanted) {
        (Outcome::Begun, Sent::Begun(wanted)) => number == wanted,
        (Outcome::Done(Reply::Stored), Sent::SaysStored(wanted)) => number == wanted,
        (Outcome::Committed, Sent::Committed(wanted)) => number == wanted,
        (Outcome::Aborted(cause), Sent::Aborted(wanted, because)) => {
            number == wanted && *cause == because
        }
        _ => false,
    }
}

fn is_record(content: &LogRec, txn: TxnId, wanted: Record) -> bool {
    match (content, wanted) {
        (LogRec::Set(of, ..), Record::Set)
        | (LogRec::Prepared(of), Record::Prepared)
        | (LogRec::Decide(of), Record::Decide) => *of == txn,
        _ => false,
    }
}

fn is_message(body: &Body, txn: TxnId, wanted: Sent) -> bool {
    match (body, wanted) {
        (Body::Ask(v, of, number, _, _, Op::Get), Sent::AskGet(w, wanted))
        | (Body::Ask(v, of, number, _, _, Op::Put(_)), Sent::AskPut(w, wanted)) => {
            *v == w && *of == txn && *number == wanted
        }
        (Body::Answer(v, of, number, answer), wanted) => {
            *of == txn && is_answer(*v, *number, answer, wanted)
        }
        (Body::Prepare(v, of), Sent::Prepare(w)) => *v == w && *of == txn,
        (Body::Vote(v, of), Sent::Vote(w)) => *v == w && *of == txn,
        (Body::Finish(v, of, commit), Sent::Finish(w, wanted)) => {
            *v == w && *of == txn && *commit == wanted
        }
        (Body::Outcome(of, number, outcome), wanted) => {
            *of == txn && is_said(*number, outcome, wanted)
        }
        (Body::Log(v, number, content), Sent::Log(w, wanted, record)) => {
            *v == w && *number == wanted && is_record(content, txn, record)
        }
        (Body::LogAck(v, number), Sent::LogAck(w, wanted)) => *v == w && *number == wanted,
        _ => false,
    }
}

fn is_sent(outgoing: &Outgoing, txn: TxnId, wanted: (u32, Sent)) -> bool {
    outgoing.to == wanted.0 && is_message(outgoing.payload.body(), txn, wanted.1)
}

// Whether the step sent this and nothing else, and whether its transaction became firm.
pub(crate) fn gave(steps: &Steps, txn: TxnId, wanted: &[(u32, Sent)], firm: bool) -> bool {
    steps.send.len() == wanted.len()
        && steps
            .send
            .as_slice()
            .iter()
            .zip(wanted)
            .all(|(outgoing, wanted)| is_sent(outgoing, txn, *wanted))
        && steps.firm.len() == usize::from(firm)
        && !steps.short
}

// Whether a key of table `t` has this value.
fn stands(vnode: &Vnode, bytes: &[u8], wanted: Option<&[u8]>) -> Result<bool, NoSample> {
    let (_, found) = vnode.store().get(&table(b"t")?, &key(bytes)?);
    Ok(is_value(found, wanted))
}

fn refuses(
    alloc: Global,
    roster: &Roster,
    vnode: &Vnode,
    txn: TxnId,
    input: Input,
) -> Result<bool, NoSample> {
    let body = message(alloc, txn, input)?;
    Ok(!vnode.admits(roster, &body))
}

// Whether the primary does what it is to do.
fn does(
    rt: &impl Abort,
    alloc: Global,
    roster: &Roster,
    vnode: &mut Vnode,
    turn: Turn,
) -> Result<bool, NoSample> {
    match turn {
        Turn::Takes(from, txn, input, sent, firm) => {
            let steps = step(rt, alloc, roster, vnode, from, txn, input)?;
            Ok(gave(&steps, txn, sent, firm))
        }
        Turn::Refuses(txn, input) => refuses(alloc, roster, vnode, txn, input),
        Turn::Has(bytes, wanted) => stands(vnode, bytes, wanted),
        Turn::Rests => Ok(!vnode.busy()),
    }
}

fn all_hold(
    rt: &impl Abort,
    alloc: Global,
    roster: &Roster,
    zero: &mut Vnode,
    one: &mut Vnode,
    rows: &[Row],
) -> Result<(), NoSample> {
    for row in rows {
        let Row(name, at, turn) = *row;
        let holds = if at == 0 {
            does(rt, alloc, roster, zero, turn)?
        } else {
            does(rt, alloc, roster, one, turn)?
        };
        assert!(rt; holds, "{name}");
    }
    Ok(())
}

fn hold_with_one(
    rt: &impl Abort,
    alloc: Global,
    roster: &Roster,
    zero: &mut Vnode,
    rows: &[Row],
) -> Result<(), NoSample> {
    let mut one = Vnode::new(alloc, 1, 4, None);
    all_hold(rt, alloc, roster, zero, &mut one, rows)
}

// The rows hold in turn of the primaries of virtual nodes 0 and 1, on the nodes of the same number.
pub(crate) fn hold(rt: &impl Abort, alloc: Global, rows: &[Row]) -> Result<(), NoSample> {
    let roster = Roster::new(alloc, 4, 0);
    let mut zero = Vnode::new(alloc, 0, 4, None);
    hold_with_one(rt, alloc, &roster, &mut zero, rows)
}
