//! A replica that notes the stop of its standby or of its primary, message by message.
use crate::primaries::{Input, ONE, Record, Sent, TWO, gave, step};
use cl_log::LogRec;
use cl_roster::{Roster, RosterEntry};
use cl_samples::NoSample;
use cl_steps::{FRONT, Steps};
use cl_types::TxnId;
use cl_vnode::Vnode;
use cl_wire::Body;
use std::alloc::Global;
use std::process::Abort;
use std::test::Fail;

// The standby of virtual node 1, and the primary of virtual node 2.
const STANDBY: u32 = 2;

// What a replica of virtual node 1 is to do.
#[derive(Clone, Copy)]
enum Turn {
    // As the primary it takes a message about the transaction from the sender.
    Takes(u32, Input),
    // As the standby it takes the Decide of the transaction, with this number.
    TakesDecide(u64),
    // It notes the stop of the node.
    Notes(u32),
}

// A name, the transaction, what the replica is to do, what it sends, and whether the transaction becomes firm.
#[derive(Clone, Copy)]
struct Row(&'static str, TxnId, Turn, &'static [(u32, Sent)], bool);

fn take_decide(
    rt: &impl Abort,
    roster: &Roster,
    replica: &mut Vnode,
    number: u64,
    txn: TxnId,
) -> Result<Steps, NoSample> {
    let body = Body::Log(1, number, LogRec::Decide(txn));
    assert!(rt; replica.admits_standby(roster, &body));
    match replica.standby_step(roster, 1, &body) {
        Ok(steps) => Ok(steps),
        Err(_) => Err(NoSample::NoMemory),
    }
}

fn note(
    rt: &impl Abort,
    roster: &Roster,
    replica: &mut Vnode,
    node: u32,
) -> Result<Steps, NoSample> {
    assert!(rt; replica.may_note(roster));
    match replica.note(roster, RosterEntry::Stopped(node)) {
        Ok(steps) => Ok(steps),
        Err(_) => Err(NoSample::NoMemory),
    }
}

fn steps_of(
    rt: &impl Abort,
    alloc: Global,
    roster: &Roster,
    replica: &mut Vnode,
    txn: TxnId,
    turn: Turn,
) -> Result<Steps, NoSample> {
    match turn {
        Turn::Takes(from, input) => step(rt, alloc, roster, replica, from, txn, input),
        Turn::TakesDecide(number) => take_decide(rt, roster, replica, number, txn),
        Turn::Notes(node) => note(rt, roster, replica, node),
    }
}

fn does(
    rt: &impl Abort,
    alloc: Global,
    roster: &Roster,
    replica: &mut Vnode,
    row: Row,
) -> Result<bool, NoSample> {
    let Row(_, txn, turn, sent, firm) = row;
    let steps = steps_of(rt, alloc, roster, replica, txn, turn)?;
    Ok(gave(&steps, txn, sent, firm))
}

fn all_hold(
    rt: &impl Abort,
    alloc: Global,
    roster: &Roster,
    replica: &mut Vnode,
    rows: &[Row],
) -> Result<(), NoSample> {
    for row in rows {
        let holds = does(rt, alloc, roster, replica, *row)?;
        assert!(rt; holds, "{}", row.0);
    }
    Ok(())
}

// The rows hold in turn of a replica of virtual node 1. The roster stays as it is before the first stop: what
// follows a stop is sent to the front, or to the node that is primary by then.
fn hold(rt: &impl Abort, alloc: Global, rows: &[Row]) -> Result<(), NoSample> {
    let roster = Roster::new(alloc, 4, 0);
    let mut replica = Vnode::new(alloc, 1, 4, Some(STANDBY));
    all_hold(rt, alloc, &roster, &mut replica, rows)
}

// The vote goes to virtual node 2, whose primary is node 3 once node 2 has stopped.
const VOTE: &[Row] = &[
    Row(
        "a write",
        TWO,
        Turn::Takes(2, Input::AskPut(1, 1, b"b")),
        &[
            (STANDBY, Sent::Log(1, 1, Record::Set)),
            (2, Sent::Stored(1, 1)),
        ],
        false,
    ),
    Row(
        "a prepare",
        TWO,
        Turn::Takes(2, Input::Prepare(1)),
        &[(STANDBY, Sent::Log(1, 2, Record::Prepared))],
        false,
    ),
    Row("another node stops", TWO, Turn::Notes(0), &[], false),
    Row(
        "its standby stops",
        TWO,
        Turn::Notes(STANDBY),
        &[(3, Sent::Vote(1))],
        false,
    ),
];

#[test]
fn a_vote_that_waited_is_sent_once_the_standby_has_stopped(rt: HostRuntime) -> Result<(), Fail> {
    hold(&rt, rt.alloc(), VOTE)?;
    Ok(())
}

const COMMIT: &[Row] = &[
    Row(
        "a begin",
        ONE,
        Turn::Takes(FRONT, Input::Begin(0)),
        &[(FRONT, Sent::Begun(0))],
        false,
    ),
    Row(
        "a commit without participants",
        ONE,
        Turn::Takes(FRONT, Input::Commit(1)),
        &[(STANDBY, Sent::Log(1, 1, Record::Decide))],
        false,
    ),
    Row(
        "its standby stops",
        ONE,
        Turn::Notes(STANDBY),
        &[(FRONT, Sent::Committed(1))],
        true,
    ),
    Row(
        "a late acknowledgement",
        ONE,
        Turn::Takes(STANDBY, Input::LogAck(1, 1)),
        &[],
        false,
    ),
];

#[test]
fn a_commit_that_waited_is_firm_once_the_standby_has_stopped(rt: HostRuntime) -> Result<(), Fail> {
    hold(&rt, rt.alloc(), COMMIT)?;
    Ok(())
}

// A Decide that it took was firm then. As a primary alone it tells a commit at once.
const TAKEOVER: &[Row] = &[
    Row(
        "a Decide",
        TWO,
        Turn::TakesDecide(1),
        &[(1, Sent::LogAck(1, 1))],
        true,
    ),
    Row("its primary stops", TWO, Turn::Notes(1), &[], false),
    Row(
        "a begin",
        ONE,
        Turn::Takes(FRONT, Input::Begin(0)),
        &[(FRONT, Sent::Begun(0))],
        false,
    ),
    Row(
        "a commit without participants",
        ONE,
        Turn::Takes(FRONT, Input::Commit(1)),
        &[(FRONT, Sent::Committed(1))],
        true,
    ),
];

#[test]
fn a_standby_whose_primary_has_stopped_is_alone_and_tells_nothing(
    rt: HostRuntime,
) -> Result<(), Fail> {
    hold(&rt, rt.alloc(), TAKEOVER)?;
    Ok(())
}
