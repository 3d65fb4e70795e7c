//! A primary with a standby, message by message.
use crate::primaries::{Input, ONE, Record, Sent, gave, step};
use cl_roster::Roster;
use cl_samples::NoSample;
use cl_steps::{FRONT, Steps};
use cl_vnode::Vnode;
use cl_wire::Body;
use std::alloc::Global;
use std::process::Abort;
use std::test::Fail;

// The node of the standby.
const STANDBY: u32 = 3;

// A name, the sender, the message, what the primary of virtual node 1 sends, and whether a record that it ships
// makes the transaction firm at the standby.
#[derive(Clone, Copy)]
struct Row(&'static str, u32, Input, &'static [(u32, Sent)], bool);

// The standby takes each record that the step ships to it, in order, and acknowledges it at once.
fn takes_records(
    rt: &impl Abort,
    roster: &Roster,
    standby: &mut Vnode,
    steps: &Steps,
    firm: bool,
) -> Result<bool, NoSample> {
    let mut taken = true;
    for outgoing in steps.send.as_slice() {
        let body = outgoing.payload.body();
        if let Body::Log(v, number, content) = body {
            assert!(rt; standby.admits_standby(roster, body));
            match standby.standby_step(roster, *v, body) {
                Ok(answer) => {
                    let wanted = [(*v, Sent::LogAck(*v, *number))];
                    taken = taken && gave(&answer, content.txn(), &wanted, firm);
                }
                Err(_) => return Err(NoSample::NoMemory),
            }
        }
    }
    Ok(taken)
}

// Whether the step sent this and nothing else, and the standby takes what is shipped.
fn passes(
    rt: &impl Abort,
    roster: &Roster,
    standby: &mut Vnode,
    steps: &Steps,
    sent: &[(u32, Sent)],
    firm: bool,
) -> Result<bool, NoSample> {
    let taken = takes_records(rt, roster, standby, steps, firm)?;
    Ok(taken && gave(steps, ONE, sent, false))
}

fn does(
    rt: &impl Abort,
    alloc: Global,
    roster: &Roster,
    primary: &mut Vnode,
    standby: &mut Vnode,
    row: Row,
) -> Result<bool, NoSample> {
    let Row(_, from, input, sent, firm) = row;
    let steps = step(rt, alloc, roster, primary, from, ONE, input)?;
    passes(rt, roster, standby, &steps, sent, firm)
}

fn all_hold(
    rt: &impl Abort,
    alloc: Global,
    roster: &Roster,
    primary: &mut Vnode,
    standby: &mut Vnode,
    rows: &[Row],
) -> Result<(), NoSample> {
    for row in rows {
        let holds = does(rt, alloc, roster, primary, standby, *row)?;
        assert!(rt; holds, "{}", row.0);
    }
    Ok(())
}

fn hold_with_standby(
    rt: &impl Abort,
    alloc: Global,
    roster: &Roster,
    primary: &mut Vnode,
    rows: &[Row],
) -> Result<(), NoSample> {
    let mut standby = Vnode::new(alloc, 1, 4, None);
    all_hold(rt, alloc, roster, primary, &mut standby, rows)
}

// The rows hold in turn of the primary of virtual node 1 and its standby.
fn hold(rt: &impl Abort, alloc: Global, rows: &[Row]) -> Result<(), NoSample> {
    let roster = Roster::new(alloc, 4, 0);
    let mut primary = Vnode::new(alloc, 1, 4, Some(STANDBY));
    hold_with_standby(rt, alloc, &roster, &mut primary, rows)
}

const COMMIT: &[Row] = &[
    Row(
        "a begin",
        FRONT,
        Input::Begin(0),
        &[(FRONT, Sent::Begun(0))],
        false,
    ),
    Row(
        "a commit without participants",
        FRONT,
        Input::Commit(1),
        &[(STANDBY, Sent::Log(1, 1, Record::Decide))],
        true,
    ),
    Row(
        "its Decide is safe",
        STANDBY,
        Input::LogAck(1, 1),
        &[(FRONT, Sent::Committed(1))],
        false,
    ),
];

#[test]
fn a_commit_is_told_once_its_standby_has_it(rt: HostRuntime) -> Result<(), Fail> {
    hold(&rt, rt.alloc(), COMMIT)?;
    Ok(())
}

// The vote is sent once, after the acknowledgement of the Prepared, and not after that of the write before it.
const VOTE: &[Row] = &[
    Row(
        "a write",
        1,
        Input::AskPut(1, 1, b"b"),
        &[
            (STANDBY, Sent::Log(1, 1, Record::Set)),
            (1, Sent::Stored(1, 1)),
        ],
        false,
    ),
    Row(
        "a prepare",
        1,
        Input::Prepare(1),
        &[(STANDBY, Sent::Log(1, 2, Record::Prepared))],
        false,
    ),
    Row(
        "its write is safe",
        STANDBY,
        Input::LogAck(1, 1),
        &[],
        false,
    ),
    Row(
        "its Prepared is safe",
        STANDBY,
        Input::LogAck(1, 2),
        &[(1, Sent::Vote(1))],
        false,
    ),
    Row(
        "its Prepared is safe, told again",
        STANDBY,
        Input::LogAck(1, 2),
        &[],
        false,
    ),
];

#[test]
fn a_vote_is_sent_once_its_standby_has_it(rt: HostRuntime) -> Result<(), Fail> {
    hold(&rt, rt.alloc(), VOTE)?;
    Ok(())
}
