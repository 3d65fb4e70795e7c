//! A controller that is called step by step, with its acts.
use cl_control::{Act, ActList, Control};
use cl_samples::{NoSample, key, table};
use cl_types::{AbortCause, Answer, Command, Key, Op, Outcome, Reply, TxnId};
use std::alloc::Global;
use std::process::Abort;
use std::test::Fail;

const ONE: TxnId = TxnId {
    session: 1,
    number: 1,
};

const TWO: TxnId = TxnId {
    session: 2,
    number: 1,
};

// What a controller is called with, of one transaction. GET is of a key of table `t`.
#[derive(Clone, Copy)]
enum Step {
    Begin(u32),
    Get(u32, &'static [u8]),
    Commit(u32),
    Abort(u32),
    Absent(u32, u32),
    Refused(u32, u32),
    NoMemory(u32, u32),
    Vote(u32),
    DecidedAt(u64),
    SafeUpTo(u64),
}

// An act of one transaction.
#[derive(Clone, Copy)]
enum Wanted {
    AskGet(u32, u32),
    Prepare(u32),
    Finish(u32, bool),
    Decide,
    Begun(u32),
    SaysAbsent(u32),
    Committed(u32),
    Aborted(u32, AbortCause),
}

fn command(
    rt: &impl Abort,
    control: &mut Control,
    txn: TxnId,
    number: u32,
    what: &Command,
) -> Result<ActList, NoSample> {
    assert!(rt; control.may_command(txn, what));
    Ok(control.command(txn, number, what)?)
}

fn decided_at(rt: &impl Abort, control: &mut Control, txn: TxnId, number: u64) {
    assert!(rt; control.awaits_number(txn));
    control.decided_at(txn, number);
}

fn get(bytes: &[u8]) -> Result<Command, NoSample> {
    Ok(Command::Work(table(b"t")?, key(bytes)?, Op::Get))
}

fn take(
    rt: &impl Abort,
    alloc: Global,
    control: &mut Control,
    txn: TxnId,
    step: Step,
) -> Result<ActList, NoSample> {
    match step {
        Step::Begin(number) => command(rt, control, txn, number, &Command::Begin),
        Step::Get(number, bytes) => command(rt, control, txn, number, &get(bytes)?),
        Step::Commit(number) => command(rt, control, txn, number, &Command::Commit),
        Step::Abort(number) => command(rt, control, txn, number, &Command::Abort),
        Step::Absent(v, number) => {
            Ok(control.answer(v, txn, number, Answer::Done(Reply::Absent))?)
        }
        Step::Refused(v, number) => Ok(control.answer(v, txn, number, Answer::Refused(TWO))?),
        Step::NoMemory(v, number) => Ok(control.answer(v, txn, number, Answer::NoMemory)?),
        Step::Vote(v) => Ok(control.vote(v, txn)?),
        Step::DecidedAt(number) => {
            decided_at(rt, control, txn, number);
            Ok(ActList::new(alloc))
        }
        Step::SafeUpTo(number) => Ok(control.safe_up_to(number)?),
    }
}

fn is_act(act: &Act, txn: TxnId, wanted: Wanted) -> bool {
    match (act, wanted) {
        (Act::Ask(v, of, number, _, _, Op::Get), Wanted::AskGet(w, wanted)) => {
            *v == w && *of == txn && *number == wanted
        }
        (Act::Prepare(v, of), Wanted::Prepare(w)) => *v == w && *of == txn,
        (Act::Finish(v, of, commit), Wanted::Finish(w, wanted)) => {
            *v == w && *of == txn && *commit == wanted
        }
        (Act::Decide(of), Wanted::Decide) => *of == txn,
        (Act::Say(of, number, outcome), wanted) => *of == txn && is_said(*number, outcome, wanted),
        _ => false,
    }
}

fn is_said(number: u32, outcome: &Outcome, wanted: Wanted) -> bool {
    match (outcome, wanted) {
        (Outcome::Begun, Wanted::Begun(wanted)) => number == wanted,
        (Outcome::Done(Reply::Absent), Wanted::SaysAbsent(wanted)) => number == wanted,
        (Outcome::Committed, Wanted::Committed(wanted)) => number == wanted,
        (Outcome::Aborted(cause), Wanted::Aborted(wanted, because)) => {
            number == wanted && *cause == because
        }
        _ => false,
    }
}

fn are_acts(acts: &ActList, txn: TxnId, wanted: &[Wanted]) -> bool {
    acts.len() == wanted.len()
        && acts
            .as_slice()
            .iter()
            .zip(wanted)
            .all(|(act, wanted)| is_act(act, txn, *wanted))
}

#[test]
fn a_commit_at_one_virtual_node(rt: HostRuntime) -> Result<(), Fail> {
    // The transaction, what the controller is called with, and its acts.
    let rows = [
        (
            "a begin",
            ONE,
            Step::Begin(1),
            [Wanted::Begun(1)].as_slice(),
        ),
        (
            "a read",
            ONE,
            Step::Get(2, b"a"),
            [Wanted::AskGet(0, 2)].as_slice(),
        ),
        (
            "an answer of another command",
            ONE,
            Step::Absent(0, 1),
            [].as_slice(),
        ),
        (
            "an answer of another virtual node",
            ONE,
            Step::Absent(1, 2),
            [].as_slice(),
        ),
        (
            "its answer",
            ONE,
            Step::Absent(0, 2),
            [Wanted::SaysAbsent(2)].as_slice(),
        ),
        (
            "a commit",
            ONE,
            Step::Commit(3),
            [Wanted::Prepare(0)].as_slice(),
        ),
        (
            "a vote of another virtual node",
            ONE,
            Step::Vote(1),
            [].as_slice(),
        ),
        ("the vote", ONE, Step::Vote(0), [Wanted::Decide].as_slice()),
        ("the vote again", ONE, Step::Vote(0), [].as_slice()),
        (
            "the number of the Decide",
            ONE,
            Step::DecidedAt(7),
            [].as_slice(),
        ),
        (
            "one below it is safe",
            ONE,
            Step::SafeUpTo(6),
            [].as_slice(),
        ),
        (
            "it is safe",
            ONE,
            Step::SafeUpTo(7),
            [Wanted::Finish(0, true), Wanted::Committed(3)].as_slice(),
        ),
        ("it is safe again", ONE, Step::SafeUpTo(8), [].as_slice()),
    ];
    let mut control = Control::new(rt.alloc(), 4);
    for (name, txn, step, wanted) in rows {
        let acts = take(&rt, rt.alloc(), &mut control, txn, step)?;
        assert!(rt; are_acts(&acts, txn, wanted), "{name}");
    }
    Ok(())
}

#[test]
fn participants_are_told_in_ascending_order(rt: HostRuntime) -> Result<(), Fail> {
    // The transaction, what the controller is called with, and its acts.
    let rows = [
        (
            "a begin",
            ONE,
            Step::Begin(1),
            [Wanted::Begun(1)].as_slice(),
        ),
        (
            "a read at 1",
            ONE,
            Step::Get(2, b"b"),
            [Wanted::AskGet(1, 2)].as_slice(),
        ),
        (
            "its answer",
            ONE,
            Step::Absent(1, 2),
            [Wanted::SaysAbsent(2)].as_slice(),
        ),
        (
            "a read at 0",
            ONE,
            Step::Get(3, b"a"),
            [Wanted::AskGet(0, 3)].as_slice(),
        ),
        (
            "its answer",
            ONE,
            Step::Absent(0, 3),
            [Wanted::SaysAbsent(3)].as_slice(),
        ),
        (
            "another read at 1",
            ONE,
            Step::Get(4, b"b"),
            [Wanted::AskGet(1, 4)].as_slice(),
        ),
        (
            "its answer",
            ONE,
            Step::Absent(1, 4),
            [Wanted::SaysAbsent(4)].as_slice(),
        ),
        (
            "a commit",
            ONE,
            Step::Commit(5),
            [Wanted::Prepare(0), Wanted::Prepare(1)].as_slice(),
        ),
        ("a vote", ONE, Step::Vote(1), [].as_slice()),
        ("the vote again", ONE, Step::Vote(1), [].as_slice()),
        (
            "the other vote",
            ONE,
            Step::Vote(0),
            [Wanted::Decide].as_slice(),
        ),
        (
            "the number of the Decide",
            ONE,
            Step::DecidedAt(9),
            [].as_slice(),
        ),
        (
            "it is safe",
            ONE,
            Step::SafeUpTo(9),
            [
                Wanted::Finish(0, true),
                Wanted::Finish(1, true),
                Wanted::Committed(5),
            ]
            .as_slice(),
        ),
    ];
    let mut control = Control::new(rt.alloc(), 4);
    for (name, txn, step, wanted) in rows {
        let acts = take(&rt, rt.alloc(), &mut control, txn, step)?;
        assert!(rt; are_acts(&acts, txn, wanted), "{name}");
    }
    Ok(())
}

#[test]
fn aborts_tell_each_participant(rt: HostRuntime) -> Result<(), Fail> {
    // The transaction, what the controller is called with, and its acts.
    let rows = [
        (
            "a begin",
            ONE,
            Step::Begin(1),
            [Wanted::Begun(1)].as_slice(),
        ),
        (
            "a read at 1",
            ONE,
            Step::Get(2, b"b"),
            [Wanted::AskGet(1, 2)].as_slice(),
        ),
        (
            "its answer",
            ONE,
            Step::Absent(1, 2),
            [Wanted::SaysAbsent(2)].as_slice(),
        ),
        (
            "a read at 0",
            ONE,
            Step::Get(3, b"a"),
            [Wanted::AskGet(0, 3)].as_slice(),
        ),
        (
            "a refusal",
            ONE,
            Step::Refused(0, 3),
            [
                Wanted::Finish(0, false),
                Wanted::Finish(1, false),
                Wanted::Aborted(3, AbortCause::Conflict(TWO)),
            ]
            .as_slice(),
        ),
        ("an answer after it", ONE, Step::Absent(0, 3), [].as_slice()),
        (
            "a begin again",
            ONE,
            Step::Begin(4),
            [Wanted::Begun(4)].as_slice(),
        ),
        (
            "a read",
            ONE,
            Step::Get(5, b"a"),
            [Wanted::AskGet(0, 5)].as_slice(),
        ),
        (
            "no memory there",
            ONE,
            Step::NoMemory(0, 5),
            [
                Wanted::Finish(0, false),
                Wanted::Aborted(5, AbortCause::Memory),
            ]
            .as_slice(),
        ),
        (
            "a begin of two",
            TWO,
            Step::Begin(1),
            [Wanted::Begun(1)].as_slice(),
        ),
        (
            "a read of two",
            TWO,
            Step::Get(2, b"b"),
            [Wanted::AskGet(1, 2)].as_slice(),
        ),
        (
            "its answer",
            TWO,
            Step::Absent(1, 2),
            [Wanted::SaysAbsent(2)].as_slice(),
        ),
        (
            "an abort",
            TWO,
            Step::Abort(3),
            [
                Wanted::Finish(1, false),
                Wanted::Aborted(3, AbortCause::Client),
            ]
            .as_slice(),
        ),
        ("a vote after it", TWO, Step::Vote(1), [].as_slice()),
    ];
    let mut control = Control::new(rt.alloc(), 4);
    for (name, txn, step, wanted) in rows {
        let acts = take(&rt, rt.alloc(), &mut control, txn, step)?;
        assert!(rt; are_acts(&acts, txn, wanted), "{name}");
    }
    Ok(())
}

#[test]
fn decides_are_safe_in_the_order_of_the_log(rt: HostRuntime) -> Result<(), Fail> {
    // The transaction, what the controller is called with, and its acts.
    let rows = [
        (
            "a begin",
            ONE,
            Step::Begin(1),
            [Wanted::Begun(1)].as_slice(),
        ),
        (
            "a begin of two",
            TWO,
            Step::Begin(1),
            [Wanted::Begun(1)].as_slice(),
        ),
        (
            "a commit without participants",
            ONE,
            Step::Commit(2),
            [Wanted::Decide].as_slice(),
        ),
        (
            "a commit of two",
            TWO,
            Step::Commit(2),
            [Wanted::Decide].as_slice(),
        ),
        (
            "the number of the Decide of two",
            TWO,
            Step::DecidedAt(4),
            [].as_slice(),
        ),
        (
            "the number of the Decide",
            ONE,
            Step::DecidedAt(3),
            [].as_slice(),
        ),
        (
            "the first is safe",
            ONE,
            Step::SafeUpTo(3),
            [Wanted::Committed(2)].as_slice(),
        ),
        (
            "the second is safe",
            TWO,
            Step::SafeUpTo(4),
            [Wanted::Committed(2)].as_slice(),
        ),
    ];
    let mut control = Control::new(rt.alloc(), 4);
    for (name, txn, step, wanted) in rows {
        let acts = take(&rt, rt.alloc(), &mut control, txn, step)?;
        assert!(rt; are_acts(&acts, txn, wanted), "{name}");
    }
    Ok(())
}
