//! A participant that is asked call by call, with its answers, its log and its records.
ghost use Rattle.std.specs.Prelude.{◌≡◌, true, false};
ghost use Rattle.cl_part.specs.State.{IsBelowNext};

use cl_log::{Form, LOG_NUMBER_MAX, LogRec};
use cl_part::{Answer, Part};
use cl_samples::{NoSample, is_value, key, optional_value, table, value};
use cl_types::{Mode, Op, Reply, TxnId};
use std::alloc::Global;
use std::process::Abort;
use std::test::Fail;

const ONE: TxnId = TxnId {
    session: 1,
    number: 1,
};

const TWO: TxnId = TxnId {
    session: 2,
    number: 1,
};

// An operation.
#[derive(Clone, Copy)]
enum Asked {
    Get,
    Put(&'static [u8]),
    Del,
    Add(i64),
}

// Its answer.
#[derive(Clone, Copy)]
enum Wanted {
    Stored,
    Found(&'static [u8]),
    Absent,
    Sum(i64),
    NotNumber,
    OutOfRange,
    Refused(TxnId),
}

fn operation(alloc: Global, asked: Asked) -> Result<Op, NoSample> {
    Ok(match asked {
        Asked::Get => Op::Get,
        Asked::Put(bytes) => Op::Put(value(alloc, bytes)?),
        Asked::Del => Op::Del,
        Asked::Add(amount) => Op::Add(amount),
    })
}

fn is_answer(answer: &Answer, wanted: Wanted) -> bool {
    match (answer, wanted) {
        (Answer::Done(Reply::Stored), Wanted::Stored) => true,
        (Answer::Done(Reply::Found(found)), Wanted::Found(bytes)) => found.bytes() == bytes,
        (Answer::Done(Reply::Absent), Wanted::Absent) => true,
        (Answer::Done(Reply::Sum(sum)), Wanted::Sum(wanted)) => *sum == wanted,
        (Answer::Done(Reply::NotNumber), Wanted::NotNumber) => true,
        (Answer::Done(Reply::OutOfRange), Wanted::OutOfRange) => true,
        (Answer::Refused(holder), Wanted::Refused(wanted)) => *holder == wanted,
        _ => false,
    }
}

// A participant with no records.
fn new_part(alloc: Global) -> Part
    ensures { IsBelowNext result }
{
    Part::new(alloc, 1)
}

// Carries out an operation at a key of table `t`.
fn ask(
    rt: &impl Abort,
    part: &mut Part,
    txn: TxnId,
    bytes: &[u8],
    op: &Op,
) -> Result<Answer, NoSample>
    requires { IsBelowNext part.old }
    ensures { IsBelowNext part.new }
{
    assert!(rt; part.log.last() < LOG_NUMBER_MAX);
    Ok(part.ask_op(txn, &table(b"t")?, &key(bytes)?, op))
}

fn undo(rt: &impl Abort, part: &mut Part, txn: TxnId) -> Result<bool, NoSample>
    requires { IsBelowNext part.old }
    ensures { IsBelowNext part.new }
{
    assert!(rt; part.log.last() < LOG_NUMBER_MAX);
    Ok(part.undo_one(txn)?)
}

// Aborts a transaction of which nothing is left to undo.
fn abort(rt: &impl Abort, part: &mut Part, txn: TxnId) -> Result<u64, NoSample>
    requires { IsBelowNext part.old }
    ensures { IsBelowNext part.new }
{
    assert!(rt; part.log.last() < LOG_NUMBER_MAX);
    assert!(rt; part.log.rest_to_undo(txn).is_none());
    Ok(part.end(txn, false)?)
}

// Whether a key of table `t` has this state number and value.
fn stands(part: &Part, bytes: &[u8], number: u64, wanted: Option<&[u8]>) -> Result<bool, NoSample> {
    let (found, value) = part.store.get(&table(b"t")?, &key(bytes)?);
    Ok(found == number && is_value(value, wanted))
}

// Whether the transaction holds this lock at a key of table `t`.
fn holds(part: &Part, txn: TxnId, bytes: &[u8], wanted: Option<Mode>) -> Result<bool, NoSample> {
    Ok(part.locks.holds(txn, &table(b"t")?, &key(bytes)?) == wanted)
}

#[test]
fn operations_are_answered_locked_and_logged(rt: HostRuntime) -> Result<(), Fail> {
    let (shared, exclusive) = (Some(Mode::Shared), Some(Mode::Exclusive));
    // The transaction, the key, the operation, its answer, the last log number and the lock after it.
    let rows = [
        (
            "a read",
            ONE,
            b"a".as_slice(),
            Asked::Get,
            Wanted::Absent,
            1,
            shared,
        ),
        (
            "the same read again",
            ONE,
            b"a",
            Asked::Get,
            Wanted::Absent,
            1,
            shared,
        ),
        (
            "a second reader",
            TWO,
            b"a",
            Asked::Get,
            Wanted::Absent,
            2,
            shared,
        ),
        (
            "a write under both",
            ONE,
            b"a",
            Asked::Put(b"x"),
            Wanted::Refused(TWO),
            2,
            shared,
        ),
        (
            "a removal of nothing",
            ONE,
            b"b",
            Asked::Del,
            Wanted::Absent,
            3,
            exclusive,
        ),
        (
            "the same removal again",
            ONE,
            b"b",
            Asked::Del,
            Wanted::Absent,
            3,
            exclusive,
        ),
        (
            "a read under it",
            TWO,
            b"b",
            Asked::Get,
            Wanted::Refused(ONE),
            3,
            None,
        ),
        (
            "the greatest number",
            ONE,
            b"b",
            Asked::Put(b"9223372036854775807"),
            Wanted::Stored,
            4,
            exclusive,
        ),
        (
            "a sum out of range",
            ONE,
            b"b",
            Asked::Add(1),
            Wanted::OutOfRange,
            4,
            exclusive,
        ),
        (
            "a read to be followed",
            ONE,
            b"c",
            Asked::Get,
            Wanted::Absent,
            5,
            shared,
        ),
        (
            "an addition over it",
            ONE,
            b"c",
            Asked::Add(5),
            Wanted::Sum(5),
            6,
            exclusive,
        ),
        (
            "an addition to a number",
            ONE,
            b"c",
            Asked::Add(-2),
            Wanted::Sum(3),
            7,
            exclusive,
        ),
        (
            "a read of the sum",
            ONE,
            b"c",
            Asked::Get,
            Wanted::Found(b"3"),
            7,
            exclusive,
        ),
        (
            "a text",
            TWO,
            b"d",
            Asked::Put(b"x"),
            Wanted::Stored,
            8,
            exclusive,
        ),
        (
            "an addition to a text",
            TWO,
            b"d",
            Asked::Add(1),
            Wanted::NotNumber,
            8,
            exclusive,
        ),
        (
            "a removal",
            TWO,
            b"d",
            Asked::Del,
            Wanted::Stored,
            9,
            exclusive,
        ),
        (
            "an addition under it",
            ONE,
            b"d",
            Asked::Add(1),
            Wanted::Refused(TWO),
            9,
            None,
        ),
    ];
    let mut part = new_part(rt.alloc());
    for (name, txn, key, asked, wanted, last, mode) in rows {
        let op = operation(rt.alloc(), asked)?;
        let answer = ask(&rt, &mut part, txn, key, &op)?;
        let is_done = is_answer(&answer, wanted) && part.log.last() == last;
        assert!(rt; is_done && holds(&part, txn, key, mode)?, "{name}");
    }
    Ok(())
}

// PUT `t b` `5` and ADD `t b` 2.
fn write_twice(rt: &impl Abort, alloc: Global, part: &mut Part) -> Result<bool, NoSample>
    requires { IsBelowNext part.old }
    ensures { IsBelowNext part.new }
{
    let put = operation(alloc, Asked::Put(b"5"))?;
    let stored = ask(rt, part, ONE, b"b", &put)?;
    let sum = ask(rt, part, ONE, b"b", &Op::Add(2))?;
    Ok(is_answer(&stored, Wanted::Stored) && is_answer(&sum, Wanted::Sum(7)))
}

// The record of that number in the log of the two writes and their rollback.
fn record_of_rollback(alloc: Global, number: u64) -> Result<LogRec, NoSample> {
    let (t, b) = (table(b"t")?, key(b"b")?);
    Ok(match number {
        1 => LogRec::Set(ONE, t, b, 0, None, optional_value(alloc, Some(b"5"))?),
        2 => LogRec::Add(ONE, t, b, 1, 2),
        3 => LogRec::Comp(ONE, t, b, 2, 2, Form::Amount(2)),
        4 => LogRec::Comp(ONE, t, b, 3, 1, Form::Image(None)),
        _ => LogRec::End(ONE, false),
    })
}

#[test]
fn a_rollback_is_logged_step_by_step(rt: HostRuntime) -> Result<(), Fail> {
    let mut part = new_part(rt.alloc());
    let mut is_right = write_twice(&rt, rt.alloc(), &mut part)?;
    for wanted in [true, true, false] {
        is_right &= undo(&rt, &mut part, ONE)? == wanted;
    }
    is_right &= abort(&rt, &mut part, ONE)? == 5;
    assert!(rt; is_right && holds(&part, ONE, b"b", None)? && stands(&part, b"b", 4, None)?);
    for number in 1..6 {
        let wanted = record_of_rollback(rt.alloc(), number)?;
        let is_logged = part.log.at(number).is_some_and(|found| *found == wanted);
        assert!(rt; is_logged, "record {number}");
    }
    Ok(())
}

// Votes for a transaction, and commits it: the numbers of the two records.
fn commit(rt: &impl Abort, part: &mut Part, txn: TxnId) -> Result<(u64, u64), NoSample>
    requires { IsBelowNext part.old }
{
    assert!(rt; part.log.last() < LOG_NUMBER_MAX);
    let vote = part.prepare(txn)?;
    assert!(rt; part.log.last() < LOG_NUMBER_MAX);
    Ok((vote, part.end(txn, true)?))
}

#[test]
fn a_vote_and_a_commit_are_logged(rt: HostRuntime) -> Result<(), Fail> {
    let mut part = new_part(rt.alloc());
    let is_written = write_twice(&rt, rt.alloc(), &mut part)?;
    let is_logged = commit(&rt, &mut part, ONE)? == (3, 4)
        && part
            .log
            .at(3)
            .is_some_and(|found| *found == LogRec::Prepared(ONE))
        && part
            .log
            .at(4)
            .is_some_and(|found| *found == LogRec::End(ONE, true));
    let is_left = holds(&part, ONE, b"b", None)? && stands(&part, b"b", 2, Some(b"7"))?;
    assert!(rt; is_written && is_logged && is_left);
    Ok(())
}

// A rollback is cut off after some steps by another transaction's write, and then goes on.
#[test]
fn a_rollback_goes_on_where_it_was_cut_off(rt: HostRuntime) -> Result<(), Fail> {
    for steps in 0..4 {
        let mut part = new_part(rt.alloc());
        let mut is_right = write_twice(&rt, rt.alloc(), &mut part)?;
        for step in 0..steps {
            is_right &= undo(&rt, &mut part, ONE)? == (step < 2);
        }
        let put = operation(rt.alloc(), Asked::Put(b"x"))?;
        is_right &= is_answer(&ask(&rt, &mut part, TWO, b"a", &put)?, Wanted::Stored);
        for step in steps..3 {
            is_right &= undo(&rt, &mut part, ONE)? == (step < 2);
        }
        let last = if steps < 2 { 5 } else { 4 };
        let end = abort(&rt, &mut part, ONE)?;
        assert!(rt;
            is_right && end == 6 && stands(&part, b"b", last, None)?,
            "after {steps}"
        );
    }
    Ok(())
}

// Aborts a transaction at once: the number of its End.
fn abort_at_once(part: &mut Part, txn: TxnId) -> Result<u64, NoSample>
    requires { IsBelowNext part.old }
    ensures { IsBelowNext part.new }
{
    match part.abort(txn) {
        Ok(number) => Ok(number),
        Err(_) => Err(NoSample::NoMemory),
    }
}

// An abort in one call is the rollback step by step, also where some steps were made before.
#[test]
fn an_abort_undoes_what_is_left_and_ends(rt: HostRuntime) -> Result<(), Fail> {
    for steps in 0..3 {
        let mut part = new_part(rt.alloc());
        let mut is_right = write_twice(&rt, rt.alloc(), &mut part)?;
        for _ in 0..steps {
            is_right &= undo(&rt, &mut part, ONE)?;
        }
        is_right &= abort_at_once(&mut part, ONE)? == 5;
        for number in 1..6 {
            let wanted = record_of_rollback(rt.alloc(), number)?;
            is_right &= part.log.at(number).is_some_and(|found| *found == wanted);
        }
        assert!(rt;
            is_right && holds(&part, ONE, b"b", None)? && stands(&part, b"b", 4, None)?,
            "after {steps}"
        );
    }
    Ok(())
}

#[test]
fn a_decision_is_logged(rt: HostRuntime) -> Result<(), Fail> {
    let mut part = new_part(rt.alloc());
    assert!(rt; part.log.last() < LOG_NUMBER_MAX);
    let number = part.decide(TWO)?;
    let is_logged = part
        .log
        .at(number)
        .is_some_and(|found| *found == LogRec::Decide(TWO));
    assert!(rt; number == 1 && is_logged);
    Ok(())
}
