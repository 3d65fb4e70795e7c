//! A log with records of all seven kinds, what follows from it worked out by hand.
use cl_log::{Form, LOG_NUMBER_MAX, Log, LogRec, Stage, records_are_numbered, undo_of};
use cl_samples::{NoSample, key, optional_value, table};
use cl_types::{Mode, NoMemory, TxnId};
use std::alloc::Global;
use std::process::Abort;
use std::test::Fail;

const FIRST: TxnId = TxnId {
    session: 1,
    number: 1,
};

const SECOND: TxnId = TxnId {
    session: 2,
    number: 1,
};

const THIRD: TxnId = TxnId {
    session: 3,
    number: 1,
};

const DECIDED: TxnId = TxnId {
    session: 4,
    number: 7,
};

fn is_record(found: Option<&LogRec>, wanted: &LogRec) -> bool {
    match found {
        Some(found) => *found == *wanted,
        None => false,
    }
}

// Appends a record, with room made for it.
fn append(rt: &impl Abort, log: &mut Log, record: LogRec) -> Result<(), NoMemory> {
    log.reserve(1)?;
    assert!(rt; log.last() < LOG_NUMBER_MAX);
    log.append(record);
    Ok(())
}

// The record of that number in the example, which has eight.
fn example_record(alloc: Global, number: u64) -> Result<LogRec, NoSample> {
    let table = table(b"t")?;
    Ok(match number {
        1 => LogRec::Set(
            FIRST,
            table,
            key(b"a")?,
            0,
            None,
            optional_value(alloc, Some(b"5"))?,
        ),
        2 => LogRec::Touch(SECOND, table, key(b"b")?, Mode::Shared),
        3 => LogRec::Add(FIRST, table, key(b"a")?, 1, 2),
        4 => LogRec::Decide(DECIDED),
        5 => LogRec::Comp(FIRST, table, key(b"a")?, 3, 3, Form::Amount(2)),
        6 => LogRec::Set(
            THIRD,
            table,
            key(b"c")?,
            0,
            None,
            optional_value(alloc, Some(b"x"))?,
        ),
        7 => LogRec::Prepared(THIRD),
        _ => LogRec::End(SECOND, false),
    })
}

fn example(rt: &impl Abort, alloc: Global) -> Result<Log, NoSample> {
    let mut log = Log::new(alloc, 1);
    for number in 1..=8 {
        append(rt, &mut log, example_record(alloc, number)?)?;
    }
    Ok(log)
}

// Whether the transaction has this stage, these records, and this write to be undone next.
fn stands(
    log: &Log,
    txn: TxnId,
    stage: Stage,
    chain: &[u64],
    rest: Option<u64>,
) -> Result<bool, NoMemory> {
    Ok(
        log.stage(txn) == stage
            && log.chain(txn)?.as_slice() == chain
            && log.rest_to_undo(txn) == rest,
    )
}

#[test]
fn stages_chains_and_rests(rt: HostRuntime) -> Result<(), Fail> {
    let log = example(&rt, rt.alloc())?;
    records_are_numbered(&log);
    let rows = [
        (
            "first",
            FIRST,
            Stage::Running,
            [1, 3, 5].as_slice(),
            Some(1),
        ),
        ("second", SECOND, Stage::Ended, &[2, 8], None),
        ("third", THIRD, Stage::Prepared, &[6, 7], Some(6)),
        ("decided alone", DECIDED, Stage::Unknown, &[4], None),
    ];
    for (name, txn, stage, chain, rest) in rows {
        assert!(rt; stands(&log, txn, stage, chain, rest)?, "{name}");
    }
    Ok(())
}

// Whether the numbers of the last record and of the first that is still needed are these, and these
// transactions are open.
fn ends_at(log: &Log, last: u64, low: u64, open: &[TxnId]) -> Result<bool, NoMemory> {
    Ok(log.last() == last && log.low() == low && log.unended()?.as_slice() == open)
}

#[test]
fn the_open_ones(rt: HostRuntime) -> Result<(), Fail> {
    let log = example(&rt, rt.alloc())?;
    assert!(rt; ends_at(&log, 8, 1, &[FIRST, THIRD])?);
    Ok(())
}

#[test]
fn records_stand_under_their_numbers(rt: HostRuntime) -> Result<(), Fail> {
    let log = example(&rt, rt.alloc())?;
    for number in 1..=8 {
        let wanted = example_record(rt.alloc(), number)?;
        assert!(rt; is_record(log.at(number), &wanted), "record {number}");
    }
    for number in [0, 9] {
        assert!(rt; log.at(number).is_none(), "record {number}");
    }
    Ok(())
}

// The record of that number in a rollback, which begins at 5.
fn rollback_record(alloc: Global, number: u64) -> Result<LogRec, NoSample> {
    let (table, key) = (table(b"t")?, key(b"a")?);
    Ok(match number {
        5 => LogRec::Set(
            FIRST,
            table,
            key,
            0,
            None,
            optional_value(alloc, Some(b"5"))?,
        ),
        6 => LogRec::Comp(FIRST, table, key, 5, 5, Form::Image(None)),
        _ => LogRec::End(FIRST, false),
    })
}

#[test]
fn a_rollback_ends_where_nothing_is_left(rt: HostRuntime) -> Result<(), Fail> {
    let mut log = Log::new(rt.alloc(), 5);
    // The last record, the first that is still needed, the open ones, and what is to be undone next.
    let rows = [
        (5, 5, [FIRST].as_slice(), Some(5)),
        (6, 5, &[FIRST], None),
        (7, 8, &[], None),
    ];
    for (last, low, open, rest) in rows {
        append(&rt, &mut log, rollback_record(rt.alloc(), last)?)?;
        assert!(rt;
            ends_at(&log, last, low, open)? && log.rest_to_undo(FIRST) == rest,
            "at {last}"
        );
    }
    Ok(())
}

#[test]
fn an_empty_log_needs_what_comes(rt: HostRuntime) -> Result<(), Fail> {
    let log = Log::new(rt.alloc(), 5);
    assert!(rt; ends_at(&log, 4, 5, &[])?);
    Ok(())
}

// A record of a log in which an End or a compensation may stand before what it belongs to.
#[derive(Clone, Copy)]
enum Told {
    Touch(TxnId),
    Add(TxnId),
    Comp(TxnId, u64),
    Prepared(TxnId),
    End(TxnId),
}

fn told_record(told: Told) -> Result<LogRec, NoSample> {
    let (table, key) = (table(b"t")?, key(b"a")?);
    Ok(match told {
        Told::Touch(txn) => LogRec::Touch(txn, table, key, Mode::Shared),
        Told::Add(txn) => LogRec::Add(txn, table, key, 0, 1),
        Told::Comp(txn, undone) => LogRec::Comp(txn, table, key, 0, undone, Form::Amount(1)),
        Told::Prepared(txn) => LogRec::Prepared(txn),
        Told::End(txn) => LogRec::End(txn, true),
    })
}

fn told_log(rt: &impl Abort, alloc: Global, records: &[Told]) -> Result<Log, NoSample> {
    let mut log = Log::new(alloc, 1);
    for told in records {
        append(rt, &mut log, told_record(*told)?)?;
    }
    Ok(log)
}

// A log answers by what it holds, in whatever order that stands.
#[test]
fn an_end_and_a_compensation_count_wherever_they_stand(rt: HostRuntime) -> Result<(), Fail> {
    let rows = [
        (
            "an End before what opens",
            [Told::End(FIRST), Told::Touch(FIRST), Told::Touch(SECOND)],
            Stage::Ended,
            None,
            3,
        ),
        (
            "a compensation before the write",
            [
                Told::Comp(FIRST, 2),
                Told::Add(FIRST),
                Told::Prepared(FIRST),
            ],
            Stage::Prepared,
            None,
            1,
        ),
        (
            "an addition among others",
            [Told::Touch(SECOND), Told::Add(FIRST), Told::End(SECOND)],
            Stage::Running,
            Some(2),
            2,
        ),
    ];
    for (name, records, stage, rest, low) in rows {
        let log = told_log(&rt, rt.alloc(), &records)?;
        assert!(rt;
            log.stage(FIRST) == stage && log.rest_to_undo(FIRST) == rest && log.low() == low,
            "{name}"
        );
    }
    Ok(())
}

// What is left to undo and the records of a transaction, among those of others.
#[test]
fn a_transaction_is_told_from_others(rt: HostRuntime) -> Result<(), Fail> {
    let turns = [
        Told::Add(FIRST),
        Told::Add(SECOND),
        Told::Touch(FIRST),
        Told::Add(SECOND),
        Told::Add(FIRST),
        Told::Comp(SECOND, 4),
        Told::Comp(FIRST, 5),
    ];
    let by_another = [Told::Add(FIRST), Told::Add(FIRST), Told::Comp(SECOND, 2)];
    let to_come = [
        Told::Comp(SECOND, 3),
        Told::Add(FIRST),
        Told::Add(FIRST),
        Told::Add(FIRST),
        Told::Comp(FIRST, 4),
    ];
    let first_write = [Told::Add(FIRST), Told::Add(FIRST), Told::Comp(FIRST, 1)];
    let rows = [
        (
            "the first of two that take turns",
            turns.as_slice(),
            FIRST,
            Stage::Running,
            [1, 3, 5, 7].as_slice(),
            Some(1),
        ),
        (
            "the second of them",
            &turns,
            SECOND,
            Stage::Running,
            &[2, 4, 6],
            Some(2),
        ),
        (
            "a write that another undoes",
            &by_another,
            FIRST,
            Stage::Running,
            &[1, 2],
            Some(1),
        ),
        (
            "a transaction that undoes another's",
            &by_another,
            SECOND,
            Stage::Unknown,
            &[3],
            None,
        ),
        (
            "a number to come",
            &to_come,
            FIRST,
            Stage::Running,
            &[2, 3, 4, 5],
            Some(2),
        ),
        (
            "a write before the last",
            &first_write,
            FIRST,
            Stage::Running,
            &[1, 2, 3],
            Some(2),
        ),
    ];
    for (name, records, txn, stage, chain, rest) in rows {
        let log = told_log(&rt, rt.alloc(), records)?;
        assert!(rt; stands(&log, txn, stage, chain, rest)?, "{name}");
    }
    Ok(())
}

// The undoing of the write of a number.
fn undone(alloc: Global, entry: &LogRec, number: u64) -> Result<LogRec, NoMemory> {
    match entry {
        LogRec::Set(..) => undo_of(alloc, entry, number, number),
        LogRec::Add(..) => undo_of(alloc, entry, number, number),
        _ => Err(NoMemory),
    }
}

// Whether a write is copied as it is, and its undoing under that number is the form, and is copied too.
fn is_undone_by(alloc: Global, write: LogRec, number: u64, form: Form) -> Result<bool, NoSample> {
    let wanted = LogRec::Comp(FIRST, table(b"t")?, key(b"a")?, number, number, form);
    Ok(
        write.copy(alloc)? == write
            && undone(alloc, &write, number)? == wanted
            && wanted.copy(alloc)? == wanted,
    )
}

// The write of a value of one digit over another, of the transaction FIRST.
fn set(alloc: Global, old: Option<&[u8]>, new: &[u8]) -> Result<LogRec, NoSample> {
    let (old, new) = (
        optional_value(alloc, old)?,
        optional_value(alloc, Some(new))?,
    );
    Ok(LogRec::Set(FIRST, table(b"t")?, key(b"a")?, 3, old, new))
}

#[test]
fn a_set_is_undone_to_its_old_image(rt: HostRuntime) -> Result<(), Fail> {
    let rows = [
        ("over a value", Some(b"5".as_slice())),
        ("over nothing", None),
    ];
    for (name, old) in rows {
        let set = set(rt.alloc(), old, b"6")?;
        let image = Form::Image(optional_value(rt.alloc(), old)?);
        assert!(rt; is_undone_by(rt.alloc(), set, 4, image)?, "{name}");
    }
    Ok(())
}

#[test]
fn an_addition_is_undone_by_its_amount(rt: HostRuntime) -> Result<(), Fail> {
    let add = LogRec::Add(FIRST, table(b"t")?, key(b"a")?, 4, 2);
    assert!(rt; is_undone_by(rt.alloc(), add, 5, Form::Amount(2))?);
    Ok(())
}

#[test]
fn a_failed_allocation_leaves_the_log(rt: HostRuntime) -> Result<(), Fail> {
    let mut log = example(&rt, rt.alloc())?;
    assert!(rt; log.reserve(usize::MAX).is_err());
    assert!(rt; log.last() == 8 && is_record(log.at(4), &LogRec::Decide(DECIDED)));
    Ok(())
}
