//! Records taken one by one, with what stands in the store and what is locked after each.
ghost use Rattle.std.specs.Prelude.{◌≡◌, ◌≢◌, ◌<◌, ◌≤◌, ◌⊎◌, true, false, None, IfOk};
ghost use Rattle.cl_types.specs.declared.operations.TxnId.{TxnId};
ghost use Rattle.cl_types.specs.Places.{Place};
ghost use Rattle.cl_log.specs.Kind.{txn_of, is_end};
ghost use Rattle.cl_log.specs.Log.{entries, next_number};
ghost use Rattle.cl_log.specs.Open.{has_ended};
ghost use Rattle.cl_locks.specs.Table.{held};
ghost use Rattle.cl_store.specs.Store.{stored};
ghost use Rattle.cl_redo.specs.Condition.{MeetsWrite};

use cl_locks::{Locks, Mode};
use cl_log::{Form, LOG_NUMBER_MAX, Log, LogRec};
use cl_redo::{Redone, reserve, take};
use cl_samples::{NoSample, is_value, key, optional_value, table};
use cl_store::Store;
use cl_types::{Key, NoMemory, TableName, TxnId};
use std::alloc::Global;
use std::process::Abort;
use std::test::Fail;

// The one transaction of these logs.
const TXN: TxnId = TxnId {
    session: 2,
    number: 1,
};

#[derive(Debug, Drop)]
struct Replica {
    store: Store,
    log: Log,
    locks: Locks,
}

// Whether what stands at the place of a write meets it.
fn is_met_at(store: &Store, table: &TableName, key: &Key, before: u64, number: u64) -> bool
    ensures { let own : Place = (table.now, key.now) in result ≡ true → (before < number)
        × (((stored store.now own).0 ≡ before) ⊎ (number ≤ (stored store.now own).0)) }
{
    let (found, _) = store.get(table, key);
    before < number && (found == before || number <= found)
}

// Whether what stands in the store meets a record.
fn is_met(store: &Store, number: u64, entry: &LogRec) -> bool
    ensures { result ≡ true → MeetsWrite (stored store.now) (record { number = number; content = entry.now }) }
{
    match entry {
        LogRec::Set(_, table, key, before, ..) => { is_met_at(store, table, key, *before, number) }
        LogRec::Add(_, table, key, before, _) => { is_met_at(store, table, key, *before, number) }
        LogRec::Comp(_, table, key, before, ..) => { is_met_at(store, table, key, *before, number) }
        _ => true,
    }
}

// Takes the next record of the one transaction.
fn take_next(
    rt: &impl Abort,
    alloc: Global,
    replica: &mut Replica,
    entry: LogRec,
) -> Result<Redone, NoMemory>
    requires own { txn_of entry ≡ TXN }
    requires running { has_ended (entries replica.old.log) TXN ≡ false }
    requires alone { (other : TxnId) (place : Place) → other ≢ TXN → held replica.old.locks other place ≡ None }
    ensures running { is_end entry ≡ false → has_ended (entries replica.new.log) TXN ≡ false }
    ensures alone { (other : TxnId) (place : Place) → other ≢ TXN → held replica.new.locks other place ≡ None }
{
    let last = replica.log.last();
    assert!(rt; last < LOG_NUMBER_MAX);
    assert!(rt; is_met(&replica.store, last + 1, &entry));
    let redone = take(
        alloc,
        &mut replica.store,
        &mut replica.log,
        &mut replica.locks,
        last + 1,
        entry,
    )?;
    Ok(redone)
}

// A replica on which nothing was taken, whose log's next number is `first`.
fn new_replica(alloc: Global, first: u64) -> Replica
    requires { 1 ≤ first }
    ensures running { has_ended (entries result.log) TXN ≡ false }
    ensures alone { (other : TxnId) (place : Place) → held result.locks other place ≡ None }
    ensures next { next_number result.log ≡ first }
{
    Replica {
        store: Store::new(alloc),
        log: Log::new(alloc, first),
        locks: Locks::new(alloc),
    }
}

// Whether a replica has this last log number, this state number and value at `t b`, and these locks at
// `t a` and `t b`.
fn stands(
    replica: &Replica,
    last: u64,
    (number, bytes): (u64, Option<&[u8]>),
    (of_a, of_b): (Option<Mode>, Option<Mode>),
) -> Result<bool, NoSample> {
    let (t, a, b) = (table(b"t")?, key(b"a")?, key(b"b")?);
    let (found, value) = replica.store.get(&t, &b);
    Ok(
        replica.log.last() == last
            && found == number
            && is_value(value, bytes)
            && replica.locks.holds(TXN, &t, &a) == of_a
            && replica.locks.holds(TXN, &t, &b) == of_b,
    )
}

// A replica whose log begins with record 8, and whose store has that value with that state number at `t b`.
fn replica_with(
    rt: &impl Abort,
    alloc: Global,
    bytes: &[u8],
    number: u64,
) -> Result<Replica, NoSample>
    ensures running { IfOk result (λ replica. has_ended (entries replica.log) TXN ≡ false) }
    ensures alone { IfOk result (λ replica.
        (other : TxnId) (place : Place) → held replica.locks other place ≡ None) }
{
    let mut replica = new_replica(alloc, 8);
    let (t, b) = (table(b"t")?, key(b"b")?);
    let value = optional_value(alloc, Some(bytes))?;
    replica.store.reserve(1)?;
    assert!(rt; replica.store.get(&t, &b).0 < number);
    replica.store.write(&t, &b, value, number);
    Ok(replica)
}

#[test]
fn an_addition_counts_once(rt: HostRuntime) -> Result<(), Fail> {
    // The value and state number before, what is made of the addition of 2 over state 1, and the same after it.
    let rows = [
        (
            "there already",
            (b"9".as_slice(), 8),
            Redone::Skipped,
            (b"9".as_slice(), 8),
        ),
        ("new", (b"5", 1), Redone::Applied, (b"7", 8)),
    ];
    for (name, (old, before), wanted, (new, after)) in rows {
        let mut replica = replica_with(&rt, rt.alloc(), old, before)?;
        let add = LogRec::Add(TXN, table(b"t")?, key(b"b")?, 1, 2);
        let redone = take_next(&rt, rt.alloc(), &mut replica, add)?;
        let locks = (None, Some(Mode::Exclusive));
        let stands = stands(&replica, 8, (after, Some(new)), locks)?;
        assert!(rt; redone == wanted && stands, "{name}");
    }
    Ok(())
}

// The record of that number in a log of all kinds, whose last record ends the transaction.
fn record_of_all(alloc: Global, number: u64) -> Result<LogRec, NoSample>
    ensures own { IfOk result (λ entry. txn_of entry ≡ TXN) }
    ensures open { IfOk result (λ entry. is_end entry ≡ false) }
{
    let (table, key) = (table(b"t")?, key(if number == 1 { b"a" } else { b"b" })?);
    Ok(match number {
        1 => LogRec::Touch(TXN, table, key, Mode::Shared),
        2 => LogRec::Set(TXN, table, key, 0, None, optional_value(alloc, Some(b"5"))?),
        3 => LogRec::Add(TXN, table, key, 2, 2),
        4 => LogRec::Comp(TXN, table, key, 3, 3, Form::Amount(2)),
        5 => LogRec::Comp(TXN, table, key, 4, 2, Form::Image(None)),
        6 => LogRec::Prepared(TXN),
        _ => LogRec::Decide(TXN),
    })
}

#[test]
fn one_log_of_all_kinds(rt: HostRuntime) -> Result<(), Fail> {
    let exclusive = Some(Mode::Exclusive);
    // The record, what is made of it, the state and value at `t b` after it, and the lock there.
    let rows = [
        (1, Redone::Marked, (0, None), None),
        (2, Redone::Applied, (2, Some(b"5".as_slice())), exclusive),
        (3, Redone::Applied, (3, Some(b"7")), exclusive),
        (4, Redone::Applied, (4, Some(b"5")), exclusive),
        (5, Redone::Applied, (5, None), exclusive),
        (6, Redone::Marked, (5, None), exclusive),
        (7, Redone::Marked, (5, None), exclusive),
    ];
    let mut replica = new_replica(rt.alloc(), 1);
    for (number, wanted, stored, mode) in rows {
        let record = record_of_all(rt.alloc(), number)?;
        let redone = take_next(&rt, rt.alloc(), &mut replica, record)?;
        let stands = stands(&replica, number, stored, (Some(Mode::Shared), mode))?;
        assert!(rt; redone == wanted && stands, "record {number}");
    }
    let redone = take_next(&rt, rt.alloc(), &mut replica, LogRec::End(TXN, true))?;
    let stands = stands(&replica, 8, (5, None), (None, None))?;
    assert!(rt; redone == Redone::Marked && stands, "the End");
    Ok(())
}

#[test]
fn a_shared_lock_becomes_exclusive_with_the_write(rt: HostRuntime) -> Result<(), Fail> {
    let alloc = rt.alloc();
    let (t, a) = (table(b"t")?, key(b"a")?);
    let mut replica = new_replica(alloc, 1);
    let touch = LogRec::Touch(TXN, t.copy(), a.copy(), Mode::Shared);
    take_next(&rt, alloc, &mut replica, touch)?;
    let value = optional_value(alloc, Some(b"x"))?;
    let set = LogRec::Set(TXN, t.copy(), a.copy(), 0, None, value);
    take_next(&rt, alloc, &mut replica, set)?;
    assert_eq!(rt; replica.locks.holds(TXN, &t, &a), Some(Mode::Exclusive));
    Ok(())
}

#[test]
fn room_is_made_in_both(rt: HostRuntime) -> Result<(), Fail> {
    let (t, a) = (table(b"t")?, key(b"a")?);
    let mut replica = new_replica(rt.alloc(), 1);
    reserve(&mut replica.store, &mut replica.log, 1)?;
    assert_eq!(rt; replica.store.get(&t, &a).0, 0);
    replica.store.write(&t, &a, None, 1);
    assert_eq!(rt; replica.log.append(LogRec::Prepared(TXN)), 1);
    Ok(())
}

#[test]
fn an_amount_that_does_not_fit_leaves_the_value(rt: HostRuntime) -> Result<(), Fail> {
    // The value before, and the amount added or taken back.
    let rows = [
        ("to what is no number", b"x".as_slice(), 2, false),
        ("taken back out of range", b"1", i64::MIN, true),
    ];
    for (name, bytes, amount, is_undo) in rows {
        let mut replica = replica_with(&rt, rt.alloc(), bytes, 1)?;
        let (t, b) = (table(b"t")?, key(b"b")?);
        let (entry, lock) = if is_undo {
            (LogRec::Comp(TXN, t, b, 1, 1, Form::Amount(amount)), None)
        } else {
            (LogRec::Add(TXN, t, b, 1, amount), Some(Mode::Exclusive))
        };
        let redone = take_next(&rt, rt.alloc(), &mut replica, entry)?;
        let stands = stands(&replica, 8, (8, Some(bytes)), (None, lock))?;
        assert!(rt; redone == Redone::Applied && stands, "{name}");
    }
    Ok(())
}

// Where an allocation fails, the replica is as it was, and takes the record then.
#[test]
fn a_failed_allocation_leaves_the_replica(rt: HostRuntime) -> Result<(), Fail> {
    let mut replica = new_replica(rt.alloc(), 1);
    take_next(&rt, rt.alloc(), &mut replica, record_of_all(rt.alloc(), 1)?)?;
    let (set, again) = (record_of_all(rt.alloc(), 2)?, record_of_all(rt.alloc(), 2)?);
    let shared = Some(Mode::Shared);
    if take_next(&rt, rt.alloc(), &mut replica, set).is_err() {
        assert!(rt; stands(&replica, 1, (0, None), (shared, None))?);
        take_next(&rt, rt.alloc(), &mut replica, again)?;
    }
    assert!(rt;
        stands(
            &replica,
            2,
            (2, Some(b"5")),
            (shared, Some(Mode::Exclusive))
        )?
    );
    Ok(())
}
