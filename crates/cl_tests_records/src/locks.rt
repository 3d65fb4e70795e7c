//! Tests of `cl_locks`, with the answers that the rules give.
use cl_locks::{Granted, LockRefused, Locks, Mode};
use cl_samples::{NoSample, key, table, txn};
use cl_types::TxnId;
use std::alloc::Global;
use std::process::Abort;
use std::test::Fail;

// A call at a key of the table `t`, with what it must answer.
#[derive(Clone, Copy, Debug)]
enum Step<'a> {
    Ask(TxnId, &'a [u8], Mode, Result<Granted, LockRefused>),
    Release(TxnId),
    Holds(TxnId, &'a [u8], Option<Mode>),
}

const NEW: Result<Granted, LockRefused> = Ok(Granted::New);

const ALREADY: Result<Granted, LockRefused> = Ok(Granted::Already);

const STRONGER: Result<Granted, LockRefused> = Ok(Granted::Stronger);

fn held_by(txn: TxnId) -> Result<Granted, LockRefused> {
    Err(LockRefused::Held(txn))
}

// Whether the call has its answer.
fn is_answered(locks: &mut Locks, step: &Step<'_>) -> Result<bool, NoSample> {
    match *step {
        Step::Ask(txn, bytes, mode, wanted) => {
            match locks.ask(txn, &table(b"t")?, &key(bytes)?, mode) {
                Err(LockRefused::NoMemory) => Err(NoSample::NoMemory),
                answer => Ok(answer == wanted),
            }
        }
        Step::Release(txn) => {
            locks.release(txn);
            Ok(true)
        }
        Step::Holds(txn, bytes, wanted) => {
            Ok(locks.holds(txn, &table(b"t")?, &key(bytes)?) == wanted)
        }
    }
}

// Makes the calls on one table, one after another.
fn are_answered(rt: &impl Abort, alloc: Global, steps: &[Step<'_>]) -> Result<(), Fail> {
    let mut locks = Locks::new(alloc);
    for step in steps {
        assert!(rt; is_answered(&mut locks, step)?, "{step:?}");
    }
    Ok(())
}

#[test]
fn a_shared_lock_becomes_exclusive_once_it_is_alone(rt: HostRuntime) -> Result<(), Fail> {
    let (second, third) = (txn(2, 1), txn(3, 1));
    let steps = [
        Step::Ask(second, b"a", Mode::Shared, NEW),
        Step::Ask(third, b"a", Mode::Shared, NEW),
        Step::Ask(second, b"a", Mode::Exclusive, held_by(third)),
        Step::Holds(second, b"a", Some(Mode::Shared)),
        Step::Release(third),
        Step::Holds(third, b"a", None),
        Step::Ask(second, b"a", Mode::Exclusive, STRONGER),
        Step::Holds(second, b"a", Some(Mode::Exclusive)),
    ];
    are_answered(&rt, rt.alloc(), &steps)
}

#[test]
fn a_transaction_does_not_conflict_with_itself(rt: HostRuntime) -> Result<(), Fail> {
    let first = txn(1, 1);
    let steps = [
        Step::Ask(first, b"a", Mode::Shared, NEW),
        Step::Ask(first, b"a", Mode::Shared, ALREADY),
        Step::Ask(first, b"b", Mode::Exclusive, NEW),
        Step::Ask(first, b"b", Mode::Shared, ALREADY),
        Step::Ask(first, b"b", Mode::Exclusive, ALREADY),
        Step::Holds(first, b"b", Some(Mode::Exclusive)),
    ];
    are_answered(&rt, rt.alloc(), &steps)
}

#[test]
fn the_first_conflicting_holder_is_named(rt: HostRuntime) -> Result<(), Fail> {
    let (first, second, third) = (txn(1, 1), txn(2, 1), txn(3, 1));
    let next = txn(2, 2);
    let steps = [
        Step::Ask(third, b"a", Mode::Shared, NEW),
        Step::Ask(first, b"a", Mode::Shared, NEW),
        Step::Ask(second, b"a", Mode::Shared, NEW),
        Step::Ask(next, b"a", Mode::Exclusive, held_by(third)),
        Step::Ask(third, b"a", Mode::Exclusive, held_by(first)),
        Step::Release(third),
        Step::Ask(next, b"a", Mode::Exclusive, held_by(first)),
    ];
    are_answered(&rt, rt.alloc(), &steps)
}

// The two keys are on one list: both hashes are 485 modulo 1,024.
#[test]
fn keys_of_one_list_do_not_meet(rt: HostRuntime) -> Result<(), Fail> {
    let (first, second) = (txn(1, 1), txn(2, 1));
    let steps = [
        Step::Ask(first, b"b", Mode::Exclusive, NEW),
        Step::Ask(second, b"ic", Mode::Exclusive, NEW),
        Step::Ask(first, b"ic", Mode::Shared, held_by(second)),
        Step::Holds(first, b"ic", None),
        Step::Release(first),
        Step::Holds(second, b"ic", Some(Mode::Exclusive)),
        Step::Ask(second, b"b", Mode::Shared, NEW),
    ];
    are_answered(&rt, rt.alloc(), &steps)
}

#[test]
fn a_release_leaves_the_session_s_other_transactions(rt: HostRuntime) -> Result<(), Fail> {
    let (first, second, next) = (txn(1, 1), txn(2, 1), txn(2, 2));
    let steps = [
        Step::Ask(second, b"a", Mode::Exclusive, NEW),
        Step::Ask(next, b"b", Mode::Exclusive, NEW),
        Step::Ask(second, b"c", Mode::Shared, NEW),
        Step::Release(second),
        Step::Holds(second, b"a", None),
        Step::Holds(second, b"c", None),
        Step::Holds(next, b"b", Some(Mode::Exclusive)),
        Step::Ask(first, b"a", Mode::Exclusive, NEW),
    ];
    are_answered(&rt, rt.alloc(), &steps)
}

// Whether a request that failed for memory leaves no lock, and is granted when it is made again.
fn is_granted_again(alloc: Global) -> Result<bool, NoSample> {
    let mut locks = Locks::new(alloc);
    let (txn, table, key) = (txn(1, 1), table(b"t")?, key(b"a")?);
    let mut granted = locks.ask(txn, &table, &key, Mode::Exclusive);
    if granted == Err(LockRefused::NoMemory) {
        if locks.holds(txn, &table, &key).is_some() {
            return Ok(false);
        }
        granted = locks.ask(txn, &table, &key, Mode::Exclusive);
    }
    Ok(granted == NEW && locks.holds(txn, &table, &key) == Some(Mode::Exclusive))
}

// To be run with each allocation failing in turn.
#[test]
fn an_allocation_that_fails_leaves_the_locks(rt: HostRuntime) -> Result<(), Fail> {
    assert!(rt; is_granted_again(rt.alloc())?);
    Ok(())
}

fn moves<T: Send + Drop>(_value: T) {}

#[test]
fn a_table_moves_between_threads(rt: HostRuntime) {
    moves(Locks::new(rt.alloc()));
}
