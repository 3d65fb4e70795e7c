//! Tests of `cl_backup`.
use cl_backup::Decisions;
use cl_samples::txn;
use cl_types::{NoMemory, TxnId};
use std::alloc::Global;
use std::test::Fail;

// A call, with what it must answer.
#[derive(Clone, Copy, Debug)]
enum Step {
    Take(TxnId, bool),
    Decided(TxnId, bool),
    At(usize, Option<TxnId>),
    Len(usize),
}

// Whether the call has its answer.
fn is_answered(decisions: &mut Decisions, step: Step) -> Result<bool, NoMemory> {
    match step {
        Step::Take(txn, wanted) => Ok(decisions.take(txn)? == wanted),
        Step::Decided(txn, wanted) => Ok(decisions.decided(txn) == wanted),
        Step::At(place, wanted) => Ok(decisions.at(place) == wanted),
        Step::Len(wanted) => Ok(decisions.len() == wanted),
    }
}

#[test]
fn a_decision_is_new_once(rt: HostRuntime) -> Result<(), Fail> {
    let steps = [
        Step::Take(txn(1, 1), true),
        Step::Take(txn(1, 1), false),
        Step::Decided(txn(1, 1), true),
        Step::Decided(txn(2, 1), false),
        Step::At(0, Some(txn(1, 1))),
        Step::At(1, None),
        Step::Len(1),
    ];
    let mut decisions = Decisions::new(rt.alloc());
    for step in steps {
        assert!(rt; is_answered(&mut decisions, step)?, "{step:?}");
    }
    Ok(())
}
