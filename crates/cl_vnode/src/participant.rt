//! What messages do to the participant.
ghost use Rattle.std.specs.Prelude.{◌≡◌, ◌≢◌, true, false, ◌&&◌, if◌then◌else◌, IfOk, OnOk};
ghost use Rattle.cl_log.specs.Log.{entries, next_number};
ghost use Rattle.cl_log.specs.Open.{is_open};
ghost use Rattle.cl_part.specs.Calls.{answer_to, after_op, after_prepare};
ghost use Rattle.cl_part.specs.State.{State, IsBelowNext, IsStateOf};
ghost use Rattle.cl_vnode.specs.Inputs.{IsSpentWhere, is_end_spent, is_full};
ghost use Rattle.cl_vnode.specs.Step.{after_finish};

use cl_log::{LOG_NUMBER_MAX, Log, Stage};
use cl_part::Part;
use cl_types::{Answer, Key, Op, Refused, TableName, TxnId};

/// Whether no log number is left.
pub(crate) fn is_full(log: &Log) -> bool
    ensures { result ≡ is_full (next_number log.now) }
{
    log.last() >= LOG_NUMBER_MAX
}

// Whether the transaction is open in the log.
fn is_open(log: &Log, txn: TxnId) -> bool
    ensures { result ≡ is_open (entries log.now) txn }
{
    matches!(log.stage(txn), Stage::Running | Stage::Prepared)
}

/// Carries out an operation.
pub(crate) fn ask(
    part: &mut Part,
    txn: TxnId,
    table: &TableName,
    key: &Key,
    op: &Op,
) -> Result<Answer, Refused>
    requires { IsBelowNext part.old }
    ensures answer { (before : State) → IsStateOf part.old before
        → IfOk result (λ answer. answer ≢ Answer.NoMemory → answer ≡ answer_to before txn (table.now, key.now) op.now) }
    ensures state { (before : State) → IsStateOf part.old before
        → IfOk result (λ answer. answer ≢ Answer.NoMemory → IsStateOf part.new (after_op before txn (table.now, key.now) op.now)) }
    ensures no_memory { (before : State) → IsStateOf part.old before
        → IfOk result (λ answer. answer ≡ Answer.NoMemory → IsStateOf part.new before) }
    ensures spent { IsSpentWhere (is_full (next_number part.old.log)) result }
    ensures below { IsBelowNext part.new }
{
    if is_full(&part.log) {
        return Err(Refused::Spent);
    }
    Ok(part.ask_op(txn, table, key, op))
}

/// Votes yes for the transaction.
pub(crate) fn prepare(part: &mut Part, txn: TxnId) -> Result<(), Refused>
    requires { IsBelowNext part.old }
    ensures state { (before : State) → IsStateOf part.old before → OnOk result (IsStateOf part.new (after_prepare before txn)) }
    ensures spent { IsSpentWhere (is_full (next_number part.old.log)) result }
    ensures below { IsBelowNext part.new }
{
    if is_full(&part.log) {
        return Err(Refused::Spent);
    }
    part.prepare(txn)?;
    Ok(())
}

/// Ends the transaction where it is open: with commit, or rolled back.
pub(crate) fn finish(part: &mut Part, txn: TxnId, commit: bool) -> Result<(), Refused>
    requires { IsBelowNext part.old }
    ensures state { (before : State) → IsStateOf part.old before → OnOk result
        (IsStateOf part.new (if is_open before.log txn then after_finish before txn commit else before)) }
    ensures spent { (before : State) → IsStateOf part.old before
        → IsSpentWhere (is_open before.log txn && is_end_spent before txn commit) result }
    ensures below { IsBelowNext part.new }
{
    if !is_open(&part.log, txn) {
        return Ok(());
    }
    if commit {
        commit_open(part, txn)
    } else {
        part.abort(txn)?;
        Ok(())
    }
}

// Ends an open transaction with commit.
fn commit_open(part: &mut Part, txn: TxnId) -> Result<(), Refused>
    requires { IsBelowNext part.old }
    ensures state { (before : State) → IsStateOf part.old before → OnOk result (IsStateOf part.new (after_finish before txn true)) }
    ensures spent { IsSpentWhere (is_full (next_number part.old.log)) result }
    ensures below { IsBelowNext part.new }
{
    if is_full(&part.log) {
        return Err(Refused::Spent);
    }
    part.end(txn, true)?;
    Ok(())
}
