//! What a record of its primary's log does to a standby.
ghost use Rattle.std.specs.Prelude.{◌≡◌, ◌≤◌, ◌++◌, OnOk};
ghost use Rattle.cl_backup.specs.Decisions.{decisions_after};
ghost use Rattle.cl_part.specs.State.{IsBelowNext, IsStateOf, State, after_record};
ghost use Rattle.cl_steps.specs.Steps.{step_of};
ghost use Rattle.cl_vnode.specs.Standby.{firm_of};
ghost use Rattle.cl_vnode.specs.Taking.{TakesHere};

use cl_backup::Decisions;
use cl_log::{LOG_NUMBER_MAX, LogRec};
use cl_part::Part;
use cl_redo::take;
use cl_steps::Steps;
use cl_types::NoMemory;
use std::alloc::Global;

/// Takes the record of this number. After an error the participant is as it was.
pub(crate) fn take_record(
    alloc: Global,
    part: &mut Part,
    number: u64,
    content: LogRec,
) -> Result<(), NoMemory>
    requires below { IsBelowNext part.old }
    requires takes { TakesHere part.old number content }
    requires fits { number ≤ LOG_NUMBER_MAX }
    ensures state { (before : State) → IsStateOf part.old before → OnOk result (IsStateOf part.new (after_record before content)) }
    ensures below { IsBelowNext part.new }
{
    take(
        alloc,
        &mut part.store,
        &mut part.log,
        &mut part.locks,
        number,
        content,
    )?;
    Ok(())
}

/// Keeps the decision, where the record is one.
pub(crate) fn keep_decision(decisions: &mut Decisions, content: &LogRec) -> Result<(), NoMemory>
    ensures { OnOk result (decisions.new ≡ decisions_after decisions.old content.now) }
{
    if let LogRec::Decide(txn) = content {
        decisions.take(*txn)?;
    }
    Ok(())
}

/// Tells that the transaction is firm, where the record is its Decide.
pub(crate) fn tell_firm(steps: &mut Steps, content: &LogRec) -> Result<(), NoMemory>
    ensures { OnOk result (step_of steps.new
        ≡ record (step_of steps.old) { firm = (step_of steps.old).firm ++ firm_of content.now }) }
{
    if let LogRec::Decide(txn) = content {
        steps.firm.push(*txn)?;
    }
    Ok(())
}
