//! Which transactions are firm once a primary is left alone.
ghost use Rattle.std.specs.Prelude.{◌≡◌, ◌-◌, ◌++◌, OnOk};
ghost use Rattle.cl_log.specs.Log.{entries, next_number};
ghost use Rattle.cl_log.specs.LogEntry.{content_at};
ghost use Rattle.cl_steps.specs.Steps.{step_of};
ghost use Rattle.cl_vnode.specs.Noting.{decides_in};
ghost use Rattle.cl_vnode.specs.Sending.{found_at};
ghost use Rattle.cl_vnode.specs.Step.{entries_between};

use crate::taking::tell_firm;
use cl_log::Log;
use cl_steps::Steps;
use cl_types::NoMemory;

// Tells that the transaction is firm whose Decide has this number, where there is one.
fn tell_firm_at(log: &Log, steps: &mut Steps, number: u64) -> Result<(), NoMemory>
    ensures { OnOk result (step_of steps.new ≡ record (step_of steps.old) {
      firm = (step_of steps.old).firm ++ decides_in (found_at number (content_at (entries log.now) number));
    }) }
{
    match log.at(number) {
        Some(content) => tell_firm(steps, content),
        None => Ok(()),
    }
}

/// Tells that the transactions are firm whose Decide stands after this number, in order of the log.
pub(crate) fn tell_firm_after(log: &Log, steps: &mut Steps, old: u64) -> Result<(), NoMemory>
    ensures { OnOk result (step_of steps.new ≡ record (step_of steps.old) {
      firm = (step_of steps.old).firm ++ decides_in (entries_between old (next_number log.now - 1) (entries log.now));
    }) }
{
    for number in old..log.last() {
        tell_firm_at(log, steps, number + 1)?;
    }
    Ok(())
}
