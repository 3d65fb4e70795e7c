//! The first member of a history that is unfit.
ghost use Rattle.std.specs.Prelude.{◌≡◌, ◌↔◌, IsTrue, IfOk, MatchOption};
ghost use Rattle.cl_types.specs.AppendOnlyList.{entries};
ghost use Rattle.cl_serial.specs.Gathering.{commands_at};
ghost use Rattle.cl_serial.specs.Verdict.{HasCommit, FirstUnfit, AreFit};

use crate::History;
use crate::exchange::Exchange;
use crate::transactions::{Sessions, commands_of};
use cl_types::{Command, NoMemory, TxnId};
use std::alloc::Global;
use std::collections::BTreeSet;

// Whether one of the commands is COMMIT.
fn has_commit(commands: &[Exchange]) -> bool
    ensures { IsTrue result ↔ HasCommit commands.now }
{
    for exchange in commands {
        if exchange.is_commit() {
            return true;
        }
    }
    false
}

/// The first member of the history that stands again after its index, or has no COMMIT. `None` where there is none.
///
/// It goes from the last member to the first, and keeps those that it has met.
pub(crate) fn first_unfit(
    alloc: Global,
    sessions: &Sessions,
    history: &History,
) -> Result<Option<TxnId>, NoMemory>
    ensures { IfOk result (λ found. let commands = commands_at sessions.now in
        MatchOption found (AreFit commands (entries history.now)) (λ name. FirstUnfit commands (entries history.now) name)) }
{
    let names = history.as_slice();
    let mut met = BTreeSet::new(alloc);
    let mut unfit = None;
    let mut index = names.len();
    while 0 < index {
        index -= 1;
        let name = names[index];
        let is_new = met.insert(name)?;
        if !is_new || !has_commit(commands_of(sessions, &name)) {
            unfit = Some(name);
        }
    }
    Ok(unfit)
}
