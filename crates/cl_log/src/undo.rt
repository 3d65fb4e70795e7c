//! The undoing of a write.
ghost use Rattle.std.specs.Prelude.{◌≡◌, true, IfOk};
ghost use Rattle.cl_log.specs.Kind.{can_be_undone};
ghost use Rattle.cl_log.specs.Rest.{undo_of};

use crate::{Form, LogRec};
use cl_types::{NoMemory, copy_value};
use std::alloc::Global;

/// The compensation that undoes the write of a number, a Set or an Add, where `before` is the state
/// number that its record has now.
pub fn undo_of(
    alloc: Global,
    content: &LogRec,
    number: u64,
    before: u64,
) -> Result<LogRec, NoMemory>
    requires { can_be_undone content.now ≡ true }
    ensures { IfOk result (λ undo. undo ≡ undo_of content.now number before) }
{
    match content {
        LogRec::Set(txn, table, key, _, old, _) => {
            let form = Form::Image(copy_value(alloc, old.as_ref())?);
            Ok(LogRec::Comp(*txn, table.copy(), key.copy(), before, number, form))
        }
        LogRec::Add(txn, table, key, _, amount) => Ok(LogRec::Comp(
            *txn,
            table.copy(),
            key.copy(),
            before,
            number,
            Form::Amount(*amount),
        )),
        _ => unreachable!(),
    }
}
