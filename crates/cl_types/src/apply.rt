//! Operations on the value of one record.
ghost use Rattle.std.specs.Prelude.{◌≡◌, IfOk};
ghost use Rattle.std.specs.Option.{option_copied};
ghost use Rattle.cl_types.specs.Plain.{plain_reply, plain_value, augend};

use crate::{NoMemory, Op, Reply, Value, copy_value, number_of};
use std::alloc::Global;

// The reply of a read.
fn reply_of_read(alloc: Global, value: Option<&Value>) -> Result<Reply, NoMemory>
    ensures { IfOk result (λ reply. reply ≡ plain_reply Op.Get (option_copied value.entry)) }
{
    match value {
        Some(value) => Ok(Reply::Found(value.copy(alloc)?)),
        None => Ok(Reply::Absent),
    }
}

// The reply of a deletion.
fn reply_of_delete(value: Option<&Value>) -> Reply
    ensures { result ≡ plain_reply Op.Del (option_copied value.entry) }
{
    match value {
        Some(_) => Reply::Stored,
        None => Reply::Absent,
    }
}

/// The number that an addition starts from: 0 where there is no value, and `None` where the value
/// is not a number.
pub fn augend_of(old: Option<&Value>) -> Option<i64>
    ensures { result ≡ augend (option_copied old.entry) }
{
    match old {
        Some(value) => number_of(value),
        None => Some(0),
    }
}

// The reply of an addition, and the value after it.
fn add(alloc: Global, amount: i64, old: Option<&Value>) -> Result<(Reply, Option<Value>), NoMemory>
    ensures reply { IfOk result (λ done. done.0 ≡ plain_reply (Op.Add amount) (option_copied old.entry)) }
    ensures value { IfOk result (λ done. done.1 ≡ plain_value (Op.Add amount) (option_copied old.entry)) }
{
    let Some(number) = augend_of(old) else {
        return Ok((Reply::NotNumber, copy_value(alloc, old)?));
    };
    match number.checked_add(amount) {
        Some(sum) => Ok((Reply::Sum(sum), Some(Value::of_number(alloc, sum)?))),
        None => Ok((Reply::OutOfRange, copy_value(alloc, old)?)),
    }
}

/// Applies an operation to the value of a record, if it has one. Returns the reply and the value
/// after the operation.
pub fn apply_op(
    alloc: Global,
    op: &Op,
    old: Option<&Value>,
) -> Result<(Reply, Option<Value>), NoMemory>
    ensures reply { IfOk result (λ done. done.0 ≡ plain_reply op.now (option_copied old.entry)) }
    ensures value { IfOk result (λ done. done.1 ≡ plain_value op.now (option_copied old.entry)) }
{
    match op {
        Op::Get => Ok((reply_of_read(alloc, old)?, copy_value(alloc, old)?)),
        Op::Put(value) => Ok((Reply::Stored, Some(value.copy(alloc)?))),
        Op::Del => Ok((reply_of_delete(old), None)),
        Op::Add(amount) => add(alloc, *amount, old),
    }
}
