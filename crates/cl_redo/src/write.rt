//! The write of a record: made ready by guard, and then made.
ghost use Rattle.std.specs.Prelude.{◌≡◌, ◌+◌, ◌≤◌, ◌<◌, ◌==◌, IfOk, if◌then◌else◌};
ghost use Rattle.std.specs.Option.{option_copied};
ghost use Rattle.cl_types.specs.Places.{Place, same_place};
ghost use Rattle.cl_log.specs.Store.{value_after, less};
ghost use Rattle.cl_store.specs.Store.{stored, room};
ghost use Rattle.cl_redo.specs.Write.{guarded, redone_of, after_write, CanWrite, IsAbove};

use crate::Redone;
use cl_log::{Form, LogRec};
use cl_store::Store;
use cl_types::{Key, NoMemory, Op, TableName, Value, apply_op, augend_of, copy_value};
use std::alloc::Global;

// A write by guard: the value to be written, or nothing to be done.
#[derive(Debug, Drop)]
pub(crate) enum Guarded {
    Write(Option<Value>),
    Skip,
}

// The number that the value is, less the amount. A value that is no number stays, and so does one
// whose difference is outside 64 bits.
fn difference(alloc: Global, value: Option<&Value>, amount: i64) -> Result<Option<Value>, NoMemory>
    ensures { IfOk result (λ difference. difference ≡ less amount (option_copied value.entry)) }
{
    let Some(number) = augend_of(value) else {
        return copy_value(alloc, value);
    };
    match number.checked_sub(amount) {
        Some(difference) => Ok(Some(Value::of_number(alloc, difference)?)),
        None => copy_value(alloc, value),
    }
}

// The value that a record leaves where this one stands.
fn value_after(
    alloc: Global,
    content: &LogRec,
    value: Option<&Value>,
) -> Result<Option<Value>, NoMemory>
    ensures { IfOk result (λ after. after ≡ value_after content.now (option_copied value.entry)) }
{
    match content {
        LogRec::Set(_, _, _, _, _, new) => copy_value(alloc, new.as_ref()),
        LogRec::Add(_, _, _, _, amount) => {
            let (_, sum) = apply_op(alloc, &Op::Add(*amount), value)?;
            Ok(sum)
        }
        LogRec::Comp(_, _, _, _, _, Form::Image(image)) => copy_value(alloc, image.as_ref()),
        LogRec::Comp(_, _, _, _, _, Form::Amount(amount)) => difference(alloc, value, *amount),
        _ => copy_value(alloc, value),
    }
}

// Makes the write of a record at its place ready: does all that may fail, and changes no record.
pub(crate) fn guard(
    alloc: Global,
    store: &mut Store,
    table: &TableName,
    key: &Key,
    before: u64,
    content: &LogRec,
) -> Result<Guarded, NoMemory>
    ensures same { (place : Place) → stored store.new place ≡ stored store.old place }
    ensures keeps_room { room store.old ≤ room store.new }
    ensures guarded { IfOk result (λ write. write ≡ guarded content.now before (stored store.old (table.now, key.now))) }
    ensures room { IfOk result (λ write. CanWrite write (room store.new)) }
{
    let (number, value) = store.get(table, key);
    if number != before {
        return Ok(Guarded::Skip);
    }
    let value = value_after(alloc, content, value)?;
    store.reserve(1)?;
    Ok(Guarded::Write(value))
}

// Makes a write that was made ready, under the record's number.
pub(crate) fn finish(
    store: &mut Store,
    table: &TableName,
    key: &Key,
    number: u64,
    write: Guarded,
) -> Redone
    requires above { IsAbove write number (stored store.old (table.now, key.now)) }
    requires room { CanWrite write (room store.old) }
    ensures room { room store.old ≤ room store.new + 1 }
    ensures redone { result ≡ redone_of write }
    ensures store { (place : Place) → stored store.new place
        ≡ (if same_place (table.now, key.now) place then after_write number write (stored store.old place) else stored store.old place) }
{
    match write {
        Guarded::Write(value) => {
            store.write(table, key, value, number);
            Redone::Applied
        }
        Guarded::Skip => Redone::Skipped,
    }
}
