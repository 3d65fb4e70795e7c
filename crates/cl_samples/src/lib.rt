//! Names and values for tests, made from bytes.
#![tactic(auto)]

use cl_types::{Key, NoMemory, TableName, TxnId, Value};
use std::alloc::Global;

/// Why a sample could not be made.
#[derive(Debug, Drop)]
pub enum NoSample {
    /// The bytes are no such name or value.
    Unlawful,
    /// The call gave up for want of memory; no clause says when.
    NoMemory,
}

impl From<NoMemory> for NoSample {
    fn from(_error: NoMemory) -> NoSample {
        NoSample::NoMemory
    }
}

/// The table of this name.
pub fn table(bytes: &[u8]) -> Result<TableName, NoSample> {
    TableName::read(bytes).ok_or(NoSample::Unlawful)
}

/// The key of these bytes.
pub fn key(bytes: &[u8]) -> Result<Key, NoSample> {
    Key::read(bytes).ok_or(NoSample::Unlawful)
}

/// The value of these bytes.
pub fn value(alloc: Global, bytes: &[u8]) -> Result<Value, NoSample> {
    Value::read(alloc, bytes)?.ok_or(NoSample::Unlawful)
}

/// The value of these bytes, or none where none are given.
pub fn optional_value(alloc: Global, bytes: Option<&[u8]>) -> Result<Option<Value>, NoSample> {
    match bytes {
        Some(bytes) => Ok(Some(value(alloc, bytes)?)),
        None => Ok(None),
    }
}

/// Whether the value has these bytes, or there is none where none are given.
pub fn is_value(found: Option<&Value>, bytes: Option<&[u8]>) -> bool {
    match (found, bytes) {
        (Some(found), Some(bytes)) => found.bytes() == bytes,
        (None, None) => true,
        _ => false,
    }
}

/// The transaction of a session with a number.
pub fn txn(session: u32, number: u64) -> TxnId {
    TxnId { session, number }
}
