//! The names of tables and keys. Each holds its bytes in place, so a copy allocates nothing.
ghost use Rattle.std.specs.Prelude.{◌≡◌, ◌≤◌, length, Some, None, if◌then◌else◌};
ghost use Rattle.std.specs.List.{list_all};
ghost use Rattle.std.specs.Char.{is_ascii_lowercase};
ghost use Rattle.cl_types.specs.Names.{is_table_name, is_key, is_key_byte};

use arrayvec::ArrayVec;
use std::marker::Model;

/// The most bytes of a table's name.
pub const TABLE_NAME_MAX: usize = 8;

/// The most bytes of a key.
pub const KEY_MAX: usize = 32;

/// A table's name: 1 to 8 letters `a` to `z`. Contracts see the list of its bytes.
#[derive(Debug, PartialEq, Eq, PartialOrd, Ord, Hash, Drop)]
pub struct TableName {
    bytes: ArrayVec<u8, TABLE_NAME_MAX>,
}

impl Model for TableName {
    ghost use Rattle.std.specs.Prelude.{◌≡◌, ℕ, List, true};
    ghost use Rattle.cl_types.specs.Names.{is_table_name};

    ghost Value = { List ℕ };

    ghost view = { λ name. name.bytes.items };

    ghost invariant = { λ name. is_table_name name.bytes.items ≡ true };

    ghost inverse = { λ bytes. record { bytes = record { items = bytes } } };
}

// Whether each byte is a letter `a` to `z`.
fn are_lowercase(bytes: &[u8]) -> bool
    ensures { result ≡ list_all is_ascii_lowercase bytes.now }
{
    bytes.iter().all(|byte| byte.is_ascii_lowercase())
}

// Whether the byte may stand in a key.
fn is_key_text_byte(byte: u8) -> bool
    ensures { result ≡ is_key_byte byte }
{
    byte.is_ascii_lowercase() || byte.is_ascii_digit() || matches!(byte, b'_' | b'.' | b'-')
}

// Whether each byte may stand in a key.
fn are_key_bytes(bytes: &[u8]) -> bool
    ensures { result ≡ list_all is_key_byte bytes.now }
{
    bytes.iter().all(|byte| is_key_text_byte(*byte))
}

// A copy of the bytes in an array that has room for them.
fn array_of<const CAP: usize>(bytes: &[u8]) -> ArrayVec<u8, CAP>
    requires { length bytes.now ≤ CAP }
    ensures { result.items ≡ bytes.now }
{
    let mut array = ArrayVec::new();
    match array.try_extend_from_slice(bytes) {
        Ok(()) => array,
        Err(_) => unreachable!(),
    }
}

impl TableName {
    /// Reads a table's name. `None` where the bytes are not 1 to 8 letters `a` to `z`.
    pub fn read(bytes: &[u8]) -> Option<TableName>
        ensures { result ≡ (if is_table_name bytes.now then Some bytes.now else None) }
    {
        if bytes.is_empty() || TABLE_NAME_MAX < bytes.len() || !are_lowercase(bytes) {
            return None;
        }
        Some(TableName {
            bytes: array_of(bytes),
        })
    }

    /// A copy of the name. It allocates nothing.
    pub fn copy(&self) -> TableName
        ensures { result ≡ self.now }
    {
        TableName {
            bytes: array_of(self.bytes.as_slice()),
        }
    }

    /// The bytes of the name.
    pub fn bytes(&self) -> &[u8]
        ensures { result.now ≡ self.now }
    {
        self.bytes.as_slice()
    }
}

/// A key: 1 to 32 bytes of `a` to `z`, `0` to `9`, `_`, `.` and `-`. Contracts see the list of its bytes.
#[derive(Debug, PartialEq, Eq, PartialOrd, Ord, Hash, Drop)]
pub struct Key {
    bytes: ArrayVec<u8, KEY_MAX>,
}

impl Model for Key {
    ghost use Rattle.std.specs.Prelude.{◌≡◌, ℕ, List, true};
    ghost use Rattle.cl_types.specs.Names.{is_key};

    ghost Value = { List ℕ };

    ghost view = { λ key. key.bytes.items };

    ghost invariant = { λ key. is_key key.bytes.items ≡ true };

    ghost inverse = { λ bytes. record { bytes = record { items = bytes } } };
}

impl Key {
    /// Reads a key. `None` where the bytes are not 1 to 32 bytes that may stand in a key.
    pub fn read(bytes: &[u8]) -> Option<Key>
        ensures { result ≡ (if is_key bytes.now then Some bytes.now else None) }
    {
        if bytes.is_empty() || KEY_MAX < bytes.len() || !are_key_bytes(bytes) {
            return None;
        }
        Some(Key {
            bytes: array_of(bytes),
        })
    }

    /// A copy of the key. It allocates nothing.
    pub fn copy(&self) -> Key
        ensures { result ≡ self.now }
    {
        Key {
            bytes: array_of(self.bytes.as_slice()),
        }
    }

    /// The bytes of the key.
    pub fn bytes(&self) -> &[u8]
        ensures { result.now ≡ self.now }
    {
        self.bytes.as_slice()
    }
}
