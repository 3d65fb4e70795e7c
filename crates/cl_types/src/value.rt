//! The values of records.
ghost use Rattle.std.specs.Prelude.{◌≡◌, Some, None, IfOk, if◌then◌else◌, nat_eq};
ghost use Rattle.std.specs.Option.{option_copied};
ghost use Rattle.std.specs.List.{list_all};
ghost use Rattle.std.specs.Char.{is_ascii_graphic};
ghost use Rattle.std.specs.Cmp.{partial_equiv_from_equiv};
ghost use Rattle.std.specs.Cmp.Lexicographic.{pointwise, nat_list_eq_equiv};
ghost use Rattle.std.specs.Fmt.{signed_decimal};
ghost use Rattle.cl_types.specs.Names.{is_value};

use crate::NoMemory;
use std::alloc::Global;
use std::marker::Model;

/// The most bytes of a value.
pub const VALUE_MAX: usize = 128;

/// A record's value: 1 to 128 bytes of hex 21 to 7E. Contracts see the list of its bytes.
#[derive(Debug, Drop)]
pub struct Value {
    bytes: Vec<u8>,
}

impl Model for Value {
    ghost use Rattle.std.specs.Prelude.{◌≡◌, ℕ, List, true};
    ghost use Rattle.cl_types.specs.Names.{is_value};

    ghost Value = { List ℕ };

    ghost view = { λ value. value.bytes.items };

    ghost invariant = { λ value. is_value value.bytes.items ≡ true };
}

impl PartialEq for Value {
    ghost eq = { λ value other. pointwise nat_eq value other };

    ghost laws = { partial_equiv_from_equiv nat_list_eq_equiv };

    fn eq(&self, other: &Value) -> bool {
        self.bytes() == other.bytes()
    }
}

impl Eq for Value {
    ghost laws = { nat_list_eq_equiv };
}

// Whether each byte is printable and not a blank.
fn are_graphic(bytes: &[u8]) -> bool
    ensures { result ≡ list_all is_ascii_graphic bytes.now }
{
    bytes.iter().all(|byte| byte.is_ascii_graphic())
}

impl Value {
    /// Reads a value. `None` where the bytes are not 1 to 128 bytes of hex 21 to 7E.
    pub fn read(alloc: Global, bytes: &[u8]) -> Result<Option<Value>, NoMemory>
        ensures { IfOk result (λ value. value ≡ (if is_value bytes.now then Some bytes.now else None)) }
    {
        if bytes.is_empty() || VALUE_MAX < bytes.len() || !are_graphic(bytes) {
            return Ok(None);
        }
        let bytes = Vec::from_slice(alloc, bytes)?;
        Ok(Some(Value { bytes }))
    }

    /// A copy of the value.
    pub fn copy(&self, alloc: Global) -> Result<Value, NoMemory>
        ensures { IfOk result (λ value. value ≡ self.now) }
    {
        let bytes = Vec::from_slice(alloc, self.bytes.as_slice())?;
        Ok(Value { bytes })
    }

    /// A number printed in canonical decimal, as a value.
    pub fn of_number(alloc: Global, number: i64) -> Result<Value, NoMemory>
        ensures { IfOk result (λ value. value ≡ signed_decimal number) }
    {
        let text = number.to_string(alloc)?;
        Ok(Value {
            bytes: text.into_bytes(),
        })
    }

    /// The bytes of the value.
    pub fn bytes(&self) -> &[u8]
        ensures { result.now ≡ self.now }
    {
        self.bytes.as_slice()
    }
}

/// A copy of the value, if there is one.
pub fn copy_value(alloc: Global, value: Option<&Value>) -> Result<Option<Value>, NoMemory>
    ensures { IfOk result (λ copied. copied ≡ option_copied value.entry) }
{
    match value {
        Some(value) => Ok(Some(value.copy(alloc)?)),
        None => Ok(None),
    }
}
