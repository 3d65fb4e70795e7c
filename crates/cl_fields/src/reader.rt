//! Reading numbers and bytes from the left.
ghost use Rattle.std.specs.Prelude.{◌≡◌, ◌==◌, length, IfOk};
ghost use Rattle.std.specs.Int.{w16, w32, w64};
ghost use Rattle.cl_fields.specs.Reading.{Gives, ReadsField, read_byte, read_bytes, read_between, read_number, read_positive, read_amount, read_flag};

use crate::{Undecoded, WireFault};
use std::marker::Model;

/// The bytes that are left to read. Contracts see the list of them.
///
/// Each call reads one field from the left. Its error is the first that is met:
///
/// - `Fault(Short)`: too few bytes are left.
/// - `Fault(Field)`: the field is out of its range.
/// - `NoMemory`: it gave up for want of memory; no clause says when. Only calls that are given an allocator answer so.
///
/// No contract says what a reader has left after an error.
#[derive(Drop)]
pub struct Reader<'a> {
    left: &'a [u8],
}

impl<'a> Model for Reader<'a> {
    ghost use Rattle.std.specs.Prelude.{ℕ, List};

    ghost Value = { List ℕ };

    ghost view = { λ reader. reader.left.now };
}

impl<'a> Reader<'a> {
    /// Makes a reader of these bytes.
    pub fn of(bytes: &'a [u8]) -> Reader<'a>
        ensures { result ≡ bytes.now }
    {
        Reader { left: bytes }
    }

    /// Returns whether every byte is read.
    pub fn is_at_end(&self) -> bool
        ensures { result ≡ (length self.now == 0) }
    {
        self.left.is_empty()
    }

    /// Reads the next byte.
    #[tactic(auto, unfolding(crate::specs::Reading::read_byte))]
    pub fn byte(&mut self) -> Result<u8, Undecoded>
        ensures { ReadsField result self.new (read_byte self.old) }
    {
        match self.left {
            [] => Err(WireFault::Short.into()),
            [byte, rest @ ..] => {
                let byte = *byte;
                self.left = rest;
                Ok(byte)
            }
        }
    }

    /// Reads `count` bytes.
    #[tactic(auto, unfolding(crate::specs::Reading::read_bytes))]
    pub(crate) fn bytes(&mut self, count: usize) -> Result<&'a [u8], Undecoded>
        ensures read { Gives (λ found. found.now) result self.new (read_bytes count self.old) }
        ensures count { IfOk result (λ found. length found.now ≡ count) }
    {
        if self.left.len() < count {
            return Err(WireFault::Short.into());
        }
        let (found, rest) = self.left.split_at(count);
        self.left = rest;
        Ok(found)
    }

    /// Reads a byte from `low` to `high`, both included.
    #[tactic(auto, unfolding(crate::specs::Reading::read_between))]
    pub fn between(&mut self, low: u8, high: u8) -> Result<u32, Undecoded>
        ensures { ReadsField result self.new (read_between low high self.old) }
    {
        let byte = self.byte()?;
        if low <= byte && byte <= high {
            Ok(u32::from(byte))
        } else {
            Err(WireFault::Field.into())
        }
    }

    /// Reads a number of two bytes, the most significant first.
    #[tactic(auto, unfolding(crate::specs::Reading::read_number))]
    pub(crate) fn u16(&mut self) -> Result<u16, Undecoded>
        ensures { ReadsField result self.new (read_number w16 self.old) }
    {
        let bytes = self.bytes(2)?;
        Ok(u16::from_be_bytes([bytes[0], bytes[1]]))
    }

    /// Reads a number of four bytes, the most significant first.
    #[tactic(auto, unfolding(crate::specs::Reading::read_number))]
    pub fn u32(&mut self) -> Result<u32, Undecoded>
        ensures { ReadsField result self.new (read_number w32 self.old) }
    {
        let bytes = self.bytes(4)?;
        Ok(u32::from_be_bytes([bytes[0], bytes[1], bytes[2], bytes[3]]))
    }

    /// Reads a number of eight bytes, the most significant first.
    #[tactic(auto, unfolding(crate::specs::Reading::read_number))]
    pub fn u64(&mut self) -> Result<u64, Undecoded>
        ensures { ReadsField result self.new (read_number w64 self.old) }
    {
        let bytes = self.bytes(8)?;
        Ok(u64::from_be_bytes([
            bytes[0], bytes[1], bytes[2], bytes[3], bytes[4], bytes[5], bytes[6], bytes[7],
        ]))
    }

    /// Reads a number of four bytes that is at least 1.
    #[tactic(auto, unfolding(crate::specs::Reading::read_positive))]
    pub fn index(&mut self) -> Result<u32, Undecoded>
        ensures { ReadsField result self.new (read_positive w32 self.old) }
    {
        let index = self.u32()?;
        if index == 0 {
            return Err(WireFault::Field.into());
        }
        Ok(index)
    }

    /// Reads a number of eight bytes that is at least 1.
    #[tactic(auto, unfolding(crate::specs::Reading::read_positive))]
    pub fn number(&mut self) -> Result<u64, Undecoded>
        ensures { ReadsField result self.new (read_positive w64 self.old) }
    {
        let number = self.u64()?;
        if number == 0 {
            return Err(WireFault::Field.into());
        }
        Ok(number)
    }

    /// Reads eight bytes in two's complement, the most significant first.
    #[tactic(auto, unfolding(crate::specs::Reading::read_amount))]
    pub(crate) fn amount(&mut self) -> Result<i64, Undecoded>
        ensures { ReadsField result self.new (read_amount self.old) }
    {
        Ok(self.u64()?.cast_signed())
    }

    /// Reads a byte that is 0 or 1.
    #[tactic(auto, unfolding(crate::specs::Reading::read_flag))]
    pub fn flag(&mut self) -> Result<bool, Undecoded>
        ensures { ReadsField result self.new (read_flag self.old) }
    {
        match self.byte()? {
            0 => Ok(false),
            1 => Ok(true),
            _ => Err(WireFault::Field.into()),
        }
    }
}
