//! Writing the fields of packets.
ghost use Rattle.std.specs.Prelude.{◌≡◌, [], ◌++◌, ◌<◌, ◌^◌, length, IfOk, OnOk};
ghost use Rattle.cl_fields.specs.Spelling.{byte, number_32, number_64, amount_bytes, flag_byte, mode_byte, txn_bytes, name_bytes, value_bytes, image_bytes, form_bytes};
ghost use Rattle.cl_fields.specs.Range.{IsTxn, IsTable, IsKey, IsValue, IsImage, IsForm};

use crate::tags;
use cl_log::Form;
use cl_types::{Key, Mode, NoMemory, TableName, TxnId, Value};
use std::alloc::Global;
use std::marker::Model;

/// The bytes that are written so far. Contracts see the list of them.
///
/// Each call appends one field. Its only error is want of memory; no clause says when it comes, nor what a writer has after
/// it.
#[derive(Drop)]
pub struct Writer {
    bytes: Vec<u8>,
}

impl Model for Writer {
    ghost use Rattle.std.specs.Prelude.{ℕ, List};

    ghost Value = { List ℕ };

    ghost view = { λ writer. writer.bytes.items };
}

impl Writer {
    /// Makes an empty writer. It allocates `count` bytes at once; no contract says that later calls need no more.
    pub fn with_room(alloc: Global, count: usize) -> Result<Writer, NoMemory>
        ensures { IfOk result (λ writer. writer ≡ []) }
    {
        let mut bytes = Vec::new(alloc);
        bytes.reserve(count)?;
        Ok(Writer { bytes })
    }

    /// Returns the bytes, in the order in which they were written.
    pub fn into_bytes(self) -> Vec<u8>
        ensures { result.items ≡ self }
    {
        self.bytes
    }

    /// Writes these bytes.
    pub(crate) fn bytes(&mut self, bytes: &[u8]) -> Result<(), NoMemory>
        ensures { OnOk result (self.new ≡ self.old ++ bytes.now) }
    {
        self.bytes.extend_from_slice(bytes)?;
        Ok(())
    }

    /// Writes a byte.
    pub fn byte(&mut self, number: u8) -> Result<(), NoMemory>
        ensures { OnOk result (self.new ≡ self.old ++ byte number) }
    {
        self.bytes.push(number)?;
        Ok(())
    }

    /// Writes a number below 256 as a byte.
    pub fn small(&mut self, number: u32) -> Result<(), NoMemory>
        requires { number < 2 ^ 8 }
        ensures { OnOk result (self.new ≡ self.old ++ byte number) }
    {
        self.byte(number as u8)
    }

    /// Writes four bytes, the most significant first.
    #[tactic(auto, unfolding(crate::specs::Spelling::number_32))]
    pub fn u32(&mut self, number: u32) -> Result<(), NoMemory>
        ensures { OnOk result (self.new ≡ self.old ++ number_32 number) }
    {
        self.bytes(&number.to_be_bytes())
    }

    /// Writes eight bytes, the most significant first.
    #[tactic(auto, unfolding(crate::specs::Spelling::number_64))]
    pub fn u64(&mut self, number: u64) -> Result<(), NoMemory>
        ensures { OnOk result (self.new ≡ self.old ++ number_64 number) }
    {
        self.bytes(&number.to_be_bytes())
    }

    /// Writes eight bytes in two's complement, the most significant first.
    #[tactic(auto, unfolding(crate::specs::Spelling::amount_bytes))]
    pub(crate) fn amount(&mut self, amount: i64) -> Result<(), NoMemory>
        ensures { OnOk result (self.new ≡ self.old ++ amount_bytes amount) }
    {
        self.u64(amount.cast_unsigned())
    }

    /// Writes a byte: 1 for true, 0 for false.
    pub fn flag(&mut self, flag: bool) -> Result<(), NoMemory>
        ensures { OnOk result (self.new ≡ self.old ++ byte (flag_byte flag)) }
    {
        self.byte(u8::from(flag))
    }

    /// Writes the mode of a lock.
    pub(crate) fn mode(&mut self, mode: Mode) -> Result<(), NoMemory>
        ensures { OnOk result (self.new ≡ self.old ++ byte (mode_byte mode)) }
    {
        self.byte(match mode {
            Mode::Shared => tags::MODE_SHARED,
            Mode::Exclusive => tags::MODE_EXCLUSIVE,
        })
    }

    /// Writes the name of a transaction: its session, and its number there.
    #[tactic(auto, unfolding(crate::specs::Spelling::txn_bytes))]
    pub fn txn(&mut self, txn: TxnId) -> Result<(), NoMemory>
        requires { IsTxn txn }
        ensures { OnOk result (self.new ≡ self.old ++ txn_bytes txn) }
    {
        self.small(txn.session)?;
        self.u64(txn.number)
    }

    // Writes the length of a name, and the name.
    #[tactic(auto, unfolding(crate::specs::Spelling::name_bytes))]
    fn name(&mut self, name: &[u8]) -> Result<(), NoMemory>
        requires { length name.now < 2 ^ 8 }
        ensures { OnOk result (self.new ≡ self.old ++ name_bytes name.now) }
    {
        self.byte(name.len() as u8)?;
        self.bytes(name)
    }

    /// Writes the name of a table.
    pub(crate) fn table(&mut self, table: &TableName) -> Result<(), NoMemory>
        requires { IsTable table.now }
        ensures { OnOk result (self.new ≡ self.old ++ name_bytes table.now) }
    {
        self.name(table.bytes())
    }

    /// Writes a key.
    pub(crate) fn key(&mut self, key: &Key) -> Result<(), NoMemory>
        requires { IsKey key.now }
        ensures { OnOk result (self.new ≡ self.old ++ name_bytes key.now) }
    {
        self.name(key.bytes())
    }

    /// Writes the length of a value, and the value.
    #[tactic(auto, unfolding(crate::specs::Spelling::value_bytes))]
    pub(crate) fn value(&mut self, value: &Value) -> Result<(), NoMemory>
        requires { IsValue value.now }
        ensures { OnOk result (self.new ≡ self.old ++ value_bytes value.now) }
    {
        let bytes = value.bytes();
        self.bytes(&(bytes.len() as u16).to_be_bytes())?;
        self.bytes(bytes)
    }

    /// Writes a value, or that there is none.
    #[tactic(auto, unfolding(crate::specs::Spelling::image_bytes))]
    pub(crate) fn image(&mut self, image: &Option<Value>) -> Result<(), NoMemory>
        requires { IsImage image.now }
        ensures { OnOk result (self.new ≡ self.old ++ image_bytes image.now) }
    {
        match image {
            None => self.byte(0),
            Some(value) => {
                self.byte(1)?;
                self.value(value)
            }
        }
    }

    /// Writes what a compensation does.
    #[tactic(auto, unfolding(crate::specs::Spelling::form_bytes))]
    pub(crate) fn form(&mut self, form: &Form) -> Result<(), NoMemory>
        requires { IsForm form.now }
        ensures { OnOk result (self.new ≡ self.old ++ form_bytes form.now) }
    {
        match form {
            Form::Image(image) => {
                self.byte(0)?;
                self.image(image)
            }
            Form::Amount(amount) => {
                self.byte(1)?;
                self.amount(*amount)
            }
        }
    }
}
