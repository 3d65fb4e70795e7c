//! Reading the fields of packets.
ghost use Rattle.std.specs.Prelude.{◌≡◌};
ghost use Rattle.cl_fields.specs.Reading.{Gives, ReadsField, read_actor, read_node, read_virtual_node, read_command_number, read_mode, read_txn, read_text, read_table, read_key, read_value_length, read_value, read_image, read_form, read_operand, read_work, read_op, read_command, read_reply, read_cause, read_outcome, read_answer, read_item};

use crate::limits::{ACTOR_MAX, COMMAND_NUMBER_MAX, NODE_MAX, VIRTUAL_NODE_MAX};
use crate::reader::Reader;
use crate::undecoded::Undecoded;
use crate::{WireFault, tags};
use cl_log::Form;
use cl_store::Item;
use cl_types::{
    AbortCause, Answer, Command, Key, Mode, Op, Outcome, Reply, SESSIONS_MAX, TableName, TxnId,
    VALUE_MAX, Value,
};
use std::alloc::Global;

impl<'a> Reader<'a> {
    /// Reads an actor: a node, or the front.
    pub fn actor(&mut self) -> Result<u32, Undecoded>
        ensures { ReadsField result self.new (read_actor self.old) }
    {
        self.between(0, ACTOR_MAX)
    }

    /// Reads a virtual node.
    pub fn virtual_node(&mut self) -> Result<u32, Undecoded>
        ensures { ReadsField result self.new (read_virtual_node self.old) }
    {
        self.between(0, VIRTUAL_NODE_MAX)
    }

    /// Reads the number of a command in its transaction, 0 to `COMMAND_NUMBER_MAX`.
    #[tactic(auto, unfolding(crate::specs::Reading::read_command_number))]
    pub fn command_number(&mut self) -> Result<u32, Undecoded>
        ensures { ReadsField result self.new (read_command_number self.old) }
    {
        let command_number = self.u32()?;
        if command_number <= COMMAND_NUMBER_MAX {
            Ok(command_number)
        } else {
            Err(WireFault::Field.into())
        }
    }

    /// Reads a node.
    pub fn node(&mut self) -> Result<u32, Undecoded>
        ensures { ReadsField result self.new (read_node self.old) }
    {
        self.between(0, NODE_MAX)
    }

    /// Reads the mode of a lock.
    #[tactic(auto, unfolding(crate::specs::Reading::read_mode))]
    pub(crate) fn mode(&mut self) -> Result<Mode, Undecoded>
        ensures { ReadsField result self.new (read_mode self.old) }
    {
        match self.byte()? {
            tags::MODE_SHARED => Ok(Mode::Shared),
            tags::MODE_EXCLUSIVE => Ok(Mode::Exclusive),
            _ => Err(WireFault::Field.into()),
        }
    }

    /// Reads the name of a transaction: a session, 1 to `SESSIONS_MAX`, and a number, at least 1.
    #[tactic(auto, unfolding(crate::specs::Reading::read_txn))]
    pub fn txn(&mut self) -> Result<TxnId, Undecoded>
        ensures { ReadsField result self.new (read_txn self.old) }
    {
        let session = self.between(1, SESSIONS_MAX as u8)?;
        let number = self.number()?;
        Ok(TxnId { session, number })
    }

    // Reads the bytes of a name, after their length.
    #[tactic(auto, unfolding(crate::specs::Reading::read_text))]
    fn text(&mut self) -> Result<&'a [u8], Undecoded>
        ensures { Gives (λ found. found.now) result self.new (read_text self.old) }
    {
        let count = self.byte()?;
        self.bytes(usize::from(count))
    }

    /// Reads the name of a table.
    #[tactic(auto, unfolding(crate::specs::Reading::read_table))]
    pub(crate) fn table(&mut self) -> Result<TableName, Undecoded>
        ensures { ReadsField result self.new (read_table self.old) }
    {
        let text = self.text()?;
        match TableName::read(text) {
            Some(table) => Ok(table),
            None => Err(WireFault::Field.into()),
        }
    }

    /// Reads a key.
    #[tactic(auto, unfolding(crate::specs::Reading::read_key))]
    pub(crate) fn key(&mut self) -> Result<Key, Undecoded>
        ensures { ReadsField result self.new (read_key self.old) }
    {
        let text = self.text()?;
        match Key::read(text) {
            Some(key) => Ok(key),
            None => Err(WireFault::Field.into()),
        }
    }

    // Reads the length of a value.
    #[tactic(auto, unfolding(crate::specs::Reading::read_value_length))]
    fn value_length(&mut self) -> Result<usize, Undecoded>
        ensures { ReadsField result self.new (read_value_length self.old) }
    {
        let count = usize::from(self.u16()?);
        if 1 <= count && count <= VALUE_MAX {
            Ok(count)
        } else {
            Err(WireFault::Field.into())
        }
    }

    /// Reads a value.
    #[tactic(auto, unfolding(crate::specs::Reading::read_value))]
    pub(crate) fn value(&mut self, alloc: Global) -> Result<Value, Undecoded>
        ensures { ReadsField result self.new (read_value self.old) }
    {
        let count = self.value_length()?;
        let text = self.bytes(count)?;
        match Value::read(alloc, text)? {
            Some(value) => Ok(value),
            None => Err(WireFault::Field.into()),
        }
    }

    /// Reads a value, or that there is none.
    #[tactic(auto, unfolding(crate::specs::Reading::read_image))]
    pub(crate) fn image(&mut self, alloc: Global) -> Result<Option<Value>, Undecoded>
        ensures { ReadsField result self.new (read_image self.old) }
    {
        if self.flag()? {
            Ok(Some(self.value(alloc)?))
        } else {
            Ok(None)
        }
    }

    /// Reads what a compensation does.
    #[tactic(auto, unfolding(crate::specs::Reading::read_form))]
    pub(crate) fn form(&mut self, alloc: Global) -> Result<Form, Undecoded>
        ensures { ReadsField result self.new (read_form self.old) }
    {
        if self.flag()? {
            Ok(Form::Amount(self.amount()?))
        } else {
            Ok(Form::Image(self.image(alloc)?))
        }
    }

    // Reads what stands after the key of the operation with this byte.
    #[tactic(auto, unfolding(crate::specs::Reading::read_operand))]
    fn operand(&mut self, alloc: Global, byte: u8) -> Result<Op, Undecoded>
        ensures { ReadsField result self.new (read_operand byte self.old) }
    {
        match byte {
            tags::OP_GET => Ok(Op::Get),
            tags::OP_PUT => Ok(Op::Put(self.value(alloc)?)),
            tags::OP_DEL => Ok(Op::Del),
            tags::OP_ADD => Ok(Op::Add(self.amount()?)),
            _ => Err(WireFault::Field.into()),
        }
    }

    // Reads an operation on a record, after its byte.
    #[tactic(auto, unfolding(crate::specs::Reading::read_work))]
    fn work(&mut self, alloc: Global, byte: u8) -> Result<(TableName, Key, Op), Undecoded>
        ensures { ReadsField result self.new (read_work byte self.old) }
    {
        let table = self.table()?;
        let key = self.key()?;
        let op = self.operand(alloc, byte)?;
        Ok((table, key, op))
    }

    /// Reads an operation on a record: a table, a key, and what is done there.
    #[tactic(auto, unfolding(crate::specs::Reading::read_op, crate::specs::Reading::read_between))]
    pub fn op(&mut self, alloc: Global) -> Result<(TableName, Key, Op), Undecoded>
        ensures { ReadsField result self.new (read_op self.old) }
    {
        match self.byte()? {
            byte @ tags::OP_GET..=tags::OP_ADD => self.work(alloc, byte),
            _ => Err(WireFault::Field.into()),
        }
    }

    /// Reads a client's command.
    #[tactic(auto, unfolding(crate::specs::Reading::read_command))]
    pub fn command(&mut self, alloc: Global) -> Result<Command, Undecoded>
        ensures { ReadsField result self.new (read_command self.old) }
    {
        match self.byte()? {
            tags::COMMAND_BEGIN => Ok(Command::Begin),
            tags::COMMAND_COMMIT => Ok(Command::Commit),
            tags::COMMAND_ABORT => Ok(Command::Abort),
            byte @ tags::OP_GET..=tags::OP_ADD => {
                let (table, key, op) = self.work(alloc, byte)?;
                Ok(Command::Work(table, key, op))
            }
            _ => Err(WireFault::Field.into()),
        }
    }

    /// Reads a record of a store.
    #[tactic(auto, unfolding(crate::specs::Reading::read_item))]
    pub(crate) fn item(&mut self, alloc: Global) -> Result<Item, Undecoded>
        ensures { ReadsField result self.new (read_item self.old) }
    {
        Ok(Item {
            table: self.table()?,
            key: self.key()?,
            number: self.number()?,
            value: self.image(alloc)?,
        })
    }

    /// Reads the reply to an operation.
    #[tactic(auto, unfolding(crate::specs::Reading::read_reply))]
    pub(crate) fn reply(&mut self, alloc: Global) -> Result<Reply, Undecoded>
        ensures { ReadsField result self.new (read_reply self.old) }
    {
        match self.byte()? {
            tags::REPLY_STORED => Ok(Reply::Stored),
            tags::REPLY_FOUND => Ok(Reply::Found(self.value(alloc)?)),
            tags::REPLY_ABSENT => Ok(Reply::Absent),
            tags::REPLY_SUM => Ok(Reply::Sum(self.amount()?)),
            tags::REPLY_NOT_NUMBER => Ok(Reply::NotNumber),
            tags::REPLY_OUT_OF_RANGE => Ok(Reply::OutOfRange),
            _ => Err(WireFault::Field.into()),
        }
    }

    // Reads why a transaction was aborted.
    #[tactic(auto, unfolding(crate::specs::Reading::read_cause))]
    fn cause(&mut self) -> Result<AbortCause, Undecoded>
        ensures { ReadsField result self.new (read_cause self.old) }
    {
        match self.byte()? {
            tags::CAUSE_CONFLICT => Ok(AbortCause::Conflict(self.txn()?)),
            tags::CAUSE_NODE => Ok(AbortCause::Node(self.node()?)),
            tags::CAUSE_CLIENT => Ok(AbortCause::Client),
            tags::CAUSE_MEMORY => Ok(AbortCause::Memory),
            _ => Err(WireFault::Field.into()),
        }
    }

    /// Reads the outcome of a command that goes to a controller.
    #[tactic(auto, unfolding(crate::specs::Reading::read_outcome))]
    pub fn outcome(&mut self, alloc: Global) -> Result<Outcome, Undecoded>
        ensures { ReadsField result self.new (read_outcome self.old) }
    {
        match self.byte()? {
            tags::OUTCOME_DONE => Ok(Outcome::Done(self.reply(alloc)?)),
            tags::OUTCOME_BEGUN => Ok(Outcome::Begun),
            tags::OUTCOME_COMMITTED => Ok(Outcome::Committed),
            tags::OUTCOME_ABORTED => Ok(Outcome::Aborted(self.cause()?)),
            _ => Err(WireFault::Field.into()),
        }
    }

    /// Reads a participant's answer.
    #[tactic(auto, unfolding(crate::specs::Reading::read_answer))]
    pub fn answer(&mut self, alloc: Global) -> Result<Answer, Undecoded>
        ensures { ReadsField result self.new (read_answer self.old) }
    {
        match self.byte()? {
            tags::ANSWER_DONE => Ok(Answer::Done(self.reply(alloc)?)),
            tags::ANSWER_REFUSED => Ok(Answer::Refused(self.txn()?)),
            tags::ANSWER_NO_MEMORY => Ok(Answer::NoMemory),
            _ => Err(WireFault::Field.into()),
        }
    }
}
