//! Writing operations, their outcomes, records, and lists.
ghost use Rattle.std.specs.Prelude.{◌≡◌, ◌++◌, OnOk};
ghost use Rattle.cl_types.specs.GrowingList.{items};
ghost use Rattle.cl_fields.specs.Spelling as spelling;
ghost use Rattle.cl_fields.specs.Spelling.{txn_bytes, name_bytes, op_byte, operand_bytes, op_bytes, command_bytes, reply_bytes, cause_bytes, outcome_bytes, answer_bytes, entry_bytes, item_bytes, list_bytes};
ghost use Rattle.cl_fields.specs.Range.{IsTxn, IsTable, IsKey, IsOp, IsCommand, IsReply, IsItem, IsCause, IsOutcome, IsAnswer, IsEntry, AreFew};

use crate::tags;
use crate::writer::Writer;
use cl_log::{LogRec, TxnList};
use cl_store::{Item, ItemList};
use cl_types::{AbortCause, Answer, Command, Key, NoMemory, Op, Outcome, Reply, TableName, TxnId};

// The byte of an operation.
fn op_code(op: &Op) -> u8
    ensures { result ≡ op_byte op.now }
{
    match op {
        Op::Get => tags::OP_GET,
        Op::Put(_) => tags::OP_PUT,
        Op::Del => tags::OP_DEL,
        Op::Add(_) => tags::OP_ADD,
    }
}

impl Writer {
    // Writes what stands after the key of an operation.
    fn operand(&mut self, op: &Op) -> Result<(), NoMemory>
        requires { IsOp op.now }
        ensures { OnOk result (self.new ≡ self.old ++ operand_bytes op.now) }
    {
        match op {
            Op::Get | Op::Del => Ok(()),
            Op::Put(value) => self.value(value),
            Op::Add(amount) => self.amount(*amount),
        }
    }

    /// Writes an operation on a record.
    #[tactic(auto, unfolding(crate::specs::Spelling::op_bytes))]
    pub fn op(&mut self, table: &TableName, key: &Key, op: &Op) -> Result<(), NoMemory>
        requires table { IsTable table.now }
        requires key { IsKey key.now }
        requires op { IsOp op.now }
        ensures { OnOk result (self.new ≡ self.old ++ op_bytes table.now key.now op.now) }
    {
        self.byte(op_code(op))?;
        self.table(table)?;
        self.key(key)?;
        self.operand(op)
    }

    /// Writes a client's command.
    #[tactic(auto, unfolding(crate::specs::Spelling::command_bytes))]
    pub fn command(&mut self, command: &Command) -> Result<(), NoMemory>
        requires { IsCommand command.now }
        ensures { OnOk result (self.new ≡ self.old ++ command_bytes command.now) }
    {
        match command {
            Command::Begin => self.byte(tags::COMMAND_BEGIN),
            Command::Work(table, key, op) => self.op(table, key, op),
            Command::Commit => self.byte(tags::COMMAND_COMMIT),
            Command::Abort => self.byte(tags::COMMAND_ABORT),
        }
    }

    /// Writes the reply to an operation.
    #[tactic(auto, unfolding(crate::specs::Spelling::reply_bytes))]
    pub(crate) fn reply(&mut self, reply: &Reply) -> Result<(), NoMemory>
        requires { IsReply reply.now }
        ensures { OnOk result (self.new ≡ self.old ++ reply_bytes reply.now) }
    {
        match reply {
            Reply::Stored => self.byte(tags::REPLY_STORED),
            Reply::Found(value) => {
                self.byte(tags::REPLY_FOUND)?;
                self.value(value)
            }
            Reply::Absent => self.byte(tags::REPLY_ABSENT),
            Reply::Sum(sum) => {
                self.byte(tags::REPLY_SUM)?;
                self.amount(*sum)
            }
            Reply::NotNumber => self.byte(tags::REPLY_NOT_NUMBER),
            Reply::OutOfRange => self.byte(tags::REPLY_OUT_OF_RANGE),
        }
    }

    // Writes why a transaction was aborted.
    #[tactic(auto, unfolding(crate::specs::Spelling::cause_bytes))]
    fn cause(&mut self, cause: AbortCause) -> Result<(), NoMemory>
        requires { IsCause cause }
        ensures { OnOk result (self.new ≡ self.old ++ cause_bytes cause) }
    {
        match cause {
            AbortCause::Conflict(holder) => {
                self.byte(tags::CAUSE_CONFLICT)?;
                self.txn(holder)
            }
            AbortCause::Node(node) => {
                self.byte(tags::CAUSE_NODE)?;
                self.small(node)
            }
            AbortCause::Client => self.byte(tags::CAUSE_CLIENT),
            AbortCause::Memory => self.byte(tags::CAUSE_MEMORY),
        }
    }

    /// Writes the outcome of a command that goes to a controller.
    #[tactic(auto, unfolding(crate::specs::Spelling::outcome_bytes))]
    pub fn outcome(&mut self, outcome: &Outcome) -> Result<(), NoMemory>
        requires { IsOutcome outcome.now }
        ensures { OnOk result (self.new ≡ self.old ++ outcome_bytes outcome.now) }
    {
        match outcome {
            Outcome::Done(reply) => {
                self.byte(tags::OUTCOME_DONE)?;
                self.reply(reply)
            }
            Outcome::Begun => self.byte(tags::OUTCOME_BEGUN),
            Outcome::Committed => self.byte(tags::OUTCOME_COMMITTED),
            Outcome::Aborted(cause) => {
                self.byte(tags::OUTCOME_ABORTED)?;
                self.cause(*cause)
            }
            // No controller gives these.
            Outcome::NotTxn | Outcome::InTxn | Outcome::Full => unreachable!(),
        }
    }

    /// Writes a participant's answer.
    #[tactic(auto, unfolding(crate::specs::Spelling::answer_bytes))]
    pub fn answer(&mut self, answer: &Answer) -> Result<(), NoMemory>
        requires { IsAnswer answer.now }
        ensures { OnOk result (self.new ≡ self.old ++ answer_bytes answer.now) }
    {
        match answer {
            Answer::Done(reply) => {
                self.byte(tags::ANSWER_DONE)?;
                self.reply(reply)
            }
            Answer::Refused(holder) => {
                self.byte(tags::ANSWER_REFUSED)?;
                self.txn(*holder)
            }
            Answer::NoMemory => self.byte(tags::ANSWER_NO_MEMORY),
        }
    }

    /// Writes a record of a store.
    #[tactic(auto, unfolding(crate::specs::Spelling::item_bytes))]
    pub(crate) fn item(&mut self, item: &Item) -> Result<(), NoMemory>
        requires { IsItem item.now }
        ensures { OnOk result (self.new ≡ self.old ++ item_bytes item.now) }
    {
        self.table(&item.table)?;
        self.key(&item.key)?;
        self.u64(item.number)?;
        self.image(&item.value)
    }

    // Writes the first fields of a record of a log that has a place.
    fn placed(&mut self, byte: u8, txn: TxnId, table: &TableName, key: &Key) -> Result<(), NoMemory>
        requires txn { IsTxn txn }
        requires table { IsTable table.now }
        requires key { IsKey key.now }
        ensures { OnOk result (self.new ≡ self.old ++ spelling.byte byte ++ txn_bytes txn ++ name_bytes table.now ++ name_bytes key.now) }
    {
        self.byte(byte)?;
        self.txn(txn)?;
        self.table(table)?;
        self.key(key)
    }

    // Writes a record of a log that has a transaction and no place.
    fn unplaced(&mut self, byte: u8, txn: TxnId) -> Result<(), NoMemory>
        requires { IsTxn txn }
        ensures { OnOk result (self.new ≡ self.old ++ spelling.byte byte ++ txn_bytes txn) }
    {
        self.byte(byte)?;
        self.txn(txn)
    }

    /// Writes a record of a log.
    #[tactic(auto, unfolding(crate::specs::Spelling::entry_bytes))]
    pub fn entry(&mut self, entry: &LogRec) -> Result<(), NoMemory>
        requires { IsEntry entry.now }
        ensures { OnOk result (self.new ≡ self.old ++ entry_bytes entry.now) }
    {
        match entry {
            LogRec::Touch(txn, table, key, mode) => {
                self.placed(tags::ENTRY_TOUCH, *txn, table, key)?;
                self.mode(*mode)
            }
            LogRec::Set(txn, table, key, before, old, new) => {
                self.placed(tags::ENTRY_SET, *txn, table, key)?;
                self.u64(*before)?;
                self.image(old)?;
                self.image(new)
            }
            LogRec::Add(txn, table, key, before, amount) => {
                self.placed(tags::ENTRY_ADD, *txn, table, key)?;
                self.u64(*before)?;
                self.amount(*amount)
            }
            LogRec::Comp(txn, table, key, before, undone, form) => {
                self.placed(tags::ENTRY_COMP, *txn, table, key)?;
                self.u64(*before)?;
                self.u64(*undone)?;
                self.form(form)
            }
            LogRec::Prepared(txn) => self.unplaced(tags::ENTRY_PREPARED, *txn),
            LogRec::End(txn, commit) => {
                self.unplaced(tags::ENTRY_END, *txn)?;
                self.flag(*commit)
            }
            LogRec::Decide(txn) => self.unplaced(tags::ENTRY_DECIDE, *txn),
        }
    }

    /// Writes how many records of a store there are, at most `LIST_MAX`, and the records.
    #[tactic(auto, unfolding(crate::specs::Spelling::list_bytes))]
    pub fn items(&mut self, list: &ItemList) -> Result<(), NoMemory>
        requires { AreFew IsItem (items list.now) }
        ensures { OnOk result (self.new ≡ self.old ++ list_bytes item_bytes (items list.now)) }
    {
        self.byte(list.len() as u8)?;
        for item in list.as_slice() {
            self.item(item)?;
        }
        Ok(())
    }

    /// Writes how many names of transactions there are, at most `LIST_MAX`, and the names.
    #[tactic(auto, unfolding(crate::specs::Spelling::list_bytes))]
    pub fn txns(&mut self, list: &TxnList) -> Result<(), NoMemory>
        requires { AreFew IsTxn (items list.now) }
        ensures { OnOk result (self.new ≡ self.old ++ list_bytes txn_bytes (items list.now)) }
    {
        self.byte(list.len() as u8)?;
        for txn in list.as_slice() {
            self.txn(*txn)?;
        }
        Ok(())
    }
}
