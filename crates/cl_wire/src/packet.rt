//! What actors send to each other.
use cl_log::{LogRec, TxnList};
use cl_store::ItemList;
use cl_types::{Answer, Command, Key, Op, Outcome, TableName, TxnId};

/// A packet between two actors: a message with its number, or a bare acknowledgement.
///
/// An actor is a node, 0 to 15, or the front, 16.
#[derive(Debug, Drop)]
pub struct Packet {
    /// The actor that sends it.
    pub from: u32,
    /// The actor that it goes to.
    pub to: u32,
    /// How many entries of the roster the sender had noted.
    pub set: u32,
    /// The number of the message on its link: at least 1, and 0 for a bare acknowledgement.
    pub seq: u64,
    /// The last number that the sender accepted on the way back.
    pub ack: u64,
    pub body: Body,
}

/// What a packet says. The first field is the virtual node, 0 to 7, unless said otherwise.
///
/// A command's number counts the commands of its transaction: BEGIN is 0, and the last is at most 65. An index counts the
/// pieces of a copy, from 1.
#[derive(Debug, Drop)]
pub enum Body {
    /// An acknowledgement and nothing else.
    Bare,
    /// A client's command: its transaction, its number there, and the command.
    Command(u32, TxnId, u32, Command),
    /// The outcome of a command: its transaction, its number there, and the outcome.
    Outcome(TxnId, u32, Outcome),
    /// An operation for a participant: its transaction, its command's number, and the operation.
    Ask(u32, TxnId, u32, TableName, Key, Op),
    /// A participant's answer to an operation: its transaction, its command's number, and the answer.
    Answer(u32, TxnId, u32, Answer),
    /// A participant is to prepare.
    Prepare(u32, TxnId),
    /// A participant can commit.
    Vote(u32, TxnId),
    /// The end of the transaction: whether it is committed.
    Finish(u32, TxnId, bool),
    /// The asker's virtual node asks how the transaction ended.
    Inquire(u32, TxnId),
    /// How an inquired transaction ended: whether it is committed.
    Decision(u32, TxnId, bool),
    /// A record of the primary's log, with its number, at least 1.
    Log(u32, u64, LogRec),
    /// All records up to that number, at least 1, have been taken.
    LogAck(u32, u64),
    /// A spare node, 0 to 15, is to become the standby.
    Repair(u32, u32),
    /// A piece of a copy: its index, and at most four records.
    Records(u32, u32, ItemList),
    /// A piece of a copy: its index, whether it is the last, the log number from which the log follows the copy, and at
    /// most four names of committed transactions.
    Names(u32, u32, bool, u64, TxnList),
    /// The piece with that index has been taken.
    CopyAck(u32, u32),
}
