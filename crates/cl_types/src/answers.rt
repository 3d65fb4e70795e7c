//! The answers to operations, commands and requests, and why a request is refused.
ghost use Rattle.std.specs.Prelude.{◌≡◌, IfOk};

use crate::{NoMemory, TxnId, Value};
use std::alloc::Global;

/// The reply to an operation that was done.
#[derive(Debug, PartialEq, Eq, Drop)]
pub enum Reply {
    Stored,
    Found(Value),
    Absent,
    /// The sum after an addition.
    Sum(i64),
    /// The record's value is not a number.
    NotNumber,
    /// The sum is outside signed 64 bits.
    OutOfRange,
}

/// A participant's answer to an operation.
#[derive(Debug, PartialEq, Eq, Drop)]
pub enum Answer {
    Done(Reply),
    /// Another transaction holds a conflicting lock.
    Refused(TxnId),
    NoMemory,
}

/// Why a transaction was aborted.
#[derive(Clone, Copy, Debug, PartialEq, Eq)]
pub enum AbortCause {
    /// The other transaction holds a conflicting lock.
    Conflict(TxnId),
    /// The node stopped.
    Node(u32),
    Client,
    Memory,
}

/// The outcome of a client's command.
#[derive(Debug, PartialEq, Eq, Drop)]
pub enum Outcome {
    Done(Reply),
    Begun,
    Committed,
    Aborted(AbortCause),
    /// A command other than BEGIN outside a transaction.
    NotTxn,
    /// BEGIN in a transaction.
    InTxn,
    /// An operation in a transaction that has `OPERATIONS_MAX` operations already.
    Full,
}

/// Why the stop of a node is refused.
#[derive(Clone, Copy, Debug, PartialEq, Eq)]
pub enum StopFault {
    /// There is no such node.
    Unknown,
    /// The node has stopped.
    Down,
    /// The node is the only member of the virtual node.
    Last(u32),
}

/// Why a repair is refused.
#[derive(Clone, Copy, Debug, PartialEq, Eq)]
pub enum RepairFault {
    /// There is no such virtual node.
    Unknown,
    /// The virtual node has a standby.
    Paired,
    /// A repair of the virtual node is under way.
    Busy,
    /// No living spare is on the other site.
    NoSpare,
}

/// Why a dump is refused.
#[derive(Clone, Copy, Debug, PartialEq, Eq)]
pub enum DumpFault {
    /// There is no such virtual node.
    Unknown,
    /// The virtual node has no standby.
    Lone,
}

/// Why a step is refused.
#[derive(Clone, Copy, Debug, PartialEq, Eq)]
pub enum Refused {
    NoMemory,
    /// A counter is at its last value.
    Spent,
}

impl From<NoMemory> for Refused {
    ghost use Rattle.std.specs.Prelude.{◌≡◌};
    ghost use Rattle.cl_types.specs.declared.answers.Refused.{Refused};

    ghost from_gives = { λ _ refused. refused ≡ Refused.NoMemory };

    fn from(_error: NoMemory) -> Refused {
        Refused::NoMemory
    }
}

impl Reply {
    /// Another reply of the same content. It allocates only for a value.
    pub fn copy(&self, alloc: Global) -> Result<Reply, NoMemory>
        ensures { IfOk result (λ copy. copy ≡ self.now) }
    {
        Ok(match self {
            Reply::Stored => Reply::Stored,
            Reply::Found(value) => Reply::Found(value.copy(alloc)?),
            Reply::Absent => Reply::Absent,
            Reply::Sum(sum) => Reply::Sum(*sum),
            Reply::NotNumber => Reply::NotNumber,
            Reply::OutOfRange => Reply::OutOfRange,
        })
    }
}

impl Answer {
    /// Another answer of the same content. It allocates only for a value.
    pub fn copy(&self, alloc: Global) -> Result<Answer, NoMemory>
        ensures { IfOk result (λ copy. copy ≡ self.now) }
    {
        Ok(match self {
            Answer::Done(reply) => Answer::Done(reply.copy(alloc)?),
            Answer::Refused(holder) => Answer::Refused(*holder),
            Answer::NoMemory => Answer::NoMemory,
        })
    }
}

impl Outcome {
    /// Another outcome of the same content. It allocates only for a value.
    pub fn copy(&self, alloc: Global) -> Result<Outcome, NoMemory>
        ensures { IfOk result (λ copy. copy ≡ self.now) }
    {
        Ok(match self {
            Outcome::Done(reply) => Outcome::Done(reply.copy(alloc)?),
            Outcome::Begun => Outcome::Begun,
            Outcome::Committed => Outcome::Committed,
            Outcome::Aborted(cause) => Outcome::Aborted(*cause),
            Outcome::NotTxn => Outcome::NotTxn,
            Outcome::InTxn => Outcome::InTxn,
            Outcome::Full => Outcome::Full,
        })
    }
}
