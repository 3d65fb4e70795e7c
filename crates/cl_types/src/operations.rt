//! What a client asks: transactions, operations and commands.
ghost use Rattle.std.specs.Prelude.{◌≡◌, IfOk};
ghost use Rattle.cl_types.specs.Modes.{StrongerIsStrongest, StrongerIsMonotone, StrongerConflictsMore, ConflictIsSymmetric};

use crate::{Key, NoMemory, TableName, Value};
use std::alloc::Global;

/// The name of a transaction: its session, and the number of its accepted BEGIN there, from 1.
#[derive(Clone, Copy, Debug, PartialEq, Eq, PartialOrd, Ord, Hash)]
pub struct TxnId {
    pub session: u32,
    pub number: u64,
}

/// The mode of a lock.
#[derive(Clone, Copy, Debug, PartialEq, Eq)]
pub enum Mode {
    Shared,
    Exclusive,
}

/// An operation on one record.
#[derive(Debug, PartialEq, Eq, Drop)]
pub enum Op {
    Get,
    Put(Value),
    Del,
    /// Adds the amount to the number that the record has, or to 0 where it has no value.
    Add(i64),
}

/// What a client's line asks of its session.
#[derive(Debug, PartialEq, Eq, Drop)]
pub enum Command {
    Begin,
    Work(TableName, Key, Op),
    Commit,
    Abort,
}

impl Op {
    /// Another operation of the same content. It allocates only for a value.
    pub fn copy(&self, alloc: Global) -> Result<Op, NoMemory>
        ensures { IfOk result (λ copy. copy ≡ self.now) }
    {
        Ok(match self {
            Op::Get => Op::Get,
            Op::Put(value) => Op::Put(value.copy(alloc)?),
            Op::Del => Op::Del,
            Op::Add(amount) => Op::Add(*amount),
        })
    }
}

impl Command {
    /// Another command of the same content. It allocates only for a value.
    pub fn copy(&self, alloc: Global) -> Result<Command, NoMemory>
        ensures { IfOk result (λ copy. copy ≡ self.now) }
    {
        Ok(match self {
            Command::Begin => Command::Begin,
            Command::Work(table, key, op) => {
                Command::Work(table.copy(), key.copy(), op.copy(alloc)?)
            }
            Command::Commit => Command::Commit,
            Command::Abort => Command::Abort,
        })
    }
}

/// A stronger lock conflicts with all that a weaker one conflicts with.
pub fn modes_law()
    ensures stronger { StrongerIsStrongest }
    ensures monotone { StrongerIsMonotone }
    ensures conflicts { StrongerConflictsMore }
    ensures symmetric { ConflictIsSymmetric }
{}
