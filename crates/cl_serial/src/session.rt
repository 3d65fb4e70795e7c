//! The transactions of a session, cut from its exchanges.
ghost use Rattle.std.specs.Prelude.{◌≡◌, [], IfOk};
ghost use Rattle.cl_types.specs.GrowingList.{items};
ghost use Rattle.cl_serial.specs.Transactions.{new_session, session_step, step_outside, step_inside, with_command};
ghost use Rattle.cl_serial.specs.Gathering.{all_transactions};

use crate::exchange::Exchange;
use cl_types::{GrowingList, NoMemory};
use std::alloc::Global;
use std::marker::Model;

/// A transaction: the position of its BEGIN line, and the exchanges of its commands.
#[derive(Drop)]
pub(crate) struct Transaction {
    begin: u64,
    pub(crate) commands: GrowingList<Exchange>,
}

impl Model for Transaction {
    ghost use Rattle.cl_types.specs.GrowingList.{items};
    ghost use Rattle.cl_serial.specs.Transactions.{Transaction as Seen};

    ghost Value = { Seen };

    ghost view = { λ transaction. record { begin = transaction.begin; commands = items transaction.commands } };
}

/// A session: its ended transactions, and the one that it is in.
#[derive(Drop)]
pub(crate) struct Session {
    ended: GrowingList<Transaction>,
    current: Option<Transaction>,
}

impl Model for Session {
    ghost use Rattle.cl_types.specs.GrowingList.{items};
    ghost use Rattle.cl_serial.specs.Transactions.{Session as Seen};

    ghost Value = { Seen };

    ghost view = { λ session. record { ended = items session.ended; current = session.current } };
}

impl Transaction {
    fn new(alloc: Global, begin: u64) -> Transaction
        ensures { result ≡ record { begin = begin; commands = [] } }
    {
        Transaction {
            begin,
            commands: GrowingList::new(alloc),
        }
    }

    // The transaction with one more command.
    fn with_command(self, exchange: Exchange) -> Result<Transaction, NoMemory>
        ensures { IfOk result (λ transaction. transaction ≡ with_command self exchange) }
    {
        let Transaction {
            begin,
            mut commands,
        } = self;
        commands.push(exchange)?;
        Ok(Transaction { begin, commands })
    }
}

// The session after an exchange outside a transaction.
fn step_outside(alloc: Global, ended: GrowingList<Transaction>, exchange: Exchange) -> Session
    ensures { result ≡ step_outside (items ended) exchange }
{
    if exchange.is_begin() {
        let current = Some(Transaction::new(alloc, exchange.line));
        Session { ended, current }
    } else {
        Session {
            ended,
            current: None,
        }
    }
}

// The session after an exchange in a transaction.
fn step_inside(
    mut ended: GrowingList<Transaction>,
    current: Transaction,
    exchange: Exchange,
) -> Result<Session, NoMemory>
    ensures { IfOk result (λ session. session ≡ step_inside (items ended) current exchange) }
{
    if exchange.is_passed_over() {
        return Ok(Session {
            ended,
            current: Some(current),
        });
    }
    let is_end = exchange.is_end();
    let current = current.with_command(exchange)?;
    if is_end {
        ended.push(current)?;
        Ok(Session {
            ended,
            current: None,
        })
    } else {
        Ok(Session {
            ended,
            current: Some(current),
        })
    }
}

impl Session {
    pub(crate) fn new(alloc: Global) -> Session
        ensures { result ≡ new_session }
    {
        Session {
            ended: GrowingList::new(alloc),
            current: None,
        }
    }

    /// The session after one more exchange.
    #[tactic(auto, unfolding(crate::specs::Transactions::session_step))]
    pub(crate) fn after(self, alloc: Global, exchange: Exchange) -> Result<Session, NoMemory>
        ensures { IfOk result (λ session. session ≡ session_step self exchange) }
    {
        let Session { ended, current } = self;
        match current {
            None => Ok(step_outside(alloc, ended, exchange)),
            Some(current) => step_inside(ended, current, exchange),
        }
    }

    /// The transactions, the one that the session is in last.
    pub(crate) fn into_transactions(self) -> Result<GrowingList<Transaction>, NoMemory>
        ensures { IfOk result (λ list. items list ≡ all_transactions self) }
    {
        let Session { mut ended, current } = self;
        if let Some(current) = current {
            ended.push(current)?;
        }
        Ok(ended)
    }
}
