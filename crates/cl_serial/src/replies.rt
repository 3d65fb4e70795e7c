//! Replies and outcomes, copied and compared.
ghost use Rattle.std.specs.Prelude.{◌≡◌, IfOk, IsTrue, Some, ◌↔◌};
ghost use Rattle.cl_serial.specs.Transactions.{is_passed_over, is_end};

use cl_types::{NoMemory, Outcome, Reply};
use std::alloc::Global;

// A copy of a reply.
fn copy_reply(alloc: Global, reply: &Reply) -> Result<Reply, NoMemory>
    ensures { IfOk result (λ copy. copy ≡ reply.now) }
{
    match reply {
        Reply::Stored => Ok(Reply::Stored),
        Reply::Found(value) => Ok(Reply::Found(value.copy(alloc)?)),
        Reply::Absent => Ok(Reply::Absent),
        Reply::Sum(sum) => Ok(Reply::Sum(*sum)),
        Reply::NotNumber => Ok(Reply::NotNumber),
        Reply::OutOfRange => Ok(Reply::OutOfRange),
    }
}

/// A copy of an outcome.
pub(crate) fn copy_outcome(alloc: Global, outcome: &Outcome) -> Result<Outcome, NoMemory>
    ensures { IfOk result (λ copy. copy ≡ outcome.now) }
{
    match outcome {
        Outcome::Done(reply) => Ok(Outcome::Done(copy_reply(alloc, reply)?)),
        Outcome::Begun => Ok(Outcome::Begun),
        Outcome::Committed => Ok(Outcome::Committed),
        Outcome::Aborted(cause) => Ok(Outcome::Aborted(*cause)),
        Outcome::NotTxn => Ok(Outcome::NotTxn),
        Outcome::InTxn => Ok(Outcome::InTxn),
        Outcome::Full => Ok(Outcome::Full),
    }
}

// Whether two replies are equal.
fn are_equal(one: &Reply, other: &Reply) -> bool
    ensures { IsTrue result ↔ (one.now ≡ other.now) }
{
    one == other
}

/// Whether an outcome is this reply.
pub(crate) fn is_reply(outcome: &Outcome, reply: &Reply) -> bool
    ensures { IsTrue result ↔ (outcome.now ≡ Outcome.Done reply.now) }
{
    match outcome {
        Outcome::Done(written) => are_equal(written, reply),
        _ => false,
    }
}

/// Whether the line of an outcome is left out of its transaction.
pub(crate) fn is_passed_over(outcome: &Outcome) -> bool
    ensures { result ≡ is_passed_over (Some outcome.now) }
{
    match outcome {
        Outcome::InTxn | Outcome::Full => true,
        _ => false,
    }
}

/// Whether an outcome ends its transaction.
pub(crate) fn is_end(outcome: &Outcome) -> bool
    ensures { result ≡ is_end (Some outcome.now) }
{
    match outcome {
        Outcome::Committed | Outcome::Aborted(_) => true,
        _ => false,
    }
}
