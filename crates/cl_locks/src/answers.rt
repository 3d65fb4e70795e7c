//! The answers to a request for a lock.
use cl_types::{NoMemory, TxnId};

/// How a request was granted.
#[derive(Clone, Copy, Debug, PartialEq, Eq)]
pub enum Granted {
    /// The transaction held no lock at the place.
    New,
    /// It held a shared lock, which is now exclusive.
    Stronger,
    /// It held a lock that is as strong already.
    Already,
}

/// Why a request was refused. The locks are as they were.
#[derive(Clone, Copy, Debug, PartialEq, Eq)]
pub enum LockRefused {
    /// The transaction is the first holder, in order of grant, of a conflicting lock.
    Held(TxnId),
    /// The call gave up for want of memory; no clause says when.
    NoMemory,
}

impl From<NoMemory> for LockRefused {
    ghost use Rattle.std.specs.Prelude.{◌≡◌};
    ghost use Rattle.cl_locks.specs.declared.answers.LockRefused.{LockRefused};

    ghost from_gives = { λ _ refused. refused ≡ LockRefused.NoMemory };

    fn from(_error: NoMemory) -> LockRefused {
        LockRefused::NoMemory
    }
}
