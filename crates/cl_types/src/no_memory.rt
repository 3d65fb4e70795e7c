ghost use Rattle.std.specs.Prelude.{◌≡◌, Some, codes};
ghost use Rattle.cl_types.specs.declared.no_memory.NoMemory.{NoMemory};

use std::alloc::{AllocError, AllocFailed};
use std::error::Error;
use std::fmt;

/// A call gave up for want of memory; no clause says when. What it leaves, its contract says.
#[derive(Clone, Copy, Debug, PartialEq, Eq)]
pub struct NoMemory;

impl fmt::Display for NoMemory {
    ghost output = { λ _. Some (codes "out of memory") };

    fn fmt<W: fmt::Write>(&self, f: &mut fmt::Formatter<W>) -> fmt::Result {
        f.write_str("out of memory")
    }
}

impl Error for NoMemory {}

impl From<AllocError> for NoMemory {
    ghost from_gives = { λ _ _. Unit {0} };

    fn from(_error: AllocError) -> NoMemory {
        NoMemory
    }
}

impl<T: Drop> From<AllocFailed<T>> for NoMemory {
    ghost from_gives = { λ _ _. Unit {0} };

    fn from(_error: AllocFailed<T>) -> NoMemory {
        NoMemory
    }
}
