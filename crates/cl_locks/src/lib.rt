//! The lock table of a replica: which transaction holds which place in which mode.
#![tactic(auto)]

mod answers;
mod laws;
mod lock;
mod locks;

pub use answers::{Granted, LockRefused};
pub use cl_types::Mode;
pub use laws::{grants_are_monotone, locks_are_sound, one_table};
pub use locks::Locks;
