//! The decisions that a replica keeps.
#![tactic(auto)]

mod decisions;
mod laws;

pub use decisions::Decisions;
pub use laws::decisions_are_distinct;
