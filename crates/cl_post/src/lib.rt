//! What reaches an actor, what its step gives, and what is kept of a run.
#![tactic(auto)]

mod event;
mod machine;
mod outs;

pub use event::{Event, OutList, Trace};
pub use machine::Machine;
pub use outs::Outs;
