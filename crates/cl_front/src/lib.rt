//! The front: it holds the sessions, sends each its commands one at a time, and prints every line.
#![tactic(auto)]

mod current;
mod front_core;
mod laws;
mod limits;
mod machine;
mod recorder;
mod session;
mod sessions;

pub use current::Current;
pub use front_core::FrontCore;
pub use laws::{fronts_send_to_actors, numbers_grow_by_one};
pub use limits::TXN_NUMBER_MAX;
pub use machine::Front;
