//! A participant: the operations, the vote, the rollback and the end of transactions at the primary
//! of a virtual node.
#![tactic(auto)]

mod laws;
mod part;
mod target;

pub use cl_types::Answer;
pub use laws::{calls_are_steps, calls_keep_sound, participants_have_states, rollback_continues};
pub use part::Part;
