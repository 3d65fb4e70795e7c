//! The controller of two-phase commit: the primary of a session's virtual node, for the session's transactions.
#![tactic(auto)]

mod acts;
mod control;
mod entry;
mod laws;
mod open_table;
mod waiting;

pub use acts::{Act, ActList};
pub use control::Control;
pub use entry::{Phase, Told};
pub use laws::{
    calls_keep_sound, committed_is_said_when_safe, controllers_are_sound, decide_has_every_vote,
    nothing_aborts_after_decide, strangers_change_nothing,
};
