//! A primary without a standby: what a message makes of it, in one step. Definitions and laws, and no other code.
//!
//! Without a standby a log record is safe as soon as it is in the log. So a step that appends a Decide also tells
//! everybody of it, and a step that appends a Prepared also votes.
#![tactic(auto)]

mod laws;

pub use laws::calm_steps_are_lone;
