//! What the transcript shows of each session is what the session has, at the front and at its controller. Definitions and
//! laws, and no other code.
#![tactic(auto)]

mod laws;

pub use laws::transcripts_tell_sessions;
