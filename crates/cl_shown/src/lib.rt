//! What the transcript of a run shows by itself, whatever its history: which answer follows which line, and how the
//! transactions of a session end. Definitions and laws, and no other code.
#![tactic(auto)]

mod laws;

pub use laws::{lines_are_answered, transcripts_are_well_shown};
