//! A primary with a standby, seen as one without. Definitions and laws, and no other code.
#![tactic(auto)]

mod laws;

pub use laws::{acknowledgements_tell, paired_steps_are_seen_alone};
