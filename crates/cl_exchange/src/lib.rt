//! A session and its controller: exactly one place holds what is under way, so every message fits whom it
//! comes to. Definitions and laws, and no other code.
#![tactic(auto)]

mod laws;

pub use laws::sessions_are_at_stages;
