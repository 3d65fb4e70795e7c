//! The system that the program runs: what its front and its nodes decide, and who gives what to whom. Definitions and
//! laws, and no other code.
#![tactic(auto)]

mod laws;

pub use laws::all_is_in_place;
