//! Neighbour logging: what is firm is in two memories. Definitions and laws, and no other code.
#![tactic(auto)]

mod laws;

pub use laws::pairs_hold;
