//! Primaries and standbys: a virtual node is one log. Definitions and laws, and no other code.
#![tactic(auto)]

mod laws;

pub use laws::pairs_are_one_log;
