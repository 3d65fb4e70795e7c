//! The cluster that the program runs: every run of it is a run of primaries and standbys, and what comes to an actor fits
//! it. Definitions and laws, and no other code.
#![tactic(auto)]

mod laws;

pub use laws::{every_input_fits, runs_are_pair_runs};
