//! A run of primaries and standbys, seen as a run of the firm system. Definitions and laws, and no other code.
#![tactic(auto)]

mod laws;

pub use laws::pair_runs_are_seen;
