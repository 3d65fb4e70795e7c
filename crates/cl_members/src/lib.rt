//! What a run of the cluster is for the firm system: who has which replica, and when a transaction is firm. Definitions and
//! laws, and no other code.
#![tactic(auto)]

mod laws;

pub use laws::{events_are_of_runs, members_are_of_pairs, runs_are_firm_runs};
