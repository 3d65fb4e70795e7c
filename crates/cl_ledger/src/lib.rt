//! The ledger of the system: each event of a run is steps of one ledger, which they keep in one serial order. Definitions
//! and laws, and no other code.
#![tactic(auto)]

mod laws;

pub use laws::{events_keep_one_order, firm_runs_keep_one_order};
