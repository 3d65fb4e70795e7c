//! What every run serves: its history explains its transcript. Definitions and laws, and no other code.
#![tactic(auto)]

mod laws;

pub use laws::{firm_runs_are_serializable, ledgers_are_shown};
