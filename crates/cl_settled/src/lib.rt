//! What the replicas of every run have to do with its history. Definitions and laws, and no other code.
#![tactic(auto)]

mod laws;

pub use laws::{replicas_agree_with_history, runs_keep_what_they_decided, transactions_are_whole};
