//! The guarantee over every run of the cluster, from packets to the transcript. Definitions and laws, and no other code.
#![tactic(auto)]

mod laws;

pub use laws::{
    causes_are_true, lines_are_answered, members_hold_what_is_firm, replicas_agree_with_history,
    runs_are_serializable, runs_keep_what_they_decided, transactions_are_whole,
};
