//! Locks over logs make one serial order: definitions and laws, and no other code.
//!
//! A ledger is the log of each virtual node, the history, and what each transaction has done. It is
//! ordered where each place settles to the map that replaying the history makes, with the replies
//! that were given. Each step that a node takes keeps it so.
#![tactic(auto)]

mod laws;

pub use laws::{
    beginnings_settle_alike, cut_keeps_order, end_keeps_order, history_replays,
    joining_keeps_order, marks_keep_order, members_hold_locks, operations_keep_order,
    steps_make_order, store_is_map, undo_keeps_order, whole_transactions_replay,
};
