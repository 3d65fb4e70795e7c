//! The log of a replica: its records in order, and what follows from them.
#![tactic(auto)]

mod kinds;
mod known;
mod laws;
mod log;
mod records;
mod slots;
mod stage;
mod undo;

pub use laws::{
    additions_are_reversible, beginnings_keep_settled, cut_keeps_locks, free_places_are_settled,
    history_settles_locks, lawful_logs_have_no_conflict, locks_follow_records, low_is_least_open,
    next_is_not_undone, open_by_stage, records_are_numbered, records_keep_settled,
    redo_leaves_later, redo_meets_guard, store_follows_records, undo_keeps_settled,
    undo_takes_first, unended_are_open, writes_undone_once,
};
pub use log::{LOG_NUMBER_MAX, Log, NumberList, TxnList};
pub use records::{Form, LogRec};
pub use stage::Stage;
pub use undo::undo_of;
