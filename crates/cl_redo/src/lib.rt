//! Redo at a standby or a spare: the store and the locks follow the log, record by record.
#![tactic(auto)]

mod laws;
mod redone;
mod taking;
mod write;

pub use laws::{tables_have_no_conflict, taking_gives_store_and_locks, taking_on_a_copy};
pub use redone::Redone;
pub use taking::{reserve, take};
