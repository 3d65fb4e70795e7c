//! Records with their state numbers: a map from places, with an index in scan order.
#![tactic(auto)]

mod index_entry;
mod indexed_items;
mod item;
mod laws;
mod store;

pub use item::{Item, ItemList};
pub use laws::{records_are_in_order, records_follow_places};
pub use store::Store;
