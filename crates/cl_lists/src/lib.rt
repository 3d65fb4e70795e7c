//! Linked lists of items: each item is on one list of each of two sides.
#![tactic(auto)]

mod arena;
mod both_sides;
mod contents;
mod links;
mod slots;

pub use arena::Arena;
pub use slots::{Side, Slot};
