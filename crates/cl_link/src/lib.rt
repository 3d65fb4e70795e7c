//! Links: numbered messages between two actors, accepted in order and once, whatever the network loses, repeats or reorders.
#![tactic(auto)]

mod kept;
mod law;
mod link;

pub use law::in_order_and_once;
pub use link::{Link, NUMBER_MAX, Taken};
