//! A ranked store: numbered slots, of which those with an item are counted.
#![tactic(auto)]

mod ranked;
mod tree;

pub use ranked::{Ranked, SLOTS_MAX};
