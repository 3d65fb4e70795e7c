//! One thread makes a run, turn by turn: any order, from a seed.
#![tactic(auto)]

mod asked;
mod choosing;
mod meeting;
mod progress;
mod scheduling;
mod setting;
mod turning;

pub use scheduling::schedule;
pub use setting::{Finish, Setting};
