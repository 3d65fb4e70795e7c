//! The world: a run of the whole system, event by event.
#![tactic(auto)]

mod actors;
mod asking;
mod auditing;
mod firm;
mod front_seat;
mod given;
mod kept;
mod lines;
mod mail;
mod member;
mod running;
mod stepping;
mod taking;
mod world;

pub use asking::waits_for_quiet;
pub use kept::Kept;
pub use lines::LineList;
pub use world::World;
