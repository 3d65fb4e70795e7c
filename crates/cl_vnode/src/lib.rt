//! One replica of a virtual node: its participant and its controller together.
#![tactic(auto)]

mod admitting;
mod laws;
mod news;
mod noted;
mod noting;
mod participant;
mod sending;
mod shipping;
mod taking;
mod vnode;

pub use laws::{
    every_replica_has_state, standby_steps, steps_keep_replica, steps_send_to_receivers,
};
pub use vnode::Vnode;
