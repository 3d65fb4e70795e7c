//! What a step of an actor's core gives: messages, firm transactions, an entry for the roster; and the packets of one event.
#![tactic(auto)]

mod actors;
mod packets;
mod steps;

pub use actors::FRONT;
pub use packets::{PACKETS_MAX, Packets};
pub use steps::{Outgoing, SendList, Steps};
