//! A node: the replicas of virtual nodes that it has, behind its endpoint.
#![tactic(auto)]

mod addressing;
mod deciding;
mod laws;
mod machine;
mod node_core;
mod slot;

pub use laws::{every_node_has_state, nodes_send_to_actors};
pub use machine::Node;
pub use node_core::NodeCore;
