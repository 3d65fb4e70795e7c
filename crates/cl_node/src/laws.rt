//! The laws of a node. A law is the contract of a function that does nothing.
ghost use Rattle.cl_node.specs.Laws.{EveryNodeHasState, NodesSendToActors};

/// Each node has a state: those of its replicas, and its endpoint.
pub fn every_node_has_state()
    ensures { EveryNodeHasState }
{}

/// What a node sends goes to actors: so each message that may come to a replica fits the node.
pub fn nodes_send_to_actors()
    ensures { NodesSendToActors }
{}
