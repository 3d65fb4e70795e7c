//! A node: its core behind its endpoint.
ghost use Rattle.std.specs.Prelude.{◌≡◌, ◌<◌, IsTrue, IfOk, option_copied};
ghost use Rattle.cl_endpoint.specs.declared.limits.TheConstants.{ACTORS};
ghost use Rattle.cl_endpoint.specs.Endpoint.{is_waiting, set_number};
ghost use Rattle.cl_node.specs.Machine.{NodeFits, NodeMachineState, IsNodeMachine, endpoint_in, first_machine, is_node_busy, AreStored};
ghost use Rattle.cl_node.specs.Node.{replica_at};
ghost use Rattle.cl_post.specs.Steps.{handle};
ghost use Rattle.cl_roster.specs.Roster.{IsClusterSize};
ghost use Rattle.cl_wire.specs.Message.{message_of};

use crate::NodeCore;
use cl_actor::Acting;
use cl_endpoint::{ACTORS, Endpoint, Received};
use cl_post::{Machine, OutList, Outs};
use cl_roster::rosters_are_lawful;
use cl_store::Store;
use cl_types::{NoMemory, Refused};
use cl_vnode::Vnode;
use cl_wire::Packet;
use std::alloc::Global;

/// A node, actors 0 to 15: the replicas of virtual nodes that it has.
///
/// Contracts see it as a state of its core and its endpoint (`IsNodeMachine`). After a refusal it may only be dropped.
#[derive(Drop)]
pub struct Node {
    acting: Acting<NodeCore>,
}

impl Node {
    /// The node `me` of a cluster in which nothing has happened yet, with so many nodes and spares. It allocates the links.
    pub fn new(alloc: Global, me: u32, nodes: u32, spares: u32) -> Result<Node, NoMemory>
        requires actor { me < ACTORS }
        requires size { IsClusterSize nodes spares }
        ensures { IfOk result (λ node. IsNodeMachine node (first_machine nodes spares me)) }
    {
        let core = NodeCore::new(alloc, me, nodes);
        let endpoint = Endpoint::new(alloc, me, nodes, spares)?;
        Ok(Node {
            acting: Acting::new(alloc, core, endpoint),
        })
    }

    /// Whether the node can handle the packet now. A caller that keeps to the order need not ask.
    pub fn admits(&self, packet: &Packet) -> bool
        ensures admitted { IsTrue result → (before : NodeMachineState) × IsNodeMachine self.now before × NodeFits before (handle (message_of packet.now)) }
        ensures refused { (state : NodeMachineState) → IsNodeMachine self.now state → NodeFits state (handle (message_of packet.now)) → IsTrue result }
    {
        if packet.from as usize >= ACTORS {
            return false;
        }
        match self.acting.received(packet) {
            Received::Now => {
                let roster = self.acting.roster();
                rosters_are_lawful(roster);
                self.acting.core().admits(roster, packet.from, &packet.body)
            }
            _ => true,
        }
    }

    /// Whether a message of the node is unsent or unacknowledged.
    pub fn waiting(&self) -> bool
        ensures { result ≡ is_waiting (endpoint_in self.now) }
    {
        self.acting.waiting()
    }

    /// Whether the node has something to do: a message of it is unsent or unacknowledged, or a replica is busy.
    pub fn busy(&self) -> bool
        ensures { (state : NodeMachineState) → IsNodeMachine self.now state → result ≡ is_node_busy state }
    {
        self.acting.waiting() || self.acting.core().busy()
    }

    /// The records of a virtual node for a dump, where the node has a replica of it.
    pub fn store(&self, v: u32) -> Option<&Store>
        ensures { (state : NodeMachineState) → IsNodeMachine self.now state → AreStored (option_copied result) (replica_at state.core v) }
    {
        self.acting.core().replica(v).map(Vnode::store)
    }

    /// How many entries of the roster the node has noted.
    pub fn noted(&self) -> u32
        ensures { result ≡ set_number (endpoint_in self.now) }
    {
        self.acting.set_number()
    }
}

impl Machine for Node {
    ghost use Rattle.std.specs.Prelude.{[]};
    ghost use Rattle.cl_node.specs.Machine.{NodeMachineState, IsNodeMachine, NodeFits, first_machine, is_node_spent, node_after, node_outs};

    ghost State = { NodeMachineState };

    ghost is_state = { IsNodeMachine };

    ghost first = { first_machine };

    ghost after = { node_after };

    ghost outs = { node_outs };

    ghost is_spent = { is_node_spent };

    ghost fits = { NodeFits };

    ghost transcript = { λ node. [] };

    fn handle(&mut self, packet: &Packet) -> Result<Outs, Refused> {
        self.acting.handle(packet)
    }

    fn tick(&mut self) -> Result<Outs, Refused> {
        self.acting.tick()
    }

    fn feed(&mut self, line: u64, text: &[u8], said: &OutList) -> Result<Outs, Refused> {
        self.acting.feed(line, text, said)
    }
}
