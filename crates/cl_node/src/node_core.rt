//! The core of a node.
ghost use Rattle.std.specs.Prelude.{◌≡◌, ◌<◌, List, length, Option, Some, slice_set};
ghost use Rattle.std.specs.List.{AllZip};
ghost use Rattle.cl_node.specs.Members.{backed_up};
ghost use Rattle.cl_node.specs.Node.{first_member, first_node};
ghost use Rattle.cl_node.specs.Slot.{IsReplicaAt};
ghost use Rattle.cl_types.specs.Placement.{IsNodeCount};
ghost use Rattle.cl_roster.specs.declared.limits.TheConstants.{VIRTUAL_NODES_MAX};
ghost use Rattle.cl_vnode.specs.Replica.{IsReplicaStateOf, ReplicaState};

use crate::addressing::addressed;
use crate::slot::{admits as slot_admits, is_any_busy};
use cl_roster::{Roster, VIRTUAL_NODES_MAX};
use cl_vnode::Vnode;
use cl_wire::Body;
use std::alloc::Global;

/// The core of a node: a replica of each virtual node of which it is a member.
///
/// It hands each message that was accepted to the replica of the virtual node that the message is for.
#[derive(Drop)]
pub struct NodeCore {
    /// By virtual node.
    pub(crate) replicas: [Option<Vnode>; VIRTUAL_NODES_MAX],
    pub(crate) alloc: Global,
    ghost counted: { length replicas ≡ VIRTUAL_NODES_MAX },
}

// The first replica of a virtual node, the same at its primary and at its standby.
fn first_member(alloc: Global, nodes: u32, v: u32) -> Vnode
    requires count { IsNodeCount nodes }
    requires below { v < nodes }
    ensures { IsReplicaStateOf result (first_member nodes v) }
{
    Vnode::new(alloc, v, nodes, Some((v + 1) % nodes))
}

// Begins the first replica of a virtual node.
fn begin(alloc: Global, replicas: &mut [Option<Vnode>; VIRTUAL_NODES_MAX], nodes: u32, v: u32)
    requires count { IsNodeCount nodes }
    requires below { v < nodes }
    ensures { (before : List (Option ReplicaState)) → AllZip IsReplicaAt replicas.old before
        → AllZip IsReplicaAt replicas.new (slice_set before v (Some (first_member nodes v))) }
{
    replicas[v as usize] = Some(first_member(alloc, nodes, v));
}

// The virtual node of which a node has the standby, of so many.
fn backed_up(nodes: u32, me: u32) -> u32
    requires count { IsNodeCount nodes }
    requires below { me < nodes }
    ensures same { result ≡ backed_up nodes me }
    ensures below { result < nodes }
{
    (me + (nodes - 1)) % nodes
}

// The replicas of the node `me` at the start.
fn first_replicas(alloc: Global, me: u32, nodes: u32) -> [Option<Vnode>; VIRTUAL_NODES_MAX]
    requires { IsNodeCount nodes }
    ensures { AllZip IsReplicaAt result (first_node nodes me).replicas }
{
    let mut replicas = [None, None, None, None, None, None, None, None];
    if me < nodes {
        begin(alloc, &mut replicas, nodes, me);
        begin(alloc, &mut replicas, nodes, backed_up(nodes, me));
    }
    replicas
}

impl NodeCore {
    ghost use Rattle.std.specs.Prelude.{◌≡◌, IsTrue, option_copied};
    ghost use Rattle.cl_actor.specs.Core.{noted_of};
    ghost use Rattle.cl_node.specs.Node.{DeliveryFits, NodeState, is_any_busy, replica_at};
    ghost use Rattle.cl_node.specs.NodeCore.{IsNodeState};
    ghost use Rattle.cl_wire.specs.Message.{content_of};

    /// The core of the node `me` at the start of a cluster of so many nodes: a node is the primary of the virtual node of its
    /// own number and the standby of the one before, and a spare is no member. It allocates nothing.
    pub fn new(alloc: Global, me: u32, nodes: u32) -> NodeCore
        requires { IsNodeCount nodes }
        ensures { IsNodeState result (first_node nodes me) }
    {
        NodeCore {
            replicas: first_replicas(alloc, me, nodes),
            alloc,
        }
    }

    /// The replica of a virtual node, where the node is a member of it.
    pub fn replica(&self, v: u32) -> Option<&Vnode>
        ensures { (state : NodeState) → IsNodeState self.now state → IsReplicaAt (option_copied result) (replica_at state v) }
    {
        let index = v as usize;
        if index >= VIRTUAL_NODES_MAX {
            return None;
        }
        self.replicas[index].as_ref()
    }

    /// Whether the message fits: the node has the replica that it is for, where it may come now.
    pub(crate) fn admits(&self, roster: &Roster, from: u32, body: &Body) -> bool
        ensures admitted { IsTrue result → (before : NodeState) × IsNodeState self.now before × DeliveryFits (noted_of roster.now) before from (content_of body.now) }
        ensures refused { (state : NodeState) → IsNodeState self.now state → DeliveryFits (noted_of roster.now) state from (content_of body.now) → IsTrue result }
    {
        let Some(v) = addressed(roster.nodes(), body) else {
            return false;
        };
        let index = v as usize;
        if index >= VIRTUAL_NODES_MAX {
            return false;
        }
        slot_admits(&self.replicas[index], roster, body)
    }

    /// Whether something is under way at a replica between two steps: a rollback, an inquiry or a repair.
    pub fn busy(&self) -> bool
        ensures { (state : NodeState) → IsNodeState self.now state → result ≡ is_any_busy state }
    {
        is_any_busy(&self.replicas)
    }
}
