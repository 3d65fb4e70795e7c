//! The replica of a virtual node, where the node has one.
ghost use Rattle.std.specs.Prelude.{◌≡◌, Option, Some, IsTrue, IfOk};
ghost use Rattle.std.specs.List.{list_any};
ghost use Rattle.cl_actor.specs.Core.{noted_of};
ghost use Rattle.cl_node.specs.Node.{ReplicaFits, is_replica_spent, is_slot_spent, replica_step, slot_step};
ghost use Rattle.cl_node.specs.Slot.{IsReplicaAt, is_record, is_under_way};
ghost use Rattle.cl_post.specs.Steps.{IsSpentWhere};
ghost use Rattle.cl_steps.specs.Steps.{step_of};
ghost use Rattle.cl_vnode.specs.Replica.{IsReplicaStateOf, ReplicaState};
ghost use Rattle.cl_vnode.specs.Step.{primary_in};
ghost use Rattle.cl_wire.specs.Message.{content_of};

use cl_roster::Roster;
use cl_steps::Steps;
use cl_types::Refused;
use cl_vnode::Vnode;
use cl_wire::Body;
use std::alloc::Global;

// Whether something is under way at a replica, where there is one.
fn is_busy(replica: &Option<Vnode>) -> bool
    ensures { result ≡ is_under_way replica.now }
{
    match replica {
        Some(replica) => replica.busy(),
        None => false,
    }
}

/// Whether something is under way at one of the replicas.
pub(crate) fn is_any_busy(slots: &[Option<Vnode>]) -> bool
    ensures { result ≡ list_any is_under_way slots.now }
{
    slots.iter().any(is_busy)
}

// Whether the message is a record of a log, which comes to the standby.
fn is_record(body: &Body) -> bool
    ensures { result ≡ is_record (content_of body.now) }
{
    match body {
        Body::Log(..) => true,
        _ => false,
    }
}

// Whether the message may come to the replica now: a record of its primary's log to it as the standby,
// and everything else as the primary.
fn may_come(replica: &Vnode, roster: &Roster, body: &Body) -> bool
    ensures admitted { IsTrue result → (before : ReplicaState) × IsReplicaStateOf replica.now before
        × ReplicaFits roster.now.nodes before (content_of body.now) }
    ensures refused { (before : ReplicaState) → IsReplicaStateOf replica.now before
        → ReplicaFits roster.now.nodes before (content_of body.now) → IsTrue result }
{
    if is_record(body) {
        replica.admits_standby(roster, body)
    } else {
        replica.admits(roster, body)
    }
}

/// Whether there is a replica, where the message may come now.
pub(crate) fn admits(slot: &Option<Vnode>, roster: &Roster, body: &Body) -> bool
    ensures admitted { IsTrue result → (before : ReplicaState) × IsReplicaAt slot.now (Some before)
        × ReplicaFits roster.now.nodes before (content_of body.now) }
    ensures refused { (before : ReplicaState) → IsReplicaAt slot.now (Some before)
        → ReplicaFits roster.now.nodes before (content_of body.now) → IsTrue result }
{
    match slot {
        Some(replica) => may_come(replica, roster, body),
        None => false,
    }
}

// Hands a message to the replica: a record of its primary's log to it as the standby, and everything
// else as the primary.
fn step(replica: &mut Vnode, roster: &Roster, from: u32, body: &Body) -> Result<Steps, Refused>
    requires { (before : ReplicaState) × IsReplicaStateOf replica.old before × ReplicaFits roster.now.nodes before (content_of body.now) }
    ensures step { (before : ReplicaState) → IsReplicaStateOf replica.old before → IfOk result (λ steps.
        let after = replica_step (primary_in roster.now.nodes roster.now.entries) before from (content_of body.now) steps.short in
        IsReplicaStateOf replica.new after.state × (step_of steps ≡ after.step)) }
    ensures spent { (before : ReplicaState) → IsReplicaStateOf replica.old before → IsSpentWhere (is_replica_spent before (content_of body.now)) result }
{
    if is_record(body) {
        replica.standby_step(roster, from, body)
    } else {
        replica.primary_step(roster, from, body)
    }
}

/// Hands a message to the replica that it is for.
pub(crate) fn hand_over(
    slot: &mut Option<Vnode>,
    alloc: Global,
    roster: &Roster,
    from: u32,
    body: &Body,
) -> Result<Steps, Refused>
    requires { (before : ReplicaState) × IsReplicaAt slot.old (Some before) × ReplicaFits roster.now.nodes before (content_of body.now) }
    ensures step { (before : Option ReplicaState) → IsReplicaAt slot.old before → IfOk result (λ steps.
        let after = slot_step (noted_of roster.now) before from (content_of body.now) steps.short in
        IsReplicaAt slot.new after.0 × (step_of steps ≡ after.1)) }
    ensures spent { (before : Option ReplicaState) → IsReplicaAt slot.old before → IsSpentWhere (is_slot_spent before (content_of body.now)) result }
{
    match slot {
        Some(replica) => step(replica, roster, from, body),
        None => Ok(Steps::new(alloc)),
    }
}
