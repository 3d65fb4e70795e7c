//! The actors of the system.
ghost use Rattle.std.specs.Prelude.{◌≡◌, ◌<◌, ◌+◌, IfOk, None, length};
ghost use Rattle.std.specs.Vec.{with_item};
ghost use Rattle.std.specs.Option.{option_copied};
ghost use Rattle.cl_post.specs.Steps.{IsSpentByMark};
ghost use Rattle.cl_roster.specs.Roster.{IsClusterSize};
ghost use Rattle.cl_runs.specs.World.{Shape};
ghost use Rattle.cl_world.specs.Actors.{States, AreActors, AreAllThere, IsActorStep, MayAct, AreFirstMembers, first_states, is_waiting_at, member_at};
ghost use Rattle.cl_world.specs.Inputs.{input_of, is_input_spent};

use crate::front_seat::FrontSeat;
use crate::given::Given;
use crate::member::{rests, step_node};
use cl_front::Front;
use cl_node::Node;
use cl_post::Outs;
use cl_serial::Transcript;
use cl_steps::FRONT;
use cl_types::{NoMemory, Refused};
use std::alloc::Global;

/// The front and the nodes. One that refused a step is gone.
#[derive(Drop)]
pub(crate) struct Actors {
    pub(crate) front: FrontSeat,
    /// Nodes first, then spares.
    pub(crate) members: Vec<Option<Node>>,
}

// The nodes and spares at the start.
fn first_members(alloc: Global, nodes: u32, spares: u32) -> Result<Vec<Option<Node>>, NoMemory>
    requires { IsClusterSize nodes spares }
    ensures { IfOk result (λ members. AreFirstMembers nodes spares (nodes + spares) members.items) }
{
    let mut members = Vec::with_capacity(alloc, (nodes + spares) as usize)?;
    for actor in 0..nodes + spares {
        let node = Node::new(alloc, actor, nodes, spares)?;
        members.push(Some(node))?;
    }
    Ok(members)
}

impl Actors {
    /// The actors at the start.
    pub(crate) fn new(alloc: Global, nodes: u32, spares: u32) -> Result<Actors, NoMemory>
        requires { IsClusterSize nodes spares }
        ensures actors { IfOk result (λ actors. AreActors (record { nodes = nodes; spares = spares }) actors (first_states nodes spares)) }
        ensures there { IfOk result (λ actors. AreAllThere (record { nodes = nodes; spares = spares }) actors) }
    {
        let front = Front::new(alloc, nodes, spares)?;
        let members = first_members(alloc, nodes, spares)?;
        Ok(Actors {
            front: FrontSeat::Here(front),
            members,
        })
    }

    /// Lets an actor take a step. After a refusal it is gone, but for the front's transcript.
    pub(crate) fn step(&mut self, actor: u32, given: &Given) -> Result<Outs, Refused>
        requires { (shape : Shape) × (states : States) × MayAct shape self.old states actor (input_of given.now) }
        ensures step { (shape : Shape) (states : States) → MayAct shape self.old states actor (input_of given.now)
            → IsActorStep shape self.new states actor (input_of given.now) result }
        ensures spent { (shape : Shape) (states : States) → MayAct shape self.old states actor (input_of given.now)
            → IsSpentByMark (is_input_spent actor (states actor) (input_of given.now)) result }
    {
        if actor == FRONT {
            return self.front.step(given);
        }
        step_node(&mut self.members[actor as usize], given)
    }

    /// Lets go of a node.
    pub(crate) fn lose(&mut self, actor: u32)
        requires { actor < length self.old.members.items }
        ensures { self.new ≡ record self.old { members = with_item self.old.members actor None } }
    {
        self.members[actor as usize] = None;
    }

    /// The node of a number, where it is there.
    pub(crate) fn member(&self, actor: u32) -> Option<&Node>
        ensures { option_copied result ≡ member_at self.now actor }
    {
        self.members.get(actor as usize)?.as_ref()
    }

    /// Whether a message of the actor is unsent or unacknowledged. It is false of one that is not there.
    pub(crate) fn waiting(&self, actor: u32) -> bool
        ensures { result ≡ is_waiting_at self.now actor }
    {
        if actor == FRONT {
            match self.front.front() {
                Some(front) => front.busy(),
                None => false,
            }
        } else {
            match self.member(actor) {
                Some(node) => node.waiting(),
                None => false,
            }
        }
    }
}
