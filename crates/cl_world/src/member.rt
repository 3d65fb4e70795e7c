//! The place of a node.
ghost use Rattle.std.specs.Prelude.{ℕ, false, IsTrue, ◌↔◌, Option, Some, IsSome};
ghost use Rattle.cl_actor.specs.Acting.{ActingState};
ghost use Rattle.cl_post.specs.Steps.{IsSpentByMark};
ghost use Rattle.cl_system.specs.System.{Core};
ghost use Rattle.cl_world.specs.Actors.{IsNodeIn, IsNodeStep, IsResting};
ghost use Rattle.cl_world.specs.Inputs.{input_of, InputFits, is_input_spent};

use crate::given::Given;
use crate::stepping::step;
use cl_node::Node;
use cl_post::Outs;
use cl_types::Refused;

/// Lets the node of a slot take a step. After a refusal it is gone.
pub(crate) fn step_node(slot: &mut Option<Node>, given: &Given) -> Result<Outs, Refused>
    requires there { IsSome slot.old }
    requires fits { (actor : ℕ) × (before : ActingState Core) × IsNodeIn slot.old before × InputFits actor before (input_of given.now) }
    ensures step { (actor : ℕ) (before : ActingState Core) → IsNodeIn slot.old before → IsNodeStep slot.new actor before (input_of given.now) result }
    ensures spent { (actor : ℕ) (before : ActingState Core) → IsNodeIn slot.old before
        → IsSpentByMark (is_input_spent actor before (input_of given.now)) result }
{
    match slot {
        Some(node) => match step(node, given) {
            Ok(outs) => Ok(outs),
            Err(refused) => {
                *slot = None;
                Err(refused)
            }
        },
        None => unreachable!(),
    }
}

/// Whether the node of a slot is at rest, and has no message that is not acknowledged.
pub(crate) fn rests(slot: &Option<Node>) -> bool
    ensures { (state : ActingState Core) → IsNodeIn slot.now state → IsSome slot.now → IsTrue result ↔ IsResting state }
{
    match slot {
        Some(node) => !node.busy(),
        None => false,
    }
}
