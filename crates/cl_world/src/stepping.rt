//! One step of one actor.
ghost use Rattle.cl_post.specs.Steps.{IsStep, IsSpentByMark};
ghost use Rattle.std.specs.Prelude.{OnErr, ◌≡◌};
ghost use Rattle.cl_world.specs.Inputs.{input_of};

use crate::given::Given;
use cl_post::{Machine, Outs};
use cl_types::Refused;

/// Lets a machine take a step.
pub(crate) fn step<M: Machine>(machine: &mut M, given: &Given) -> Result<Outs, Refused>
    requires { (before : M.State) × M.is_state machine.old before × M.fits before (input_of given.now) }
    ensures step { (before : M.State) → M.is_state machine.old before
        → IsStep (M.is_state machine.new) (M.after before (input_of given.now)) (M.outs before (input_of given.now)) result }
    ensures spent { (before : M.State) → M.is_state machine.old before → IsSpentByMark (M.is_spent before (input_of given.now)) result }
    ensures refused { OnErr result (M.transcript machine.new ≡ M.transcript machine.old) }
{
    match given {
        Given::Packet(packet) => machine.handle(packet),
        Given::Tick => machine.tick(),
        Given::Line(number, text, said) => machine.feed(*number, text, said),
    }
}
