//! An actor as a machine: each call is one step.
ghost use Rattle.std.specs.Prelude.{◌≡◌, ℕ, Bool, List, OnErr};
ghost use Rattle.cl_lines.specs.declared.out.Out.{Out as Printed};
ghost use Rattle.cl_serial.specs.Transcript.{TranscriptEntry};
ghost use Rattle.cl_types.specs.GrowingList.{items};
ghost use Rattle.cl_wire.specs.Message.{message_of};
ghost use Rattle.cl_post.specs.Steps.{Input, handle, tick, feed, IsStep, IsSpentByMark, OutsData};

use crate::{OutList, Outs};
use cl_roster::RosterEntry;
use cl_types::Refused;
use cl_wire::Packet;

/// An actor: the front or a node. Each call is one step, a function of the actor's state, the input
/// and the mark of the event.
///
/// `State` is what the actor has, as plain data, and `is_state` ties the actor to it. A call asks that
/// its input fits, and gives the step with the mark that its `Outs` have: that step needs no number
/// above its limit. It is refused as `Spent` only where the step with no mark would need one, and else
/// for want of memory; no clause says when. After a refusal the actor may only be dropped, but a
/// front's transcript is as before.
pub trait Machine {
    // What the actor has, as plain data.
    ghost State: { Type 0 };
    // The actor has this state.
    ghost is_state: { Self → Self.State → Type 0 };
    // The state at the start: of how many nodes, how many spares, and which actor it is.
    ghost first: { ℕ → ℕ → ℕ → Self.State };
    // The state after a step, and what it gives.
    ghost after: { Self.State → Input → Bool → Self.State };

    ghost outs: { Self.State → Input → Bool → OutsData };
    // The step with this mark would need a number above its limit.
    ghost is_spent: { Self.State → Input → Bool → Bool };
    // The state meets the conditions of each call below that the step makes.
    ghost fits: { Self.State → Input → Type 0 };
    // The transcript of a front; that of a node is empty.
    ghost transcript: { Self → List TranscriptEntry };

    /// Handles a packet that came.
    fn handle(&mut self, packet: &Packet) -> Result<Outs, Refused>
        requires fits { (before : Self.State) × Self.is_state self.old before × Self.fits before (handle (message_of packet.now)) }
        ensures step { (before : Self.State) → Self.is_state self.old before
            → IsStep (Self.is_state self.new) (Self.after before (handle (message_of packet.now))) (Self.outs before (handle (message_of packet.now))) result }
        ensures spent { (before : Self.State) → Self.is_state self.old before
            → IsSpentByMark (Self.is_spent before (handle (message_of packet.now))) result }
        ensures refused { OnErr result (Self.transcript self.new ≡ Self.transcript self.old) };

    /// Lets the actor's clock tick: each message that is not acknowledged is due again.
    fn tick(&mut self) -> Result<Outs, Refused>
        requires fits { (before : Self.State) × Self.is_state self.old before × Self.fits before tick }
        ensures step { (before : Self.State) → Self.is_state self.old before
            → IsStep (Self.is_state self.new) (Self.after before tick) (Self.outs before tick) result }
        ensures spent { (before : Self.State) → Self.is_state self.old before
            → IsSpentByMark (Self.is_spent before tick) result }
        ensures refused { OnErr result (Self.transcript self.new ≡ Self.transcript self.old) };

    /// Feeds a line, with its number and what an operator's line is to write. A line does nothing at a node.
    fn feed(&mut self, line: u64, text: &[u8], said: &OutList) -> Result<Outs, Refused>
        requires fits { (before : Self.State) × Self.is_state self.old before × Self.fits before (feed line text.now (items said.now)) }
        ensures step { (before : Self.State) → Self.is_state self.old before
            → IsStep (Self.is_state self.new) (Self.after before (feed line text.now (items said.now)))
            (Self.outs before (feed line text.now (items said.now))) result }
        ensures spent { (before : Self.State) → Self.is_state self.old before
            → IsSpentByMark (Self.is_spent before (feed line text.now (items said.now))) result }
        ensures refused { OnErr result (Self.transcript self.new ≡ Self.transcript self.old) };
}
