//! What an actor decides.
ghost use Rattle.std.specs.Prelude.{◌≡◌, ℕ, Bool, true, false, List, map, OnErr};
ghost use Rattle.cl_steps.specs.Steps.{AreFewer, receivers};
ghost use Rattle.cl_lines.specs.declared.out.Out.{Out as Printed};
ghost use Rattle.cl_post.specs.Steps.{IsSpentWhere};
ghost use Rattle.cl_serial.specs.Transcript.{TranscriptEntry};
ghost use Rattle.cl_types.specs.GrowingList.{items};
ghost use Rattle.cl_wire.specs.Message.{Content, content_of};
ghost use Rattle.cl_actor.specs.Core.{Noted, noted_of, CoreStep, IsCoreStep};

use cl_post::OutList;
use cl_roster::Roster;
use cl_steps::Steps;
use cl_types::Refused;
use cl_wire::Body;

/// The core of an actor: what it decides, without packets, numbers of messages or acknowledgements.
///
/// A step is a function of what the actor has noted of the roster, the core's state, the input and the
/// mark. What a step printed is kept aside until `settle`, so that a step that is refused later, as
/// where a packet cannot be made, leaves the transcript as it was.
pub trait Core {
    // What the core has, as plain data.
    ghost State: { Type 0 };
    // The core has this state.
    ghost is_state: { Self → Self.State → Type 0 };
    // The core has this state once it has settled.
    ghost will_be: { Self → Self.State → Type 0 };
    // The state at the start: of how many nodes, how many spares, and which actor it is.
    ghost first: { ℕ → ℕ → ℕ → Self.State };
    // The state after a message of this sender, and what the step gives, with this mark.
    ghost delivered: { Noted → Self.State → ℕ → Content → Bool → CoreStep Self.State };
    // The state after a line of this number, with its text and what it is to write, and what the step gives.
    ghost fed: { Noted → Self.State → ℕ → List ℕ → List Printed → CoreStep Self.State };
    // The step would need a number above its limit, whatever its mark.
    ghost is_delivery_spent: { Noted → Self.State → ℕ → Content → Bool };

    ghost is_line_spent: { Noted → Self.State → ℕ → List ℕ → List Printed → Bool };
    // The state meets the conditions of each call that the step makes.
    ghost delivery_fits: { Noted → Self.State → ℕ → Content → Type 0 };

    ghost line_fits: { Noted → Self.State → ℕ → List ℕ → List Printed → Type 0 };
    // The transcript of a front's core; that of a node's core is empty.
    ghost transcript: { Self → List TranscriptEntry };

    /// Takes a message that was accepted now.
    fn deliver(&mut self, roster: &Roster, from: u32, body: &Body) -> Result<Steps, Refused>
        requires fits { (before : Self.State) × Self.is_state self.old before
            × Self.delivery_fits (noted_of roster.now) before from (content_of body.now) }
        ensures step { (before : Self.State) → Self.is_state self.old before
            → IsCoreStep (Self.will_be self.new) (Self.delivered (noted_of roster.now) before from (content_of body.now)) result }
        ensures spent { (before : Self.State) → Self.is_state self.old before
            → IsSpentWhere (Self.is_delivery_spent (noted_of roster.now) before from (content_of body.now)) result }
        ensures unsettled { Self.transcript self.new ≡ Self.transcript self.old };

    /// Takes a line with its number and what an operator's line is to write.
    fn feed(
        &mut self,
        roster: &Roster,
        line: u64,
        text: &[u8],
        said: &OutList,
    ) -> Result<Steps, Refused>
        requires fits { (before : Self.State) × Self.is_state self.old before
            × Self.line_fits (noted_of roster.now) before line text.now (items said.now) }
        ensures step { (before : Self.State) → Self.is_state self.old before
            → IsCoreStep (Self.will_be self.new) (λ mark. Self.fed (noted_of roster.now) before line text.now (items said.now)) result }
        ensures spent { (before : Self.State) → Self.is_state self.old before
            → IsSpentWhere (Self.is_line_spent (noted_of roster.now) before line text.now (items said.now)) result }
        ensures unsettled { Self.transcript self.new ≡ Self.transcript self.old };

    /// Puts what the last step printed into the transcript. It cannot fail.
    fn settle(&mut self)
        ensures { (after : Self.State) → Self.will_be self.old after → Self.is_state self.new after };

    // With the mark a step sends to no actor that it does not send to without, nor more often.
    ghost fewer_by_mark: { (core : Self) (noted : Noted) (state : Self.State) (from : ℕ) (content : Content) → Self.is_state core state
        → AreFewer (receivers (Self.delivered noted state from content true).step) (receivers (Self.delivered noted state from content false).step) };
}
