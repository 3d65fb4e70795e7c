//! What may happen now.
ghost use Rattle.std.specs.Prelude.{◌≡◌, ◌↔◌, ◌-◌, ◌<◌, ◌≤◌, ℕ, true, None, IsTrue, IsSome, [], length, slice_index_or};
ghost use Rattle.cl_endpoint.specs.Endpoint.{set_number};
ghost use Rattle.cl_lines.specs.Line.{line_of};
ghost use Rattle.cl_ranked.specs.Slots.{slot_at};
ghost use Rattle.cl_runs.specs.World.{Shape, Run, IsEnabled, IsLiving, IsQuiet, MayFeed, MayHandle};
ghost use Rattle.cl_system.specs.System.{system, is_operators};
ghost use Rattle.cl_types.specs.GrowingList.{items};
ghost use Rattle.cl_world.specs.Actors.{States, AreActors, AreAllThere, IsNodeIn, IsResting, noted_at};
ghost use Rattle.cl_world.specs.Happenings.{happening_of};
ghost use Rattle.cl_world.specs.Mail.{IsStillKept};
ghost use Rattle.cl_world.specs.World.{IsWorldOf, IsAt, IsWhole, Moment, moment_after};

use crate::World;
use crate::actors::Actors;
use crate::member::rests;
use cl_node::Node;
use cl_post::{Event, OutList};
use cl_steps::FRONT;
use cl_wire::Packet;

/// Whether a line waits for a quiet moment: QUIET, so far.
pub fn waits_for_quiet(text: &[u8]) -> bool
    ensures { result ≡ is_operators (line_of text.now) }
{
    text == b"QUIET".as_slice()
}

// Whether each of these nodes is at rest, and has no message that is not acknowledged.
fn members_rest(members: &[Option<Node>]) -> bool
    ensures { (states : States) → ((k : ℕ) → k < length members.now → IsSome (slice_index_or members.now k None))
        → ((k : ℕ) → k < length members.now → IsNodeIn (slice_index_or members.now k None) (states k))
        → IsTrue result ↔ ((k : ℕ) → k < length members.now → IsResting (states k)) }
{
    for (k, slot) in members.iter().enumerate() {
        if !rests(slot) {
            return false;
        }
    }
    true
}

impl Actors {
    /// Whether the actor is the front, a node or a spare.
    fn lives(&self, actor: u32) -> bool
        ensures { (shape : Shape) (states : States) → AreActors shape self.now states → IsTrue result ↔ IsLiving shape [] actor }
    {
        actor == FRONT || (actor as usize) < self.members.len()
    }

    /// How many entries of the roster an actor has noted, where it is there.
    fn noted(&self, actor: u32) -> Option<u32>
        ensures { result ≡ noted_at self.now actor }
    {
        if actor == FRONT {
            Some(self.front.front()?.noted())
        } else {
            Some(self.member(actor)?.noted())
        }
    }

    /// Whether each actor is at rest, and has no message that is not acknowledged.
    fn rest(&self) -> bool
        ensures { (shape : Shape) (states : States) → AreActors shape self.now states → AreAllThere shape self.now
            → IsTrue result ↔ ((actor : ℕ) → IsLiving shape [] actor → IsResting (states actor)) }
    {
        self.front.rests() && members_rest(&self.members)
    }
}

impl World {
    /// Whether the moment is quiet: every line is answered, every message acknowledged, and no node busy.
    ///
    /// It asks the front and each node once, whatever the length of the run; no contract says so.
    pub fn quiet(&self) -> bool
        ensures { (shape : Shape) (run : Run) → IsWorldOf shape self.now run → IsWhole shape self.now
            → IsTrue result ↔ IsQuiet (system shape.nodes) shape (moment_after shape run) }
    {
        self.actors.rest()
    }

    // Whether the actor may handle that packet.
    fn admits(&self, packet: &Packet, actor: u32) -> bool
        ensures { (shape : Shape) (moment : Moment) → IsAt shape self.now moment → IsWhole shape self.now
            → IsTrue result ↔ (IsLiving shape moment.roster actor × (packet.now.to ≡ actor) × (packet.now.set ≤ set_number (moment.actors actor).endpoint)) }
    {
        if packet.to != actor {
            return false;
        }
        if !self.actors.lives(actor) {
            return false;
        }
        self.actors
            .noted(actor)
            .is_some_and(|noted| packet.set <= noted)
    }

    // Whether the actor may handle the packet of that number, and it is still kept.
    fn may_handle(&self, actor: u32, id: u64) -> bool
        ensures { (shape : Shape) (moment : Moment) → IsAt shape self.now moment → IsWhole shape self.now
            → IsTrue result ↔ (MayHandle shape moment actor id × IsSome (slot_at self.now.mail (id - 1))) }
    {
        let Some(index) = id.checked_sub(1) else {
            return false;
        };
        let Some(packet) = self.mail.get(index) else {
            return false;
        };
        self.admits(packet, actor)
    }

    // Whether the front may be fed that line.
    fn may_feed(&self, number: u64, text: &[u8], said: &OutList) -> bool
        ensures { (shape : Shape) (moment : Moment) → IsAt shape self.now moment
            → IsTrue result ↔ (MayFeed moment number (items said.now) × (is_operators (line_of text.now) ≡ true → moment.is_quiet_now ≡ true)) }
    {
        number.checked_sub(1) == Some(self.lines)
            && said.is_empty()
            && (self.quiet_now || !waits_for_quiet(text))
    }

    /// Whether the event may happen now, and the packet that it handles is still kept.
    pub fn enabled(&self, event: &Event) -> bool
        ensures { (shape : Shape) (run : Run) → IsWorldOf shape self.now run → IsWhole shape self.now
            → IsTrue result ↔ (IsEnabled (system shape.nodes) shape (moment_after shape run) (happening_of event.now) × IsStillKept self.now.mail event.now) }
    {
        match event {
            Event::Handle(actor, id) => self.may_handle(*actor, *id),
            Event::Tick(actor) => self.actors.lives(*actor),
            Event::Feed(number, text, said) => self.may_feed(*number, text.bytes(), said),
            Event::Quiet => self.quiet(),
        }
    }
}
