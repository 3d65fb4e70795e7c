//! One event.
ghost use Rattle.std.specs.Prelude.{◌≡◌, ◌∷◌, ◌++◌, ◌+◌, ◌≤◌, [], map, false, IfOk, OnOk, length};
ghost use Rattle.cl_post.specs.Steps.{IsSpentByMark};
ghost use Rattle.cl_runs.specs.World.{Shape, with_firm};
ghost use Rattle.cl_types.specs.AppendOnlyList.{entries, room};
ghost use Rattle.cl_types.specs.GrowingList.{items};
ghost use Rattle.cl_wire.specs.Message.{message_of};
ghost use Rattle.cl_world.specs.Actors.{IsActorStep};
ghost use Rattle.cl_world.specs.FirmRoom.{firm_in, firm_room};
ghost use Rattle.cl_world.specs.Happenings.{happening_of};
ghost use Rattle.cl_world.specs.Inputs.{input_of};
ghost use Rattle.cl_world.specs.Mail.{AreKept, IsStillKept, messages_in, to_living};
ghost use Rattle.cl_world.specs.Taking.{IsSilent, IsStepEvent, IsTaken, MayTake, actor_of, input_at, is_event_spent, lines_with, refused_of};
ghost use Rattle.cl_world.specs.World.{IsAt, Moment};

use crate::World;
use crate::given::Given;
use crate::mail::keep_all;
use cl_post::{Event, OutList, Outs};
use cl_ranked::Ranked;
use cl_steps::FRONT;
use cl_types::{GrowingList, NoMemory, Refused};
use cl_wire::Packet;
use std::alloc::Global;

// A copy of an event that writes nothing of its own.
fn copy_of(alloc: Global, event: &Event) -> Result<Event, NoMemory>
    requires { IsSilent event.now }
    ensures { IfOk result (λ copy. happening_of copy ≡ happening_of event.now) }
{
    Ok(match event {
        Event::Handle(actor, id) => Event::Handle(*actor, *id),
        Event::Tick(actor) => Event::Tick(*actor),
        Event::Feed(number, text, _) => {
            let text = GrowingList::copy_of(alloc, text.bytes())?;
            Event::Feed(*number, text, OutList::new(alloc))
        }
        Event::Quiet => Event::Quiet,
    })
}

// The actor whose step an event is.
fn actor_in(event: &Event) -> u32
    ensures { result ≡ actor_of event.now }
{
    match event {
        Event::Handle(actor, _) | Event::Tick(actor) => *actor,
        Event::Feed(..) | Event::Quiet => FRONT,
    }
}

// How many lines were fed after an event, where so many were before.
fn lines_after(lines: u64, event: &Event) -> u64
    ensures { result ≡ lines_with lines event.now }
{
    match event {
        Event::Feed(number, ..) => *number,
        _ => lines,
    }
}

// Want of memory, as a refusal.
fn as_refused(noted: Result<(), NoMemory>) -> Result<(), Refused>
    ensures { result ≡ refused_of noted }
{
    match noted {
        Ok(()) => Ok(()),
        Err(_) => Err(Refused::NoMemory),
    }
}

// What an event gives its actor.
fn given_by<'a>(mail: &'a Ranked<Packet>, event: &'a Event) -> Given<'a>
    requires step { IsStepEvent event.now }
    requires kept { IsStillKept mail.now event.now }
    ensures { (moment : Moment) → AreKept (messages_in mail.now) moment.packets → input_of result ≡ input_at moment (happening_of event.now) }
{
    match event {
        Event::Handle(_, id) => match mail.get(id.saturating_sub(1)) {
            Some(packet) => Given::Packet(packet),
            None => unreachable!(),
        },
        Event::Tick(_) => Given::Tick,
        Event::Feed(number, text, said) => Given::Line(*number, text.bytes(), said),
        Event::Quiet => unreachable!(),
    }
}

impl World {
    // Lets the actor of an event take its step.
    fn act(&mut self, event: &Event) -> Result<Outs, Refused>
        requires step { IsStepEvent event.now }
        requires may { (shape : Shape) × (moment : Moment) × IsAt shape self.old moment × MayTake shape self.old moment event.now }
        ensures step { (shape : Shape) (moment : Moment) → IsAt shape self.old moment → MayTake shape self.old moment event.now
            → IsActorStep shape self.new.actors moment.actors (actor_of event.now) (input_at moment (happening_of event.now)) result }
        ensures spent { (shape : Shape) (moment : Moment) → IsAt shape self.old moment → MayTake shape self.old moment event.now
            → IsSpentByMark (is_event_spent moment event.now) result }
        ensures same { self.new ≡ record self.old { actors = self.new.actors } }
    {
        let given = given_by(&self.mail, event);
        self.actors.step(actor_in(event), &given)
    }

    // Notes what a step gave. After an error not all of its packets are kept.
    fn note(&mut self, event: Event, lines: u64, outs: Outs) -> Result<(), NoMemory>
        requires trace { 1 ≤ room self.old.trace }
        requires firm { length (items outs.firm) ≤ firm_room self.old.firm }
        ensures nodes { self.new.nodes ≡ self.old.nodes }
        ensures spares { self.new.spares ≡ self.old.spares }
        ensures roster { self.new.roster ≡ self.old.roster }
        ensures actors { self.new.actors ≡ self.old.actors }
        ensures firm { firm_in self.new.firm ≡ with_firm (firm_in self.old.firm) (items outs.firm) }
        ensures trace { entries self.new.trace ≡ entries self.old.trace ++ (event, outs.short) ∷ [] }
        ensures lines { self.new.lines ≡ lines }
        ensures quiet { self.new.quiet_now ≡ false }
        ensures mail { OnOk result (messages_in self.new.mail
            ≡ messages_in self.old.mail ++ map (to_living (length self.old.actors.members.items)) (map message_of outs.packets.items)) }
    {
        self.firm.join_all(outs.firm.as_slice());
        self.trace.push_reserved((event, outs.short));
        self.lines = lines;
        self.quiet_now = false;
        keep_all(&mut self.mail, self.actors.members.len(), outs.packets)
    }

    // Makes an event that is the step of an actor.
    fn take_step(&mut self, event: &Event) -> Result<(), Refused>
        requires step { IsStepEvent event.now }
        requires may { (shape : Shape) × (moment : Moment) × IsAt shape self.old moment × MayTake shape self.old moment event.now }
        ensures { (shape : Shape) (moment : Moment) → IsAt shape self.old moment → MayTake shape self.old moment event.now → IsTaken shape self.old self.new moment event.now result }
    {
        let noted = copy_of(self.alloc, event)?;
        self.trace.reserve(1)?;
        let outs = self.act(event)?;
        if let Err(_) = self.firm.reserve(outs.firm.len()) {
            self.actors.lose(actor_in(event));
            return Err(Refused::NoMemory);
        }
        as_refused(self.note(noted, lines_after(self.lines, event), outs))
    }

    // Notes a quiet moment.
    fn take_quiet(&mut self) -> Result<(), Refused>
        requires may { (shape : Shape) × (moment : Moment) × IsAt shape self.old moment × MayTake shape self.old moment Event.Quiet }
        ensures { (shape : Shape) (moment : Moment) → IsAt shape self.old moment → MayTake shape self.old moment Event.Quiet → IsTaken shape self.old self.new moment Event.Quiet result }
    {
        self.trace.reserve(1)?;
        self.actors.front.quiet()?;
        self.trace.push_reserved((Event::Quiet, false));
        self.quiet_now = true;
        Ok(())
    }

    // Makes an event.
    pub(crate) fn take(&mut self, event: &Event) -> Result<(), Refused>
        requires { (shape : Shape) × (moment : Moment) × IsAt shape self.old moment × MayTake shape self.old moment event.now }
        ensures { (shape : Shape) (moment : Moment) → IsAt shape self.old moment → MayTake shape self.old moment event.now → IsTaken shape self.old self.new moment event.now result }
    {
        match event {
            Event::Quiet => self.take_quiet(),
            _ => self.take_step(event),
        }
    }
}
