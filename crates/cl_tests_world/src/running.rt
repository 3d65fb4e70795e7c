//! A world that is run event by event.
ghost use Rattle.std.specs.Prelude.{OnOk};
ghost use Rattle.cl_tests_world.specs.Ready.{IsReady};

use cl_lines::print_out;
use cl_post::Event;
use cl_serial::Said;
use cl_types::{GrowingList, NoMemory, Refused};
use cl_wire::{Body, Packet};
use cl_world::World;
use std::alloc::Global;
use std::process::Abort;

// An event, as the tables write it.
#[derive(Clone, Copy, Debug)]
pub(crate) enum What {
    // The actor handles the packet of that number.
    Handles(u32, u64),
    Ticks(u32),
    // The front is fed the line of that number.
    Feeds(u64, &'static str),
    Rests,
}

// A step of a run.
#[derive(Clone, Copy, Debug)]
pub(crate) enum Step {
    Makes(What),
    // The next packet on its way comes to this actor and has this number. Once handled it is forgotten.
    Comes(u32, u64),
    // It is forgotten instead.
    IsLost(u32, u64),
    // Packets come one after another until none is on its way.
    AllCome,
    // Each of them is handled twice. The second time nothing is printed.
    AllComeTwice,
    // All come but those that say what a standby took of the log of this virtual node: they stay on their way.
    AllComeButAcks(u32),
}

fn event_of(alloc: Global, world: &World, what: What) -> Result<Event, NoMemory> {
    Ok(match what {
        What::Handles(actor, id) => Event::Handle(actor, id),
        What::Ticks(actor) => Event::Tick(actor),
        What::Feeds(number, text) => {
            let said = world.said(text.as_bytes())?;
            Event::Feed(number, GrowingList::copy_of(alloc, text.as_bytes())?, said)
        }
        What::Rests => Event::Quiet,
    })
}

// Whether this may happen now.
pub(crate) fn may(alloc: Global, world: &World, what: What) -> Result<bool, NoMemory> {
    let event = event_of(alloc, world, what)?;
    Ok(world.enabled(&event))
}

// Makes an event that may happen now. A refusal ends the run.
fn makes(rt: &impl Abort, world: &mut World, event: Event) -> Result<(), Refused>
    requires { IsReady world.old }
    ensures { OnOk result (IsReady world.new) }
{
    assert!(rt; world.enabled(&event));
    world.run_events(&[event])
}

fn forgets(world: &mut World, id: u64)
    requires { IsReady world.old }
    ensures { IsReady world.new }
{
    world.forget(id);
}

// A packet that was handled is handled again.
fn handles_again(rt: &impl Abort, world: &mut World, actor: u32, id: u64) -> Result<(), Refused>
    requires { IsReady world.old }
    ensures { OnOk result (IsReady world.new) }
{
    let before = world.transcript().len();
    makes(rt, world, Event::Handle(actor, id))?;
    assert!(rt; world.transcript().len() == before);
    Ok(())
}

fn handles(rt: &impl Abort, world: &mut World, actor: u32, id: u64) -> Result<(), Refused>
    requires { IsReady world.old }
    ensures { OnOk result (IsReady world.new) }
{
    makes(rt, world, Event::Handle(actor, id))?;
    forgets(world, id);
    Ok(())
}

fn handles_twice(rt: &impl Abort, world: &mut World, actor: u32, id: u64) -> Result<(), Refused>
    requires { IsReady world.old }
    ensures { OnOk result (IsReady world.new) }
{
    makes(rt, world, Event::Handle(actor, id))?;
    handles_again(rt, world, actor, id)?;
    forgets(world, id);
    Ok(())
}

fn all_come(rt: &impl Abort, world: &mut World) -> Result<(), Refused>
    requires { IsReady world.old }
    ensures { OnOk result (IsReady world.new) }
{
    for _ in 0..100 {
        let Some((id, actor)) = world.way(0) else {
            return Ok(());
        };
        handles(rt, world, actor, id)?;
    }
    Ok(())
}

fn all_come_twice(rt: &impl Abort, world: &mut World) -> Result<(), Refused>
    requires { IsReady world.old }
    ensures { OnOk result (IsReady world.new) }
{
    for _ in 0..100 {
        let Some((id, actor)) = world.way(0) else {
            return Ok(());
        };
        handles_twice(rt, world, actor, id)?;
    }
    Ok(())
}

// Whether the packet says what a standby took of the log of this virtual node.
fn acknowledges(packet: &Packet, v: u32) -> bool {
    match &packet.body {
        Body::LogAck(of, _) => *of == v,
        _ => false,
    }
}

// The number of the next packet on its way that does not, and the actor that it goes to.
fn next_but_acks(world: &World, v: u32) -> Option<(u64, u32)> {
    for place in 0..100 {
        let (id, actor) = world.way(place)?;
        if !acknowledges(world.packet(id)?, v) {
            return Some((id, actor));
        }
    }
    None
}

fn all_come_but_acks(rt: &impl Abort, world: &mut World, v: u32) -> Result<(), Refused>
    requires { IsReady world.old }
    ensures { OnOk result (IsReady world.new) }
{
    for _ in 0..100 {
        let Some((id, actor)) = next_but_acks(world, v) else {
            return Ok(());
        };
        handles(rt, world, actor, id)?;
    }
    Ok(())
}

// The next packet on its way is that of this number, and goes to this actor.
fn is_next(rt: &impl Abort, world: &World, actor: u32, id: u64) {
    assert!(rt; world.way(0) == Some((id, actor)));
}

// Takes one step of a run.
pub(crate) fn goes(
    rt: &impl Abort,
    alloc: Global,
    world: &mut World,
    step: Step,
) -> Result<(), Refused>
    requires { IsReady world.old }
    ensures { OnOk result (IsReady world.new) }
{
    match step {
        Step::Makes(what) => {
            let event = event_of(alloc, world, what)?;
            makes(rt, world, event)
        }
        Step::Comes(actor, id) => {
            is_next(rt, world, actor, id);
            handles(rt, world, actor, id)
        }
        Step::IsLost(actor, id) => {
            is_next(rt, world, actor, id);
            forgets(world, id);
            Ok(())
        }
        Step::AllCome => all_come(rt, world),
        Step::AllComeTwice => all_come_twice(rt, world),
        Step::AllComeButAcks(v) => all_come_but_acks(rt, world, v),
    }
}

// Whether what was fed and printed is this text.
pub(crate) fn told(alloc: Global, world: &World, text: &str) -> Result<bool, NoMemory> {
    let mut all = Vec::new(alloc);
    for said in world.transcript().as_slice() {
        match said {
            Said::In(_, line) => {
                all.extend_from_slice(line.bytes())?;
                all.push(b'\n')?;
            }
            Said::Out(out) => all.extend_from_slice(&print_out(alloc, out)?)?,
            Said::Quiet => {}
        }
    }
    Ok(all.as_slice() == text.as_bytes())
}
