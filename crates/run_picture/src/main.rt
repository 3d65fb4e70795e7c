//! Shows a run: for each line of the input what every actor handles, until nothing is on its way. It is the run that
//! `serve --step` makes, but for its quiet moments.
#![tactic(auto)]

ghost use Rattle.std.specs.Prelude.{OnOk};
ghost use Rattle.run_picture.specs.Ready.{IsReady};

mod describing;

use cl_io::{Sink, Source, StdSink, StdSource, write_all};
use cl_post::{Event, OutList};
use cl_types::{NoMemory, Refused, Text};
use cl_world::World;
use describing::{push_line, push_packet};
use std::alloc::Global;
use std::process::ExitCode;

// The most bytes of input.
const INPUT_MAX: usize = 4096;

// The most packets that are handled after a line.
const PACKETS_MAX: u32 = 1_000;

// Reads the input: as many bytes as one read gives.
fn read_input<S: Source>(alloc: Global, source: &mut S) -> Result<Vec<u8>, NoMemory> {
    let mut buffer = vec![in alloc; 0u8; INPUT_MAX]?;
    match source.read(&mut buffer) {
        Ok(count) => {
            buffer.truncate(count);
            Ok(buffer)
        }
        Err(_) => Err(NoMemory),
    }
}

// Makes an event, where it may happen.
fn make(world: &mut World, event: Event) -> Result<bool, Refused>
    requires { IsReady world.old }
    ensures { OnOk result (IsReady world.new) }
{
    if world.enabled(&event) {
        world.run_events(&[event])?;
        Ok(true)
    } else {
        Ok(false)
    }
}

// Handles the packets on their way, by number, and shows each.
fn handle_all(alloc: Global, world: &mut World, text: &mut Vec<u8>) -> Result<(), Refused>
    requires { IsReady world.old }
    ensures { OnOk result (IsReady world.new) }
{
    for _packet in 0..PACKETS_MAX {
        let Some((id, to)) = world.way(0) else {
            return Ok(());
        };
        if let Some(packet) = world.packet(id) {
            push_packet(alloc, text, id, packet)?;
        }
        if !make(world, Event::Handle(to, id))? {
            return Ok(());
        }
        world.forget(id);
    }
    Ok(())
}

// Feeds a line and handles what comes of it.
fn show_line(
    alloc: Global,
    world: &mut World,
    text: &mut Vec<u8>,
    line: &[u8],
) -> Result<(), Refused>
    requires { IsReady world.old }
    ensures { OnOk result (IsReady world.new) }
{
    let number = world.fed().wrapping_add(1);
    push_line(alloc, text, number, line)?;
    let copy = Text::copy_of(alloc, line)?;
    make(world, Event::Feed(number, copy, OutList::new(alloc)))?;
    handle_all(alloc, world, text)
}

// The run of the lines, shown.
fn show_run(alloc: Global, input: &[u8]) -> Result<Vec<u8>, Refused> {
    let mut world = World::new(alloc, 4, 2)?;
    let mut text = Vec::new(alloc);
    for line in input.split(|byte| *byte == b'\n') {
        if !line.is_empty() {
            show_line(alloc, &mut world, &mut text, line)?;
        }
    }
    Ok(text)
}

// Shows the run of the lines on the source.
fn show<S: Source, K: Sink>(alloc: Global, source: &mut S, sink: &mut K) -> Result<(), Refused> {
    let input = read_input(alloc, source)?;
    let text = show_run(alloc, &input)?;
    match write_all(sink, &text) {
        Ok(()) => Ok(()),
        Err(_) => Err(Refused::NoMemory),
    }
}

fn main(rt: HostRuntime) -> ExitCode {
    let mut source = StdSource::new(rt.stdin());
    let mut sink = StdSink::new(rt.stdout());
    match show(rt.alloc(), &mut source, &mut sink) {
        Ok(()) => ExitCode::from(0),
        Err(_) => ExitCode::from(1),
    }
}
