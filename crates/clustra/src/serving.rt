//! One run of the server: reads the whole input, answers its lines through the nodes, and writes the answers.
ghost use Rattle.std.specs.Prelude.{◌≡◌, ◌⊎◌, ◌↔◌, [], true, false, None, IfSome};
ghost use Rattle.cl_schedule.specs.Making.{texts_of};
ghost use Rattle.cl_schedule.specs.declared.setting.Finish.TheVariants as finishes;
ghost use Rattle.cl_serial.specs.Transcript.{transcript_of};
ghost use Rattle.cl_types.specs.declared.answers.Refused.TheVariants as refusals;
ghost use Rattle.cl_world.specs.World.{IsWorldOf, IsWhole};
ghost use Rattle.clustra.specs.Answering.{Answered, IsAnswerStatus, IsFaultStatus, IsWriteStatus, Served};
ghost use Rattle.clustra.specs.Run.{cluster, full_text_with, texts_in, IsEndStatus};
ghost use Rattle.clustra.specs.RunEnds.{EndsSink, Ran};

use crate::ended::{
    DONE, Ended, NO_MEMORY, READ_FAULT, SPENT, TOO_MUCH_INPUT, UNFINISHED, WRITE_FAULT,
};
use crate::input::{InputFault, read_input};
use crate::limits::{NODES, SPARES};
use crate::lines::split_lines;
use crate::output::text_of_run;
use cl_io::{Always, Sink, Source, write_all};
use cl_schedule::{Finish, Setting, schedule};
use cl_serial::Transcript;
use cl_types::Refused;
use cl_world::{LineList, World};
use std::alloc::Global;

// The status of a run whose input was not read to its end.
fn status_of_fault(fault: InputFault) -> u8
    ensures read { (result ≡ READ_FAULT) ↔ (fault ≡ InputFault.Read) }
    ensures too_much { (result ≡ TOO_MUCH_INPUT) ↔ (fault ≡ InputFault.TooMuch) }
    ensures status { IsFaultStatus result }
{
    match fault {
        InputFault::Read => READ_FAULT,
        InputFault::TooMuch => TOO_MUCH_INPUT,
        InputFault::NoMemory => NO_MEMORY,
    }
}

// The status of a run of which an event was refused.
fn status_of_refusal(refused: Refused) -> u8
    ensures spent { (result ≡ SPENT) ↔ (refused ≡ refusals.Spent) }
    ensures no_memory { (result ≡ NO_MEMORY) ↔ (refused ≡ refusals.NoMemory) }
    ensures status { (result ≡ NO_MEMORY) ⊎ (result ≡ SPENT) }
{
    match refused {
        Refused::NoMemory => NO_MEMORY,
        Refused::Spent => SPENT,
    }
}

// Whether the turns have run out.
fn is_unfinished(finish: Finish) -> bool
    ensures turns { result ≡ true → finish ≡ finishes.TurnsMade }
    ensures quiet { result ≡ false → finish ≡ finishes.Quiet }
{
    match finish {
        Finish::Quiet => false,
        Finish::TurnsMade => true,
    }
}

// Writes the full text of a run and returns the status.
fn write_text<K: Sink>(
    alloc: Global,
    lines: &LineList,
    transcript: &Transcript,
    unfinished: bool,
    sink: &mut K,
) -> u8
    ensures sink { EndsSink K.written K.flushed K.faults sink.old sink.new result
        (full_text_with (texts_of lines.now) (transcript_of transcript.now) unfinished) }
    ensures status { IsWriteStatus unfinished result }
{
    let Ok(text) = text_of_run(alloc, lines, transcript, unfinished) else {
        return NO_MEMORY;
    };
    if write_all(sink, &text).is_err() {
        return WRITE_FAULT;
    }
    if sink.flush().is_err() {
        return WRITE_FAULT;
    }
    if unfinished { UNFINISHED } else { DONE }
}

// Answers the lines of the bytes, writes the answers, and returns the status.
fn answer_input<K: Sink>(
    alloc: Global,
    setting: &Setting,
    world: &mut World,
    bytes: &[u8],
    sink: &mut K,
) -> u8
    requires made { IsWorldOf cluster world.old [] }
    requires whole { IsWhole cluster world.old }
    ensures answered { Answered K.written K.flushed K.faults setting.now result (texts_in bytes.now) world.new sink.old sink.new }
    ensures status { IsAnswerStatus result }
{
    let Ok(lines) = split_lines(alloc, bytes) else {
        return NO_MEMORY;
    };
    match schedule(world, &lines, setting, &Always) {
        Ok(finish) => write_text(
            alloc,
            &lines,
            world.transcript(),
            is_unfinished(finish),
            sink,
        ),
        Err(refused) => status_of_refusal(refused),
    }
}

// Reads the whole source, answers its lines, writes the answers, and returns the status.
fn run<S: Source, K: Sink>(
    alloc: Global,
    setting: &Setting,
    world: &mut World,
    source: &mut S,
    sink: &mut K,
) -> u8
    requires made { IsWorldOf cluster world.old [] }
    requires whole { IsWhole cluster world.old }
    ensures served { Served S.left S.faults K.written K.flushed K.faults source.old source.new sink.old sink.new setting.now result world.new }
    ensures status { IsEndStatus result }
{
    match read_input(alloc, source) {
        Ok(bytes) => answer_input(alloc, setting, world, &bytes, sink),
        Err(fault) => status_of_fault(fault),
    }
}

/// Makes a run of the program's cluster over the whole source, and writes its answers. It stops at the first fault.
pub(crate) fn serve<S: Source, K: Sink>(
    alloc: Global,
    setting: &Setting,
    source: &mut S,
    sink: &mut K,
) -> Ended
    ensures untouched { result.kept ≡ None → (source.new ≡ source.old) × (sink.new ≡ sink.old) × (result.status ≡ NO_MEMORY) }
    ensures status { IsEndStatus result.status }
    ensures ran { IfSome result.kept (λ kept.
        Ran S.left S.faults K.written K.flushed K.faults source.old source.new sink.old sink.new setting.now result.status kept) }
{
    let Ok(mut world) = World::new(alloc, NODES, SPARES) else {
        return Ended {
            status: NO_MEMORY,
            kept: None,
        };
    };
    let status = run(alloc, setting, &mut world, source, sink);
    Ended {
        status,
        kept: Some(world.kept()),
    }
}
