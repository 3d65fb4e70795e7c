//! The full text of a run.
ghost use Rattle.std.specs.Prelude.{◌≡◌, ◌++◌, IfOk, OnOk};
ghost use Rattle.cl_schedule.specs.Making.{texts_of};
ghost use Rattle.cl_serial.specs.Transcript.{transcript_of, transcript_entry, entry_text, full_text};
ghost use Rattle.clustra.specs.Run.{full_text_with};

use crate::pending::append_pending;
use cl_lines::print_out;
use cl_serial::{Said, Transcript};
use cl_types::NoMemory;
use cl_world::LineList;
use std::alloc::Global;

// Appends what an entry writes.
fn append_entry(alloc: Global, text: &mut Vec<u8>, said: &Said) -> Result<(), NoMemory>
    ensures { OnOk result (text.new.items ≡ text.old.items ++ entry_text (transcript_entry said.now)) }
{
    if let Said::Out(out) = said {
        let printed = print_out(alloc, out)?;
        text.extend_from_slice(&printed)?;
    }
    Ok(())
}

// All that the transcript's entries write, in order.
fn text_of_transcript(alloc: Global, transcript: &Transcript) -> Result<Vec<u8>, NoMemory>
    ensures { IfOk result (λ text. text.items ≡ full_text (transcript_of transcript.now)) }
{
    let mut text = Vec::new(alloc);
    for said in transcript.as_slice() {
        append_entry(alloc, &mut text, said)?;
    }
    Ok(text)
}

/// All that a run of these lines writes: what the transcript writes, and where it is unfinished, the sessions that wait.
pub(crate) fn text_of_run(
    alloc: Global,
    lines: &LineList,
    transcript: &Transcript,
    unfinished: bool,
) -> Result<Vec<u8>, NoMemory>
    ensures { IfOk result (λ text. text.items ≡ full_text_with (texts_of lines.now) (transcript_of transcript.now) unfinished) }
{
    let mut text = text_of_transcript(alloc, transcript)?;
    if unfinished {
        append_pending(alloc, &mut text, lines, transcript)?;
    }
    Ok(text)
}
