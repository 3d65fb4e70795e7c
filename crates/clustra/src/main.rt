//! The server's program.
#![tactic(auto)]

ghost use Rattle.std.specs.Prelude.{◌≡◌, ◌⊎◌, ◌↔◌, ℕ, List, map, None, IfSome, string_bytes};
ghost use Rattle.std.specs.IoError.{error_kind};
ghost use Rattle.std.specs.Process.{exit_status};
ghost use Rattle.cl_schedule.specs.declared.setting.Setting.{Setting};
ghost use Rattle.cl_world.specs.declared.kept.Kept.{Kept};
ghost use Rattle.clustra.specs.Run.{IsEndStatus, IsStatus};
ghost use Rattle.clustra.specs.RunEnds.{Ran};
ghost use Rattle.clustra.specs.Words.{AreAsked};

mod call;
mod ended;
mod input;
mod limits;
mod lines;
mod output;
mod pending;
mod serving;
#[cfg(test)]
mod tests;
mod words;

use call::{clustra, clustra_replay};
use cl_io::{NoGate, Sink, Source, StdSink, StdSource};
use ended::{Ended, NO_MEMORY, USAGE};
use std::alloc::{AllocError, AllocGlobal};
use std::env::{self, Env};
use std::io::{self, ErrorKind};
use std::process::ExitCode;
use std::sync::Wait;
use std::thread::Threads;

// The words after the program's name, unless one is not UTF-8 or it gives up for want of memory. It has no contract.
fn words_of<R: Env + AllocGlobal>(rt: &R) -> Result<Vec<String>, io::Error> {
    let mut words = Vec::new(rt.alloc());
    for word in env::args(rt)?.skip(1) {
        words.push(word).map_err(AllocError::from)?;
    }
    Ok(words)
}

// The status of a run whose words could not be had.
fn status_of_words(error: &io::Error) -> u8
    ensures no_memory { (result ≡ NO_MEMORY) ↔ (error_kind error.now ≡ ErrorKind.OutOfMemory) }
    ensures status { (result ≡ NO_MEMORY) ⊎ (result ≡ USAGE) }
{
    match error.kind() {
        ErrorKind::OutOfMemory => NO_MEMORY,
        _ => USAGE,
    }
}

// Runs the server on the words: `replay` through one top call, and all else through the other.
fn run_words<R: Threads + Wait + Sync + AllocGlobal, S: Source, K: Sink>(
    rt: &R,
    words: &[String],
    source: &mut S,
    sink: &mut K,
) -> Ended
    ensures usage { (result.status ≡ USAGE) ↔ ((setting : Setting) → AreAsked (map string_bytes words.now) setting → ⊥) }
    ensures untouched { result.kept ≡ None → (source.new ≡ source.old) × (sink.new ≡ sink.old) × ((result.status ≡ USAGE) ⊎ (result.status ≡ NO_MEMORY)) }
    ensures unkept { result.status ≡ USAGE → result.kept ≡ None }
    ensures status { (result.status ≡ USAGE → ⊥) → IsEndStatus result.status }
    ensures ran { IfSome result.kept (λ kept. (setting : Setting) × AreAsked (map string_bytes words.now) setting
        × Ran S.left S.faults K.written K.flushed K.faults source.old source.new sink.old sink.new setting result.status kept) }
{
    match words.first() {
        Some(first) if first.as_str() == "replay" => {
            clustra_replay(rt.alloc(), words, source, sink)
        }
        _ => clustra(rt, rt.alloc(), words, source, sink, &NoGate),
    }
}

// Runs the server on the program's words and returns what the program exits with.
fn run_program<R: Threads + Wait + Sync + Env + AllocGlobal, S: Source, K: Sink>(
    rt: &R,
    source: &mut S,
    sink: &mut K,
) -> ExitCode
    ensures status { IsStatus (exit_status result) }

    // At this status nothing was read or written. No clause says which words end so.
    ensures usage { exit_status result ≡ USAGE → (source.new ≡ source.old) × (sink.new ≡ sink.old) }

    // At every other one, either it is `NO_MEMORY` and nothing was read or written, or `Ran` holds of the exit status and of
    // what was kept, for a setting that some words ask for.
    ensures ran { (exit_status result ≡ USAGE → ⊥) → ((exit_status result ≡ NO_MEMORY) × (source.new ≡ source.old) × (sink.new ≡ sink.old))
        ⊎ ((words : List (List ℕ)) × (setting : Setting) × (kept : Kept) × AreAsked words setting × Ran S.left S.faults K.written K.flushed K.faults source.old source.new sink.old sink.new setting (exit_status result) kept) }
{
    match words_of(rt) {
        Ok(words) => ExitCode::from(run_words(rt, &words, source, sink).status),
        Err(error) => ExitCode::from(status_of_words(&error)),
    }
}

// `main` cannot have a contract. It makes the real ends and returns what `run_program` answers.
fn main(rt: HostRuntime) -> ExitCode {
    let mut source = StdSource::new(rt.stdin());
    let mut sink = StdSink::new(rt.stdout());
    run_program(&rt, &mut source, &mut sink)
}
