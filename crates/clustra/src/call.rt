//! The top calls of the program.
ghost use Rattle.std.specs.Prelude.{◌≡◌, ◌⊎◌, ◌↔◌, map, None, IfSome, IsSome, string_bytes};
ghost use Rattle.cl_schedule.specs.declared.setting.Setting.{Setting};
ghost use Rattle.clustra.specs.Constants.{HaveValues};
ghost use Rattle.clustra.specs.Run.{IsEndStatus};
ghost use Rattle.clustra.specs.RunEnds.{Ran};
ghost use Rattle.clustra.specs.Words.{AreServe, AreReplay};

use crate::ended::{Ended, NO_MEMORY, USAGE};
use crate::serving::serve;
use crate::words::{replay_setting, serve_setting};
use cl_io::{Gate, Sink, Source};
use cl_schedule::Setting;
use std::alloc::Global;
use std::sync::Wait;
use std::thread::Threads;

// Makes the run that the words ask for, if they ask for one.
fn serve_words<S: Source, K: Sink>(
    alloc: Global,
    setting: Option<Setting>,
    source: &mut S,
    sink: &mut K,
) -> Ended
    ensures usage { (result.status ≡ USAGE) ↔ (setting ≡ None) }
    ensures untouched { result.kept ≡ None → (source.new ≡ source.old) × (sink.new ≡ sink.old) × ((result.status ≡ USAGE) ⊎ (result.status ≡ NO_MEMORY)) }
    ensures unkept { result.status ≡ USAGE → result.kept ≡ None }
    ensures status { (result.status ≡ USAGE → ⊥) → IsEndStatus result.status }
    ensures asked { IfSome result.kept (λ _. IsSome setting) }
    ensures ran { IfSome setting (λ setting. IfSome result.kept (λ kept.
        Ran S.left S.faults K.written K.flushed K.faults source.old source.new sink.old sink.new setting result.status kept)) }
{
    match setting {
        Some(setting) => serve(alloc, &setting, source, sink),
        None => Ended {
            status: USAGE,
            kept: None,
        },
    }
}

/// Serves the lines of the source on a cluster: `serve`, or `serve --step`, which notes a quiet moment before each line.
///
/// The cluster has `NODES` nodes and `SPARES` spares, and a run at most `TURNS_MAX` turns. The status is one of the
/// constants beside `Ended`.
pub fn clustra<R: Threads + Wait + Sync, S: Source, K: Sink, G: Gate + Sync>(
    _rt: &R,
    alloc: Global,
    words: &[String],
    source: &mut S,
    sink: &mut K,
    _gate: &G,
) -> Ended
    // Words that are not those of `serve` are refused, and then nothing is read or written.
    ensures usage { (result.status ≡ USAGE) ↔ ((setting : Setting) → AreServe (map string_bytes words.now) setting → ⊥) }
    ensures untouched { result.kept ≡ None → (source.new ≡ source.old) × (sink.new ≡ sink.old) × ((result.status ≡ USAGE) ⊎ (result.status ≡ NO_MEMORY)) }
    ensures unkept { result.status ≡ USAGE → result.kept ≡ None }
    ensures status { (result.status ≡ USAGE → ⊥) → IsEndStatus result.status }

    // What is kept is of a run that the words ask for, and has all that the guarantee says.
    ensures asked { IfSome result.kept (λ _. (setting : Setting) × AreServe (map string_bytes words.now) setting) }
    ensures ran { (setting : Setting) → AreServe (map string_bytes words.now) setting → IfSome result.kept (λ kept.
        Ran S.left S.faults K.written K.flushed K.faults source.old source.new sink.old sink.new setting result.status kept) }

    // The greatest numbers of a transaction in its session, of a message of a link and of a log record have these values.
    ensures constants { HaveValues }
{
    serve_words(alloc, serve_setting(words), source, sink)
}

/// Serves the lines of the source on a cluster within so many turns: `replay --turns K`, or these and `--step`, where K is
/// from 1 to `TURNS_MAX`. It has no bound `Wait`, so it returns.
///
/// At status `UNFINISHED`, `* PENDING s` is written for each session that waits for an answer.
pub fn clustra_replay<S: Source, K: Sink>(
    alloc: Global,
    words: &[String],
    source: &mut S,
    sink: &mut K,
) -> Ended
    // Words that are not those of `replay` are refused, and then nothing is read or written.
    ensures usage { (result.status ≡ USAGE) ↔ ((setting : Setting) → AreReplay (map string_bytes words.now) setting → ⊥) }
    ensures untouched { result.kept ≡ None → (source.new ≡ source.old) × (sink.new ≡ sink.old) × ((result.status ≡ USAGE) ⊎ (result.status ≡ NO_MEMORY)) }
    ensures unkept { result.status ≡ USAGE → result.kept ≡ None }
    ensures status { (result.status ≡ USAGE → ⊥) → IsEndStatus result.status }

    // What is kept is of a run that the words ask for, and has all that the guarantee says.
    ensures asked { IfSome result.kept (λ _. (setting : Setting) × AreReplay (map string_bytes words.now) setting) }
    ensures ran { (setting : Setting) → AreReplay (map string_bytes words.now) setting → IfSome result.kept (λ kept.
        Ran S.left S.faults K.written K.flushed K.faults source.old source.new sink.old sink.new setting result.status kept) }

    // The greatest numbers of a transaction in its session, of a message of a link and of a log record have these values.
    ensures constants { HaveValues }
{
    serve_words(alloc, replay_setting(words), source, sink)
}
