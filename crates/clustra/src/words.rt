//! The words of the command line.
ghost use Rattle.std.specs.Prelude.{◌≡◌, ◌↔◌, ℕ, Bool, List, map, string_bytes, Option, Some, None};
ghost use Rattle.cl_schedule.specs.declared.setting.Setting.{Setting};
ghost use Rattle.cl_types.specs.Decimal.{natural_64};
ghost use Rattle.clustra.specs.Counting.{turns_in};
ghost use Rattle.clustra.specs.Words.{AreServe, AreReplay, ReadsWords, setting_with, step_words};

use crate::limits::{NODES, SPARES, TURNS_MAX};
use cl_schedule::Setting;
use cl_types::natural_of;

// A run of the program's cluster: each turn takes the first candidate.
fn new_setting(turns: u64, step: bool) -> Setting
    ensures { result ≡ setting_with turns step }
{
    Setting {
        nodes: NODES,
        spares: SPARES,
        step,
        seed: 0,
        turns,
    }
}

// Whether each line waits for a quiet moment: the last word asks for it.
fn step_of(words: &[String]) -> Option<bool>
    ensures { (step : Bool) → (result ≡ Some step) ↔ (map string_bytes words.now ≡ step_words step) }
{
    match words {
        [] => Some(false),
        [word] if word.as_str() == "--step" => Some(true),
        _ => None,
    }
}

/// What the words of `serve` ask for: `serve`, or `serve --step`.
pub(crate) fn serve_setting(words: &[String]) -> Option<Setting>
    ensures { ReadsWords (AreServe (map string_bytes words.now)) result }
{
    let (first, rest) = words.split_first()?;
    if first.as_str() != "serve" {
        return None;
    }
    Some(new_setting(TURNS_MAX, step_of(rest)?))
}

// The number of turns that a word gives: from 1 to the most of a run.
fn turns_of(word: &String) -> Option<u64>
    ensures { result ≡ turns_in (natural_64 (string_bytes word.now)) }
{
    match natural_of(word.as_str().as_bytes()) {
        Some(turns) if 1 <= turns && turns <= TURNS_MAX => Some(turns),
        _ => None,
    }
}

/// What the words of `replay` ask for: `replay --turns K`, or these and `--step`.
pub(crate) fn replay_setting(words: &[String]) -> Option<Setting>
    ensures { ReadsWords (AreReplay (map string_bytes words.now)) result }
{
    match words {
        [first, option, number, rest @ ..]
            if first.as_str() == "replay" && option.as_str() == "--turns" => {
            Some(new_setting(turns_of(number)?, step_of(rest)?))
        }
        _ => None,
    }
}
