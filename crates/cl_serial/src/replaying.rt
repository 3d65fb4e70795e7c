//! The replay of a history on one plain map.
ghost use Rattle.std.specs.Prelude.{◌≡◌, [], ◌∷◌, IfOk};
ghost use Rattle.cl_types.specs.AppendOnlyList.{entries};
ghost use Rattle.cl_serial.specs.Transcript.{transcript_of};
ghost use Rattle.cl_serial.specs.Gathering.{commands_at};
ghost use Rattle.cl_serial.specs.PlainMapModel.{value_at};
ghost use Rattle.cl_serial.specs.Replaying.{Tells, Replays, replayed_commands};
ghost use Rattle.cl_serial.specs.Verdict.{VerdictOn, IsVerdict};

use crate::exchange::Exchange;
use crate::fitness::first_unfit;
use crate::replies::{copy_outcome, is_reply};
use crate::transactions::{Sessions, commands_of, gather_transactions};
use crate::{History, PlainMap, Transcript, Verdict};
use cl_types::{Command, NoMemory, Outcome, Reply};
use std::alloc::Global;

// A written reply that differs from the replayed one, and its position.
#[derive(Drop)]
struct Difference {
    place: u64,
    written: Outcome,
    replayed: Outcome,
}

// The difference of a written answer and a reply, if there is one.
fn difference_of(
    alloc: Global,
    answer: &Option<(Outcome, u64)>,
    reply: Reply,
) -> Result<Option<Difference>, NoMemory>
    ensures { IfOk result (λ found. Tells answer.now reply found) }
{
    match answer {
        Some((outcome, position)) => {
            if is_reply(outcome, &reply) {
                return Ok(None);
            }
            Ok(Some(Difference {
                place: *position,
                written: copy_outcome(alloc, outcome)?,
                replayed: Outcome::Done(reply),
            }))
        }
        None => Ok(None),
    }
}

// Does the operation of a command on the map, and compares its reply.
fn replay_command(
    alloc: Global,
    plain: &mut PlainMap,
    exchange: &Exchange,
) -> Result<Option<Difference>, NoMemory>
    ensures { IfOk result (λ found. Replays (value_at plain.old) (exchange.now ∷ []) (value_at plain.new) found) }
{
    match &exchange.command {
        Command::Work(table, key, op) => {
            let reply = plain.apply(table, key, op)?;
            difference_of(alloc, &exchange.answer, reply)
        }
        _ => Ok(None),
    }
}

// Does the operations of commands on the map, up to the first reply that differs.
fn replay_commands(
    alloc: Global,
    plain: &mut PlainMap,
    commands: &[Exchange],
) -> Result<Option<Difference>, NoMemory>
    ensures { IfOk result (λ found. Replays (value_at plain.old) commands.now (value_at plain.new) found) }
{
    for exchange in commands {
        if let Some(difference) = replay_command(alloc, plain, exchange)? {
            return Ok(Some(difference));
        }
    }
    Ok(None)
}

// Does the operations of the members on the map, up to the first reply that differs.
fn replay_members(
    alloc: Global,
    plain: &mut PlainMap,
    sessions: &Sessions,
    history: &History,
) -> Result<Option<Difference>, NoMemory>
    ensures { IfOk result (λ found. Replays (value_at plain.old) (replayed_commands (commands_at sessions.now) (entries history.now)) (value_at plain.new) found) }
{
    for name in history.as_slice() {
        if let Some(difference) = replay_commands(alloc, plain, commands_of(sessions, name))? {
            return Ok(Some(difference));
        }
    }
    Ok(None)
}

// The verdict on a history, where the sessions have these transactions.
fn judge(alloc: Global, sessions: &Sessions, history: &History) -> Result<Verdict, NoMemory>
    ensures { IfOk result (λ verdict. VerdictOn (commands_at sessions.now) (entries history.now) verdict) }
{
    if let Some(name) = first_unfit(alloc, sessions, history)? {
        return Ok(Verdict::Unfit(name));
    }
    let mut plain = PlainMap::new(alloc);
    match replay_members(alloc, &mut plain, sessions, history)? {
        None => Ok(Verdict::Same),
        Some(difference) => {
            let Difference {
                place,
                written,
                replayed,
            } = difference;
            Ok(Verdict::First {
                place,
                written,
                replayed,
            })
        }
    }
}

/// Judges a history by a transcript: replays its members on one plain map, and compares each written reply.
///
/// The verdict rests on the two alone. `ERR FULL` and `ERR INTXN` are passed over. So is a command without a reply:
/// its operation is done, and nothing is compared. One pass gathers the exchanges of each session. So the time is
/// proportional to the transcript and the history, times a logarithm for each look-up.
pub fn replay(
    alloc: Global,
    history: &History,
    transcript: &Transcript,
) -> Result<Verdict, NoMemory>
    ensures { IfOk result (λ verdict. IsVerdict (transcript_of transcript.now) (entries history.now) verdict) }
{
    let sessions = gather_transactions(alloc, transcript)?;
    judge(alloc, &sessions, history)
}
