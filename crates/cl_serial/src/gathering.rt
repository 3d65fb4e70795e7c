//! What each session asked and was answered, gathered in one pass over a transcript.
ghost use Rattle.std.specs.Prelude.{◌≡◌, ℕ, false, [], ◌∷◌, if◌then◌else◌, nat_eq, IfOk, OnOk};
ghost use Rattle.cl_lines.specs.Line.{client_of};
ghost use Rattle.cl_serial.specs.Transcript.{command_in, outcome_in, transcript_entry, transcript_of};
ghost use Rattle.cl_serial.specs.Gathering.{log_at, log_of, with_more, with_entry};

use crate::replies::copy_outcome;
use crate::{Said, Transcript};
use cl_lines::{Line, Out, Unread, read_line};
use cl_types::{Command, NoMemory, Outcome};
use std::alloc::Global;
use std::collections::BTreeMap;
use std::marker::Model;

/// What a session asked and was answered, each with its position.
#[derive(Drop)]
pub(crate) struct SessionLog {
    pub(crate) asked: Vec<(Command, u64)>,
    pub(crate) given: Vec<(Outcome, u64)>,
}

impl Model for SessionLog {
    ghost use Rattle.cl_serial.specs.Gathering.{SessionLog as Seen};

    ghost Value = { Seen };

    ghost view = { λ log. record { asked = log.asked.items; given = log.given.items } };
}

/// The log of each session.
pub(crate) type Logs = BTreeMap<u32, SessionLog>;

// Removes the log of a session, and makes an empty one where there is none.
fn take_log(alloc: Global, logs: &mut Logs, session: u32) -> SessionLog
    ensures log { result ≡ log_at logs.old session }
    ensures others { (other : ℕ) → nat_eq session other ≡ false → log_at logs.new other ≡ log_at logs.old other }
{
    match logs.remove(&session) {
        Some(log) => log,
        None => SessionLog {
            asked: Vec::new(alloc),
            given: Vec::new(alloc),
        },
    }
}

// Adds a question to the log of its session.
fn add_question(
    alloc: Global,
    logs: &mut Logs,
    session: u32,
    asked: (Command, u64),
) -> Result<(), NoMemory>
    ensures { OnOk result ((other : ℕ) → log_at logs.new other ≡
        (if nat_eq session other then with_more (log_at logs.old other) (asked ∷ []) [] else log_at logs.old other)) }
{
    let mut log = take_log(alloc, logs, session);
    log.asked.push(asked)?;
    logs.insert(session, log)?;
    Ok(())
}

// Adds an answer to the log of its session.
fn add_answer(
    alloc: Global,
    logs: &mut Logs,
    session: u32,
    answer: (Outcome, u64),
) -> Result<(), NoMemory>
    ensures { OnOk result ((other : ℕ) → log_at logs.new other ≡
        (if nat_eq session other then with_more (log_at logs.old other) [] (answer ∷ []) else log_at logs.old other)) }
{
    let mut log = take_log(alloc, logs, session);
    log.given.push(answer)?;
    logs.insert(session, log)?;
    Ok(())
}

// Adds what a fed line asks. An operator's line asks nothing.
fn add_line(alloc: Global, logs: &mut Logs, position: u64, text: &[u8]) -> Result<(), NoMemory>
    ensures { OnOk result ((session : ℕ) →
        log_at logs.new session ≡ with_more (log_at logs.old session) (command_in session position (client_of text.now)) []) }
{
    match read_line(alloc, text) {
        Ok(Line::Client(session, command)) => add_question(
            alloc,
            logs,
            session,
            (command, position),
        ),
        Ok(Line::Operator(_)) => Ok(()),
        Err(Unread::Fault(_)) => Ok(()),
        Err(Unread::NoMemory) => Err(NoMemory),
    }
}

// Adds what a printed line answers.
fn add_printed(alloc: Global, logs: &mut Logs, position: u64, out: &Out) -> Result<(), NoMemory>
    ensures { OnOk result ((session : ℕ) →
        log_at logs.new session ≡ with_more (log_at logs.old session) [] (outcome_in session position out.now)) }
{
    match out {
        Out::Answer(session, outcome) => {
            let outcome = copy_outcome(alloc, outcome)?;
            add_answer(alloc, logs, *session, (outcome, position))
        }
        Out::BadLine(_, _) => Ok(()),
    }
}

// Adds what an entry asks or answers.
fn add_entry(alloc: Global, logs: &mut Logs, position: u64, entry: &Said) -> Result<(), NoMemory>
    ensures { OnOk result ((session : ℕ) →
        log_at logs.new session ≡ with_entry session position (transcript_entry entry.now) (log_at logs.old session)) }
{
    match entry {
        Said::In(_, text) => add_line(alloc, logs, position, text.bytes()),
        Said::Out(out) => add_printed(alloc, logs, position, out),
        Said::Quiet => Ok(()),
    }
}

/// Gathers what each session asked and was answered.
pub(crate) fn gather_logs(alloc: Global, transcript: &Transcript) -> Result<Logs, NoMemory>
    ensures { IfOk result (λ logs. (session : ℕ) → log_at logs session ≡ log_of session (transcript_of transcript.now)) }
{
    let mut logs = BTreeMap::new(alloc);
    for (index, entry) in transcript.as_slice().iter().enumerate() {
        add_entry(alloc, &mut logs, index as u64, entry)?;
    }
    Ok(logs)
}
