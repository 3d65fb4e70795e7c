//! The sessions that wait for an answer when the turns have run out.
ghost use Rattle.std.specs.Prelude.{◌≡◌, ◌++◌, ◌==◌, nat_lt, count_by, IfOk, OnOk};
ghost use Rattle.cl_schedule.specs.Making.{texts_of};
ghost use Rattle.cl_serial.specs.Transcript.{transcript_entry, transcript_of};
ghost use Rattle.cl_types.specs.AppendOnlyList.{entries};
ghost use Rattle.clustra.specs.Counting.{is_answer_to, session_in, sessions_in};
ghost use Rattle.clustra.specs.Pending.{pending_line, pending_text};

use cl_lines::{Line, Out, Unread, read_line};
use cl_serial::{Said, Transcript};
use cl_types::{NoMemory, SESSIONS_MAX};
use cl_world::LineList;
use std::alloc::Global;

// The session of a well-formed line of a client.
fn session_of(alloc: Global, text: &[u8]) -> Result<Option<u32>, NoMemory>
    ensures { IfOk result (λ session. session ≡ session_in text.now) }
{
    match read_line(alloc, text) {
        Ok(Line::Client(session, _)) => Ok(Some(session)),
        Ok(Line::Operator(_)) | Err(Unread::Fault(_)) => Ok(None),
        Err(Unread::NoMemory) => Err(NoMemory),
    }
}

// The sessions of the well-formed lines, in order.
fn sessions_of(alloc: Global, lines: &LineList) -> Result<Vec<u32>, NoMemory>
    ensures { IfOk result (λ sessions. sessions.items ≡ sessions_in (texts_of lines.now)) }
{
    let mut sessions = Vec::new(alloc);
    for text in lines.as_slice() {
        if let Some(session) = session_of(alloc, text.as_slice())? {
            sessions.push(session)?;
        }
    }
    Ok(sessions)
}

// How often the session stands among these.
fn count_lines(sessions: &[u32], session: u32) -> usize
    ensures { result ≡ count_by (λ other. other == session) sessions.now }
{
    sessions.iter().filter(|other| **other == session).count()
}

// Whether the entry answers the session.
fn answers(said: &Said, session: u32) -> bool
    ensures { result ≡ is_answer_to session (transcript_entry said.now) }
{
    match said {
        Said::Out(Out::Answer(other, _)) => *other == session,
        _ => false,
    }
}

// How many answers the session was given.
fn count_answers(transcript: &Transcript, session: u32) -> usize
    ensures { result ≡ count_by (λ said. is_answer_to session (transcript_entry said)) (entries transcript.now) }
{
    let mut count = 0;
    for said in transcript.as_slice() {
        if answers(said, session) {
            count += 1;
        }
    }
    count
}

// Whether the session, of so many lines, has fewer answers than lines.
fn waits(sessions: &[u32], transcript: &Transcript, session: u32) -> bool
    ensures { result ≡ nat_lt (count_by (λ said. is_answer_to session (transcript_entry said)) (entries transcript.now))
        (count_by (λ other. other == session) sessions.now) }
{
    count_answers(transcript, session) < count_lines(sessions, session)
}

// Appends the printed line of a session.
fn append_line(alloc: Global, text: &mut Vec<u8>, session: u32) -> Result<(), NoMemory>
    ensures { OnOk result (text.new.items ≡ text.old.items ++ pending_line session) }
{
    text.extend_from_slice(format!(in alloc; "* PENDING {session}\n")?.as_bytes())?;
    Ok(())
}

/// Appends the printed lines of the sessions that wait for an answer.
pub(crate) fn append_pending(
    alloc: Global,
    text: &mut Vec<u8>,
    lines: &LineList,
    transcript: &Transcript,
) -> Result<(), NoMemory>
    ensures { OnOk result (text.new.items ≡ text.old.items ++ pending_text (texts_of lines.now) (transcript_of transcript.now)) }
{
    let sessions = sessions_of(alloc, lines)?;
    for index in 0..SESSIONS_MAX {
        if waits(&sessions, transcript, index + 1) {
            append_line(alloc, text, index + 1)?;
        }
    }
    Ok(())
}
