//! The transactions of every session of a transcript.
ghost use Rattle.std.specs.Prelude.{◌≡◌, ℕ, IfOk};
ghost use Rattle.cl_types.specs.GrowingList.{items};
ghost use Rattle.cl_serial.specs.Transcript.{transcript_of};
ghost use Rattle.cl_serial.specs.Transactions.{transactions};
ghost use Rattle.cl_serial.specs.Gathering.{log_at, session_in, transactions_in, transactions_at, commands_at};

use crate::Transcript;
use crate::exchange::Exchange;
use crate::gathering::{Logs, SessionLog, gather_logs};
use crate::session::{Session, Transaction};
use cl_types::{GrowingList, NoMemory, TxnId};
use std::alloc::Global;
use std::collections::BTreeMap;

/// The transactions of each session, in order.
pub(crate) type Sessions = BTreeMap<u32, GrowingList<Transaction>>;

// Pairs questions with answers up to the first question without one, and cuts the session from them.
fn cut_session(alloc: Global, log: SessionLog) -> Result<Session, NoMemory>
    ensures { IfOk result (λ session. session ≡ session_in log) }
{
    let SessionLog { asked, given } = log;
    let mut questions = asked.into_iter();
    let mut answers = given.into_iter();
    let mut session = Session::new(alloc);
    while let Some(question) = questions.next() {
        match answers.next() {
            Some(answer) => {
                session = session.after(alloc, Exchange::answered(question, answer))?;
            }
            None => return session.after(alloc, Exchange::unanswered(question)),
        }
    }
    Ok(session)
}

// The transactions that a log tells of.
fn cut_transactions(alloc: Global, log: SessionLog) -> Result<GrowingList<Transaction>, NoMemory>
    ensures { IfOk result (λ list. items list ≡ transactions_in log) }
{
    cut_session(alloc, log)?.into_transactions()
}

// The transactions of each session that has a log.
fn cut_sessions(alloc: Global, mut logs: Logs) -> Result<Sessions, NoMemory>
    ensures { IfOk result (λ sessions. (session : ℕ) → transactions_at sessions session ≡ transactions_in (log_at logs session)) }
{
    let mut sessions = BTreeMap::new(alloc);
    while let Some((session, log)) = logs.pop_first() {
        sessions.insert(session, cut_transactions(alloc, log)?)?;
    }
    Ok(sessions)
}

/// The transactions of each session of a transcript.
pub(crate) fn gather_transactions(
    alloc: Global,
    transcript: &Transcript,
) -> Result<Sessions, NoMemory>
    ensures { IfOk result (λ sessions. (session : ℕ) → transactions_at sessions session ≡ transactions session (transcript_of transcript.now)) }
{
    cut_sessions(alloc, gather_logs(alloc, transcript)?)
}

/// The commands of a transaction, none where there is no such transaction.
pub(crate) fn commands_of<'a>(sessions: &'a Sessions, name: &TxnId) -> &'a [Exchange]
    ensures { result.now ≡ commands_at sessions.now name.now }
{
    if name.number == 0 {
        return &[];
    }
    match sessions.get(&name.session) {
        Some(list) => match list.at((name.number - 1) as usize) {
            Some(transaction) => transaction.commands.as_slice(),
            None => &[],
        },
        None => &[],
    }
}
