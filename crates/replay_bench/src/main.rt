//! Judges a history of 12,500 transactions by its transcript of 100,000 entries. It exits with 0 where the verdict is
//! Same, and else with 1. `bench/verdicts` measures it.
#![tactic(auto)]

ghost use Rattle.std.specs.Prelude.{◌+◌, ◌<◌, ◌^◌};

use cl_lines::Out;
use cl_serial::{History, Said, Transcript, Verdict, replay};
use cl_types::{NoMemory, Outcome, Reply, Text, TxnId, Value};
use std::alloc::Global;
use std::process::ExitCode;

// How many transactions there are, each of four lines with their answers.
const TRANSACTIONS: u64 = 12_500;

// Appends a line and its answer.
fn push_exchange(
    alloc: Global,
    transcript: &mut Transcript,
    number: u64,
    line: &[u8],
    outcome: Outcome,
) -> Result<(), NoMemory> {
    transcript.push(Said::In(number, Text::copy_of(alloc, line)?))?;
    transcript.push(Said::Out(Out::Answer(1, outcome)))
}

// What a GET answers where the value is `x`.
fn found(alloc: Global) -> Result<Outcome, NoMemory> {
    match Value::read(alloc, b"x")? {
        Some(value) => Ok(Outcome::Done(Reply::Found(value))),
        None => Ok(Outcome::Done(Reply::Absent)),
    }
}

// Appends a transaction that reads what it wrote, after so many lines.
fn push_transaction(alloc: Global, transcript: &mut Transcript, lines: u64) -> Result<(), NoMemory>
    requires { lines + 4 < 2 ^ 64 }
{
    let stored = Outcome::Done(Reply::Stored);
    push_exchange(alloc, transcript, lines + 1, b"1 BEGIN", Outcome::Begun)?;
    push_exchange(alloc, transcript, lines + 2, b"1 PUT t a x", stored)?;
    push_exchange(alloc, transcript, lines + 3, b"1 GET t a", found(alloc)?)?;
    push_exchange(
        alloc,
        transcript,
        lines + 4,
        b"1 COMMIT",
        Outcome::Committed,
    )
}

// The verdict on all transactions, in the order of their commits.
fn judge(alloc: Global) -> Result<Verdict, NoMemory> {
    let mut transcript = Transcript::new(alloc);
    let mut history = History::new(alloc);
    for before in 0..TRANSACTIONS {
        push_transaction(alloc, &mut transcript, 4 * before)?;
        history.push(TxnId {
            session: 1,
            number: before + 1,
        })?;
    }
    replay(alloc, &history, &transcript)
}

fn main(rt: HostRuntime) -> ExitCode {
    match judge(rt.alloc()) {
        Ok(Verdict::Same) => ExitCode::from(0),
        _ => ExitCode::from(1),
    }
}
