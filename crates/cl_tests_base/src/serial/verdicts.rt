//! The verdicts on histories of small transcripts.
use cl_lines::Out;
use cl_samples::{NoSample, txn, value};
use cl_serial::{History, Said, Transcript, Verdict, replay};
use cl_types::{Outcome, Reply, Text};
use std::alloc::Global;
use std::test::Fail;

// What is fed.
#[derive(Clone, Copy)]
enum Fed {
    Begin,
    PutX,
    PutY,
    Get,
    Commit,
    OtherBegin,
}

// What is answered.
#[derive(Clone, Copy)]
enum Told {
    Stored,
    Found(u8),
    Absent,
    Begun,
    Committed,
    NotTxn,
    InTxn,
    Full,
}

// A fed line, a printed answer to a session, or a quiet moment.
#[derive(Clone, Copy)]
enum Entry {
    Fed(Fed),
    Told(u32, Told),
    Quiet,
}

// The verdict that is wanted.
#[derive(Clone, Copy)]
enum Wanted {
    Same,
    Unfit(u32, u64),
    First(u64, Told, Told),
}

// A transcript, the session and the number of each member of a history, and the verdict.
#[derive(Clone, Copy)]
struct Case(&'static [Entry], &'static [(u32, u64)], Wanted);

// A transaction that reads what it wrote.
const WORKED: [Entry; 8] = [
    Entry::Fed(Fed::Begin),
    Entry::Told(1, Told::Begun),
    Entry::Fed(Fed::PutX),
    Entry::Told(1, Told::Stored),
    Entry::Fed(Fed::Get),
    Entry::Told(1, Told::Found(b'x')),
    Entry::Fed(Fed::Commit),
    Entry::Told(1, Told::Committed),
];

// The same, but that it reads another value.
const OTHER_VALUE: [Entry; 8] = [
    Entry::Fed(Fed::Begin),
    Entry::Told(1, Told::Begun),
    Entry::Fed(Fed::PutX),
    Entry::Told(1, Told::Stored),
    Entry::Fed(Fed::Get),
    Entry::Told(1, Told::Found(b'y')),
    Entry::Fed(Fed::Commit),
    Entry::Told(1, Told::Committed),
];

// The same, but that the read is answered by no reply of an operation.
const NO_REPLY: [Entry; 8] = [
    Entry::Fed(Fed::Begin),
    Entry::Told(1, Told::Begun),
    Entry::Fed(Fed::PutX),
    Entry::Told(1, Told::Stored),
    Entry::Fed(Fed::Get),
    Entry::Told(1, Told::NotTxn),
    Entry::Fed(Fed::Commit),
    Entry::Told(1, Told::Committed),
];

// A transaction writes, and the next one reads.
const TWO_TRANSACTIONS: [Entry; 12] = [
    Entry::Fed(Fed::Begin),
    Entry::Told(1, Told::Begun),
    Entry::Fed(Fed::PutX),
    Entry::Told(1, Told::Stored),
    Entry::Fed(Fed::Commit),
    Entry::Told(1, Told::Committed),
    Entry::Fed(Fed::Begin),
    Entry::Told(1, Told::Begun),
    Entry::Fed(Fed::Get),
    Entry::Told(1, Told::Found(b'x')),
    Entry::Fed(Fed::Commit),
    Entry::Told(1, Told::Committed),
];

// A transaction that is not committed.
const NO_COMMIT: [Entry; 4] = [
    Entry::Fed(Fed::Begin),
    Entry::Told(1, Told::Begun),
    Entry::Fed(Fed::PutX),
    Entry::Told(1, Told::Stored),
];

// A transaction with a write that is refused, since it is full.
const FULL: [Entry; 10] = [
    Entry::Fed(Fed::Begin),
    Entry::Told(1, Told::Begun),
    Entry::Fed(Fed::PutX),
    Entry::Told(1, Told::Stored),
    Entry::Fed(Fed::PutY),
    Entry::Told(1, Told::Full),
    Entry::Fed(Fed::Get),
    Entry::Told(1, Told::Found(b'x')),
    Entry::Fed(Fed::Commit),
    Entry::Told(1, Told::Committed),
];

// A transaction with a BEGIN in it.
const IN_TXN: [Entry; 8] = [
    Entry::Fed(Fed::Begin),
    Entry::Told(1, Told::Begun),
    Entry::Fed(Fed::Begin),
    Entry::Told(1, Told::InTxn),
    Entry::Fed(Fed::Get),
    Entry::Told(1, Told::Absent),
    Entry::Fed(Fed::Commit),
    Entry::Told(1, Told::Committed),
];

// A transaction whose COMMIT has no answer.
const COMMIT_UNANSWERED: [Entry; 5] = [
    Entry::Fed(Fed::Begin),
    Entry::Told(1, Told::Begun),
    Entry::Fed(Fed::PutX),
    Entry::Told(1, Told::Stored),
    Entry::Fed(Fed::Commit),
];

// A transaction that goes on after COMMIT, with a read that has no answer.
const READ_UNANSWERED: [Entry; 5] = [
    Entry::Fed(Fed::Begin),
    Entry::Told(1, Told::Begun),
    Entry::Fed(Fed::Commit),
    Entry::Told(1, Told::NotTxn),
    Entry::Fed(Fed::Get),
];

// Answers to session 2 stand between lines of session 1 and their answers.
const INTERLEAVED: [Entry; 12] = [
    Entry::Fed(Fed::Begin),
    Entry::Fed(Fed::OtherBegin),
    Entry::Told(2, Told::Begun),
    Entry::Told(1, Told::Begun),
    Entry::Quiet,
    Entry::Fed(Fed::Get),
    Entry::Told(2, Told::Found(b'x')),
    Entry::Told(1, Told::Found(b'y')),
    Entry::Fed(Fed::Commit),
    Entry::Told(2, Told::Committed),
    Entry::Quiet,
    Entry::Told(1, Told::Committed),
];

fn text_of(fed: Fed) -> &'static [u8] {
    match fed {
        Fed::Begin => b"1 BEGIN",
        Fed::PutX => b"1 PUT t a x",
        Fed::PutY => b"1 PUT t a y",
        Fed::Get => b"1 GET t a",
        Fed::Commit => b"1 COMMIT",
        Fed::OtherBegin => b"2 BEGIN",
    }
}

fn outcome_of(alloc: Global, told: Told) -> Result<Outcome, NoSample> {
    match told {
        Told::Stored => Ok(Outcome::Done(Reply::Stored)),
        Told::Found(byte) => Ok(Outcome::Done(Reply::Found(value(alloc, &[byte])?))),
        Told::Absent => Ok(Outcome::Done(Reply::Absent)),
        Told::Begun => Ok(Outcome::Begun),
        Told::Committed => Ok(Outcome::Committed),
        Told::NotTxn => Ok(Outcome::NotTxn),
        Told::InTxn => Ok(Outcome::InTxn),
        Told::Full => Ok(Outcome::Full),
    }
}

fn said_of(alloc: Global, number: u64, entry: Entry) -> Result<Said, NoSample> {
    match entry {
        Entry::Fed(fed) => Ok(Said::In(number, Text::copy_of(alloc, text_of(fed))?)),
        Entry::Told(session, told) => {
            Ok(Said::Out(Out::Answer(session, outcome_of(alloc, told)?)))
        }
        Entry::Quiet => Ok(Said::Quiet),
    }
}

fn transcript_of(alloc: Global, list: &[Entry]) -> Result<Transcript, NoSample> {
    let mut transcript = Transcript::new(alloc);
    for (index, entry) in list.iter().enumerate() {
        transcript.push(said_of(alloc, index as u64, *entry)?)?;
    }
    Ok(transcript)
}

fn history_of(alloc: Global, names: &[(u32, u64)]) -> Result<History, NoSample> {
    let mut history = History::new(alloc);
    for (session, number) in names {
        history.push(txn(*session, *number))?;
    }
    Ok(history)
}

fn verdict_of(alloc: Global, wanted: Wanted) -> Result<Verdict, NoSample> {
    match wanted {
        Wanted::Same => Ok(Verdict::Same),
        Wanted::Unfit(session, number) => Ok(Verdict::Unfit(txn(session, number))),
        Wanted::First(place, written, replayed) => Ok(Verdict::First {
            place,
            written: outcome_of(alloc, written)?,
            replayed: outcome_of(alloc, replayed)?,
        }),
    }
}

// Whether the verdict on the case is the one that is wanted.
fn is_judged(alloc: Global, case: Case) -> Result<bool, NoSample> {
    let Case(list, names, wanted) = case;
    let transcript = transcript_of(alloc, list)?;
    let history = history_of(alloc, names)?;
    let verdict = replay(alloc, &history, &transcript)?;
    Ok(verdict == verdict_of(alloc, wanted)?)
}

#[test]
fn a_history_is_judged(rt: HostRuntime) -> Result<(), Fail> {
    let cases: [(&str, Case); 17] = [
        ("the worked case", Case(&WORKED, &[(1, 1)], Wanted::Same)),
        (
            "another value",
            Case(
                &OTHER_VALUE,
                &[(1, 1)],
                Wanted::First(5, Told::Found(b'y'), Told::Found(b'x')),
            ),
        ),
        (
            "an answer that is no reply",
            Case(
                &NO_REPLY,
                &[(1, 1)],
                Wanted::First(5, Told::NotTxn, Told::Found(b'x')),
            ),
        ),
        (
            "a member twice",
            Case(&WORKED, &[(1, 1), (1, 1)], Wanted::Unfit(1, 1)),
        ),
        (
            "a session without lines",
            Case(&WORKED, &[(2, 1)], Wanted::Unfit(2, 1)),
        ),
        (
            "no such transaction",
            Case(&WORKED, &[(1, 2)], Wanted::Unfit(1, 2)),
        ),
        (
            "unfit behind a difference",
            Case(&OTHER_VALUE, &[(1, 1), (2, 1)], Wanted::Unfit(2, 1)),
        ),
        (
            "two that are unfit",
            Case(&WORKED, &[(2, 1), (1, 1), (1, 1)], Wanted::Unfit(2, 1)),
        ),
        (
            "no COMMIT",
            Case(&NO_COMMIT, &[(1, 1)], Wanted::Unfit(1, 1)),
        ),
        ("no member", Case(&WORKED, &[], Wanted::Same)),
        (
            "two members",
            Case(&TWO_TRANSACTIONS, &[(1, 1), (1, 2)], Wanted::Same),
        ),
        (
            "two members the other way round",
            Case(
                &TWO_TRANSACTIONS,
                &[(1, 2), (1, 1)],
                Wanted::First(9, Told::Found(b'x'), Told::Absent),
            ),
        ),
        ("FULL", Case(&FULL, &[(1, 1)], Wanted::Same)),
        ("INTXN", Case(&IN_TXN, &[(1, 1)], Wanted::Same)),
        (
            "COMMIT without an answer",
            Case(&COMMIT_UNANSWERED, &[(1, 1)], Wanted::Same),
        ),
        (
            "a read without an answer",
            Case(&READ_UNANSWERED, &[(1, 1)], Wanted::Same),
        ),
        (
            "two sessions interleaved",
            Case(
                &INTERLEAVED,
                &[(1, 1)],
                Wanted::First(7, Told::Found(b'y'), Told::Absent),
            ),
        ),
    ];
    for (name, case) in cases {
        assert!(rt; is_judged(rt.alloc(), case)?, "{name}");
    }
    Ok(())
}
