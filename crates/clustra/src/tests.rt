use crate::ended::{DONE, NO_MEMORY, READ_FAULT, TOO_MUCH_INPUT, UNFINISHED, USAGE, WRITE_FAULT};
use crate::run_words;
use cl_io::{MemSink, MemSource};
use cl_types::NoMemory;
use std::alloc::{AllocError, AllocGlobal, Global};
use std::sync::Wait;
use std::test::Fail;
use std::thread::Threads;

/// What a run is given, and how it must end.
#[derive(Clone, Copy)]
struct Case<'a> {
    name: &'static str,
    // The words of the command line, each after a space but the first.
    words: &'static str,
    input: &'a [u8],
    failing_reads: &'a [u64],
    failing_writes: &'a [u64],
    output: &'a [u8],
    status: u8,
}

/// A case whose source and sink do not fail.
fn new_case<'a>(
    name: &'static str,
    words: &'static str,
    input: &'a [u8],
    output: &'a [u8],
) -> Case<'a> {
    Case {
        name,
        words,
        input,
        failing_reads: &[],
        failing_writes: &[],
        output,
        status: DONE,
    }
}

/// A case of `serve`.
fn served<'a>(name: &'static str, input: &'a [u8], output: &'a [u8]) -> Case<'a> {
    new_case(name, "serve", input, output)
}

/// The words of a command line.
fn words_in(alloc: Global, line: &str) -> Result<Vec<String>, NoMemory> {
    let mut words = Vec::new(alloc);
    for word in line.split(' ') {
        words.push(String::from_str(alloc, word)?)?;
    }
    Ok(words)
}

/// The status of a run in memory, and the sink after it.
fn end_of<R: Threads + Wait + Sync + AllocGlobal>(
    rt: &R,
    alloc: Global,
    case: &Case<'_>,
) -> Result<(u8, MemSink), NoMemory> {
    let words = words_in(alloc, case.words)?;
    let mut source = MemSource::new(
        Vec::from_slice(alloc, case.input)?,
        Vec::from_slice(alloc, case.failing_reads)?,
    );
    let mut sink = MemSink::new(alloc, Vec::from_slice(alloc, case.failing_writes)?);
    let ended = run_words(rt, &words, &mut source, &mut sink);
    Ok((ended.status, sink))
}

/// Whether an allocation failed: in the server, or in the sink, which then fails a write. What was written before is
/// a first part of the output.
fn is_out_of_memory(status: u8, written: &[u8], output: &[u8]) -> bool {
    (status == NO_MEMORY || status == WRITE_FAULT && written != output)
        && output.starts_with(written)
}

/// Whether a run in memory ends as the case says, unless an allocation failed.
fn ends_so<R: Threads + Wait + Sync + AllocGlobal>(
    rt: &R,
    alloc: Global,
    case: &Case<'_>,
) -> Result<bool, NoMemory> {
    let (status, sink) = end_of(rt, alloc, case)?;
    if is_out_of_memory(status, sink.bytes(), case.output) {
        return Err(NoMemory);
    }
    Ok(status == case.status && sink.bytes() == case.output)
}

/// The piece, so many times.
fn repeated(alloc: Global, piece: &[u8], times: usize) -> Result<Vec<u8>, AllocError> {
    let mut all = Vec::new(alloc);
    for _ in 0..times {
        all.extend_from_slice(piece)?;
    }
    Ok(all)
}

const FIRST_TRANSACTION: &[u8] = b"1 BEGIN\n1 PUT t a x\n1 GET t a\n1 COMMIT\n";

const REPLIES: &[u8] = b"1 OK\n1 OK\n1 VAL x\n1 COMMITTED\n";

#[test]
fn runs_end_as_they_must(rt: HostRuntime) -> Result<(), Fail> {
    let cases = [
        served("no input", b"", b""),
        served("a transaction", FIRST_TRANSACTION, REPLIES),
        Case {
            failing_reads: &[1],
            status: READ_FAULT,
            ..served("the first read fails", FIRST_TRANSACTION, b"")
        },
        Case {
            failing_reads: &[2],
            status: READ_FAULT,
            ..served("the last read fails", FIRST_TRANSACTION, b"")
        },
        Case {
            failing_writes: &[1],
            status: WRITE_FAULT,
            ..served("the write fails", FIRST_TRANSACTION, b"")
        },
        Case {
            failing_writes: &[2],
            status: WRITE_FAULT,
            ..served("the flush fails", FIRST_TRANSACTION, REPLIES)
        },
    ];
    for case in &cases {
        let holds = ends_so(&rt, rt.alloc(), case)?;
        assert!(rt; holds, "{}", case.name);
    }
    Ok(())
}

#[test]
fn other_words_are_refused(rt: HostRuntime) -> Result<(), Fail> {
    let rows = [
        "",
        "demo",
        "replay",
        "replay --turns 0",
        "replay --turns 01",
        "replay --turns 10000001",
        "replay --step --turns 3",
        "serve --step --step",
        "serve --turns 3",
    ];
    for words in rows {
        let refused = Case {
            status: USAGE,
            ..new_case("refused words", words, FIRST_TRANSACTION, b"")
        };
        let holds = ends_so(&rt, rt.alloc(), &refused)?;
        assert!(rt; holds, "{words}");
    }
    Ok(())
}

#[test]
fn turns_run_out(rt: HostRuntime) -> Result<(), Fail> {
    let cases = [
        Case {
            status: UNFINISHED,
            ..new_case(
                "three turns",
                "replay --turns 3",
                FIRST_TRANSACTION,
                b"1 OK\n* PENDING 1\n",
            )
        },
        new_case(
            "enough turns",
            "replay --turns 100000",
            FIRST_TRANSACTION,
            REPLIES,
        ),
        new_case(
            "enough turns, step by step",
            "replay --turns 100000 --step",
            FIRST_TRANSACTION,
            REPLIES,
        ),
    ];
    for case in &cases {
        let holds = ends_so(&rt, rt.alloc(), case)?;
        assert!(rt; holds, "{}", case.name);
    }
    Ok(())
}

// What is fed, and what must be written: worked by hand from the rules of sessions, locks and operations.
const OUTSIDE: (&[u8], &[u8]) = (
    b"1 GET t a\n1 COMMIT\n1 ABORT\n1 BEGIN\n1 BEGIN\n",
    b"1 ERR NOTXN\n1 ERR NOTXN\n1 ERR NOTXN\n1 OK\n1 ERR INTXN\n",
);

const CONFLICT: (&[u8], &[u8]) = (
    b"2 BEGIN\n2 PUT t a x\n3 BEGIN\n3 GET t a\n3 GET t a\n",
    b"2 OK\n2 OK\n3 OK\n3 ABORTED CONFLICT 2.1\n3 ERR NOTXN\n",
);

const SHARED: (&[u8], &[u8]) = (
    b"2 BEGIN\n3 BEGIN\n2 GET t a\n3 GET t a\n2 COMMIT\n3 COMMIT\n",
    b"2 OK\n3 OK\n2 NONE\n3 NONE\n2 COMMITTED\n3 COMMITTED\n",
);

const STRONGER: (&[u8], &[u8]) = (
    b"2 BEGIN\n3 BEGIN\n2 GET t a\n3 GET t a\n2 PUT t a x\n3 COMMIT\n",
    b"2 OK\n3 OK\n2 NONE\n3 NONE\n2 ABORTED CONFLICT 3.1\n3 COMMITTED\n",
);

const SUM_OUT_OF_RANGE: (&[u8], &[u8]) = (
    b"1 BEGIN\n1 ADD t c 5\n1 ADD t c 9223372036854775807\n1 GET t c\n1 COMMIT\n",
    b"1 OK\n1 NUM 5\n1 ERR RANGE\n1 VAL 5\n1 COMMITTED\n",
);

const NO_NUMBERS: (&[u8], &[u8]) = (
    b"1 BEGIN\n1 PUT t c x\n1 ADD t c 1\n1 PUT t c 007\n1 ADD t c 1\n1 DEL t c\n1 DEL t c\n1 ADD t c -3\n1 COMMIT\n",
    b"1 OK\n1 OK\n1 ERR NOTNUM\n1 OK\n1 ERR NOTNUM\n1 OK\n1 NONE\n1 NUM -3\n1 COMMITTED\n",
);

const ROLLBACK: (&[u8], &[u8]) = (
    b"1 BEGIN\n1 PUT t a 1\n1 PUT t b 1\n1 PUT t c 1\n1 PUT t d 1\n1 ABORT\n1 BEGIN\n1 GET t a\n1 GET t b\n1 GET t c\n1 GET t d\n",
    b"1 OK\n1 OK\n1 OK\n1 OK\n1 OK\n1 ABORTED CLIENT\n1 OK\n1 NONE\n1 NONE\n1 NONE\n1 NONE\n",
);

const CREDIT: (&[u8], &[u8]) = (
    b"7 BEGIN\n7 PUT sub 4790123456 cell.0412\n7 ADD credit 4790123456 5000\n7 ADD credit 4790123456 -150\n7 COMMIT\n8 BEGIN\n8 GET sub 4790123456\n8 GET credit 4790123456\n8 COMMIT\n",
    b"7 OK\n7 OK\n7 NUM 5000\n7 NUM 4850\n7 COMMITTED\n8 OK\n8 VAL cell.0412\n8 VAL 4850\n8 COMMITTED\n",
);

const FAULTS: (&[u8], &[u8]) = (
    b"\n0 BEGIN\n65 BEGIN\n01 BEGIN\n1 begin\n1  BEGIN\n1 GET T a\n1 GET t a\r\n1 ADD t a 05\n1 ADD t a -0\n",
    b"* ERR LINE 1 WORDS\n* ERR LINE 2 SESSION\n* ERR LINE 3 SESSION\n* ERR LINE 4 SESSION\n* ERR LINE 5 WORDS\n* ERR LINE 6 WORDS\n* ERR LINE 7 TABLE\n* ERR LINE 8 KEY\n* ERR LINE 9 NUMBER\n* ERR LINE 10 NUMBER\n",
);

const QUIET: (&[u8], &[u8]) = (
    b"1 BEGIN\n1 COMMIT\nQUIET\n1 BEGIN\n1 COMMIT\nQUIET 1\n",
    b"1 OK\n1 COMMITTED\n1 OK\n1 COMMITTED\n* ERR LINE 6 WORDS\n",
);

#[test]
fn sessions_are_answered(rt: HostRuntime) -> Result<(), Fail> {
    let rows = [
        ("commands outside a transaction", OUTSIDE),
        ("a conflict aborts, and names its holder", CONFLICT),
        ("shared locks do not conflict", SHARED),
        ("a stronger lock conflicts with a shared one", STRONGER),
        ("a sum out of range leaves the value", SUM_OUT_OF_RANGE),
        ("a value that is no number stays", NO_NUMBERS),
        ("an abort undoes each write", ROLLBACK),
        ("a subscriber and a credit", CREDIT),
        ("each fault has its name", FAULTS),
        ("nothing is printed for an operator's line", QUIET),
    ];
    for (name, (input, output)) in rows {
        let holds = ends_so(
            &rt,
            rt.alloc(),
            &new_case(name, "serve --step", input, output),
        )?;
        assert!(rt; holds, "{name}");
    }
    Ok(())
}

/// A line with a front, one byte so many times, and a back.
fn long_line(
    alloc: Global,
    (front, byte, times, back): (&[u8], u8, usize, &[u8]),
) -> Result<Vec<u8>, AllocError> {
    let mut line = Vec::from_slice(alloc, front)?;
    line.extend_from_slice(&vec![in alloc; byte; times]?)?;
    line.extend_from_slice(back)?;
    Ok(line)
}

#[test]
fn lengths_have_their_limits(rt: HostRuntime) -> Result<(), Fail> {
    let parts = [
        (b"1 PUT t ".as_slice(), b'k', 32, b" x\n".as_slice()),
        (b"1 PUT t ", b'k', 33, b" x\n"),
        (b"1 PUT t k ", b'v', 128, b"\n"),
        (b"1 PUT t k ", b'v', 129, b"\n"),
        (b"1 PUT t k ", b'v', 246, b"\n"),
        (b"1 PUT t k ", b'v', 247, b"\n"),
    ];
    let mut input = Vec::from_slice(rt.alloc(), b"1 BEGIN\n")?;
    for part in parts {
        input.extend_from_slice(&long_line(rt.alloc(), part)?)?;
    }
    let output =
        b"1 OK\n1 OK\n* ERR LINE 3 KEY\n1 OK\n* ERR LINE 5 VALUE\n* ERR LINE 6 VALUE\n* ERR LINE 7 LENGTH\n";
    let holds = ends_so(&rt, rt.alloc(), &served("long lines", &input, output))?;
    assert!(rt; holds);
    Ok(())
}

// Where an allocation fails, the run or its sink says so, and nothing is written, as the text is written at once.
#[test]
fn a_failed_allocation_has_its_status(rt: HostRuntime) -> Result<(), Fail> {
    let case = served("a transaction", FIRST_TRANSACTION, REPLIES);
    let (status, sink) = end_of(&rt, rt.alloc(), &case)?;
    let written = if status == DONE { REPLIES } else { b"" };
    let holds = matches!(status, DONE | WRITE_FAULT | NO_MEMORY) && sink.bytes() == written;
    assert!(rt; holds, "at status {status}");
    Ok(())
}

#[test]
fn an_operation_too_many_is_refused(rt: HostRuntime) -> Result<(), Fail> {
    let most = 64;
    let mut input = Vec::from_slice(rt.alloc(), b"1 BEGIN\n")?;
    input.extend_from_slice(&repeated(rt.alloc(), b"1 GET t a\n", most + 1)?)?;
    input.extend_from_slice(b"1 COMMIT")?;
    let mut output = Vec::from_slice(rt.alloc(), b"1 OK\n")?;
    output.extend_from_slice(&repeated(rt.alloc(), b"1 NONE\n", most)?)?;
    output.extend_from_slice(b"1 ERR FULL\n1 COMMITTED\n")?;
    let holds = ends_so(
        &rt,
        rt.alloc(),
        &served("a full transaction", &input, &output),
    )?;
    assert!(rt; holds);
    Ok(())
}

#[test]
fn input_past_the_limits_is_refused(rt: HostRuntime) -> Result<(), Fail> {
    let lines = repeated(rt.alloc(), b"1 GET t a\n", 100_001)?;
    let bytes = repeated(rt.alloc(), b"xxxxxxxxxx", 2_570_001)?;
    let rows = [
        ("lines", "serve", lines.as_slice()),
        ("lines", "replay --turns 1", lines.as_slice()),
        ("bytes", "serve", bytes.as_slice()),
    ];
    for (name, words, input) in rows {
        let case = Case {
            status: TOO_MUCH_INPUT,
            ..new_case(name, words, input, b"")
        };
        let holds = ends_so(&rt, rt.alloc(), &case)?;
        assert!(rt; holds, "too many {name}");
    }
    Ok(())
}
