//! Lines that are read and lines that are printed, with texts from outside the program.
use cl_lines::{
    Command, LINE_MAX, Line, LineFault, Order, Out, Unread, each_answer_is_one_line,
    each_command_has_one_line, each_order_has_one_line, print_out, read_line,
};
use cl_samples::value;
use cl_types::{AbortCause, NoMemory, Op, Outcome, Reply, TxnId};
use std::alloc::{AllocError, Global};
use std::test::Fail;

// What a line asks of its session, with its table, its key and its argument.
#[derive(Clone, Copy)]
enum Asked {
    Begin,
    Commit,
    Abort,
    Get(&'static [u8], &'static [u8]),
    Put(&'static [u8], &'static [u8], &'static [u8]),
    Del(&'static [u8], &'static [u8]),
    Add(&'static [u8], &'static [u8], i64),
}

// Whether the line asks this of the session.
fn asks(line: &Line, session: u32, asked: Asked) -> bool {
    let Line::Client(its_session, command) = line else {
        return false;
    };
    let is_asked = match (command, asked) {
        (Command::Begin, Asked::Begin) => true,
        (Command::Commit, Asked::Commit) => true,
        (Command::Abort, Asked::Abort) => true,
        (Command::Work(t, k, Op::Get), Asked::Get(table, key)) => {
            t.bytes() == table && k.bytes() == key
        }
        (Command::Work(t, k, Op::Put(v)), Asked::Put(table, key, value)) => {
            t.bytes() == table && k.bytes() == key && v.bytes() == value
        }
        (Command::Work(t, k, Op::Del), Asked::Del(table, key)) => {
            t.bytes() == table && k.bytes() == key
        }
        (Command::Work(t, k, Op::Add(sum)), Asked::Add(table, key, amount)) => {
            t.bytes() == table && k.bytes() == key && *sum == amount
        }
        _ => false,
    };
    *its_session == session && is_asked
}

// Whether the line is read as this. It is read again where an allocation fails, which is no fault of the line.
fn is_read(alloc: Global, text: &[u8], session: u32, asked: Asked) -> bool {
    let mut line = read_line(alloc, text);
    if line == Err(Unread::NoMemory) {
        line = read_line(alloc, text);
    }
    matches!(&line, Ok(line) if asks(line, session, asked))
}

#[test]
fn each_command_is_read(rt: HostRuntime) {
    let rows: [(&str, u32, Asked); 13] = [
        ("1 BEGIN", 1, Asked::Begin),
        ("2 BEGIN", 2, Asked::Begin),
        ("11 BEGIN", 11, Asked::Begin),
        ("64 COMMIT", 64, Asked::Commit),
        ("9 ABORT", 9, Asked::Abort),
        (
            "10 GET subs 46.70_a-1",
            10,
            Asked::Get(b"subs", b"46.70_a-1"),
        ),
        ("1 PUT t k v", 1, Asked::Put(b"t", b"k", b"v")),
        (
            "1 PUT subs 4670 cell=12,~!",
            1,
            Asked::Put(b"subs", b"4670", b"cell=12,~!"),
        ),
        ("1 DEL t a", 1, Asked::Del(b"t", b"a")),
        ("1 ADD t a 0", 1, Asked::Add(b"t", b"a", 0)),
        ("1 ADD t a -5", 1, Asked::Add(b"t", b"a", -5)),
        (
            "1 ADD t a 9223372036854775807",
            1,
            Asked::Add(b"t", b"a", 9_223_372_036_854_775_807),
        ),
        (
            "1 ADD t a -9223372036854775808",
            1,
            Asked::Add(b"t", b"a", -9_223_372_036_854_775_808),
        ),
    ];
    for (text, session, asked) in rows {
        assert!(rt;
            is_read(rt.alloc(), text.as_bytes(), session, asked),
            "{text:?}"
        );
    }
}

#[test]
fn the_order_is_read(rt: HostRuntime) {
    let line = read_line(rt.alloc(), b"QUIET");
    assert!(rt; line == Ok(Line::Operator(Order::Quiet)));
}

// The fault of the line, if it has one, unless an allocation fails.
fn fault_of(alloc: Global, line: &[u8]) -> Result<Option<LineFault>, NoMemory> {
    match read_line(alloc, line) {
        Ok(_) => Ok(None),
        Err(Unread::Fault(fault)) => Ok(Some(fault)),
        Err(Unread::NoMemory) => Err(NoMemory),
    }
}

#[test]
fn each_fault_is_told(rt: HostRuntime) -> Result<(), Fail> {
    let rows: [(&str, LineFault); 54] = [
        ("", LineFault::Words),
        (" ", LineFault::Words),
        ("1", LineFault::Words),
        ("1 ", LineFault::Words),
        ("BEGIN", LineFault::Words),
        ("1 begin", LineFault::Words),
        ("1 BEGINS", LineFault::Words),
        ("1  BEGIN", LineFault::Words),
        (" 1 BEGIN", LineFault::Words),
        ("1 BEGIN ", LineFault::Words),
        ("1 BEGIN x", LineFault::Words),
        ("1 BEGIN\r", LineFault::Words),
        ("1\tBEGIN", LineFault::Words),
        ("1 GET t", LineFault::Words),
        ("1 GET t ", LineFault::Words),
        ("1 GET t a b", LineFault::Words),
        ("1 DEL t a 1", LineFault::Words),
        ("1 PUT t a", LineFault::Words),
        ("1 PUT t a ", LineFault::Words),
        ("1 PUT t a b c", LineFault::Words),
        ("1 ADD t a", LineFault::Words),
        ("STOP", LineFault::Words),
        ("STOP 1", LineFault::Words),
        ("STOP 01", LineFault::Words),
        ("QUIET x", LineFault::Words),
        ("QUIET BEGIN", LineFault::Words),
        ("QUIET GET t a", LineFault::Words),
        ("QUIET ", LineFault::Words),
        (" QUIET", LineFault::Words),
        ("QUIET\r", LineFault::Words),
        ("QUIETS", LineFault::Words),
        ("quiet", LineFault::Words),
        ("1 QUIET", LineFault::Words),
        ("AUDIT", LineFault::Words),
        ("DUMP PRIMARY 0", LineFault::Words),
        ("REPAIR 0", LineFault::Words),
        ("0 BEGIN", LineFault::Session),
        ("65 BEGIN", LineFault::Session),
        ("01 BEGIN", LineFault::Session),
        ("quiet BEGIN", LineFault::Session),
        ("-1 BEGIN", LineFault::Session),
        ("18446744073709551617 BEGIN", LineFault::Session),
        ("1 GET T a", LineFault::Table),
        ("1 GET ninechars a", LineFault::Table),
        ("1 GET t A", LineFault::Key),
        ("1 GET t a\r", LineFault::Key),
        ("1 PUT t a \u{7f}", LineFault::Value),
        ("1 PUT t a a\tb", LineFault::Value),
        ("1 ADD t a 05", LineFault::Number),
        ("1 ADD t a -0", LineFault::Number),
        ("1 ADD t a +1", LineFault::Number),
        ("1 ADD t a -", LineFault::Number),
        ("1 ADD t a 9223372036854775808", LineFault::Number),
        ("1 ADD t a -9223372036854775809", LineFault::Number),
    ];
    for (line, fault) in rows {
        let told = fault_of(rt.alloc(), line.as_bytes())?;
        assert!(rt; told == Some(fault), "{line:?}");
    }
    Ok(())
}

#[test]
fn the_first_fault_counts(rt: HostRuntime) -> Result<(), Fail> {
    let rows: [(&str, LineFault); 8] = [
        ("0 STOP t", LineFault::Words),
        ("0 GET T  ", LineFault::Words),
        ("0 GET T a", LineFault::Session),
        ("65 PUT T A \u{7f}", LineFault::Session),
        ("1 PUT T A \u{7f}", LineFault::Table),
        ("1 ADD T a 05", LineFault::Table),
        ("1 PUT t A \u{7f}", LineFault::Key),
        ("1 ADD t A 05", LineFault::Key),
    ];
    for (line, fault) in rows {
        let told = fault_of(rt.alloc(), line.as_bytes())?;
        assert!(rt; told == Some(fault), "{line:?}");
    }
    Ok(())
}

// The bytes of a front, and then one byte so many times.
fn repeated(alloc: Global, front: &[u8], byte: u8, times: usize) -> Result<Vec<u8>, AllocError> {
    let mut line = Vec::from_slice(alloc, front)?;
    let rest = vec![in alloc; byte; times]?;
    line.extend_from_slice(&rest)?;
    Ok(line)
}

#[test]
fn lengths_have_their_limits(rt: HostRuntime) -> Result<(), Fail> {
    let rows: [(&[u8], u8, usize, Option<LineFault>); 14] = [
        (b"1 GET t ", b'k', 32, None),
        (b"1 GET t ", b'k', 33, Some(LineFault::Key)),
        (b"1 PUT t k ", b'v', 128, None),
        (b"1 PUT t k ", b'v', 129, Some(LineFault::Value)),
        (b"1 PUT t k ", b'v', 246, Some(LineFault::Value)),
        (b"1 PUT t k ", b'v', 247, Some(LineFault::Length)),
        (b"1 PUT T k ", b'v', 246, Some(LineFault::Table)),
        (b"1 PUT T k ", b'v', 247, Some(LineFault::Length)),
        (b"", b'x', LINE_MAX, Some(LineFault::Words)),
        (b"", b'x', LINE_MAX + 1, Some(LineFault::Length)),
        (b"QUIET ", b'x', 250, Some(LineFault::Words)),
        (b"QUIET ", b'x', 251, Some(LineFault::Length)),
        (b"", b' ', LINE_MAX, Some(LineFault::Words)),
        (b"", b' ', LINE_MAX + 1, Some(LineFault::Length)),
    ];
    for row in rows {
        let (front, byte, times, fault) = row;
        let line = repeated(rt.alloc(), front, byte, times)?;
        assert!(rt; fault_of(rt.alloc(), &line)? == fault, "at {row:?}");
    }
    Ok(())
}

// The answer to a command of session 64.
fn answer(outcome: Outcome) -> Out {
    Out::Answer(64, outcome)
}

#[test]
fn each_answer_is_printed(rt: HostRuntime) -> Result<(), Fail> {
    let alloc = rt.alloc();
    let holder = TxnId {
        session: 3,
        number: 18_446_744_073_709_551_615,
    };
    let rows: [(Out, &str); 24] = [
        (answer(Outcome::Done(Reply::Stored)), "64 OK\n"),
        (
            answer(Outcome::Done(Reply::Found(value(alloc, b"cell=12")?))),
            "64 VAL cell=12\n",
        ),
        (answer(Outcome::Done(Reply::Absent)), "64 NONE\n"),
        (answer(Outcome::Done(Reply::Sum(0))), "64 NUM 0\n"),
        (answer(Outcome::Done(Reply::Sum(7))), "64 NUM 7\n"),
        (
            answer(Outcome::Done(Reply::Sum(-9_223_372_036_854_775_808))),
            "64 NUM -9223372036854775808\n",
        ),
        (answer(Outcome::Done(Reply::NotNumber)), "64 ERR NOTNUM\n"),
        (answer(Outcome::Done(Reply::OutOfRange)), "64 ERR RANGE\n"),
        (answer(Outcome::Begun), "64 OK\n"),
        (answer(Outcome::Committed), "64 COMMITTED\n"),
        (
            answer(Outcome::Aborted(AbortCause::Conflict(holder))),
            "64 ABORTED CONFLICT 3.18446744073709551615\n",
        ),
        (
            answer(Outcome::Aborted(AbortCause::Node(15))),
            "64 ABORTED NODE 15\n",
        ),
        (
            answer(Outcome::Aborted(AbortCause::Client)),
            "64 ABORTED CLIENT\n",
        ),
        (
            answer(Outcome::Aborted(AbortCause::Memory)),
            "64 ABORTED MEMORY\n",
        ),
        (answer(Outcome::NotTxn), "64 ERR NOTXN\n"),
        (answer(Outcome::InTxn), "64 ERR INTXN\n"),
        (answer(Outcome::Full), "64 ERR FULL\n"),
        (
            Out::BadLine(100_000, LineFault::Length),
            "* ERR LINE 100000 LENGTH\n",
        ),
        (Out::BadLine(1, LineFault::Words), "* ERR LINE 1 WORDS\n"),
        (
            Out::BadLine(20, LineFault::Session),
            "* ERR LINE 20 SESSION\n",
        ),
        (Out::BadLine(3, LineFault::Table), "* ERR LINE 3 TABLE\n"),
        (Out::BadLine(4, LineFault::Key), "* ERR LINE 4 KEY\n"),
        (Out::BadLine(5, LineFault::Value), "* ERR LINE 5 VALUE\n"),
        (Out::BadLine(6, LineFault::Number), "* ERR LINE 6 NUMBER\n"),
    ];
    for (out, text) in rows {
        let printed = print_out(alloc, &out)?;
        assert!(rt; printed.as_slice() == text.as_bytes(), "{text:?}");
    }
    Ok(())
}

#[test]
fn the_laws_are_called() {
    each_command_has_one_line();
    each_order_has_one_line();
    each_answer_is_one_line();
}
