//! The plain map, one operation after another.
mod verdicts;

use cl_samples::{NoSample, key, table, value};
use cl_serial::{
    PlainMap, one_more_answer, one_more_entry, one_more_question, replays_join,
    there_is_one_verdict,
};
use cl_types::{Op, Reply};
use std::alloc::Global;
use std::test::Fail;

// What is done at a place.
#[derive(Clone, Copy)]
enum Done {
    Get,
    Put(&'static [u8]),
    Add(i64),
    Del,
}

// What is replied.
#[derive(Clone, Copy)]
enum Replied {
    Stored,
    Found(&'static [u8]),
    Absent,
    Sum(i64),
    NotNumber,
}

// What is done at a table and a key, its reply, and how many places have a value afterwards.
#[derive(Clone, Copy)]
struct Step(&'static [u8], &'static [u8], Done, Replied, usize);

fn op_of(alloc: Global, done: Done) -> Result<Op, NoSample> {
    match done {
        Done::Get => Ok(Op::Get),
        Done::Put(bytes) => Ok(Op::Put(value(alloc, bytes)?)),
        Done::Add(amount) => Ok(Op::Add(amount)),
        Done::Del => Ok(Op::Del),
    }
}

fn is_reply(reply: &Reply, replied: Replied) -> bool {
    match (reply, replied) {
        (Reply::Stored, Replied::Stored) => true,
        (Reply::Found(value), Replied::Found(bytes)) => value.bytes() == bytes,
        (Reply::Absent, Replied::Absent) => true,
        (Reply::Sum(sum), Replied::Sum(wanted)) => *sum == wanted,
        (Reply::NotNumber, Replied::NotNumber) => true,
        _ => false,
    }
}

// Whether the step is done as the row says. Where an allocation fails, the map stays as it was, and the step is done
// again.
fn holds(plain: &mut PlainMap, alloc: Global, step: Step) -> Result<bool, NoSample> {
    let Step(in_table, at_key, done, replied, count) = step;
    let (table, key) = (table(in_table)?, key(at_key)?);
    let op = op_of(alloc, done)?;
    let before = plain.count();
    let mut reply = plain.apply(&table, &key, &op);
    if reply.is_err() {
        if plain.count() != before {
            return Ok(false);
        }
        reply = plain.apply(&table, &key, &op);
    }
    Ok(is_reply(&reply?, replied) && plain.count() == count)
}

#[test]
fn each_operation_changes_its_place(rt: HostRuntime) -> Result<(), Fail> {
    let steps: [(&str, Step); 14] = [
        (
            "get nothing",
            Step(b"stock", b"bolt", Done::Get, Replied::Absent, 0),
        ),
        (
            "put",
            Step(b"stock", b"bolt", Done::Put(b"12"), Replied::Stored, 1),
        ),
        (
            "get it",
            Step(b"stock", b"bolt", Done::Get, Replied::Found(b"12"), 1),
        ),
        (
            "put again",
            Step(b"stock", b"bolt", Done::Put(b"13"), Replied::Stored, 1),
        ),
        (
            "get that",
            Step(b"stock", b"bolt", Done::Get, Replied::Found(b"13"), 1),
        ),
        (
            "get elsewhere",
            Step(b"orders", b"bolt", Done::Get, Replied::Absent, 1),
        ),
        (
            "put elsewhere",
            Step(b"orders", b"bolt", Done::Put(b"x"), Replied::Stored, 2),
        ),
        (
            "add to a number",
            Step(b"stock", b"bolt", Done::Add(12), Replied::Sum(25), 2),
        ),
        (
            "add to no number",
            Step(b"orders", b"bolt", Done::Add(12), Replied::NotNumber, 2),
        ),
        (
            "get no number",
            Step(b"orders", b"bolt", Done::Get, Replied::Found(b"x"), 2),
        ),
        (
            "delete",
            Step(b"stock", b"bolt", Done::Del, Replied::Stored, 1),
        ),
        (
            "delete again",
            Step(b"stock", b"bolt", Done::Del, Replied::Absent, 1),
        ),
        (
            "add to nothing",
            Step(b"stock", b"bolt", Done::Add(12), Replied::Sum(12), 2),
        ),
        (
            "get the sum",
            Step(b"stock", b"bolt", Done::Get, Replied::Found(b"12"), 2),
        ),
    ];
    let mut plain = PlainMap::new(rt.alloc());
    for (name, step) in steps {
        assert!(rt; holds(&mut plain, rt.alloc(), step)?, "{name}");
    }
    Ok(())
}

#[test]
fn the_laws_are_called() {
    one_more_entry();
    one_more_question();
    one_more_answer();
    replays_join();
    there_is_one_verdict();
}
