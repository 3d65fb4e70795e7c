//! Tests of `cl_types`, with values from outside the program.
use crate::types::Asked::{Add, Del, Get, Put};
use crate::types::Replied::{Absent, Found, NotNumber, OutOfRange, Stored, Sum};
use cl_samples::{NoSample, is_value, key, optional_value, table, txn, value};
use cl_types::{
    AbortCause, Answer, AppendOnlyList, Command, GrowingList, Key, NoMemory, Op, Outcome, Reply,
    TableName, Text, Value, apply_op, copy_value, fragment, hash, is_node_count, mix, natural_of,
    number_of, number_of_text, vnode_of,
};
use std::alloc::Global;
use std::test::Fail;

// The first three numbers that SplitMix64 gives from the seed 0, and one draw that wraps.
#[test]
fn draws_are_those_of_splitmix(rt: HostRuntime) {
    let rows: &[(u64, u64)] = &[
        (0, 0xE220A8397B1DCDAF),
        (0x9E3779B97F4A7C15, 0x6E789E6AA1B965F4),
        (0x3C6EF372FE94F82A, 0x06C45D188009454F),
        (u64::MAX, 0xE4D971771B652C20),
    ];
    for (x, drawn) in rows {
        assert!(rt; mix(*x) == *drawn, "{x}");
    }
}

// Whether the key has this hash, and belongs to this fragment and virtual node of four nodes.
fn is_placed(bytes: &[u8], hashed: u32, part: u32, vnode: u32) -> bool {
    match Key::read(bytes) {
        Some(key) => {
            hash(&key) == hashed && fragment(&key, 4) == part && vnode_of(&key, 4) == vnode
        }
        None => false,
    }
}

#[test]
fn keys_are_placed_by_their_hash(rt: HostRuntime) {
    // The key, its hash, its fragment and its virtual node.
    let rows = [
        (b"a".as_slice(), 0xE40C292C, 12, 0),
        (b"b", 0xE70C2DE5, 5, 1),
        (b"c", 0xE60C2C52, 2, 2),
        (b"d", 0xE10C2473, 3, 3),
        (b"f", 0xE30C2799, 9, 1),
        // From the test vectors of FNV-1a.
        (b"foobar", 0xBF9CF968, 8, 0),
    ];
    for (bytes, hashed, part, vnode) in rows {
        assert!(rt; is_placed(bytes, hashed, part, vnode), "{bytes:?}");
    }
    assert!(rt; is_node_count(8) && !is_node_count(3));
}

// Whether the bytes are a table's name, a key and a value.
fn readings(alloc: Global, bytes: &[u8]) -> Result<[bool; 3], NoMemory> {
    let is_value = Value::read(alloc, bytes)?.is_some();
    Ok([
        TableName::read(bytes).is_some(),
        Key::read(bytes).is_some(),
        is_value,
    ])
}

#[test]
fn names_and_values_have_their_limits(rt: HostRuntime) -> Result<(), Fail> {
    let long = [b'k'; 129];
    let rows = [
        (b"".as_slice(), [false, false, false]),
        (b"abcdefgh", [true, true, true]),
        (b"abcdefghi", [false, true, true]),
        (b"T", [false, false, true]),
        (b"t1", [false, true, true]),
        (b"t ", [false, false, false]),
        (b"az09_.-", [false, true, true]),
        (b"a\r", [false, false, false]),
        (b"!~A", [false, false, true]),
        (b"\x7f", [false, false, false]),
        (&long[..32], [false, true, true]),
        (&long[..33], [false, false, true]),
        (&long[..128], [false, false, true]),
        (&long, [false, false, false]),
    ];
    for (bytes, wanted) in rows {
        assert!(rt; readings(rt.alloc(), bytes)? == wanted, "{bytes:?}");
    }
    Ok(())
}

fn is_name_copied(bytes: &[u8]) -> Result<bool, NoSample> {
    let name = table(bytes)?;
    Ok(name.copy() == name && name.bytes() == bytes)
}

fn is_key_copied(bytes: &[u8]) -> Result<bool, NoSample> {
    let key = key(bytes)?;
    Ok(key.copy() == key && key.bytes() == bytes)
}

// Whether the value of these bytes has them, is copied in both ways, and is not that of the other bytes.
fn is_value_copied(alloc: Global, bytes: &[u8], other: &[u8]) -> Result<bool, NoSample> {
    let (cell, other) = (value(alloc, bytes)?, value(alloc, other)?);
    let (alone, optional) = (cell.copy(alloc)?, copy_value(alloc, Some(&cell))?);
    Ok(cell.bytes() == bytes && alone == cell && cell != other && optional == Some(cell))
}

#[test]
fn names_and_values_are_copied(rt: HostRuntime) -> Result<(), Fail> {
    assert!(rt; is_name_copied(b"sub")?);
    assert!(rt; is_key_copied(b"4790123456")?);
    assert!(rt; is_value_copied(rt.alloc(), b"cell.0412", b"cell.0413")?);
    assert!(rt; copy_value(rt.alloc(), None)?.is_none());
    Ok(())
}

// Whether the bytes, as a text and as a value, are the canonical text of the number, or of none.
fn reads_as(alloc: Global, bytes: &[u8], number: Option<i64>) -> Result<bool, NoSample> {
    Ok(number_of_text(bytes) == number && number_of(&value(alloc, bytes)?) == number)
}

#[test]
fn numbers_are_canonical(rt: HostRuntime) -> Result<(), Fail> {
    let rows = [
        (b"0".as_slice(), Some(0)),
        (b"-7", Some(-7)),
        (b"1234567890123456789", Some(1234567890123456789)),
        (b"9223372036854775807", Some(i64::MAX)),
        (b"-9223372036854775808", Some(i64::MIN)),
        (b"9223372036854775808", None),
        (b"-9223372036854775809", None),
        (b"12345678901234567890", None),
        (b"99999999999999999999", None),
        (b"-0", None),
        (b"05", None),
        (b"-05", None),
        (b"+1", None),
        (b"-", None),
        (b"--1", None),
        (b"1a", None),
    ];
    for (bytes, number) in rows {
        assert!(rt; reads_as(rt.alloc(), bytes, number)?, "{bytes:?}");
    }
    Ok(())
}

#[test]
fn a_number_is_the_one_of_its_value(rt: HostRuntime) -> Result<(), Fail> {
    for number in [0, -7, i64::MAX, i64::MIN] {
        let value = Value::of_number(rt.alloc(), number)?;
        assert!(rt; number_of(&value) == Some(number), "{number}");
    }
    Ok(())
}

#[test]
fn numbers_without_a_sign_are_canonical(rt: HostRuntime) {
    let rows = [
        (b"18446744073709551615".as_slice(), Some(u64::MAX)),
        (b"0", Some(0)),
        (b"", None),
        (b"18446744073709551616", None),
        (b"00", None),
        (b"-1", None),
    ];
    for (bytes, number) in rows {
        assert!(rt; natural_of(bytes) == number, "{bytes:?}");
    }
}

// An operation, with the bytes of its value.
#[derive(Clone, Copy, Debug)]
enum Asked<'a> {
    Get,
    Put(&'a [u8]),
    Del,
    Add(i64),
}

// A reply, with the bytes of its value.
#[derive(Clone, Copy, Debug)]
enum Replied<'a> {
    Stored,
    Found(&'a [u8]),
    Absent,
    Sum(i64),
    NotNumber,
    OutOfRange,
}

fn op_of(alloc: Global, asked: Asked<'_>) -> Result<Op, NoSample> {
    Ok(match asked {
        Get => Op::Get,
        Put(bytes) => Op::Put(value(alloc, bytes)?),
        Del => Op::Del,
        Add(amount) => Op::Add(amount),
    })
}

fn reply_of(alloc: Global, replied: Replied<'_>) -> Result<Reply, NoSample> {
    Ok(match replied {
        Stored => Reply::Stored,
        Found(bytes) => Reply::Found(value(alloc, bytes)?),
        Absent => Reply::Absent,
        Sum(sum) => Reply::Sum(sum),
        NotNumber => Reply::NotNumber,
        OutOfRange => Reply::OutOfRange,
    })
}

// Whether the operation is copied, alone and in a command.
fn is_op_copied(alloc: Global, asked: Asked<'_>) -> Result<bool, NoSample> {
    let op = op_of(alloc, asked)?;
    let is_copied = op.copy(alloc)? == op;
    let command = Command::Work(table(b"sub")?, key(b"k1")?, op);
    Ok(is_copied && command.copy(alloc)? == command)
}

// Whether the reply is copied, alone, in an answer and in an outcome.
fn is_reply_copied(alloc: Global, replied: Replied<'_>) -> Result<bool, NoSample> {
    let reply = reply_of(alloc, replied)?;
    let copy = reply.copy(alloc)?;
    let is_copied = copy == reply;
    let (answer, outcome) = (Answer::Done(copy), Outcome::Done(reply));
    Ok(is_copied && answer.copy(alloc)? == answer && outcome.copy(alloc)? == outcome)
}

// Whether copies of a command, an answer and an outcome without a value are like them.
fn are_others_copied(alloc: Global) -> Result<bool, NoMemory> {
    let answer = Answer::Refused(txn(2, 7));
    let outcome = Outcome::Aborted(AbortCause::Node(3));
    Ok(
        Command::Begin.copy(alloc)? == Command::Begin
            && answer.copy(alloc)? == answer
            && outcome.copy(alloc)? == outcome,
    )
}

#[test]
fn what_is_asked_and_answered_is_copied(rt: HostRuntime) -> Result<(), Fail> {
    for asked in [Get, Put(b"y"), Del, Add(-3)] {
        assert!(rt; is_op_copied(rt.alloc(), asked)?, "{asked:?}");
    }
    for replied in [Stored, Found(b"x"), Absent, Sum(-3), NotNumber, OutOfRange] {
        assert!(rt; is_reply_copied(rt.alloc(), replied)?, "{replied:?}");
    }
    assert!(rt; are_others_copied(rt.alloc())?);
    Ok(())
}

// Whether the operation on the value of the old bytes has the reply, and leaves the new bytes.
fn is_applied(
    alloc: Global,
    asked: Asked<'_>,
    old: Option<&[u8]>,
    replied: Replied<'_>,
    new: Option<&[u8]>,
) -> Result<bool, NoSample> {
    let (op, wanted) = (op_of(alloc, asked)?, reply_of(alloc, replied)?);
    let old = optional_value(alloc, old)?;
    let (reply, left) = apply_op(alloc, &op, old.as_ref())?;
    Ok(reply == wanted && is_value(left.as_ref(), new))
}

// The texts at the ends of signed 64 bits, and those next to them.
const LAST: &[u8] = b"9223372036854775807";

const BEFORE_LAST: &[u8] = b"9223372036854775806";

const FIRST: &[u8] = b"-9223372036854775808";

const AFTER_FIRST: &[u8] = b"-9223372036854775807";

#[test]
fn operations_reply_and_leave_what_is_written(rt: HostRuntime) -> Result<(), Fail> {
    let (x, y) = (Some(b"x".as_slice()), Some(b"y".as_slice()));
    // The operation, the value before it, the reply and the value after it.
    let rows = [
        (Put(b"y"), x, Stored, y),
        (Put(b"y"), None, Stored, y),
        (Del, x, Stored, None),
        (Del, None, Absent, None),
        (Get, x, Found(b"x"), x),
        (Get, None, Absent, None),
        (Add(-3), None, Sum(-3), Some(b"-3")),
        (Add(-150), Some(b"5000"), Sum(4850), Some(b"4850")),
        (Add(1), Some(BEFORE_LAST), Sum(i64::MAX), Some(LAST)),
        (Add(-1), Some(AFTER_FIRST), Sum(i64::MIN), Some(FIRST)),
        (Add(1), Some(b"007"), NotNumber, Some(b"007")),
        (Add(1), x, NotNumber, x),
        (Add(1), Some(LAST), OutOfRange, Some(LAST)),
        (Add(-1), Some(FIRST), OutOfRange, Some(FIRST)),
    ];
    for (asked, old, replied, new) in rows {
        assert!(rt;
            is_applied(rt.alloc(), asked, old, replied, new)?,
            "{asked:?} on {old:?}"
        );
    }
    Ok(())
}

// More items than any memory has.
const TOO_MANY: usize = usize::MAX;

// Whether a list keeps its items where it grows, where room is made, and where it cannot grow.
fn growing_list_keeps_items(alloc: Global) -> Result<bool, NoMemory> {
    let mut list: GrowingList<u16> = GrowingList::new(alloc);
    list.push(5)?;
    list.reserve(1)?;
    list.push_reserved(7);
    Ok(
        list.reserve(TOO_MANY).is_err()
            && list.as_slice() == [5, 7].as_slice()
            && list.at(2).is_none()
            && list.pop() == Some(7)
            && list.len() == 1
            && list.at(0).copied() == Some(5),
    )
}

// The same of a list that only grows.
fn append_only_list_keeps_entries(alloc: Global) -> Result<bool, NoMemory> {
    let mut list: AppendOnlyList<u16> = AppendOnlyList::new(alloc);
    let is_empty = list.is_empty();
    list.push(9)?;
    list.reserve(1)?;
    list.push_reserved(4);
    Ok(
        is_empty
            && list.reserve(TOO_MANY).is_err()
            && list.as_slice() == [9, 4].as_slice()
            && list.len() == 2
            && list.at(1).copied() == Some(4)
            && list.at(2).is_none(),
    )
}

// Whether bytes are copied into a text, and one is appended.
fn text_keeps_bytes(alloc: Global) -> Result<bool, NoMemory> {
    let mut text = Text::copy_of(alloc, b"1 BEGI")?;
    text.push(b'N')?;
    Ok(text.bytes() == b"1 BEGIN".as_slice() && Text::copy_of(alloc, b"")?.is_empty())
}

#[test]
fn lists_keep_their_items(rt: HostRuntime) -> Result<(), Fail> {
    assert!(rt; growing_list_keeps_items(rt.alloc())?);
    assert!(rt; append_only_list_keeps_entries(rt.alloc())?);
    assert!(rt; text_keeps_bytes(rt.alloc())?);
    Ok(())
}
