//! Worked packets, with bytes from outside the program.
ghost use Rattle.std.specs.Prelude.{◌≡◌, IfOk};
ghost use Rattle.cl_wire.specs.Message.{message_of};

use cl_log::{Form, LogRec};
use cl_samples::{is_value, txn as sample_txn};
use cl_types::{AbortCause, Answer, Command, Key, NoMemory, Op, Outcome, Reply, TableName, TxnId};
use cl_wire::*;
use std::alloc::{AllocError, Global};
use std::test::Fail;

// What the front sends to node 1 for the BEGIN of session 1.
const BEGIN: [u8; 39] = [
    1, 1, 16, 1, 0, 0, 0, 0, 0, 0, 0, 0, 0, 0, 0, 1, 0, 0, 0, 0, 0, 0, 0, 0, 1, 1, 0, 0, 0, 0, 0,
    0, 0, 1, 0, 0, 0, 0, 0,
];

// Node 1 acknowledges the front's message 1.
const BARE: [u8; 24] = [
    1, 0, 1, 16, 0, 0, 0, 0, 0, 0, 0, 0, 0, 0, 0, 0, 0, 0, 0, 0, 0, 0, 0, 1,
];

const TXN: TxnId = TxnId {
    session: 1,
    number: 2,
};

// The packet of a kind between two actors, with number 1, set number 0 and nothing acknowledged.
fn spelled(
    alloc: Global,
    kind: u8,
    from: u8,
    to: u8,
    fields: &[u8],
) -> Result<Vec<u8>, AllocError> {
    let mut bytes = Vec::from_slice(alloc, &[1, kind, from, to])?;
    bytes.extend_from_slice(&[0, 0, 0, 0, 0, 0, 0, 0, 0, 0, 0, 1])?;
    bytes.extend_from_slice(&[0, 0, 0, 0, 0, 0, 0, 0])?;
    bytes.extend_from_slice(fields)?;
    Ok(bytes)
}

// The packet with a copy of a copy of its body, made by way of payloads.
fn copied(alloc: Global, packet: Packet) -> Result<Packet, NoMemory>
    ensures { IfOk result (λ copy. message_of copy ≡ message_of packet) }
{
    let first = Payload::new(packet.body);
    let second = Payload::new(first.body().copy(alloc)?);
    let body = second.copy(alloc)?.into_body();
    Ok(Packet { body, ..packet })
}

// The packet that the bytes spell, with its body copied, if it is spelled by the same bytes again.
fn read_back(alloc: Global, bytes: &[u8]) -> Result<Option<Packet>, NoMemory> {
    match decode(alloc, bytes) {
        Ok(packet) => {
            let packet = copied(alloc, packet)?;
            if encode(alloc, &packet)?.as_slice() == bytes {
                Ok(Some(packet))
            } else {
                Ok(None)
            }
        }
        Err(Undecoded::Fault(_)) => Ok(None),
        Err(Undecoded::NoMemory) => Err(NoMemory),
    }
}

fn fault_of(alloc: Global, bytes: &[u8]) -> Option<WireFault> {
    match decode(alloc, bytes) {
        Err(Undecoded::Fault(fault)) => Some(fault),
        _ => None,
    }
}

// The fault where one byte of the worked packet is another.
fn fault_with(alloc: Global, index: usize, byte: u8) -> Option<WireFault> {
    let mut bytes = BEGIN;
    match bytes.get_mut(index) {
        Some(old) => *old = byte,
        None => {}
    }
    fault_of(alloc, &bytes)
}

fn is_place(table: &TableName, key: &Key, wanted: (&[u8], &[u8])) -> bool {
    table.bytes() == wanted.0 && key.bytes() == wanted.1
}

// Whether the packet is that of the first bytes above, or of the second.
fn is_worked(packet: &Packet, is_begin: bool) -> bool {
    let actors = (packet.from, packet.to);
    let numbers = (packet.set, packet.seq, packet.ack);
    match &packet.body {
        Body::Command(1, txn, 0, Command::Begin) => {
            is_begin && *txn == sample_txn(1, 1) && actors == (16, 1) && numbers == (0, 1, 0)
        }
        Body::Bare => !is_begin && actors == (1, 16) && numbers == (0, 0, 1),
        _ => false,
    }
}

#[test]
fn the_worked_packets(rt: HostRuntime) -> Result<(), Fail> {
    let rows = [
        ("begin", BEGIN.as_slice(), true),
        ("bare", BARE.as_slice(), false),
    ];
    for (name, bytes, is_begin) in rows {
        let packet = read_back(rt.alloc(), bytes)?;
        assert!(rt;
            matches!(&packet, Some(packet) if is_worked(packet, is_begin)),
            "{name}"
        );
    }
    Ok(())
}

#[test]
fn the_first_fault_is_named(rt: HostRuntime) -> Result<(), Fail> {
    for count in 0..BEGIN.len() {
        assert!(rt;
            fault_of(rt.alloc(), &BEGIN[..count]) == Some(WireFault::Short),
            "{count} bytes"
        );
    }
    let rows = [
        (0, 2, WireFault::Field),
        (1, 16, WireFault::Kind),
        (25, 0, WireFault::Field),
        (25, 65, WireFault::Field),
        (38, 7, WireFault::Field),
    ];
    for row in rows {
        let (index, byte, fault) = row;
        assert!(rt;
            fault_with(rt.alloc(), index, byte) == Some(fault),
            "at {row:?}"
        );
    }
    Ok(())
}

#[test]
fn a_kind_is_named_before_what_is_short(rt: HostRuntime) {
    assert!(rt; fault_of(rt.alloc(), &[1, 16]) == Some(WireFault::Kind));
}

#[test]
fn a_byte_too_many_is_named(rt: HostRuntime) -> Result<(), Fail> {
    let mut longer = Vec::from_slice(rt.alloc(), &BEGIN)?;
    longer.push(0)?;
    assert!(rt; fault_of(rt.alloc(), &longer) == Some(WireFault::Rest));
    Ok(())
}

// A table's length and bytes are one field, a value's length is a field of its own.
#[test]
fn a_length_out_of_range(rt: HostRuntime) -> Result<(), Fail> {
    for (table_length, fault) in [(1, WireFault::Field), (9, WireFault::Short)] {
        let fields = [
            5,
            1,
            0,
            0,
            0,
            0,
            0,
            0,
            0,
            2,
            0,
            0,
            0,
            65,
            2,
            table_length,
            b't',
            1,
            b'k',
            0,
            129,
        ];
        let bytes = spelled(rt.alloc(), 1, 16, 1, &fields)?;
        assert!(rt;
            fault_of(rt.alloc(), &bytes) == Some(fault),
            "a table of {table_length}"
        );
    }
    Ok(())
}

// What the bodies of kinds 1 to 4 say in the test below.
fn is_told_of_an_operation(kind: u8, body: &Body) -> bool {
    match (kind, body) {
        (1, Body::Command(5, txn, 65, Command::Work(table, key, Op::Put(value)))) => {
            *txn == TXN && is_place(table, key, (b"t", b"k")) && is_value(Some(value), Some(b"v"))
        }
        (2, Body::Outcome(txn, 3, Outcome::Aborted(AbortCause::Conflict(holder)))) => {
            *txn == TXN && *holder == sample_txn(2, 7)
        }
        (3, Body::Ask(7, txn, 1, table, key, Op::Add(-5))) => {
            *txn == TXN && is_place(table, key, (b"acct", b"k00"))
        }
        (4, Body::Answer(7, txn, 1, Answer::Done(Reply::Found(value)))) => {
            *txn == TXN && is_value(Some(value), Some(b"1000"))
        }
        _ => false,
    }
}

#[test]
fn operations_and_their_outcomes(rt: HostRuntime) -> Result<(), Fail> {
    let command = [
        5, 1, 0, 0, 0, 0, 0, 0, 0, 2, 0, 0, 0, 65, 2, 1, b't', 1, b'k', 0, 1, b'v',
    ];
    let outcome = [
        1, 0, 0, 0, 0, 0, 0, 0, 2, 0, 0, 0, 3, 3, 0, 2, 0, 0, 0, 0, 0, 0, 0, 7,
    ];
    let ask = [
        7, 1, 0, 0, 0, 0, 0, 0, 0, 2, 0, 0, 0, 1, 4, 4, b'a', b'c', b'c', b't', 3, b'k', b'0',
        b'0', 255, 255, 255, 255, 255, 255, 255, 251,
    ];
    let answer = [
        7, 1, 0, 0, 0, 0, 0, 0, 0, 2, 0, 0, 0, 1, 0, 1, 0, 4, b'1', b'0', b'0', b'0',
    ];
    let rows = [
        (1, (16, 1), command.as_slice()),
        (2, (1, 16), &outcome),
        (3, (1, 2), &ask),
        (4, (2, 1), &answer),
    ];
    for (kind, (from, to), fields) in rows {
        let packet = read_back(rt.alloc(), &spelled(rt.alloc(), kind, from, to, fields)?)?;
        assert!(rt;
            matches!(&packet, Some(packet) if is_told_of_an_operation(kind, &packet.body)),
            "kind {kind}"
        );
    }
    Ok(())
}

// What the bodies of kinds 5 to 12 and 15 say in the tests below.
fn is_told_of_a_step(kind: u8, body: &Body) -> bool {
    match (kind, body) {
        (5, Body::Prepare(3, txn)) => *txn == TXN,
        (6, Body::Vote(3, txn)) => *txn == TXN,
        (7, Body::Finish(3, txn, true)) => *txn == TXN,
        (8, Body::Inquire(3, txn)) => *txn == TXN,
        (9, Body::Decision(3, txn, true)) => *txn == TXN,
        (11, Body::LogAck(1, 12)) => true,
        (12, Body::Repair(1, 5)) => true,
        (15, Body::CopyAck(1, 2)) => true,
        _ => false,
    }
}

#[test]
fn the_steps_of_a_commit(rt: HostRuntime) -> Result<(), Fail> {
    let ended = [3, 1, 0, 0, 0, 0, 0, 0, 0, 2, 1];
    for (kind, count) in [(5, 10), (6, 10), (7, 11), (8, 10), (9, 11)] {
        let packet = read_back(
            rt.alloc(),
            &spelled(rt.alloc(), kind, 1, 2, &ended[..count])?,
        )?;
        assert!(rt;
            matches!(&packet, Some(packet) if is_told_of_a_step(kind, &packet.body)),
            "kind {kind}"
        );
    }
    Ok(())
}

#[test]
fn log_and_copy_are_asked_for_and_acknowledged(rt: HostRuntime) -> Result<(), Fail> {
    let rows = [
        (11, (2, 1), [1, 0, 0, 0, 0, 0, 0, 0, 12].as_slice()),
        (12, (16, 1), &[1, 5]),
        (15, (5, 1), &[1, 0, 0, 0, 2]),
    ];
    for (kind, (from, to), fields) in rows {
        let packet = read_back(rt.alloc(), &spelled(rt.alloc(), kind, from, to, fields)?)?;
        assert!(rt;
            matches!(&packet, Some(packet) if is_told_of_a_step(kind, &packet.body)),
            "kind {kind}"
        );
    }
    Ok(())
}

// The record 12 of virtual node 1, which writes 6 over 5.
const SET: [u8; 39] = [
    1, 0, 0, 0, 0, 0, 0, 0, 12, 2, 1, 0, 0, 0, 0, 0, 0, 0, 2, 1, b't', 1, b'a', 0, 0, 0, 0, 0, 0,
    0, 11, 1, 0, 1, b'5', 1, 0, 1, b'6',
];

// The record 12 of virtual node 1, which takes an addition of 2 back.
const UNDONE: [u8; 48] = [
    1, 0, 0, 0, 0, 0, 0, 0, 12, 4, 1, 0, 0, 0, 0, 0, 0, 0, 2, 1, b't', 1, b'a', 0, 0, 0, 0, 0, 0,
    0, 11, 0, 0, 0, 0, 0, 0, 0, 10, 1, 0, 0, 0, 0, 0, 0, 0, 2,
];

// Whether the body is the record of the bytes above: the one that writes a value, or the other.
fn is_record(is_write: bool, body: &Body) -> bool {
    match body {
        Body::Log(1, 12, LogRec::Set(txn, table, key, 11, Some(old), Some(new))) => {
            is_write
                && *txn == TXN
                && is_place(table, key, (b"t", b"a"))
                && is_value(Some(old), Some(b"5"))
                && is_value(Some(new), Some(b"6"))
        }
        Body::Log(1, 12, LogRec::Comp(txn, table, key, 11, 10, Form::Amount(2))) => {
            !is_write && *txn == TXN && is_place(table, key, (b"t", b"a"))
        }
        _ => false,
    }
}

#[test]
fn records_of_the_log(rt: HostRuntime) -> Result<(), Fail> {
    let rows = [
        ("set", SET.as_slice(), true),
        ("undone", UNDONE.as_slice(), false),
    ];
    for (name, fields, is_write) in rows {
        let packet = read_back(rt.alloc(), &spelled(rt.alloc(), 10, 1, 2, fields)?)?;
        assert!(rt;
            matches!(&packet, Some(packet) if is_record(is_write, &packet.body)),
            "{name}"
        );
    }
    Ok(())
}

// Where an allocation fails, the bytes have no fault, and are read then.
#[test]
fn a_failed_allocation_is_no_fault_of_the_bytes(rt: HostRuntime) -> Result<(), Fail> {
    let bytes = spelled(rt.alloc(), 10, 1, 2, &SET)?;
    let mut found = read_back(rt.alloc(), &bytes);
    if found.is_err() {
        found = read_back(rt.alloc(), &bytes);
    }
    assert!(rt; found?.is_some());
    Ok(())
}

// Whether the body is the first piece of a copy, with one dead record of number 12, or the second and last piece, with
// one name, followed from number 13.
fn is_piece(kind: u8, body: &Body) -> bool {
    match (kind, body) {
        (13, Body::Records(1, 1, list)) => match list.as_slice() {
            [item] => item.number == 12 && item.value.is_none(),
            _ => false,
        },
        (14, Body::Names(1, 2, true, 13, list)) => list.as_slice() == [TXN].as_slice(),
        _ => false,
    }
}

#[test]
fn the_pieces_of_a_copy(rt: HostRuntime) -> Result<(), Fail> {
    let record = [
        1, 0, 0, 0, 1, 1, 1, b't', 1, b'a', 0, 0, 0, 0, 0, 0, 0, 12, 0,
    ];
    let name = [
        1, 0, 0, 0, 2, 1, 0, 0, 0, 0, 0, 0, 0, 13, 1, 1, 0, 0, 0, 0, 0, 0, 0, 2,
    ];
    for (kind, fields) in [(13, record.as_slice()), (14, &name)] {
        let packet = read_back(rt.alloc(), &spelled(rt.alloc(), kind, 1, 5, fields)?)?;
        assert!(rt;
            matches!(&packet, Some(packet) if is_piece(kind, &packet.body)),
            "kind {kind}"
        );
    }
    Ok(())
}

// A record with the longest names and the longest value.
fn longest_record(alloc: Global) -> Result<Vec<u8>, AllocError> {
    let mut bytes = Vec::from_slice(alloc, &[8])?;
    bytes.extend_from_slice(&[b't'; 8])?;
    bytes.push(32)?;
    bytes.extend_from_slice(&[b'k'; 32])?;
    bytes.extend_from_slice(&[0, 0, 0, 0, 0, 0, 0, 9, 1, 0, 128])?;
    bytes.extend_from_slice(&[b'v'; 128])?;
    Ok(bytes)
}

fn has_four(body: &Body) -> bool {
    matches!(body, Body::Records(1, 1, list) if list.len() == 4)
}

#[test]
fn the_longest_packet(rt: HostRuntime) -> Result<(), Fail> {
    let mut bytes = spelled(rt.alloc(), 13, 1, 5, &[1, 0, 0, 0, 1, 4])?;
    let record = longest_record(rt.alloc())?;
    for _ in 0..4 {
        bytes.extend_from_slice(&record)?;
    }
    let packet = read_back(rt.alloc(), &bytes)?;
    assert!(rt; bytes.len() == PACKET_MAX && packet.is_some_and(|packet| has_four(&packet.body)));
    Ok(())
}

#[test]
fn the_laws_are_called() {
    spelling_and_reading_agree();
    bytes_spell_at_most_one();
    no_spelling_begins_another();
    no_spelling_is_longer();
    what_faults_mean();
}
