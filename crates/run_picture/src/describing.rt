//! Events in words.
use cl_log::LogRec;
use cl_steps::FRONT;
use cl_types::{NoMemory, TxnId};
use cl_wire::{Body, Packet};
use std::alloc::Global;

// Appends a text.
fn push(text: &mut Vec<u8>, more: &[u8]) -> Result<(), NoMemory> {
    text.extend_from_slice(more)?;
    Ok(())
}

// Appends an actor's name, as wide as the longest one.
fn push_actor(alloc: Global, text: &mut Vec<u8>, actor: u32) -> Result<(), NoMemory> {
    if actor == FRONT {
        push(text, b"front ")
    } else {
        push(text, format!(in alloc; "node {actor}")?.as_bytes())
    }
}

// What a record of a log is called.
fn name_of(content: &LogRec) -> &'static str {
    match content {
        LogRec::Touch(..) => "Log of Touch",
        LogRec::Set(..) => "Log of Set",
        LogRec::Add(..) => "Log of Add",
        LogRec::Comp(..) => "Log of Comp",
        LogRec::Prepared(_) => "Log of Prepared",
        LogRec::End(..) => "Log of End",
        LogRec::Decide(_) => "Log of Decide",
    }
}

// The kind of a packet, and the transaction that it names, if it names one.
fn kind_of(body: &Body) -> (&'static str, Option<TxnId>) {
    match body {
        Body::Bare => ("acknowledges", None),
        Body::Command(_, txn, _, _) => ("Command", Some(*txn)),
        Body::Outcome(txn, _, _) => ("Outcome", Some(*txn)),
        Body::Ask(_, txn, ..) => ("Ask", Some(*txn)),
        Body::Answer(_, txn, ..) => ("Answer", Some(*txn)),
        Body::Prepare(_, txn) => ("Prepare", Some(*txn)),
        Body::Vote(_, txn) => ("Vote", Some(*txn)),
        Body::Finish(_, txn, true) => ("Finish with commit", Some(*txn)),
        Body::Finish(_, txn, false) => ("Finish without commit", Some(*txn)),
        Body::Log(_, _, content) => (name_of(content), Some(content.txn())),
        Body::LogAck(..) => ("LogAck", None),
        _ => ("another kind", None),
    }
}

/// Appends that a line is fed.
pub fn push_line(
    alloc: Global,
    text: &mut Vec<u8>,
    number: u64,
    line: &[u8],
) -> Result<(), NoMemory> {
    push(text, format!(in alloc; "line {number}: ")?.as_bytes())?;
    push(text, line)?;
    push(text, b"\n")
}

/// Appends that a packet is handled.
pub fn push_packet(
    alloc: Global,
    text: &mut Vec<u8>,
    id: u64,
    packet: &Packet,
) -> Result<(), NoMemory> {
    push(text, format!(in alloc; "  packet {id:>2}   ")?.as_bytes())?;
    push_actor(alloc, text, packet.from)?;
    push(text, b" -> ")?;
    push_actor(alloc, text, packet.to)?;
    let (kind, txn) = kind_of(&packet.body);
    push(text, b"   ")?;
    push(text, kind.as_bytes())?;
    if let Some(txn) = txn {
        push(
            text,
            format!(in alloc; " {}.{}", txn.session, txn.number)?.as_bytes(),
        )?;
    }
    push(text, b"\n")
}
