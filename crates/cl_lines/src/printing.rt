//! Printing an answer. Each `push_` function appends to the text.
ghost use Rattle.std.specs.Prelude.{◌≡◌, ◌++◌, OnOk, IfOk};
ghost use Rattle.std.specs.Fmt.{decimal, signed_decimal};
ghost use Rattle.cl_lines.specs.Out.{txn_text, reply_text, cause_text, outcome_text, fault_text, printed, text_of};

use crate::{LineFault, Out};
use cl_types::{AbortCause, NoMemory, Outcome, Reply, TxnId};
use itoa::Buffer;
use std::alloc::Global;

fn push_bytes(text: &mut Vec<u8>, bytes: &[u8]) -> Result<(), NoMemory>
    ensures { OnOk result (text.new.items ≡ text.old.items ++ bytes.now) }
{
    text.extend_from_slice(bytes)?;
    Ok(())
}

fn push_number(text: &mut Vec<u8>, number: u64) -> Result<(), NoMemory>
    ensures { OnOk result (text.new.items ≡ text.old.items ++ decimal number) }
{
    push_bytes(text, Buffer::new().format(number).as_bytes())
}

fn push_signed(text: &mut Vec<u8>, number: i64) -> Result<(), NoMemory>
    ensures { OnOk result (text.new.items ≡ text.old.items ++ signed_decimal number) }
{
    push_bytes(text, Buffer::new().format(number).as_bytes())
}

fn push_txn(text: &mut Vec<u8>, txn: TxnId) -> Result<(), NoMemory>
    ensures { OnOk result (text.new.items ≡ text.old.items ++ txn_text txn) }
{
    push_number(text, u64::from(txn.session))?;
    push_bytes(text, b".")?;
    push_number(text, txn.number)
}

fn push_reply(text: &mut Vec<u8>, reply: &Reply) -> Result<(), NoMemory>
    ensures { OnOk result (text.new.items ≡ text.old.items ++ reply_text reply.now) }
{
    match reply {
        Reply::Stored => push_bytes(text, b"OK"),
        Reply::Found(value) => {
            push_bytes(text, b"VAL ")?;
            push_bytes(text, value.bytes())
        }
        Reply::Absent => push_bytes(text, b"NONE"),
        Reply::Sum(sum) => {
            push_bytes(text, b"NUM ")?;
            push_signed(text, *sum)
        }
        Reply::NotNumber => push_bytes(text, b"ERR NOTNUM"),
        Reply::OutOfRange => push_bytes(text, b"ERR RANGE"),
    }
}

fn push_cause(text: &mut Vec<u8>, cause: AbortCause) -> Result<(), NoMemory>
    ensures { OnOk result (text.new.items ≡ text.old.items ++ cause_text cause) }
{
    match cause {
        AbortCause::Conflict(holder) => {
            push_bytes(text, b"CONFLICT ")?;
            push_txn(text, holder)
        }
        AbortCause::Node(node) => {
            push_bytes(text, b"NODE ")?;
            push_number(text, u64::from(node))
        }
        AbortCause::Client => push_bytes(text, b"CLIENT"),
        AbortCause::Memory => push_bytes(text, b"MEMORY"),
    }
}

fn push_outcome(text: &mut Vec<u8>, outcome: &Outcome) -> Result<(), NoMemory>
    ensures { OnOk result (text.new.items ≡ text.old.items ++ outcome_text outcome.now) }
{
    match outcome {
        Outcome::Done(reply) => push_reply(text, reply),
        Outcome::Begun => push_bytes(text, b"OK"),
        Outcome::Committed => push_bytes(text, b"COMMITTED"),
        Outcome::Aborted(cause) => {
            push_bytes(text, b"ABORTED ")?;
            push_cause(text, *cause)
        }
        Outcome::NotTxn => push_bytes(text, b"ERR NOTXN"),
        Outcome::InTxn => push_bytes(text, b"ERR INTXN"),
        Outcome::Full => push_bytes(text, b"ERR FULL"),
    }
}

fn push_fault(text: &mut Vec<u8>, fault: LineFault) -> Result<(), NoMemory>
    ensures { OnOk result (text.new.items ≡ text.old.items ++ fault_text fault) }
{
    match fault {
        LineFault::Length => push_bytes(text, b"LENGTH"),
        LineFault::Words => push_bytes(text, b"WORDS"),
        LineFault::Session => push_bytes(text, b"SESSION"),
        LineFault::Table => push_bytes(text, b"TABLE"),
        LineFault::Key => push_bytes(text, b"KEY"),
        LineFault::Value => push_bytes(text, b"VALUE"),
        LineFault::Number => push_bytes(text, b"NUMBER"),
    }
}

fn push_out(text: &mut Vec<u8>, out: &Out) -> Result<(), NoMemory>
    ensures { OnOk result (text.new.items ≡ text.old.items ++ printed out.now) }
{
    match out {
        Out::Answer(session, outcome) => {
            push_number(text, u64::from(*session))?;
            push_bytes(text, b" ")?;
            push_outcome(text, outcome)
        }
        Out::BadLine(line, fault) => {
            push_bytes(text, b"* ERR LINE ")?;
            push_number(text, *line)?;
            push_bytes(text, b" ")?;
            push_fault(text, *fault)
        }
    }
}

/// Prints one line, with its newline. It takes linear time and memory; no contract says so.
#[tactic(auto, unfolding(crate::specs::Out::text_of))]
pub fn print_out(alloc: Global, out: &Out) -> Result<Vec<u8>, NoMemory>
    ensures { IfOk result (λ text. text.items ≡ text_of out.now) }
{
    let mut text = Vec::new(alloc);
    push_out(&mut text, out)?;
    push_bytes(&mut text, b"\n")?;
    Ok(text)
}
