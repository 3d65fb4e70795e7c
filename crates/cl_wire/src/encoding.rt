//! From packets to bytes.
ghost use Rattle.std.specs.Prelude.{◌≡◌, ◌++◌, IfOk, OnOk};
ghost use Rattle.cl_fields.specs.Spelling.{byte, number_32, number_64, flag_byte, txn_bytes};
ghost use Rattle.cl_fields.specs.Range.{IsVirtualNode, IsTxn};
ghost use Rattle.cl_wire.specs.Message.{content_of, kind_of, message_of};
ghost use Rattle.cl_wire.specs.Spelling.{header_bytes, content_bytes, spelling};
ghost use Rattle.cl_wire.specs.Range.{IsContent, IsInRange};

use crate::kind::Kind;
use crate::limits::{PACKET_MAX, VERSION};
use crate::{Body, Packet};
use cl_fields::Writer;
use cl_types::{NoMemory, TxnId};
use std::alloc::Global;

impl Body {
    // The kind of the body.
    fn kind(&self) -> Kind
        ensures { result ≡ kind_of (content_of self.now) }
    {
        match self {
            Body::Bare => Kind::Bare,
            Body::Command(..) => Kind::Command,
            Body::Outcome(..) => Kind::Outcome,
            Body::Ask(..) => Kind::Ask,
            Body::Answer(..) => Kind::Answer,
            Body::Prepare(..) => Kind::Prepare,
            Body::Vote(..) => Kind::Vote,
            Body::Finish(..) => Kind::Finish,
            Body::Inquire(..) => Kind::Inquire,
            Body::Decision(..) => Kind::Decision,
            Body::Log(..) => Kind::Log,
            Body::LogAck(..) => Kind::LogAck,
            Body::Repair(..) => Kind::Repair,
            Body::Records(..) => Kind::Records,
            Body::Names(..) => Kind::Names,
            Body::CopyAck(..) => Kind::CopyAck,
        }
    }
}

// Writes a virtual node and a transaction.
fn write_part(writer: &mut Writer, v: u32, txn: TxnId) -> Result<(), NoMemory>
    requires v { IsVirtualNode v }
    requires txn { IsTxn txn }
    ensures { OnOk result (writer.new ≡ writer.old ++ byte v ++ txn_bytes txn) }
{
    writer.small(v)?;
    writer.txn(txn)
}

// Writes a virtual node, a transaction and the number of a command in it.
fn write_command_number(
    writer: &mut Writer,
    v: u32,
    txn: TxnId,
    command_number: u32,
) -> Result<(), NoMemory>
    requires v { IsVirtualNode v }
    requires txn { IsTxn txn }
    ensures { OnOk result (writer.new ≡ writer.old ++ byte v ++ txn_bytes txn ++ number_32 command_number) }
{
    write_part(writer, v, txn)?;
    writer.u32(command_number)
}

// Writes a virtual node, a transaction and whether it is committed.
fn write_end(writer: &mut Writer, v: u32, txn: TxnId, commit: bool) -> Result<(), NoMemory>
    requires v { IsVirtualNode v }
    requires txn { IsTxn txn }
    ensures { OnOk result (writer.new ≡ writer.old ++ byte v ++ txn_bytes txn ++ byte (flag_byte commit)) }
{
    write_part(writer, v, txn)?;
    writer.flag(commit)
}

// Writes a virtual node and a number of its log.
fn write_number(writer: &mut Writer, v: u32, number: u64) -> Result<(), NoMemory>
    requires { IsVirtualNode v }
    ensures { OnOk result (writer.new ≡ writer.old ++ byte v ++ number_64 number) }
{
    writer.small(v)?;
    writer.u64(number)
}

// Writes a virtual node and the index of a piece of its copy.
fn write_index(writer: &mut Writer, v: u32, index: u32) -> Result<(), NoMemory>
    requires { IsVirtualNode v }
    ensures { OnOk result (writer.new ≡ writer.old ++ byte v ++ number_32 index) }
{
    writer.small(v)?;
    writer.u32(index)
}

// Writes the fields after the header.
#[tactic(auto, unfolding(crate::specs::Spelling::content_bytes))]
fn write_body(writer: &mut Writer, body: &Body) -> Result<(), NoMemory>
    requires { IsContent (content_of body.now) }
    ensures { OnOk result (writer.new ≡ writer.old ++ content_bytes (content_of body.now)) }
{
    match body {
        Body::Bare => Ok(()),
        Body::Command(v, txn, command_number, asked) => {
            write_command_number(writer, *v, *txn, *command_number)?;
            writer.command(asked)
        }
        Body::Outcome(txn, command_number, outcome) => {
            writer.txn(*txn)?;
            writer.u32(*command_number)?;
            writer.outcome(outcome)
        }
        Body::Ask(v, txn, command_number, table, key, op) => {
            write_command_number(writer, *v, *txn, *command_number)?;
            writer.op(table, key, op)
        }
        Body::Answer(v, txn, command_number, answer) => {
            write_command_number(writer, *v, *txn, *command_number)?;
            writer.answer(answer)
        }
        Body::Prepare(v, txn) => write_part(writer, *v, *txn),
        Body::Vote(v, txn) => write_part(writer, *v, *txn),
        Body::Finish(v, txn, commit) => write_end(writer, *v, *txn, *commit),
        Body::Inquire(v, txn) => write_part(writer, *v, *txn),
        Body::Decision(v, txn, commit) => write_end(writer, *v, *txn, *commit),
        Body::Log(v, number, entry) => {
            write_number(writer, *v, *number)?;
            writer.entry(entry)
        }
        Body::LogAck(v, number) => write_number(writer, *v, *number),
        Body::Repair(v, node) => {
            writer.small(*v)?;
            writer.small(*node)
        }
        Body::Records(v, index, records) => {
            write_index(writer, *v, *index)?;
            writer.items(records)
        }
        Body::Names(v, index, last, low, txns) => {
            write_index(writer, *v, *index)?;
            writer.flag(*last)?;
            writer.u64(*low)?;
            writer.txns(txns)
        }
        Body::CopyAck(v, index) => write_index(writer, *v, *index),
    }
}

// Writes the fields before the body.
#[tactic(auto, unfolding(crate::specs::Spelling::header_bytes))]
fn write_header(writer: &mut Writer, packet: &Packet) -> Result<(), NoMemory>
    requires { IsInRange (message_of packet.now) }
    ensures { OnOk result (writer.new ≡ writer.old ++ header_bytes (message_of packet.now)) }
{
    writer.byte(VERSION)?;
    writer.byte(packet.body.kind().byte())?;
    writer.small(packet.from)?;
    writer.small(packet.to)?;
    writer.u32(packet.set)?;
    writer.u64(packet.seq)?;
    writer.u64(packet.ack)
}

/// Returns the one spelling of a packet whose fields are in their ranges.
///
/// It allocates once and runs in linear time; no contract says so.
#[tactic(auto, unfolding(crate::specs::Spelling::spelling))]
pub fn encode(alloc: Global, packet: &Packet) -> Result<Vec<u8>, NoMemory>
    requires { IsInRange (message_of packet.now) }
    ensures { IfOk result (λ bytes. bytes.items ≡ spelling (message_of packet.now)) }
{
    let mut writer = Writer::with_room(alloc, PACKET_MAX)?;
    write_header(&mut writer, packet)?;
    write_body(&mut writer, &packet.body)?;
    Ok(writer.into_bytes())
}
