//! From bytes to packets.
ghost use Rattle.std.specs.Prelude.{◌≡◌, Ok, IfOk};
ghost use Rattle.cl_fields.specs.Reading.{Gives, ReadsField};
ghost use Rattle.cl_wire.specs.Message.{Message, message_of};
ghost use Rattle.cl_wire.specs.Laws.{Spells};
ghost use Rattle.cl_wire.specs.PacketReading as reading;
ghost use Rattle.cl_wire.specs.PacketReading.{Decodes, read_kind, read_seq, read_header, read_message, read_packet};

use crate::Packet;
use crate::bodies::body;
use crate::kind::Kind;
use crate::limits::VERSION;
use cl_fields::{Reader, Undecoded, WireFault};
use std::alloc::Global;

/// The fields before the body.
#[derive(Clone, Copy)]
struct Header {
    kind: Kind,
    from: u32,
    to: u32,
    set: u32,
    seq: u64,
    ack: u64,
}

// Whether a message of this kind may have that number.
fn is_seq(kind: Kind, seq: u64) -> bool
    ensures { result ≡ reading.is_seq kind seq }
{
    match kind {
        Kind::Bare => seq == 0,
        _ => 1 <= seq,
    }
}

#[tactic(auto, unfolding(crate::specs::PacketReading::read_kind))]
fn next_kind(reader: &mut Reader<'_>) -> Result<Kind, Undecoded>
    ensures { ReadsField result reader.new (read_kind reader.old) }
{
    match Kind::of_byte(reader.byte()?) {
        Some(kind) => Ok(kind),
        None => Err(WireFault::Kind.into()),
    }
}

// Reads the number of a message of this kind.
#[tactic(auto, unfolding(crate::specs::PacketReading::read_seq))]
fn next_seq(reader: &mut Reader<'_>, kind: Kind) -> Result<u64, Undecoded>
    ensures { ReadsField result reader.new (read_seq kind reader.old) }
{
    let seq = reader.u64()?;
    if is_seq(kind, seq) {
        Ok(seq)
    } else {
        Err(WireFault::Field.into())
    }
}

#[tactic(auto, unfolding(crate::specs::PacketReading::read_header))]
fn next_header(reader: &mut Reader<'_>) -> Result<Header, Undecoded>
    ensures { ReadsField result reader.new (read_header reader.old) }
{
    reader.between(VERSION, VERSION)?;
    let kind = next_kind(reader)?;
    Ok(Header {
        kind,
        from: reader.actor()?,
        to: reader.actor()?,
        set: reader.u32()?,
        seq: next_seq(reader, kind)?,
        ack: reader.u64()?,
    })
}

#[tactic(auto, unfolding(crate::specs::PacketReading::read_message))]
fn next_packet(reader: &mut Reader<'_>, alloc: Global) -> Result<Packet, Undecoded>
    ensures { Gives message_of result reader.new (read_message reader.old) }
{
    let header = next_header(reader)?;
    let body = body(reader, alloc, header.kind)?;
    Ok(Packet {
        from: header.from,
        to: header.to,
        set: header.set,
        seq: header.seq,
        ack: header.ack,
        body,
    })
}

// Reads the packet that all of the bytes are.
#[tactic(auto, unfolding(crate::specs::PacketReading::read_packet))]
fn read_whole(alloc: Global, bytes: &[u8]) -> Result<Packet, Undecoded>
    ensures { Decodes result (read_packet bytes.now) }
{
    let mut reader = Reader::of(bytes);
    let packet = next_packet(&mut reader, alloc)?;
    if reader.is_at_end() {
        Ok(packet)
    } else {
        Err(WireFault::Rest.into())
    }
}

/// Returns the packet that the bytes spell, or the first field from the left that cannot be read.
///
/// It allocates for values and lists alone and runs in linear time; no contract says so.
pub fn decode(alloc: Global, bytes: &[u8]) -> Result<Packet, Undecoded>
    // What is read is spelled so.
    ensures found { IfOk result (λ packet. Spells bytes.now (message_of packet)) }
    // What is spelled so is read, or the call gives up for want of memory; no clause says when.
    ensures only { (m : Message) → Spells bytes.now m → Decodes result (Ok m) }
    // Which fault it is.
    ensures exact { Decodes result (read_packet bytes.now) }
{
    read_whole(alloc, bytes)
}
