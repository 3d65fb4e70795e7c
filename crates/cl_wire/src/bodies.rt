//! Reading the bodies of packets, kind by kind.
#![tactic(auto, unfolding(crate::specs::PacketReading::read_content))]

ghost use Rattle.cl_fields.specs.Reading.{Gives};
ghost use Rattle.cl_wire.specs.Message.{content_of};
ghost use Rattle.cl_wire.specs.PacketReading.{read_content};
ghost use Rattle.cl_wire.specs.declared.kind.Kind.TheVariants as kinds;

use crate::Body;
use crate::kind::Kind;
use cl_fields::{Reader, Undecoded};
use std::alloc::Global;

fn command_body(reader: &mut Reader<'_>, alloc: Global) -> Result<Body, Undecoded>
    ensures { Gives content_of result reader.new (read_content kinds.Command reader.old) }
{
    Ok(Body::Command(
        reader.virtual_node()?,
        reader.txn()?,
        reader.command_number()?,
        reader.command(alloc)?,
    ))
}

fn outcome_body(reader: &mut Reader<'_>, alloc: Global) -> Result<Body, Undecoded>
    ensures { Gives content_of result reader.new (read_content kinds.Outcome reader.old) }
{
    Ok(Body::Outcome(
        reader.txn()?,
        reader.command_number()?,
        reader.outcome(alloc)?,
    ))
}

fn ask_body(reader: &mut Reader<'_>, alloc: Global) -> Result<Body, Undecoded>
    ensures { Gives content_of result reader.new (read_content kinds.Ask reader.old) }
{
    let v = reader.virtual_node()?;
    let txn = reader.txn()?;
    let command_number = reader.command_number()?;
    let (table, key, op) = reader.op(alloc)?;
    Ok(Body::Ask(v, txn, command_number, table, key, op))
}

fn answer_body(reader: &mut Reader<'_>, alloc: Global) -> Result<Body, Undecoded>
    ensures { Gives content_of result reader.new (read_content kinds.Answer reader.old) }
{
    Ok(Body::Answer(
        reader.virtual_node()?,
        reader.txn()?,
        reader.command_number()?,
        reader.answer(alloc)?,
    ))
}

fn prepare_body(reader: &mut Reader<'_>) -> Result<Body, Undecoded>
    ensures { Gives content_of result reader.new (read_content kinds.Prepare reader.old) }
{
    Ok(Body::Prepare(reader.virtual_node()?, reader.txn()?))
}

fn vote_body(reader: &mut Reader<'_>) -> Result<Body, Undecoded>
    ensures { Gives content_of result reader.new (read_content kinds.Vote reader.old) }
{
    Ok(Body::Vote(reader.virtual_node()?, reader.txn()?))
}

fn finish_body(reader: &mut Reader<'_>) -> Result<Body, Undecoded>
    ensures { Gives content_of result reader.new (read_content kinds.Finish reader.old) }
{
    Ok(Body::Finish(reader.virtual_node()?, reader.txn()?, reader.flag()?))
}

fn inquire_body(reader: &mut Reader<'_>) -> Result<Body, Undecoded>
    ensures { Gives content_of result reader.new (read_content kinds.Inquire reader.old) }
{
    Ok(Body::Inquire(reader.virtual_node()?, reader.txn()?))
}

fn decision_body(reader: &mut Reader<'_>) -> Result<Body, Undecoded>
    ensures { Gives content_of result reader.new (read_content kinds.Decision reader.old) }
{
    Ok(Body::Decision(reader.virtual_node()?, reader.txn()?, reader.flag()?))
}

fn log_body(reader: &mut Reader<'_>, alloc: Global) -> Result<Body, Undecoded>
    ensures { Gives content_of result reader.new (read_content kinds.Log reader.old) }
{
    Ok(Body::Log(
        reader.virtual_node()?,
        reader.number()?,
        reader.entry(alloc)?,
    ))
}

fn log_ack_body(reader: &mut Reader<'_>) -> Result<Body, Undecoded>
    ensures { Gives content_of result reader.new (read_content kinds.LogAck reader.old) }
{
    Ok(Body::LogAck(reader.virtual_node()?, reader.number()?))
}

fn repair_body(reader: &mut Reader<'_>) -> Result<Body, Undecoded>
    ensures { Gives content_of result reader.new (read_content kinds.Repair reader.old) }
{
    Ok(Body::Repair(reader.virtual_node()?, reader.node()?))
}

fn records_body(reader: &mut Reader<'_>, alloc: Global) -> Result<Body, Undecoded>
    ensures { Gives content_of result reader.new (read_content kinds.Records reader.old) }
{
    Ok(Body::Records(
        reader.virtual_node()?,
        reader.index()?,
        reader.items(alloc)?,
    ))
}

fn names_body(reader: &mut Reader<'_>, alloc: Global) -> Result<Body, Undecoded>
    ensures { Gives content_of result reader.new (read_content kinds.Names reader.old) }
{
    Ok(Body::Names(
        reader.virtual_node()?,
        reader.index()?,
        reader.flag()?,
        reader.u64()?,
        reader.txns(alloc)?,
    ))
}

fn copy_ack_body(reader: &mut Reader<'_>) -> Result<Body, Undecoded>
    ensures { Gives content_of result reader.new (read_content kinds.CopyAck reader.old) }
{
    Ok(Body::CopyAck(reader.virtual_node()?, reader.index()?))
}

/// Reads the body of a packet of this kind.
pub(crate) fn body(reader: &mut Reader<'_>, alloc: Global, kind: Kind) -> Result<Body, Undecoded>
    ensures { Gives content_of result reader.new (read_content kind reader.old) }
{
    match kind {
        Kind::Bare => Ok(Body::Bare),
        Kind::Command => command_body(reader, alloc),
        Kind::Outcome => outcome_body(reader, alloc),
        Kind::Ask => ask_body(reader, alloc),
        Kind::Answer => answer_body(reader, alloc),
        Kind::Prepare => prepare_body(reader),
        Kind::Vote => vote_body(reader),
        Kind::Finish => finish_body(reader),
        Kind::Inquire => inquire_body(reader),
        Kind::Decision => decision_body(reader),
        Kind::Log => log_body(reader, alloc),
        Kind::LogAck => log_ack_body(reader),
        Kind::Repair => repair_body(reader),
        Kind::Records => records_body(reader, alloc),
        Kind::Names => names_body(reader, alloc),
        Kind::CopyAck => copy_ack_body(reader),
    }
}
