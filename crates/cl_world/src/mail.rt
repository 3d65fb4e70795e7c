//! The packets on their way.
ghost use Rattle.std.specs.Prelude.{◌≡◌, ◌++◌, ◌∷◌, [], map, OnOk};
ghost use Rattle.cl_wire.specs.Message.{message_of};
ghost use Rattle.cl_world.specs.Mail.{forgotten, messages_in, to_living};

use cl_ranked::{Ranked, SLOTS_MAX};
use cl_steps::{FRONT, Packets};
use cl_types::NoMemory;
use cl_wire::Packet;

/// Keeps a packet that goes to an actor that lives: the front, or one of so many nodes and spares. The slot of any other
/// packet is empty.
pub(crate) fn keep(mail: &mut Ranked<Packet>, living: usize, packet: Packet) -> Result<(), NoMemory>
    ensures { OnOk result (messages_in mail.new ≡ messages_in mail.old ++ to_living living (message_of packet) ∷ []) }
{
    if mail.added() == SLOTS_MAX {
        return Err(NoMemory);
    }
    let lives = packet.to == FRONT || (packet.to as usize) < living;
    mail.add(lives.then_some(packet))
}

/// Keeps the packets of one event, in order. After an error some of them may be kept.
pub(crate) fn keep_all(
    mail: &mut Ranked<Packet>,
    living: usize,
    packets: Packets,
) -> Result<(), NoMemory>
    ensures { OnOk result (messages_in mail.new ≡ messages_in mail.old ++ map (to_living living) (map message_of packets.items)) }
{
    for packet in packets {
        keep(mail, living, packet)?;
    }
    Ok(())
}

/// Takes the packet of a number out of its slot.
pub(crate) fn forget_in(mail: &mut Ranked<Packet>, id: u64)
    ensures { mail.new ≡ forgotten mail.old id }
{
    if let Some(index) = id.checked_sub(1) {
        mail.take(index);
    }
}
