//! Emission: which packets go out after an event.
ghost use Rattle.std.specs.Prelude.{is_some, ◌≡◌, [], ◌∷◌, ◌++◌, ◌+◌, ◌<◌, ◌≤◌, ◌-◌, length, map, take, IfOk, OnOk, IfSome};
ghost use Rattle.std.specs.List.{fold};
ghost use Rattle.cl_link.specs.LinkState.{due_of};
ghost use Rattle.cl_wire.specs.Message.{content_of, message_of};
ghost use Rattle.cl_endpoint.specs.Endpoint.{link_to};
ghost use Rattle.cl_endpoint.specs.Emission.{all_due, due_to, or_bare, owed_packets, packet_to, after_packet, emitted, after_emit};

use crate::{ACTORS, Endpoint};
use cl_steps::{PACKETS_MAX, Packets};
use cl_types::NoMemory;
use cl_wire::{Body, Packet};
use std::alloc::Global;

impl Endpoint {
    /// Emits packets: first, where an acknowledgement is owed, one to that actor, and then the other due messages, by
    /// receiver and then by number. What does not fit stays due.
    ///
    /// It copies each message that it emits, since a link keeps it. Where it gives up for want of memory, the actor may
    /// only be dropped; no clause says when.
    pub fn emit(&mut self, alloc: Global, owed: Option<u32>) -> Result<Packets, NoMemory>
        requires { IfSome owed (λ peer. peer < ACTORS) }
        ensures packets { IfOk result (λ packets. map message_of packets.items ≡ emitted self.old owed) }
        ensures after { OnOk result (self.new ≡ after_emit self.old owed) }
    {
        let mut packets = Packets::new(alloc);
        self.emit_owed(alloc, owed, &mut packets)?;
        self.emit_due(alloc, &mut packets)?;
        Ok(packets)
    }

    // Emits the packet to the actor to whom an acknowledgement is owed, if there is one.
    fn emit_owed(
        &mut self,
        alloc: Global,
        owed: Option<u32>,
        packets: &mut Packets,
    ) -> Result<(), NoMemory>
        requires { IfSome owed (λ peer. peer < ACTORS) }
        ensures packets { OnOk result
            (map message_of packets.new.items ≡ map message_of packets.old.items ++ owed_packets self.old owed) }
        ensures after { OnOk result (self.new ≡ fold after_packet self.old (owed_packets self.old owed)) }
    {
        match owed {
            Some(peer) => self.emit_to(alloc, peer, packets),
            None => Ok(()),
        }
    }

    // Emits the due messages, by receiver and then by number, as many as fit.
    fn emit_due(&mut self, alloc: Global, packets: &mut Packets) -> Result<(), NoMemory>
        ensures packets { OnOk result (map message_of packets.new.items
            ≡ map message_of packets.old.items ++ take (PACKETS_MAX - length packets.old.items) (all_due self.old)) }
        ensures after { OnOk result (self.new
            ≡ fold after_packet self.old (take (PACKETS_MAX - length packets.old.items) (all_due self.old))) }
    {
        // To read a field is to know that there is a link to each actor.
        let _me = self.me;
        for peer in 0..ACTORS as u32 {
            self.emit_due_to(alloc, peer, packets)?;
        }
        Ok(())
    }

    // Emits the due messages to an actor, by number, as many as fit.
    fn emit_due_to(
        &mut self,
        alloc: Global,
        peer: u32,
        packets: &mut Packets,
    ) -> Result<(), NoMemory>
        requires { peer < ACTORS }
        ensures packets { OnOk result (map message_of packets.new.items
            ≡ map message_of packets.old.items ++ take (PACKETS_MAX - length packets.old.items) (due_to self.old peer)) }
        ensures after { OnOk result (self.new
            ≡ fold after_packet self.old (take (PACKETS_MAX - length packets.old.items) (due_to self.old peer))) }
    {
        for _ in packets.len()..PACKETS_MAX {
            if !self.has_due(peer) {
                return Ok(());
            }
            self.emit_to(alloc, peer, packets)?;
        }
        Ok(())
    }

    // Whether a message to an actor is due. There is a link to each actor.
    fn has_due(&self, peer: u32) -> bool
        requires { peer < ACTORS }
        ensures due { result ≡ is_some (due_of (link_to self.now peer)) }
        ensures links { length self.now.links ≡ ACTORS }
    {
        self.links[peer as usize].due().is_some()
    }

    // A copy of the least due message to an actor, or a bare acknowledgement, with its number.
    fn due_or_bare(&self, alloc: Global, peer: u32) -> Result<(u64, Body), NoMemory>
        requires { peer < ACTORS }
        ensures { IfOk result (λ message.
            (message.0, content_of message.1) ≡ or_bare (due_of (link_to self.now peer))) }
    {
        let Some((seq, payload)) = self.links[peer as usize].due() else {
            return Ok((0, Body::Bare));
        };
        let body = payload.copy(alloc)?.into_body();
        Ok((seq, body))
    }

    // Emits a packet to an actor: its least due message, which is no longer due, or a bare acknowledgement.
    #[tactic(auto, unfolding(crate::specs::Emission::after_packet, crate::specs::Emission::packet_to))]
    fn emit_to(&mut self, alloc: Global, peer: u32, packets: &mut Packets) -> Result<(), NoMemory>
        requires { peer < ACTORS }
        ensures packets { OnOk result
            (map message_of packets.new.items ≡ map message_of packets.old.items ++ packet_to self.old peer ∷ []) }
        ensures count { OnOk result (length packets.new.items ≡ length packets.old.items + 1) }
        ensures after { OnOk result (self.new ≡ after_packet self.old (packet_to self.old peer)) }
    {
        let (seq, body) = self.due_or_bare(alloc, peer)?;
        let set = self.set_number();
        let link = &mut self.links[peer as usize];
        link.sent(seq);
        packets.push(Packet {
            from: self.me,
            to: peer,
            set,
            seq,
            ack: link.accepted(),
            body,
        })?;
        Ok(())
    }
}
