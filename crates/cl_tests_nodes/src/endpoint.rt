//! Packets between endpoints, with values worked out by hand.
ghost use Rattle.std.specs.Prelude.{◌<◌, IfOk};
ghost use Rattle.std.specs.List.{All};
ghost use Rattle.cl_types.specs.GrowingList.{items};

use cl_endpoint::{
    ACTORS, Endpoint, Received, accepted_is_next, emission_is_in_turn, emitted_is_kept,
    giving_is_sending,
};
use cl_steps::{FRONT, Outgoing, Packets, SendList};
use cl_types::{NoMemory, Refused, TxnId};
use cl_wire::{Body, Packet, Payload};
use std::alloc::Global;
use std::test::Fail;

// A packet as the tables write it: its receiver, its number, its acknowledgement, and the number of its content, 0 for
// none.
type Shown = (u32, u64, u64, u64);

// A content with a number.
fn content(number: u64) -> Payload {
    Payload::new(Body::Vote(0, TxnId { session: 1, number }))
}

fn shown(packet: &Packet) -> Shown {
    let number = match &packet.body {
        Body::Vote(_, txn) => txn.number,
        _ => 0,
    };
    (packet.to, packet.seq, packet.ack, number)
}

// A step of an exchange between node 0 and the front over a network that loses, repeats and reorders.
#[derive(Clone, Copy, Debug)]
enum Step {
    // The actor is given a content of this number for the other one.
    Gives(u32, u64),
    // The actor, which owes the other one an acknowledgement or not, emits these packets.
    Emits(u32, bool, &'static [Shown]),
    // The packet that was emitted at this index comes.
    Comes(usize, Received),
    // Each message that the actor keeps is due again.
    Ticks(u32),
    // Whether the actor keeps a message.
    Waits(u32, bool),
}

// Packet 0 is lost, 1 comes too early, 3 comes twice, and 6 comes after another with its message.
const FATES: [Step; 26] = [
    Step::Gives(0, 10),
    Step::Gives(0, 20),
    Step::Emits(0, false, &[(FRONT, 1, 0, 10), (FRONT, 2, 0, 20)]),
    Step::Emits(0, false, &[]),
    Step::Comes(1, Received::Gap),
    Step::Emits(FRONT, true, &[(0, 0, 0, 0)]),
    Step::Comes(2, Received::Bare),
    Step::Ticks(0),
    Step::Emits(0, false, &[(FRONT, 1, 0, 10), (FRONT, 2, 0, 20)]),
    Step::Comes(3, Received::Now),
    Step::Comes(3, Received::Old),
    Step::Gives(FRONT, 30),
    Step::Emits(FRONT, true, &[(0, 1, 1, 30)]),
    Step::Comes(4, Received::Now),
    Step::Comes(5, Received::Now),
    Step::Ticks(0),
    Step::Emits(0, true, &[(FRONT, 2, 1, 20)]),
    Step::Comes(6, Received::Old),
    Step::Waits(0, true),
    Step::Waits(FRONT, false),
    Step::Emits(FRONT, true, &[(0, 0, 2, 0)]),
    Step::Comes(7, Received::Bare),
    Step::Waits(0, false),
    Step::Ticks(0),
    Step::Emits(0, false, &[]),
    Step::Ticks(FRONT),
];

#[derive(Drop)]
struct Exchange {
    alloc: Global,
    node: Endpoint,
    front: Endpoint,
    // The sender of each packet that was emitted, and the packet.
    packets: Vec<(u32, Shown)>,
}

impl Exchange {
    fn new(alloc: Global) -> Result<Exchange, NoMemory> {
        Ok(Exchange {
            alloc,
            node: Endpoint::new(alloc, 0, 4, 2)?,
            front: Endpoint::new(alloc, FRONT, 4, 2)?,
            packets: Vec::new(alloc),
        })
    }

    fn end(&mut self, actor: u32) -> &mut Endpoint {
        if actor == FRONT {
            &mut self.front
        } else {
            &mut self.node
        }
    }

    fn emits(&mut self, actor: u32, owed: bool, packets: &[Shown]) -> Result<bool, NoMemory> {
        let peer = if actor == FRONT { 0 } else { FRONT };
        let alloc = self.alloc;
        let emitted = self.end(actor).emit(alloc, owed.then_some(peer))?;
        self.notes(actor, &emitted)?;
        Ok(are_shown(&emitted, packets))
    }

    fn notes(&mut self, actor: u32, emitted: &Packets) -> Result<(), NoMemory> {
        for packet in emitted {
            self.packets.push((actor, shown(packet)))?;
        }
        Ok(())
    }

    fn comes(&mut self, index: usize) -> Option<Received> {
        let (from, (to, seq, ack, _)) = *self.packets.get(index)?;
        if from as usize >= ACTORS {
            return None;
        }
        Some(self.end(to).receive(from, seq, ack))
    }

    // Whether the step goes as the row says.
    fn goes(&mut self, step: Step) -> Result<bool, Refused> {
        match step {
            Step::Gives(actor, number) => {
                let peer = if actor == FRONT { 0 } else { FRONT };
                self.end(actor).give(peer, content(number))?;
                Ok(true)
            }
            Step::Emits(actor, owed, packets) => match self.emits(actor, owed, packets) {
                Ok(are_same) => Ok(are_same),
                Err(_) => Err(Refused::NoMemory),
            },
            Step::Comes(index, received) => Ok(self.comes(index) == Some(received)),
            Step::Ticks(actor) => {
                self.end(actor).tick();
                Ok(true)
            }
            Step::Waits(actor, waits) => Ok(self.end(actor).waiting() == waits),
        }
    }
}

fn are_shown(emitted: &Packets, packets: &[Shown]) -> bool {
    emitted.len() == packets.len()
        && emitted
            .iter()
            .zip(packets)
            .all(|(packet, row)| shown(packet) == *row)
}

#[test]
fn messages_over_a_lossy_network(rt: HostRuntime) -> Result<(), Fail> {
    let mut exchange = Exchange::new(rt.alloc())?;
    for (row, step) in FATES.iter().enumerate() {
        assert!(rt; exchange.goes(*step)?, "row {row}: {step:?}");
    }
    Ok(())
}

fn receiver(number: u64) -> u32
    ensures { result < ACTORS }
{
    match number % 3 {
        0 => 5,
        1 => 2,
        _ => 9,
    }
}

// Forty messages, in turn to nodes 5, 2 and 9.
fn forty(alloc: Global) -> Result<SendList, NoMemory>
    ensures { IfOk result (λ sends. All (λ send. send.to < ACTORS) (items sends)) }
{
    let mut sends = SendList::new(alloc);
    for number in 0..40u64 {
        sends.push(Outgoing {
            to: receiver(number),
            payload: content(number),
        })?;
    }
    Ok(sends)
}

// Messages that follow each other: their receiver, the first number and the last.
type Stretch = (u32, u64, u64);

// Whether the packets are those of the stretches, one stretch after another.
fn are_stretches(packets: &Packets, stretches: &[Stretch]) -> bool {
    let mut index = 0;
    for (to, first, last) in stretches {
        for seq in *first..=*last {
            match packets.get(index) {
                Some(packet) if packet.to == *to && packet.seq == seq => index += 1,
                _ => return false,
            }
        }
    }
    index == packets.len()
}

// The first emission owes node 9 an acknowledgement. It takes 32 messages, and the next one the 8 that are left.
#[test]
fn forty_messages_are_emitted_in_two_events(rt: HostRuntime) -> Result<(), Fail> {
    let rows: [(Option<u32>, &[Stretch]); 3] = [
        (Some(9), &[(9, 1, 1), (2, 1, 13), (5, 1, 14), (9, 2, 5)]),
        (None, &[(9, 6, 13)]),
        (Some(2), &[(2, 0, 0)]),
    ];
    let mut endpoint = Endpoint::new(rt.alloc(), 0, 8, 8)?;
    endpoint.give_all(forty(rt.alloc())?)?;
    for (owed, stretches) in rows {
        let packets = endpoint.emit(rt.alloc(), owed)?;
        assert!(rt; are_stretches(&packets, stretches), "owed to {owed:?}");
    }
    Ok(())
}

#[test]
fn acknowledgements_are_owed_to_senders_of_messages(rt: HostRuntime) -> Result<(), Fail> {
    let rows = [
        (Received::Dropped, None),
        (Received::Bare, None),
        (Received::Now, Some(3)),
        (Received::Old, Some(3)),
        (Received::Gap, Some(3)),
    ];
    for (received, owed) in rows {
        assert!(rt; received.owed_to(3) == owed, "after {received:?}");
    }
    let endpoint = Endpoint::new(rt.alloc(), 0, 8, 8)?;
    assert!(rt; endpoint.set_number() == 0 && endpoint.roster().is_empty());
    Ok(())
}

#[test]
fn the_laws_are_called() {
    accepted_is_next();
    giving_is_sending();
    emitted_is_kept();
    emission_is_in_turn();
}
