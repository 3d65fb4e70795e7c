//! A front and two nodes, with the packets between them.
use cl_front::Front;
use cl_lines::print_out;
use cl_node::{Node, every_node_has_state, nodes_send_to_actors};
use cl_post::{Machine, OutList, Outs};
use cl_samples::{NoSample, is_value, key, table};
use cl_serial::Said;
use cl_steps::FRONT;
use cl_types::{NoMemory, Refused};
use cl_wire::{Body, Packet};
use std::alloc::Global;
use std::collections::VecDeque;
use std::process::Abort;
use std::test::Fail;

// What a packet says.
#[derive(Clone, Copy, Debug, PartialEq, Eq)]
enum Kind {
    Bare,
    Command,
    Outcome,
    Ask,
    Answer,
    Prepare,
    Vote,
    Finish,
    Log,
    LogAck,
    Other,
}

// A packet as the tables write it: its sender, its receiver, and what it says.
type Shown = (u32, u32, Kind);

// An event of a run. Packets come in the order of their emission.
#[derive(Clone, Copy, Debug)]
enum Event {
    // The front is fed a line.
    Feeds(&'static str),
    // Each message that the actor keeps is due again.
    Ticks(u32),
    // The next packet comes.
    Comes(Shown),
    // The next packet is lost.
    IsLost(Shown),
    // The next packet comes twice. The second time it is acknowledged at most.
    ComesTwice(Shown),
}

fn kind_of(body: &Body) -> Kind {
    match body {
        Body::Bare => Kind::Bare,
        Body::Command(..) => Kind::Command,
        Body::Outcome(..) => Kind::Outcome,
        Body::Ask(..) => Kind::Ask,
        Body::Answer(..) => Kind::Answer,
        Body::Prepare(..) => Kind::Prepare,
        Body::Vote(..) => Kind::Vote,
        Body::Finish(..) => Kind::Finish,
        Body::Log(..) => Kind::Log,
        Body::LogAck(..) => Kind::LogAck,
        _ => Kind::Other,
    }
}

fn shown(packet: &Packet) -> Shown {
    (packet.from, packet.to, kind_of(&packet.body))
}

fn node_handles(rt: &impl Abort, node: &mut Node, packet: &Packet) -> Result<Outs, Refused> {
    assert!(rt; node.admits(packet));
    node.handle(packet)
}

fn node_ticks(node: &mut Node) -> Result<Outs, Refused> {
    every_node_has_state();
    node.tick()
}

fn front_handles(rt: &impl Abort, front: &mut Front, packet: &Packet) -> Result<Outs, Refused> {
    assert!(rt; front.admits(packet));
    front.handle(packet)
}

fn front_ticks(rt: &impl Abort, front: &mut Front) -> Result<Outs, Refused> {
    assert!(rt; front.admits_lines());
    front.tick()
}

fn front_feeds(
    rt: &impl Abort,
    front: &mut Front,
    line: u64,
    text: &str,
    said: &OutList,
) -> Result<Outs, Refused> {
    assert!(rt; front.admits_lines());
    front.feed(line, text.as_bytes(), said)
}

// Whether the step gave an acknowledgement at most.
fn is_quiet(outs: &Outs) -> bool {
    outs.packets.len() <= 1
        && outs
            .packets
            .iter()
            .all(|packet| kind_of(&packet.body) == Kind::Bare)
        && outs.firm.is_empty()
        && !outs.short
}

// A front and the nodes 0 and 1, which are the primaries of the virtual nodes of the same number, and
// each the standby of the other's.
#[derive(Drop)]
struct Cluster {
    front: Front,
    zero: Node,
    one: Node,
    // On their way, in the order of their emission.
    packets: VecDeque<Packet>,
    lines: u64,
    alloc: Global,
}

impl Cluster {
    fn new(alloc: Global) -> Result<Cluster, NoMemory> {
        Ok(Cluster {
            front: Front::new(alloc, 2, 0)?,
            zero: Node::new(alloc, 0, 2, 0)?,
            one: Node::new(alloc, 1, 2, 0)?,
            packets: VecDeque::new(alloc),
            lines: 0,
            alloc,
        })
    }

    fn feeds(&mut self, rt: &impl Abort, text: &str) -> Result<Outs, Refused> {
        assert!(rt; self.lines < 1000);
        self.lines += 1;
        let said = OutList::new(self.alloc);
        front_feeds(rt, &mut self.front, self.lines, text, &said)
    }

    fn ticks(&mut self, rt: &impl Abort, actor: u32) -> Result<Outs, Refused> {
        match actor {
            0 => node_ticks(&mut self.zero),
            1 => node_ticks(&mut self.one),
            _ => front_ticks(rt, &mut self.front),
        }
    }

    fn handles(&mut self, rt: &impl Abort, packet: &Packet) -> Result<Outs, Refused> {
        match packet.to {
            0 => node_handles(rt, &mut self.zero, packet),
            1 => node_handles(rt, &mut self.one, packet),
            _ => front_handles(rt, &mut self.front, packet),
        }
    }

    // Puts what was emitted on its way.
    fn sends(&mut self, outs: Outs) -> Result<(), NoMemory> {
        for packet in outs.packets {
            self.packets.push_back(packet)?;
        }
        Ok(())
    }

    // The next packet, where it is this one.
    fn next(&mut self, wanted: Shown) -> Option<Packet> {
        let packet = self.packets.pop_front()?;
        if shown(&packet) == wanted {
            Some(packet)
        } else {
            None
        }
    }

    fn comes(&mut self, rt: &impl Abort, packet: &Packet) -> Result<bool, Refused> {
        let outs = self.handles(rt, packet)?;
        self.sends(outs)?;
        Ok(true)
    }

    // Whether the packet, which came already, prints nothing and is acknowledged at most.
    fn comes_again(&mut self, rt: &impl Abort, packet: &Packet) -> Result<bool, Refused> {
        let printed = self.front.transcript().len();
        let outs = self.handles(rt, packet)?;
        let same = is_quiet(&outs) && self.front.transcript().len() == printed;
        self.sends(outs)?;
        Ok(same)
    }

    fn comes_twice(&mut self, rt: &impl Abort, packet: &Packet) -> Result<bool, Refused> {
        Ok(self.comes(rt, packet)? && self.comes_again(rt, packet)?)
    }

    // Whether the event goes as the row says.
    fn goes(&mut self, rt: &impl Abort, event: Event) -> Result<bool, Refused> {
        match event {
            Event::Feeds(text) => {
                let outs = self.feeds(rt, text)?;
                self.sends(outs)?;
                Ok(true)
            }
            Event::Ticks(actor) => {
                let outs = self.ticks(rt, actor)?;
                self.sends(outs)?;
                Ok(true)
            }
            Event::IsLost(wanted) => Ok(self.next(wanted).is_some()),
            Event::Comes(wanted) => match self.next(wanted) {
                Some(packet) => self.comes(rt, &packet),
                None => Ok(false),
            },
            Event::ComesTwice(wanted) => match self.next(wanted) {
                Some(packet) => self.comes_twice(rt, &packet),
                None => Ok(false),
            },
        }
    }

    // Whether no packet is on its way, and nobody has anything to do.
    fn rests(&self) -> bool {
        self.packets.is_empty()
            && self.front.answered()
            && !self.front.busy()
            && !self.zero.busy()
            && !self.one.waiting()
    }

    // Whether what was fed and printed is this text.
    fn told(&self, text: &str) -> Result<bool, NoMemory> {
        let mut all = Vec::new(self.alloc);
        for said in self.front.transcript().as_slice() {
            match said {
                Said::In(_, line) => {
                    all.extend_from_slice(line.bytes())?;
                    all.push(b'\n')?;
                }
                Said::Out(out) => all.extend_from_slice(&print_out(self.alloc, out)?)?,
                Said::Quiet => {}
            }
        }
        Ok(all.as_slice() == text.as_bytes())
    }

    // Whether keys `a`, of virtual node 0, and `b`, of 1, have these values in table `t`, at primary and
    // standby.
    fn stores(&self, a: Option<&[u8]>, b: Option<&[u8]>) -> Result<bool, NoSample> {
        Ok(
            stands(&self.zero, 0, b"a", a)?
                && stands(&self.one, 0, b"a", a)?
                && stands(&self.one, 1, b"b", b)?
                && stands(&self.zero, 1, b"b", b)?,
        )
    }
}

// Whether a key of table `t` has this value at the node's replica of the virtual node.
fn stands(node: &Node, v: u32, bytes: &[u8], wanted: Option<&[u8]>) -> Result<bool, NoSample> {
    match node.store(v) {
        Some(store) => Ok(is_value(store.get(&table(b"t")?, &key(bytes)?).1, wanted)),
        None => Ok(false),
    }
}

// Session 1 is of virtual node 1, so node 1 asks itself too. Each record goes to the standby. An answer
// waits for none, a vote for that of its Prepared, and the outcome of the COMMIT for that of its Decide.
const COMMIT: [Event; 54] = [
    Event::Feeds("1 BEGIN"),
    Event::Comes((FRONT, 1, Kind::Command)),
    Event::Comes((1, FRONT, Kind::Outcome)),
    Event::Comes((FRONT, 1, Kind::Bare)),
    Event::Feeds("1 PUT t a x"),
    Event::Comes((FRONT, 1, Kind::Command)),
    Event::Comes((1, FRONT, Kind::Bare)),
    Event::Comes((1, 0, Kind::Ask)),
    Event::Comes((0, 1, Kind::Log)),
    Event::Comes((0, 1, Kind::Answer)),
    Event::Comes((1, 0, Kind::LogAck)),
    Event::Comes((1, 0, Kind::Bare)),
    Event::Comes((1, FRONT, Kind::Outcome)),
    Event::Comes((0, 1, Kind::Bare)),
    Event::Comes((FRONT, 1, Kind::Bare)),
    Event::Feeds("1 PUT t b y"),
    Event::Comes((FRONT, 1, Kind::Command)),
    Event::Comes((1, FRONT, Kind::Bare)),
    Event::Comes((1, 1, Kind::Ask)),
    Event::Comes((1, 1, Kind::Answer)),
    Event::Comes((1, 0, Kind::Log)),
    Event::Comes((1, 1, Kind::Bare)),
    Event::Comes((1, FRONT, Kind::Outcome)),
    Event::Comes((0, 1, Kind::LogAck)),
    Event::Comes((FRONT, 1, Kind::Bare)),
    Event::Comes((1, 0, Kind::Bare)),
    Event::Feeds("1 COMMIT"),
    Event::Comes((FRONT, 1, Kind::Command)),
    Event::Comes((1, FRONT, Kind::Bare)),
    Event::Comes((1, 0, Kind::Prepare)),
    Event::Comes((1, 1, Kind::Prepare)),
    Event::Comes((0, 1, Kind::Log)),
    Event::Comes((1, 1, Kind::Bare)),
    Event::Comes((1, 0, Kind::Log)),
    Event::Comes((1, 0, Kind::LogAck)),
    Event::Comes((0, 1, Kind::LogAck)),
    Event::Comes((0, 1, Kind::Vote)),
    Event::Comes((1, 0, Kind::Bare)),
    Event::Comes((1, 1, Kind::Vote)),
    Event::Comes((1, 0, Kind::Bare)),
    Event::Comes((1, 1, Kind::Bare)),
    Event::Comes((1, 0, Kind::Log)),
    Event::Comes((0, 1, Kind::LogAck)),
    Event::Comes((1, 0, Kind::Finish)),
    Event::Comes((1, 1, Kind::Finish)),
    Event::Comes((1, FRONT, Kind::Outcome)),
    Event::Comes((0, 1, Kind::Log)),
    Event::Comes((1, 1, Kind::Bare)),
    Event::Comes((1, 0, Kind::Log)),
    Event::Comes((FRONT, 1, Kind::Bare)),
    Event::Comes((1, 0, Kind::LogAck)),
    Event::Comes((0, 1, Kind::LogAck)),
    Event::Comes((0, 1, Kind::Bare)),
    Event::Comes((1, 0, Kind::Bare)),
];

// A packet that is lost comes again after a tick of its sender.
const FATES: [Event; 65] = [
    Event::Feeds("1 BEGIN"),
    Event::IsLost((FRONT, 1, Kind::Command)),
    Event::Ticks(FRONT),
    Event::ComesTwice((FRONT, 1, Kind::Command)),
    Event::ComesTwice((1, FRONT, Kind::Outcome)),
    Event::Comes((1, FRONT, Kind::Bare)),
    Event::IsLost((FRONT, 1, Kind::Bare)),
    Event::Comes((FRONT, 1, Kind::Bare)),
    Event::Feeds("1 PUT t a x"),
    Event::Comes((FRONT, 1, Kind::Command)),
    Event::IsLost((1, FRONT, Kind::Bare)),
    Event::ComesTwice((1, 0, Kind::Ask)),
    Event::IsLost((0, 1, Kind::Log)),
    Event::IsLost((0, 1, Kind::Answer)),
    Event::Comes((0, 1, Kind::Bare)),
    Event::Ticks(0),
    Event::ComesTwice((0, 1, Kind::Log)),
    Event::ComesTwice((0, 1, Kind::Answer)),
    Event::IsLost((1, 0, Kind::LogAck)),
    Event::Comes((1, 0, Kind::Bare)),
    Event::Comes((1, 0, Kind::Bare)),
    Event::IsLost((1, FRONT, Kind::Outcome)),
    Event::Comes((1, 0, Kind::Bare)),
    Event::Ticks(1),
    Event::ComesTwice((1, 0, Kind::LogAck)),
    Event::ComesTwice((1, FRONT, Kind::Outcome)),
    Event::Comes((0, 1, Kind::Bare)),
    Event::Comes((0, 1, Kind::Bare)),
    Event::Comes((FRONT, 1, Kind::Bare)),
    Event::Comes((FRONT, 1, Kind::Bare)),
    Event::Feeds("1 COMMIT"),
    Event::Comes((FRONT, 1, Kind::Command)),
    Event::Comes((1, FRONT, Kind::Bare)),
    Event::IsLost((1, 0, Kind::Prepare)),
    Event::Ticks(1),
    Event::ComesTwice((1, 0, Kind::Prepare)),
    Event::ComesTwice((0, 1, Kind::Log)),
    Event::Comes((0, 1, Kind::Bare)),
    Event::ComesTwice((1, 0, Kind::LogAck)),
    Event::Comes((1, 0, Kind::Bare)),
    Event::IsLost((0, 1, Kind::Vote)),
    Event::Comes((0, 1, Kind::Bare)),
    Event::Ticks(0),
    Event::ComesTwice((0, 1, Kind::Vote)),
    Event::IsLost((1, 0, Kind::Log)),
    Event::Comes((1, 0, Kind::Bare)),
    Event::Ticks(1),
    Event::ComesTwice((1, 0, Kind::Log)),
    Event::IsLost((0, 1, Kind::LogAck)),
    Event::Comes((0, 1, Kind::Bare)),
    Event::Ticks(0),
    Event::ComesTwice((0, 1, Kind::LogAck)),
    Event::ComesTwice((1, 0, Kind::Finish)),
    Event::IsLost((1, FRONT, Kind::Outcome)),
    Event::Comes((1, 0, Kind::Bare)),
    Event::ComesTwice((0, 1, Kind::Log)),
    Event::Comes((0, 1, Kind::Bare)),
    Event::ComesTwice((1, 0, Kind::LogAck)),
    Event::Comes((1, 0, Kind::Bare)),
    Event::Comes((0, 1, Kind::Bare)),
    Event::Comes((0, 1, Kind::Bare)),
    Event::Ticks(1),
    Event::ComesTwice((1, FRONT, Kind::Outcome)),
    Event::Comes((FRONT, 1, Kind::Bare)),
    Event::Comes((FRONT, 1, Kind::Bare)),
];

// The second and the third line wait for the first. The second is refused without a command to the controller.
const TURNS: [Event; 15] = [
    Event::Feeds("1 BEGIN"),
    Event::Feeds("1 BEGIN"),
    Event::Feeds("1 GET t b"),
    Event::Comes((FRONT, 1, Kind::Command)),
    Event::Comes((1, FRONT, Kind::Outcome)),
    Event::Comes((FRONT, 1, Kind::Command)),
    Event::Comes((1, FRONT, Kind::Bare)),
    Event::Comes((1, 1, Kind::Ask)),
    Event::Comes((1, 1, Kind::Answer)),
    Event::Comes((1, 0, Kind::Log)),
    Event::Comes((1, 1, Kind::Bare)),
    Event::Comes((1, FRONT, Kind::Outcome)),
    Event::Comes((0, 1, Kind::LogAck)),
    Event::Comes((FRONT, 1, Kind::Bare)),
    Event::Comes((1, 0, Kind::Bare)),
];

fn run(rt: &impl Abort, alloc: Global, events: &[Event]) -> Result<Cluster, Refused> {
    let mut cluster = Cluster::new(alloc)?;
    for (row, event) in events.iter().enumerate() {
        assert!(rt; cluster.goes(rt, *event)?, "row {row}: {event:?}");
    }
    Ok(cluster)
}

#[test]
fn a_commit_over_two_virtual_nodes(rt: HostRuntime) -> Result<(), Fail> {
    let text = "1 BEGIN\n1 OK\n1 PUT t a x\n1 OK\n1 PUT t b y\n1 OK\n1 COMMIT\n1 COMMITTED\n";
    let cluster = run(&rt, rt.alloc(), &COMMIT)?;
    assert!(rt; cluster.rests() && cluster.told(text)? && cluster.stores(Some(b"x"), Some(b"y"))?);
    Ok(())
}

#[test]
fn packets_are_lost_and_repeated(rt: HostRuntime) -> Result<(), Fail> {
    let text = "1 BEGIN\n1 OK\n1 PUT t a x\n1 OK\n1 COMMIT\n1 COMMITTED\n";
    let cluster = run(&rt, rt.alloc(), &FATES)?;
    assert!(rt; cluster.rests() && cluster.told(text)? && cluster.stores(Some(b"x"), None)?);
    Ok(())
}

#[test]
fn lines_fed_at_once_have_their_turns(rt: HostRuntime) -> Result<(), Fail> {
    let text = "1 BEGIN\n1 BEGIN\n1 GET t b\n1 OK\n1 ERR INTXN\n1 NONE\n";
    let cluster = run(&rt, rt.alloc(), &TURNS)?;
    assert!(rt; cluster.rests() && cluster.told(text)? && cluster.stores(None, None)?);
    Ok(())
}

#[test]
fn a_node_has_its_own_virtual_node_and_the_one_before(rt: HostRuntime) -> Result<(), Fail> {
    nodes_send_to_actors();
    // The node, of 4 and a spare, and whether it has virtual nodes 0 to 3.
    let rows = [
        (0, [true, false, false, true]),
        (1, [true, true, false, false]),
        (3, [false, false, true, true]),
        (4, [false, false, false, false]),
    ];
    for (me, has) in rows {
        let node = Node::new(rt.alloc(), me, 4, 1)?;
        assert!(rt; node.noted() == 0 && !node.busy(), "{me}");
        for (v, wanted) in has.iter().enumerate() {
            assert!(rt; node.store(v as u32).is_some() == *wanted, "{me} has {v}");
        }
    }
    Ok(())
}
