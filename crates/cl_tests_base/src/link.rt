//! Exchanges over links, with values worked out by hand.
use cl_link::{Link, Taken, in_order_and_once};
use cl_types::{NoMemory, Refused};
use std::alloc::Global;
use std::test::Fail;

// A step of an exchange over a network that loses, repeats and reorders.
#[derive(Clone, Copy, Debug)]
enum Step {
    // The sender emits its due message, which has this number, or has none.
    Emits(Option<u64>),
    // The packet that was emitted at this index arrives; then so many are accepted.
    Comes(usize, Taken, u64),
    // The sender hears an acknowledgement; then so many messages are kept.
    Hears(u64, usize),
    // Each kept message is due again.
    Tick,
}

// Of the packets, counted from 0, 1 and 7 are lost, 2, 4 and 6 come too early, 0 and 6 come twice, and 3 comes late.
const FATES: [Step; 32] = [
    Step::Emits(Some(1)),
    Step::Emits(Some(2)),
    Step::Emits(Some(3)),
    Step::Emits(Some(4)),
    Step::Emits(Some(5)),
    Step::Emits(None),
    Step::Comes(0, Taken::Now, 1),
    Step::Comes(2, Taken::Gap, 1),
    Step::Comes(4, Taken::Gap, 1),
    Step::Hears(1, 4),
    Step::Emits(None),
    Step::Tick,
    Step::Emits(Some(2)),
    Step::Emits(Some(3)),
    Step::Comes(6, Taken::Gap, 1),
    Step::Comes(5, Taken::Now, 2),
    Step::Comes(6, Taken::Now, 3),
    Step::Comes(0, Taken::Old, 3),
    Step::Comes(3, Taken::Now, 4),
    Step::Hears(2, 3),
    Step::Emits(Some(4)),
    Step::Hears(4, 1),
    Step::Hears(2, 1),
    Step::Emits(Some(5)),
    Step::Emits(None),
    Step::Tick,
    Step::Emits(Some(5)),
    Step::Comes(9, Taken::Now, 5),
    Step::Comes(8, Taken::Old, 5),
    Step::Hears(5, 0),
    Step::Tick,
    Step::Emits(None),
];

#[derive(Drop)]
struct Exchange {
    sender: Link<u32>,
    receiver: Link<u32>,
    // Every packet that was emitted: its number and its message.
    packets: Vec<(u64, u32)>,
    took: Vec<u32>,
}

impl Exchange {
    fn new(alloc: Global) -> Exchange {
        Exchange {
            sender: Link::new(alloc),
            receiver: Link::new(alloc),
            packets: Vec::new(alloc),
            took: Vec::new(alloc),
        }
    }

    fn emit(&mut self) -> Result<Option<u64>, NoMemory> {
        let Some((number, body)) = self.sender.due() else {
            return Ok(None);
        };
        self.packets.push((number, *body))?;
        self.sender.sent(number);
        Ok(Some(number))
    }

    fn come(&mut self, index: usize) -> Result<Option<Taken>, NoMemory> {
        match self.packets.get(index) {
            Some(&(number, body)) if number >= 1 => {
                let taken = self.receiver.accept(number, 0);
                if taken == Taken::Now {
                    self.took.push(body)?;
                }
                Ok(Some(taken))
            }
            _ => Ok(None),
        }
    }

    // Whether the step goes as the row says.
    fn goes(&mut self, step: Step) -> Result<bool, NoMemory> {
        match step {
            Step::Emits(number) => Ok(self.emit()? == number),
            Step::Comes(index, taken, accepted) => {
                Ok(self.come(index)? == Some(taken) && self.receiver.accepted() == accepted)
            }
            Step::Hears(ack, unacked) => {
                self.sender.heard(ack);
                Ok(self.sender.unacked() == unacked)
            }
            Step::Tick => {
                self.sender.again();
                Ok(true)
            }
        }
    }
}

#[test]
fn five_messages_over_a_lossy_network(rt: HostRuntime) -> Result<(), Fail> {
    let bodies = [10, 20, 30, 40, 50];
    let mut exchange = Exchange::new(rt.alloc());
    for body in bodies {
        exchange.sender.send(body)?;
    }
    for (row, step) in FATES.iter().enumerate() {
        assert!(rt; exchange.goes(*step)?, "row {row}: {step:?}");
    }
    assert!(rt; exchange.took.as_slice() == bodies.as_slice());
    Ok(())
}

// A call on one end of a link.
#[derive(Clone, Copy, Debug)]
enum Call {
    // A message is given, and gets this number.
    Send(u32, u64),
    // The message with this number is sent.
    Sent(u64),
    // A message arrives, with its number and its acknowledgement.
    Accept(u64, u64, Taken),
    // Each kept message is due again.
    Again,
    DropAll,
}

fn due(link: &Link<u32>) -> Option<(u64, u32)> {
    link.due().map(|(number, body)| (number, *body))
}

// Whether the message gets this number. Where an allocation fails, nothing is kept of it, and it is given again.
fn gives(link: &mut Link<u32>, body: u32, number: u64) -> bool {
    let before = (due(link), link.last_number());
    let mut given = link.send(body);
    if given == Err(Refused::NoMemory) {
        if (due(link), link.last_number()) != before {
            return false;
        }
        given = link.send(body);
    }
    given == Ok(number)
}

// Whether the call answers as the row says.
fn answers(link: &mut Link<u32>, call: Call) -> bool {
    match call {
        Call::Send(body, number) => gives(link, body, number),
        Call::Sent(number) => {
            link.sent(number);
            true
        }
        Call::Accept(number, ack, taken) => number >= 1 && link.accept(number, ack) == taken,
        Call::Again => {
            link.again();
            true
        }
        Call::DropAll => {
            link.drop_all();
            true
        }
    }
}

// Each call, the message that is due afterwards with its number, and how many messages are kept.
#[test]
fn one_end_of_a_link(rt: HostRuntime) {
    let rows = [
        (Call::Send(7, 1), Some((1, 7)), 1),
        (Call::Send(8, 2), Some((1, 7)), 2),
        (Call::Send(9, 3), Some((1, 7)), 3),
        (Call::Sent(2), Some((1, 7)), 3),
        (Call::Sent(1), Some((3, 9)), 3),
        (Call::Accept(2, 0, Taken::Gap), Some((3, 9)), 3),
        (Call::Accept(1, 1, Taken::Now), Some((3, 9)), 2),
        (Call::Accept(1, 1, Taken::Old), Some((3, 9)), 2),
        (Call::Accept(2, 1, Taken::Now), Some((3, 9)), 2),
        (Call::Again, Some((2, 8)), 2),
        (Call::DropAll, None, 0),
        (Call::Send(6, 4), Some((4, 6)), 1),
    ];
    let mut link = Link::new(rt.alloc());
    for row in rows {
        let (call, next, unacked) = row;
        assert!(rt;
            answers(&mut link, call) && due(&link) == next && link.unacked() == unacked,
            "at {row:?}"
        );
    }
    assert!(rt; link.accepted() == 2);
}

#[test]
fn the_law_at_a_type() {
    in_order_and_once::<u32>();
}
