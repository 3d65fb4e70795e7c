//! The world: a run of the whole system, event by event.
ghost use Rattle.std.specs.Prelude.{◌≡◌, ◌+◌, ◌-◌, [], IfOk, length, slice_get};
ghost use Rattle.std.specs.Option.{option_copied, option_map};
ghost use Rattle.cl_ranked.specs.Slots.{kept, slot_at};
ghost use Rattle.cl_roster.specs.Roster.{IsClusterSize};
ghost use Rattle.cl_runs.specs.World.{Shape, Run, IsLiving};
ghost use Rattle.cl_endpoint.specs.Endpoint.{is_waiting};
ghost use Rattle.cl_serial.specs.Transcript.{transcript_of};
ghost use Rattle.cl_steps.specs.declared.actors.TheConstants.{FRONT};
ghost use Rattle.cl_types.specs.GrowingList.{items};
ghost use Rattle.cl_system.specs.System.{transcript_in};
ghost use Rattle.cl_world.specs.Actors.{is_waiting_at};
ghost use Rattle.cl_world.specs.Mail.{forgotten, on_way};
ghost use Rattle.cl_world.specs.World.{IsWorldOf, IsWhole, moment_after};

use crate::actors::Actors;
use crate::firm::Firm;
use crate::mail::forget_in;
use cl_post::{Event, OutList, Trace};
use cl_ranked::Ranked;
use cl_roster::Roster;
use cl_serial::Transcript;
use cl_types::NoMemory;
use cl_wire::Packet;
use std::alloc::Global;

/// A run of the whole system: the front and the nodes, the packets on their way, the history, the trace and the roster.
///
/// Contracts see it by the run that it has made (`IsWorldOf`), of which the trace is the record. It makes what is asked of
/// it and never chooses. A packet is kept until it is forgotten.
#[derive(Drop)]
pub struct World {
    pub(crate) alloc: Global,
    pub(crate) nodes: u32,
    pub(crate) spares: u32,
    pub(crate) actors: Actors,
    // The packet of number k stands in the slot of index k - 1.
    pub(crate) mail: Ranked<Packet>,
    pub(crate) firm: Firm,
    pub(crate) trace: Trace,
    pub(crate) lines: u64,
    pub(crate) quiet_now: bool,
    // Nothing has happened in it so far.
    pub(crate) roster: Roster,
}

impl World {
    /// The world of a cluster of so many nodes and spares in which nothing has happened yet.
    pub fn new(alloc: Global, nodes: u32, spares: u32) -> Result<World, NoMemory>
        requires { IsClusterSize nodes spares }
        ensures made { IfOk result (λ made. IsWorldOf (record { nodes = nodes; spares = spares }) made []) }
        ensures whole { IfOk result (λ made. IsWhole (record { nodes = nodes; spares = spares }) made) }
    {
        Ok(World {
            alloc,
            nodes,
            spares,
            actors: Actors::new(alloc, nodes, spares)?,
            mail: Ranked::new(alloc),
            firm: Firm::new(alloc),
            trace: Trace::new(alloc),
            lines: 0,
            quiet_now: false,
            roster: Roster::new(alloc, nodes, spares),
        })
    }

    /// Forgets a packet: the one of this number is not kept from now on.
    pub fn forget(&mut self, id: u64)
        ensures forgotten { self.new ≡ record self.old { mail = forgotten self.old.mail id } }
        ensures made { (shape : Shape) (run : Run) → IsWorldOf shape self.old run → IsWorldOf shape self.new run }
    {
        forget_in(&mut self.mail, id);
    }

    /// The number and the receiver of the packet at a place, from 0, among those that are kept, by number.
    pub fn way(&self, place: usize) -> Option<(u64, u32)>
        ensures { result ≡ option_map on_way (slice_get (kept self.now.mail) place) }
    {
        // The index is below this number, so the next number fits.
        let _added = self.mail.added();
        let (index, packet) = self.mail.nth(place as u64)?;
        Some((index + 1, packet.to))
    }

    /// The allocator that it was made with.
    pub fn alloc(&self) -> Global {
        self.alloc
    }

    /// How many nodes and spares there are.
    pub fn members(&self) -> usize
        ensures { (shape : Shape) (run : Run) → IsWorldOf shape self.now run → result ≡ shape.nodes + shape.spares }
    {
        self.actors.members.len()
    }

    /// How many events the run has.
    pub fn events(&self) -> usize
        ensures { (shape : Shape) (run : Run) → IsWorldOf shape self.now run → result ≡ length run }
    {
        self.trace.len()
    }

    /// How many packets are kept.
    pub fn on_way(&self) -> u64
        ensures { result ≡ length (kept self.now.mail) }
    {
        self.mail.count()
    }

    /// The packet of a number, where it is kept.
    pub fn packet(&self, id: u64) -> Option<&Packet>
        ensures { option_copied result ≡ slot_at self.now.mail (id - 1) }
    {
        self.mail.get(id.saturating_sub(1))
    }

    /// How many lines were fed.
    pub fn fed(&self) -> u64
        ensures { (shape : Shape) (run : Run) → IsWorldOf shape self.now run → result ≡ (moment_after shape run).lines }
    {
        self.lines
    }

    /// The transcript so far.
    pub fn transcript(&self) -> &Transcript
        ensures { (shape : Shape) (run : Run) → IsWorldOf shape self.now run
            → transcript_of result.now ≡ transcript_in ((moment_after shape run).actors FRONT).core }
    {
        self.actors.front.transcript()
    }

    /// What a line of this text is to write beside what its session is answered: nothing, so far.
    pub fn said(&self, _text: &[u8]) -> Result<OutList, NoMemory>
        ensures { IfOk result (λ said. items said ≡ []) }
    {
        Ok(OutList::new(self.alloc))
    }

    /// Whether a message of the actor is unsent or unacknowledged. It is false of an actor that is not there.
    pub fn waiting(&self, actor: u32) -> bool
        ensures told { result ≡ is_waiting_at self.now.actors actor }
        ensures made { (shape : Shape) (run : Run) → IsWorldOf shape self.now run → IsWhole shape self.now
            → IsLiving shape (moment_after shape run).roster actor
            → result ≡ is_waiting ((moment_after shape run).actors actor).endpoint }
    {
        self.actors.waiting(actor)
    }
}
