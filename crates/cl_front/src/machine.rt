//! The front: its core behind its endpoint.
ghost use Rattle.std.specs.Prelude.{◌≡◌, ◌<◌, ℕ, List, IsTrue, IfOk, OnOk, OnErr};
ghost use Rattle.cl_endpoint.specs.declared.limits.TheConstants.{ACTORS};
ghost use Rattle.cl_endpoint.specs.Endpoint.{is_waiting, received, set_number};
ghost use Rattle.cl_front.specs.FrontCore.{HasNextNumbers};
ghost use Rattle.cl_front.specs.Machine.{FrontFits, FrontMachineState, IsFrontMachine, IsOutcome, first_machine, after_quiet, after_taking, is_machine_answered, printed_by, endpoint_in};
ghost use Rattle.cl_lines.specs.declared.out.Out.{Out as Printed};
ghost use Rattle.cl_post.specs.Steps.{handle, feed};
ghost use Rattle.cl_roster.specs.Roster.{IsClusterSize};
ghost use Rattle.cl_serial.specs.Transcript.{transcript_of};
ghost use Rattle.cl_wire.specs.Message.{content_of, message_of};

use crate::FrontCore;
use cl_actor::Acting;
use cl_endpoint::{ACTORS, Endpoint, Received};
use cl_post::{Machine, OutList, Outs};
use cl_roster::rosters_are_lawful;
use cl_serial::Transcript;
use cl_steps::FRONT;
use cl_types::{NoMemory, Refused};
use cl_wire::{Body, Packet};
use std::alloc::Global;

/// The front, actor 16: the clients' sessions, and the transcript of their lines.
///
/// Contracts see it as a state of its core and its endpoint (`IsFrontMachine`). After a refusal it may only be dropped, or
/// its transcript taken, which is as before the step.
#[derive(Drop)]
pub struct Front {
    acting: Acting<FrontCore>,
}

impl Front {
    /// The front of a cluster in which nothing has happened yet, with so many nodes and spares. It allocates the sessions and the
    /// links.
    pub fn new(alloc: Global, nodes: u32, spares: u32) -> Result<Front, NoMemory>
        requires { IsClusterSize nodes spares }
        ensures { IfOk result (λ front. IsFrontMachine front (first_machine nodes spares FRONT)) }
    {
        let core = FrontCore::new(alloc)?;
        let endpoint = Endpoint::new(alloc, FRONT, nodes, spares)?;
        Ok(Front {
            acting: Acting::new(alloc, core, endpoint),
        })
    }

    /// The transcript.
    pub fn transcript(&self) -> &Transcript
        ensures { transcript_of result.now ≡ printed_by self.now }
    {
        self.acting.core().transcript()
    }

    /// Takes the transcript, and leaves an empty one. It may be called after a refusal too.
    pub fn take_transcript(&mut self) -> Transcript
        ensures taken { transcript_of result ≡ printed_by self.old }
        ensures left { (before : FrontMachineState) → IsFrontMachine self.old before → IsFrontMachine self.new (after_taking before) }
    {
        self.acting.core_mut().take_transcript()
    }

    /// Puts a quiet moment into the transcript. After an error all is as before.
    pub fn quiet(&mut self) -> Result<(), NoMemory>
        ensures ok { (before : FrontMachineState) → IsFrontMachine self.old before → OnOk result (IsFrontMachine self.new (after_quiet before)) }
        ensures err { OnErr result (self.new ≡ self.old) }
    {
        self.acting.core_mut().quiet()
    }

    /// Whether the front can be fed any line now. It asks each session, and a caller that feeds few lines need not ask.
    pub fn admits_lines(&self) -> bool
        ensures admitted { IsTrue result → (before : FrontMachineState) × IsFrontMachine self.now before
            × ((line : ℕ) (text : List ℕ) (said : List Printed) → FrontFits before (feed line text said)) }
        ensures refused { (state : FrontMachineState) → IsFrontMachine self.now state → HasNextNumbers state.core → IsTrue result }
    {
        rosters_are_lawful(self.acting.roster());
        self.acting.core().is_ready()
    }

    /// Whether the front can handle the packet now. It asks each session, and a caller that keeps to the order need not ask.
    pub fn admits(&self, packet: &Packet) -> bool
        ensures admitted { IsTrue result → (before : FrontMachineState) × IsFrontMachine self.now before × FrontFits before (handle (message_of packet.now)) }
        ensures refused { (state : FrontMachineState) → IsFrontMachine self.now state → HasNextNumbers state.core → FrontFits state (handle (message_of packet.now)) → IsTrue result }
    {
        rosters_are_lawful(self.acting.roster());
        if packet.from as usize >= ACTORS {
            return false;
        }
        self.expects_outcome(packet) && self.acting.core().is_ready()
    }

    // Whether the packet is an outcome, where it would be accepted now.
    fn expects_outcome(&self, packet: &Packet) -> bool
        requires { packet.now.from < ACTORS }
        ensures told { IsTrue result → received (endpoint_in self.now) packet.now.from packet.now.seq ≡ Received.Now → IsOutcome (content_of packet.now.body) }
        ensures refused { (received (endpoint_in self.now) packet.now.from packet.now.seq ≡ Received.Now → IsOutcome (content_of packet.now.body)) → IsTrue result }
    {
        self.acting.received(packet) != Received::Now || matches!(packet.body, Body::Outcome(..))
    }

    /// Whether each command that was fed was answered. It takes constant time; no contract says so.
    pub fn answered(&self) -> bool
        ensures { (state : FrontMachineState) → IsFrontMachine self.now state → result ≡ is_machine_answered state }
    {
        self.acting.core().answered()
    }

    /// Whether a message of the front is unsent or unacknowledged.
    pub fn busy(&self) -> bool
        ensures { result ≡ is_waiting (endpoint_in self.now) }
    {
        self.acting.waiting()
    }

    /// How many entries of the roster the front has noted.
    pub fn noted(&self) -> u32
        ensures { result ≡ set_number (endpoint_in self.now) }
    {
        self.acting.set_number()
    }
}

impl Machine for Front {
    ghost use Rattle.cl_front.specs.Machine.{FrontMachineState, IsFrontMachine, FrontFits, first_machine, front_after, front_outs, is_front_spent, printed_by};

    ghost State = { FrontMachineState };

    ghost is_state = { IsFrontMachine };

    ghost first = { first_machine };

    ghost after = { front_after };

    ghost outs = { front_outs };

    ghost is_spent = { is_front_spent };

    ghost fits = { FrontFits };

    ghost transcript = { printed_by };

    fn handle(&mut self, packet: &Packet) -> Result<Outs, Refused> {
        self.acting.handle(packet)
    }

    fn tick(&mut self) -> Result<Outs, Refused> {
        self.acting.tick()
    }

    fn feed(&mut self, line: u64, text: &[u8], said: &OutList) -> Result<Outs, Refused> {
        self.acting.feed(line, text, said)
    }
}
