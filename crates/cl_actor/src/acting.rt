//! A core and an endpoint, as a machine.
ghost use Rattle.std.specs.Prelude.{◌≡◌, ◌<◌, IfOk, IfSome, OnOk, OnErr, false};
ghost use Rattle.std.specs.Borrow.{Lends, sem};
ghost use Rattle.std.specs.List.{All};
ghost use Rattle.cl_endpoint.specs.Endpoint.{is_spent_by, is_waiting, received, set_number};
ghost use Rattle.cl_post.specs.Steps.{IsSpentWhere, IsSpentByMark, outs_of};
ghost use Rattle.cl_steps.specs.Steps.{step_of, nothing_done};
ghost use Rattle.cl_actor.specs.Acting.{core_of, endpoint_of, noted_in, with_core, endpoint_after, outs_after};
ghost use Rattle.cl_actor.specs.Core.{noted_of};
ghost use Rattle.cl_actor.specs.contracts.acting.Acting.{the_row};

use crate::Core;
use cl_endpoint::{ACTORS, Endpoint, Received};
use cl_log::TxnList;
use cl_post::{Machine, OutList, Outs};
use cl_roster::Roster;
use cl_steps::Steps;
use cl_types::Refused;
use cl_wire::Packet;
use std::alloc::Global;

/// An actor: a core, which decides, behind an endpoint, which has to do with packets.
///
/// Contracts see its core (`core_of`) and its endpoint (`endpoint_of`).
#[derive(Drop)]
pub struct Acting<C> {
    core: C,
    endpoint: Endpoint,
    alloc: Global,
}

impl<C> Acting<C> {
    /// Makes an actor of its parts. It allocates nothing.
    pub fn new(alloc: Global, core: C, endpoint: Endpoint) -> Acting<C>
        ensures core { core_of result ≡ core }
        ensures endpoint { endpoint_of result ≡ endpoint }
    {
        Acting {
            core,
            endpoint,
            alloc,
        }
    }

    /// The core.
    pub fn core(&self) -> &C
        ensures { result.now ≡ core_of self.now }
    {
        &self.core
    }

    /// The core, for what is done to it alone; the endpoint stays.
    pub fn core_mut(&mut self) -> &mut C
        ensures value { result.now ≡ core_of self.old }
        ensures* writes_back { sem 𝓛 (Lends (the_row C.row) C.row self.entry result (with_core self.old)) }
    {
        &mut self.core
    }

    /// Whether a message is kept: given, and not acknowledged.
    pub fn waiting(&self) -> bool
        ensures { result ≡ is_waiting (endpoint_of self.now) }
    {
        self.endpoint.waiting()
    }

    /// What the actor has noted of the roster.
    pub fn roster(&self) -> &Roster
        ensures { noted_of result.now ≡ noted_in (endpoint_of self.now) }
    {
        self.endpoint.roster()
    }

    /// What would become of a packet.
    pub fn received(&self, packet: &Packet) -> Received
        requires { packet.now.from < ACTORS }
        ensures { result ≡ received (endpoint_of self.now) packet.now.from packet.now.seq }
    {
        self.endpoint.received(packet.from, packet.seq)
    }

    /// How many entries of the roster the actor has noted.
    pub fn set_number(&self) -> u32
        ensures { result ≡ set_number (endpoint_of self.now) }
    {
        self.endpoint.set_number()
    }

    // Emits where the core has no step.
    fn emit_alone(&mut self, owed: Option<u32>) -> Result<Outs, Refused>
        requires { IfSome owed (λ peer. peer < ACTORS) }
        ensures outs { IfOk result (λ outs. outs_of outs ≡ outs_after self.old.endpoint nothing_done owed) }
        ensures endpoint { OnOk result (self.new.endpoint ≡ endpoint_after self.old.endpoint nothing_done owed) }
        ensures core { self.new.core ≡ self.old.core }
        ensures unspent { IsSpentByMark (λ mark. false) result }
    {
        let Ok(packets) = self.endpoint.emit(self.alloc, owed) else {
            return Err(Refused::NoMemory);
        };
        Ok(Outs {
            packets,
            firm: TxnList::new(self.alloc),
            entry: None,
            short: false,
        })
    }
}

impl<C: Core> Acting<C> {
    // Gives what the core sends to the links, and emits. The core settles last, when nothing can fail any more.
    fn finish(&mut self, steps: Steps, owed: Option<u32>) -> Result<Outs, Refused>
        requires sends { All (λ message. message.to < ACTORS) (step_of steps).sends }
        requires owed { IfSome owed (λ peer. peer < ACTORS) }
        ensures outs { IfOk result (λ outs. outs_of outs ≡ outs_after self.old.endpoint (step_of steps) owed) }
        ensures endpoint { OnOk result (self.new.endpoint ≡ endpoint_after self.old.endpoint (step_of steps) owed) }
        ensures core { OnOk result ((after : C.State) → C.will_be self.old.core after → C.is_state self.new.core after) }
        ensures spent { IsSpentWhere (is_spent_by self.old.endpoint (step_of steps).sends) result }
        ensures refused { OnErr result (self.new.core ≡ self.old.core) }
    {
        let Steps {
            send,
            firm,
            entry,
            short,
        } = steps;
        self.endpoint.give_all(send)?;
        let Ok(packets) = self.endpoint.emit(self.alloc, owed) else {
            return Err(Refused::NoMemory);
        };
        self.core.settle();
        Ok(Outs {
            packets,
            firm,
            entry,
            short,
        })
    }
}

impl<C: Core> Machine for Acting<C> {
    ghost use Rattle.std.specs.Prelude.{◌≡◌};
    ghost use Rattle.cl_endpoint.specs.Endpoint.{new_endpoint};
    ghost use Rattle.cl_actor.specs.Acting.{ActingState, ActingFits, acted, core_of, endpoint_of, is_acting_spent};

    ghost State = { ActingState C.State };

    ghost is_state = { λ acting state. C.is_state (core_of acting) state.core × (endpoint_of acting ≡ state.endpoint) };

    ghost first = { λ nodes spares me. record { core = C.first nodes spares me; endpoint = new_endpoint me nodes spares } };

    ghost after = { λ before input mark. (acted C.delivered C.fed before input mark).0 };

    ghost outs = { λ before input mark. (acted C.delivered C.fed before input mark).1 };

    ghost is_spent = { is_acting_spent C.delivered C.fed C.is_delivery_spent C.is_line_spent };

    ghost fits = { ActingFits C.delivered C.fed C.delivery_fits C.line_fits };

    ghost transcript = { λ acting. C.transcript (core_of acting) };

    fn handle(&mut self, packet: &Packet) -> Result<Outs, Refused> {
        let received = self.endpoint.receive(packet.from, packet.seq, packet.ack);
        let owed = received.owed_to(packet.from);
        match received {
            Received::Now => {
                let steps = self
                    .core
                    .deliver(self.endpoint.roster(), packet.from, &packet.body)?;
                self.finish(steps, owed)
            }
            _ => self.emit_alone(owed),
        }
    }

    fn tick(&mut self) -> Result<Outs, Refused> {
        self.endpoint.tick();
        self.emit_alone(None)
    }

    fn feed(&mut self, line: u64, text: &[u8], said: &OutList) -> Result<Outs, Refused> {
        let steps = self.core.feed(self.endpoint.roster(), line, text, said)?;
        self.finish(steps, None)
    }
}
