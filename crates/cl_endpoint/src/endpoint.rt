//! The endpoint and its calls, but for emission.
ghost use Rattle.std.specs.Prelude.{◌≡◌, ◌<◌, ◌↔◌, ◌+◌, ◌≤◌, false, true, Err, length, replicate, IfOk, OnOk, OnErr};
ghost use Rattle.std.specs.List.{All};
ghost use Rattle.cl_link.specs.declared.link.TheConstants.{NUMBER_MAX};
ghost use Rattle.cl_link.specs.LinkState.{last_number, no_message};
ghost use Rattle.cl_roster.specs.Roster.{IsClusterSize, IsLawfulEntry};
ghost use Rattle.cl_types.specs.GrowingList.{items};
ghost use Rattle.cl_endpoint.specs.Endpoint.{new_endpoint, link_to, set_number, received, after_receive, after_give, after_gives, is_spent_by, after_tick, after_note, is_waiting};

use crate::{ACTORS, Received};
use cl_link::Link;
use cl_roster::{Roster, RosterEntry, rosters_are_lawful};
use cl_steps::SendList;
use cl_types::{NoMemory, Refused};
use cl_wire::Payload;
use std::alloc::Global;
use std::marker::Model;

/// All that an actor has to do with packets: its link to each actor, itself included, and what it noted of the roster.
///
/// Contracts see it as plain data (`EndpointState`), without the room of its lists.
#[derive(Debug, Drop)]
pub struct Endpoint {
    pub(crate) me: u32,
    pub(crate) roster: Roster,
    /// By the number of the actor.
    pub(crate) links: Vec<Link<Payload>>,
}

impl Model for Endpoint {
    ghost use Rattle.std.specs.Prelude.{◌≡◌, ◌<◌, length};
    ghost use Rattle.cl_endpoint.specs.declared.limits.TheConstants.{ACTORS};
    ghost use Rattle.cl_endpoint.specs.Endpoint.{EndpointState};

    ghost Value = { EndpointState };

    ghost view = { λ endpoint. record {
      me = endpoint.me;
      nodes = endpoint.roster.nodes;
      spares = endpoint.roster.spares;
      noted = endpoint.roster.entries;
      links = endpoint.links.items;
    } };

    ghost invariant = { λ endpoint. (endpoint.me < ACTORS) × (length endpoint.links.items ≡ ACTORS) };
}

impl Endpoint {
    /// Makes the endpoint of an actor in a cluster in which nothing has happened yet.
    #[tactic(auto, unfolding(crate::specs::Endpoint::new_endpoint))]
    pub fn new(alloc: Global, me: u32, nodes: u32, spares: u32) -> Result<Endpoint, NoMemory>
        requires actor { me < ACTORS }
        requires size { IsClusterSize nodes spares }
        ensures { IfOk result (λ endpoint. endpoint ≡ new_endpoint me nodes spares) }
    {
        Ok(Endpoint {
            me,
            roster: Roster::new(alloc, nodes, spares),
            links: no_messages(alloc)?,
        })
    }

    /// What the actor has noted of the roster.
    pub fn roster(&self) -> &Roster
        ensures nodes { result.now.nodes ≡ self.now.nodes }
        ensures spares { result.now.spares ≡ self.now.spares }
        ensures entries { result.now.entries ≡ self.now.noted }
    {
        &self.roster
    }

    /// How many entries of the roster the actor has noted.
    pub fn set_number(&self) -> u32
        ensures { result ≡ set_number self.now }
    {
        self.roster.len()
    }

    /// Takes a packet of an actor: its message number, which is 0 where it carries no message, and its acknowledgement.
    #[tactic(auto, unfolding(crate::specs::Endpoint::received, crate::specs::Endpoint::after_receive))]
    pub fn receive(&mut self, from: u32, seq: u64, ack: u64) -> Received
        requires { from < ACTORS }
        ensures received { result ≡ received self.old from seq }
        ensures after { self.new ≡ after_receive self.old from seq ack }
    {
        if !self.roster.living(self.roster.len(), from) {
            return Received::Dropped;
        }
        let link = &mut self.links[from as usize];
        if seq == 0 {
            link.heard(ack);
            return Received::Bare;
        }
        Received::of_taken(link.accept(seq, ack))
    }

    /// Gives a message for an actor: it is kept until it is acknowledged, and is due.
    ///
    /// A refusal leaves all as it was and drops the message. It is refused as `Spent` exactly where the numbers of the
    /// link have reached their end, and else for want of memory; no clause says when.
    #[tactic(auto, unfolding(crate::specs::Endpoint::after_give))]
    pub fn give(&mut self, to: u32, payload: Payload) -> Result<(), Refused>
        requires { to < ACTORS }
        ensures ok { OnOk result (self.new ≡ after_give self.old to payload) }
        ensures err { OnErr result (self.new ≡ self.old) }
        ensures spent { (result ≡ Err Refused.Spent) ↔ (last_number (link_to self.old to) ≡ NUMBER_MAX) }
        ensures within { last_number (link_to self.new to) ≤ NUMBER_MAX }
    {
        self.links[to as usize].send(payload)?;
        Ok(())
    }

    /// Gives messages, first to last.
    ///
    /// It is refused as `Spent` only where a link would need a number above `NUMBER_MAX`, and else for want of memory; no
    /// clause says when. After a refusal some of the messages may have been given, so the actor may only be dropped.
    pub fn give_all(&mut self, sends: SendList) -> Result<(), Refused>
        requires { All (λ send. send.to < ACTORS) (items sends) }
        ensures ok { OnOk result (self.new ≡ after_gives self.old (items sends)) }
        ensures fits { OnOk result (is_spent_by self.old (items sends) ≡ false) }
        ensures spent { result ≡ Err Refused.Spent → is_spent_by self.old (items sends) ≡ true }
    {
        // To read a field is to know that there is a link to each actor.
        let _me = self.me;
        for send in sends.into_items() {
            self.give(send.to, send.payload)?;
        }
        Ok(())
    }

    /// Makes each kept message due again. It takes time linear in the messages that are kept; no contract says so.
    #[tactic(auto, unfolding(crate::specs::Endpoint::after_tick))]
    pub fn tick(&mut self)
        ensures { self.new ≡ after_tick self.old }
    {
        for link in self.links.iter_mut() {
            link.again();
        }
    }

    /// Notes the next entry of the roster. What is kept for a node that has stopped is dropped.
    ///
    /// An `Err` gives up for want of memory; no clause says when. It leaves all as it was.
    #[tactic(auto, unfolding(crate::specs::Endpoint::after_note))]
    pub fn note(&mut self, entry: RosterEntry) -> Result<(), NoMemory>
        requires { IsLawfulEntry self.old.nodes self.old.spares self.old.noted entry }
        ensures ok { OnOk result (self.new ≡ after_note self.old entry) }
        ensures err { OnErr result (self.new ≡ self.old) }
    {
        // Whose stop may be noted is an actor.
        rosters_are_lawful(&self.roster);
        self.roster.push(entry)?;
        if let RosterEntry::Stopped(node) = entry {
            self.links[node as usize].drop_all();
        }
        Ok(())
    }

    /// Whether some message is kept: given, and not acknowledged.
    #[tactic(auto, unfolding(crate::specs::Endpoint::is_waiting))]
    pub fn waiting(&self) -> bool
        ensures { result ≡ is_waiting self.now }
    {
        self.links.iter().any(|link| link.unacked() != 0)
    }
}

// A link to each actor, with no message.
fn no_messages(alloc: Global) -> Result<Vec<Link<Payload>>, NoMemory>
    ensures { IfOk result (λ links. links.items ≡ replicate ACTORS no_message) }
{
    let mut links = Vec::with_capacity(alloc, ACTORS)?;
    for _ in 0..ACTORS {
        links.push(Link::new(alloc))?;
    }
    Ok(links)
}
