//! One end of a link.
ghost use Rattle.std.specs.Prelude.{◌≡◌, ◌+◌, ◌≤◌, ◌↔◌, length, Err, IfOk, OnOk, OnErr};
ghost use Rattle.cl_link.specs.LinkState.{no_message, last_number, due_of, due_read, taken_of, after_send, after_sent, after_again, after_accept, after_heard, after_drop_all};

use crate::kept::{Kept, drop_front, index_of_due, mark_all_due, mark_sent};
use cl_types::Refused;
use std::alloc::Global;
use std::collections::VecDeque;
use std::marker::Model;

/// The highest number of a message.
pub const NUMBER_MAX: u64 = 1 << 62;

/// What became of a numbered message that arrived.
#[derive(Clone, Copy, Debug, PartialEq, Eq)]
pub enum Taken {
    /// It is the next one, and is accepted now.
    Now,
    /// It was accepted before.
    Old,
    /// One before it has not arrived yet.
    Gap,
}

/// One end of a link: the messages to its peer, and how many were accepted from it.
///
/// Messages are numbered from 1, in the order in which they are given. Each is kept until it is acknowledged or dropped.
#[derive(Debug, Drop)]
pub struct Link<B> {
    kept: VecDeque<Kept<B>>,
    /// How many messages, from the first on, are no longer kept.
    released: u64,
    /// The index in `kept` of the least due message, or its length where none is due.
    due: usize,
    accepted: u64,
}

impl<B> Model for Link<B> {
    ghost use Rattle.std.specs.Prelude.{◌≡◌, ◌+◌, ◌≤◌, length};
    ghost use Rattle.cl_link.specs.declared.link.TheConstants.{NUMBER_MAX};
    ghost use Rattle.cl_link.specs.LinkState.{LinkState};
    ghost use Rattle.cl_link.specs.Kept.{due_index};

    ghost Value = { LinkState B };

    ghost view = { λ link. record { released = link.released; kept = link.kept.items; accepted = link.accepted } };

    ghost invariant = { λ link. (link.released + length link.kept.items ≤ NUMBER_MAX) × (link.due ≡ due_index link.kept.items) };
}

impl<B> Link<B> {
    /// Makes a link with no message given and none accepted. It allocates nothing.
    pub fn new(alloc: Global) -> Self
        ensures { result ≡ no_message }
    {
        Link {
            kept: VecDeque::new(alloc),
            released: 0,
            due: 0,
            accepted: 0,
        }
    }

    /// Gives a message to the link, and returns its number. The message is kept, and is due.
    ///
    /// A refusal leaves the link unchanged and drops the message. It is refused as `Spent` exactly where the numbers have
    /// reached `NUMBER_MAX`, and else for want of memory; no clause says when.
    #[tactic(auto, unfolding(crate::specs::LinkState::after_send))]
    pub fn send(&mut self, body: B) -> Result<u64, Refused>
    where
        B: Drop,
        ensures number { IfOk result (λ number. number ≡ last_number self.new) }
        ensures ok { OnOk result (self.new ≡ after_send self.old body) }
        ensures err { OnErr result (self.new ≡ self.old) }
        ensures spent { (result ≡ Err Refused.Spent) ↔ (last_number self.old ≡ NUMBER_MAX) }
        ensures within { last_number self.new ≤ NUMBER_MAX }
    {
        let last = self.last_number();
        if last == NUMBER_MAX {
            return Err(Refused::Spent);
        }
        match self.kept.push_back(Kept { body, due: true }) {
            Ok(()) => Ok(last + 1),
            Err(_) => Err(Refused::NoMemory),
        }
    }

    /// Returns the due message with the least number, and that number. It takes constant time; no contract says so.
    pub fn due(&self) -> Option<(u64, &B)>
        ensures { due_read result ≡ due_of self.now }
    {
        let message = self.kept.get(self.due)?;
        Some((self.released + 1 + self.due as u64, &message.body))
    }

    /// Marks the message with this number as sent: it is no longer due. Nothing changes where it is not kept.
    ///
    /// Where messages are marked in the order in which they are due, each call takes constant time; no contract says so.
    #[tactic(auto, unfolding(crate::specs::LinkState::after_sent))]
    pub fn sent(&mut self, seq: u64)
        ensures { self.new ≡ after_sent self.old seq }
    {
        if seq <= self.released || self.last_number() < seq {
            return;
        }
        let index = (seq - self.released - 1) as usize;
        mark_sent(&mut self.kept, index);
        self.due = index_of_due(&self.kept, self.due);
    }

    /// Makes each kept message due again. It takes linear time; no contract says so.
    #[tactic(auto, unfolding(crate::specs::LinkState::after_again))]
    pub fn again(&mut self)
        ensures { self.new ≡ after_again self.old }
    {
        mark_all_due(&mut self.kept);
        self.due = 0;
    }

    /// Takes a message of the peer, with its number and its acknowledgement. Exactly the next one is accepted.
    ///
    /// What is acknowledged is dropped, whatever becomes of the message.
    #[tactic(auto, unfolding(crate::specs::LinkState::after_accept, crate::specs::LinkState::after_heard, crate::specs::LinkState::taken_of))]
    pub fn accept(&mut self, seq: u64, ack: u64) -> Taken
    where
        B: Drop,
        requires { 1 ≤ seq }
        ensures taken { result ≡ taken_of self.old seq }
        ensures after { self.new ≡ after_accept self.old seq ack }
    {
        self.heard(ack);
        if seq <= self.accepted {
            return Taken::Old;
        }
        if seq - 1 > self.accepted {
            return Taken::Gap;
        }
        self.accepted = seq;
        Taken::Now
    }

    /// Takes an acknowledgement without a message: what it acknowledges is dropped.
    ///
    /// An acknowledgement above the last number covers each kept message. It takes time linear in the messages that are
    /// dropped; no contract says so.
    #[tactic(auto, unfolding(crate::specs::LinkState::after_heard))]
    pub fn heard(&mut self, ack: u64)
    where
        B: Drop,
        ensures { self.new ≡ after_heard self.old ack }
    {
        let covered = ack
            .saturating_sub(self.released)
            .min(self.kept.len() as u64);
        drop_front(&mut self.kept, covered as usize);
        self.released += covered;
        self.due = index_of_due(&self.kept, self.due.saturating_sub(covered as usize));
    }

    /// Returns the number of the last message accepted from the peer, or 0.
    pub fn accepted(&self) -> u64
        ensures { result ≡ self.now.accepted }
    {
        self.accepted
    }

    /// Returns the number of the last message given, or 0.
    pub fn last_number(&self) -> u64
        ensures number { result ≡ last_number self.now }
        ensures within { result ≤ NUMBER_MAX }
    {
        self.released + self.kept.len() as u64
    }

    /// Returns how many messages are kept: given, and neither acknowledged nor dropped.
    pub fn unacked(&self) -> usize
        ensures { result ≡ length self.now.kept }
    {
        self.kept.len()
    }

    /// Drops each kept message, since the peer stopped. The numbers go on.
    #[tactic(auto, unfolding(crate::specs::LinkState::after_drop_all))]
    pub fn drop_all(&mut self)
    where
        B: Drop,
        ensures { self.new ≡ after_drop_all self.old }
    {
        self.released = self.last_number();
        self.kept.clear();
        self.due = 0;
    }
}
