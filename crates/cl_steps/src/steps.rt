//! The results of a step.
ghost use Rattle.std.specs.Prelude.{◌≡◌, OnOk, OnErr, IfOk, [], ◌∷◌, ◌++◌, None, false};
ghost use Rattle.cl_types.specs.GrowingList.{items};
ghost use Rattle.cl_wire.specs.Message.{content_of};
ghost use Rattle.cl_steps.specs.Steps.{nothing_done, sent, step_of};

use cl_log::TxnList;
use cl_roster::RosterEntry;
use cl_types::{GrowingList, NoMemory};
use cl_wire::{Body, Payload};
use std::alloc::Global;

/// A message for another actor, or for the sender itself.
#[derive(Debug, Drop)]
pub struct Outgoing {
    /// The actor that it goes to.
    pub to: u32,
    pub payload: Payload,
}

/// Messages in the order in which they are given to the links.
pub type SendList = GrowingList<Outgoing>;

/// What a step of a core gives, beside the core's next state.
///
/// Contracts see it as a step (`step_of`), without the room of its lists.
#[derive(Debug, Drop)]
pub struct Steps {
    pub send: SendList,
    /// The transactions that became firm, by log number.
    pub firm: TxnList,
    /// The entry that is offered to the roster.
    pub entry: Option<RosterEntry>,
    /// Whether a participant gave up an operation for want of memory, and answered so; no clause says when.
    pub short: bool,
}

impl Steps {
    /// A step that gives nothing. It allocates nothing.
    pub fn new(alloc: Global) -> Steps
        ensures { step_of result ≡ nothing_done }
    {
        Steps {
            send: SendList::new(alloc),
            firm: TxnList::new(alloc),
            entry: None,
            short: false,
        }
    }

    /// Adds a message at the end.
    pub fn send(&mut self, to: u32, body: Body) -> Result<(), NoMemory>
        ensures ok { OnOk result (step_of self.new
            ≡ record (step_of self.old) { sends = (step_of self.old).sends ++ sent to (content_of body) ∷ [] }) }
        ensures err { OnErr result (step_of self.new ≡ step_of self.old) }
    {
        let payload = Payload::new(body);
        self.send.push(Outgoing { to, payload })
    }
}
