//! What one step of an actor gives.
use cl_log::TxnList;
use cl_roster::RosterEntry;
use cl_steps::Packets;

/// What one step of an actor gives, beside the actor's next state.
///
/// Contracts see it as `outs_of`, without the room of its lists.
#[derive(Debug, Drop)]
pub struct Outs {
    pub packets: Packets,
    /// The transactions that became firm, by log number.
    pub firm: TxnList,
    /// The entry that is offered to the roster.
    pub entry: Option<RosterEntry>,
    /// Whether a participant gave up an operation for want of memory, and answered so; no clause
    /// says when. It is the mark of the event.
    pub short: bool,
}
