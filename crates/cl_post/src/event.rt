//! The events of a run.
use cl_lines::Out;
use cl_types::{AppendOnlyList, GrowingList, Text};

/// Printed lines, in order.
pub type OutList = GrowingList<Out>;

/// One event: what happened, at which actor. An actor is a node, 0 to 15, or the front, 16.
#[derive(Debug, Drop)]
pub enum Event {
    /// The actor handled the packet of that number. Packets are numbered from 1, in the order of
    /// their emission.
    Handle(u32, u64),
    /// The actor's clock ticked: what is not acknowledged is due again.
    Tick(u32),
    /// The front was fed the line of that number, and what an operator's line is to write.
    Feed(u64, Text, OutList),
    /// The moment is quiet.
    Quiet,
}

/// The events of a run, each with its mark: whether a participant gave up an operation for want of
/// memory, and answered so; no clause says when.
pub type Trace = AppendOnlyList<(Event, bool)>;
