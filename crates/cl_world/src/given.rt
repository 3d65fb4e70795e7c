//! What an event gives an actor.
use cl_post::OutList;
use cl_wire::Packet as WirePacket;

/// What an event gives an actor.
#[derive(Clone, Copy)]
pub(crate) enum Given<'a> {
    Packet(&'a WirePacket),
    Tick,
    /// The line of that number, its text, and what an operator's line is to write.
    Line(u64, &'a [u8], &'a OutList),
}
