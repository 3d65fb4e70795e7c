//! The packets of one event.
use cl_wire::Packet;

/// The most packets that one event emits.
pub const PACKETS_MAX: usize = 32;

/// The packets of one event, in the order of their emission: at most `PACKETS_MAX`.
///
/// It is no array in place. Most events emit one or two packets, and to make, move and drop 32 places takes several
/// times as long as all else that an endpoint does.
pub type Packets = Vec<Packet>;
