//! The version and the size of packets.

/// The version of the format.
pub(crate) const VERSION: u8 = 1;

/// The most bytes of a packet: a header of 24, 6 before a list, and four records of 181.
pub const PACKET_MAX: usize = 754;
