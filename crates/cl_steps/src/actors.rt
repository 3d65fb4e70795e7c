//! The actors' numbers.

/// The front among the actors. Nodes are 0 to 15.
pub const FRONT: u32 = 16;
