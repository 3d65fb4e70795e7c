//! The limits of the front.

/// The highest number of a transaction in its session.
pub const TXN_NUMBER_MAX: u64 = 1 << 62;
