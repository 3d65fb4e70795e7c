//! The limits of sessions and transactions, shared by several crates.

/// The most sessions: they are numbered from 1 to this.
pub const SESSIONS_MAX: u32 = 64;

/// The most operations of a transaction, not counting those that are refused because it is full.
pub const OPERATIONS_MAX: u32 = 64;
