//! The limit of what becomes firm at once.

/// The most transactions that one event makes firm.
pub const FIRM_MAX: usize = 64;
