//! How far a transaction is.

/// How far a transaction is in a log.
#[derive(Clone, Copy, Debug, PartialEq, Eq)]
pub enum Stage {
    /// The log has no Touch, Set, Add or Prepared of it.
    Unknown,
    Running,
    Prepared,
    Ended,
}
