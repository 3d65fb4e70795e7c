//! The transaction that a session is in.

/// The transaction that a session is in.
#[derive(Clone, Copy, Debug, PartialEq, Eq)]
pub struct Current {
    /// How many operations it has. Those that were answered ERR FULL do not count.
    pub operations: u32,
    /// The number of the last command that was sent. BEGIN has the number 0.
    pub commands: u32,
    /// Whether that command waits for its outcome.
    pub outstanding: bool,
}
