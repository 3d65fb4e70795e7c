//! How a record was redone.

/// How a record was redone.
#[derive(Clone, Copy, Debug, PartialEq, Eq)]
pub enum Redone {
    /// Its write was made.
    Applied,
    /// The store has it already: the stored number is at least the record's own.
    Skipped,
    /// It writes nothing.
    Marked,
}
