//! The verdict on a history and a transcript.
use cl_types::{Outcome, TxnId};

/// What the replay of a history says of a transcript.
#[derive(Debug, PartialEq, Eq, Drop)]
pub enum Verdict {
    /// The members differ and have COMMIT, and the replay gives every reply that was written.
    Same,
    /// The first member of the history that stands twice in it or has no COMMIT.
    Unfit(TxnId),
    /// The first operation, in the order of the history, whose written reply differs.
    First {
        /// The reply's position in the transcript, counted from 0.
        place: u64,
        written: Outcome,
        replayed: Outcome,
    },
}
