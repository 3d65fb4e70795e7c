//! What a run was fed and what it answered.
use cl_lines::Out as Printed;
use cl_types::{AppendOnlyList, Text, TxnId};

/// One entry of a transcript.
#[derive(Debug, Drop)]
pub enum Said {
    /// The line with this number, counted from 1, was fed.
    In(u64, Text),
    /// The line was printed.
    Out(Printed),
    /// The moment is quiet.
    Quiet,
}

/// What was fed and what was written, in order.
pub type Transcript = AppendOnlyList<Said>;

/// The names of transactions in order. A run's history names those that are firm, in the order in which they became so.
pub type History = AppendOnlyList<TxnId>;
