//! What the server prints.
use crate::LineFault;
use cl_types::Outcome;

/// One printed line.
#[derive(Debug, PartialEq, Eq, Drop)]
pub enum Out {
    /// The outcome of a session's command.
    Answer(u32, Outcome),
    /// The line with this number, counted from 1, is not well formed.
    BadLine(u64, LineFault),
}
