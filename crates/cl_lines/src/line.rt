//! Lines and their faults.
ghost use Rattle.std.specs.Prelude.{◌≡◌};
ghost use Rattle.cl_lines.specs.declared.line.Unread.TheVariants as answers;

use cl_types::{Command, NoMemory};

/// The most bytes in a line, without its newline.
pub const LINE_MAX: usize = 256;

/// What an operator's line asks of the server.
#[derive(Clone, Copy, Debug, PartialEq, Eq)]
pub enum Order {
    /// Wait for a quiet moment. Nothing is printed for it.
    Quiet,
}

/// A well-formed line.
#[derive(Debug, PartialEq, Eq, Drop)]
pub enum Line {
    /// A command in the session of that number.
    Client(u32, Command),
    /// An order, which is of no session.
    Operator(Order),
}

/// Why a line is not well formed. A line is tested for each fault in this order, and has the first
/// one that it shows.
#[derive(Clone, Copy, Debug, PartialEq, Eq)]
pub enum LineFault {
    /// The line is longer than `LINE_MAX`.
    Length,
    /// A word is empty, or the words are no form of a line.
    Words,
    /// The first word of a client's line is no number from 1 to `SESSIONS_MAX` in canonical decimal.
    Session,
    /// The third word is no table name.
    Table,
    /// The fourth word is no key.
    Key,
    /// The last word of a PUT is no value.
    Value,
    /// The last word of an ADD is no number within signed 64 bits in canonical decimal.
    Number,
}

/// Why a line could not be read.
#[derive(Clone, Copy, Debug, PartialEq, Eq)]
pub enum Unread {
    /// The line is not well formed.
    Fault(LineFault),
    /// The call gave up for want of memory; no clause says when.
    NoMemory,
}

impl From<LineFault> for Unread {
    ghost from_gives = { λ fault unread. unread ≡ answers.Fault fault };

    fn from(fault: LineFault) -> Unread {
        Unread::Fault(fault)
    }
}

impl From<NoMemory> for Unread {
    ghost from_gives = { λ _ unread. unread ≡ answers.NoMemory };

    fn from(_error: NoMemory) -> Unread {
        Unread::NoMemory
    }
}
