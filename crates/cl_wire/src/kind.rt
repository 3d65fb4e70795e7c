//! The kinds of packets.
ghost use Rattle.std.specs.Prelude.{◌≡◌, slice_get};
ghost use Rattle.cl_wire.specs.Spelling.{kind_byte};

/// The kind of a packet, as in `Body`, with its byte.
#[derive(Clone, Copy, Debug, PartialEq, Eq)]
pub(crate) enum Kind {
    Bare = 0,
    Command = 1,
    Outcome = 2,
    Ask = 3,
    Answer = 4,
    Prepare = 5,
    Vote = 6,
    Finish = 7,
    Inquire = 8,
    Decision = 9,
    Log = 10,
    LogAck = 11,
    Repair = 12,
    Records = 13,
    Names = 14,
    CopyAck = 15,
}

/// The kinds in the order of their bytes.
pub(crate) const KINDS: [Kind; 16] = [
    Kind::Bare,
    Kind::Command,
    Kind::Outcome,
    Kind::Ask,
    Kind::Answer,
    Kind::Prepare,
    Kind::Vote,
    Kind::Finish,
    Kind::Inquire,
    Kind::Decision,
    Kind::Log,
    Kind::LogAck,
    Kind::Repair,
    Kind::Records,
    Kind::Names,
    Kind::CopyAck,
];

impl Kind {
    /// Returns the kind with that byte, if there is one.
    pub(crate) fn of_byte(byte: u8) -> Option<Kind>
        ensures { result ≡ slice_get KINDS byte }
    {
        KINDS.get(usize::from(byte)).copied()
    }

    /// Returns the byte of the kind.
    pub(crate) fn byte(self) -> u8
        ensures { result ≡ kind_byte self }
    {
        self as u8
    }
}
