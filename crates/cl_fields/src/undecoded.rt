//! Why bytes are not decoded.
ghost use Rattle.std.specs.Prelude.{◌≡◌};
ghost use Rattle.cl_fields.specs.declared.undecoded.Undecoded.TheVariants as undecoded;

use cl_types::NoMemory;

/// What is wrong with the bytes: the first field from the left that cannot be read.
#[derive(Clone, Copy, Debug, PartialEq, Eq)]
pub enum WireFault {
    /// Too few bytes are left.
    Short,
    /// There is no such kind of packet.
    Kind,
    /// A field is out of its range.
    Field,
    /// Bytes stand after the last field.
    Rest,
}

/// Why there is no packet.
#[derive(Clone, Copy, Debug, PartialEq, Eq)]
pub enum Undecoded {
    /// The bytes are the spelling of no packet.
    Fault(WireFault),
    /// The call gave up for want of memory; no clause says when.
    NoMemory,
}

impl From<WireFault> for Undecoded {
    ghost from_gives = { λ fault refused. refused ≡ undecoded.Fault fault };

    fn from(fault: WireFault) -> Undecoded {
        Undecoded::Fault(fault)
    }
}

impl From<NoMemory> for Undecoded {
    ghost from_gives = { λ _ refused. refused ≡ undecoded.NoMemory };

    fn from(_error: NoMemory) -> Undecoded {
        Undecoded::NoMemory
    }
}
