//! How a replica makes its log safe.
ghost use Rattle.std.specs.Prelude.{◌≡◌};
ghost use Rattle.cl_repair.specs.Modes.{is_safe_in, mode_noted, mode_with, safe_in};

use cl_roster::RosterEntry;

/// How a replica makes its log safe.
#[derive(Clone, Copy, Debug, PartialEq, Eq)]
pub enum Mode {
    /// The virtual node has no standby. A record is safe once it is in the log.
    Lone,
    /// The node of this number is the standby. A record is safe once it has acknowledged it.
    Pair(u32),
}

impl Mode {
    // The mode where the virtual node has this standby.
    pub(crate) fn with(standby: Option<u32>) -> Mode
        ensures { result ≡ mode_with standby }
    {
        match standby {
            None => Mode::Lone,
            Some(standby) => Mode::Pair(standby),
        }
    }

    // The mode after an entry of the roster.
    pub(crate) fn noted(self, entry: RosterEntry) -> Mode
        ensures { result ≡ mode_noted self entry }
    {
        match (self, entry) {
            (Mode::Pair(standby), RosterEntry::Stopped(node)) if standby == node => Mode::Lone,
            _ => self,
        }
    }

    // Whether the record of this number is safe.
    pub(crate) fn safe(self, acked: u64, number: u64) -> bool
        ensures { result ≡ is_safe_in self acked number }
    {
        match self {
            Mode::Lone => true,
            Mode::Pair(_) => number <= acked,
        }
    }

    // Up to which number a log is safe that ends with the last one.
    pub(crate) fn safe_to(self, acked: u64, last: u64) -> u64
        ensures { result ≡ safe_in self acked last }
    {
        match self {
            Mode::Lone => last,
            Mode::Pair(_) => acked,
        }
    }
}
