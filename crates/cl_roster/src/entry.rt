//! The entries of a roster.
ghost use Rattle.std.specs.Prelude.{◌≡◌};
ghost use Rattle.cl_roster.specs.Roster.{is_stop_of};

/// An entry of a roster: a node stopped, or a virtual node has a standby again.
#[derive(Clone, Copy, Debug, PartialEq, Eq)]
pub enum RosterEntry {
    /// The node stopped.
    Stopped(u32),
    /// The virtual node, and its standby from now on.
    Repaired(u32, u32),
}

impl RosterEntry {
    // Whether the entry is the stop of the node.
    pub(crate) fn is_stop_of(self, node: u32) -> bool
        ensures { result ≡ is_stop_of node self }
    {
        match self {
            RosterEntry::Stopped(stopped) => stopped == node,
            RosterEntry::Repaired(_, _) => false,
        }
    }
}
