//! The roles of one virtual node.
ghost use Rattle.std.specs.Prelude.{◌≡◌, ◌+◌, ◌%◌, ◌<◌};
ghost use Rattle.cl_roster.specs.Roles.{first_roles, after_stop, after_entry, is_only_member, is_standby};

use crate::{RosterEntry, VIRTUAL_NODES_MAX};

/// The members of a virtual node: its primary and, where there is one, its standby.
#[derive(Clone, Copy, Debug, PartialEq, Eq)]
pub struct Roles {
    pub primary: u32,
    pub standby: Option<u32>,
}

impl Roles {
    // The roles before the first entry, in a cluster with so many nodes.
    pub(crate) fn first(nodes: u32, virtual_node: u32) -> Roles
        requires some { 0 < nodes }
        requires few { virtual_node < VIRTUAL_NODES_MAX }
        ensures { result ≡ first_roles nodes virtual_node }
    {
        Roles {
            primary: virtual_node,
            standby: Some((virtual_node + 1) % nodes),
        }
    }

    // The roles after the stop of the node.
    fn after_stop(self, node: u32) -> Roles
        ensures { result ≡ after_stop node self }
    {
        match self.standby {
            Some(standby) if self.primary == node => Roles {
                primary: standby,
                standby: None,
            },
            Some(standby) if standby == node => Roles {
                primary: self.primary,
                standby: None,
            },
            _ => self,
        }
    }

    // The roles of the virtual node after one more entry.
    pub(crate) fn after(self, virtual_node: u32, entry: RosterEntry) -> Roles
        ensures { result ≡ after_entry virtual_node self entry }
    {
        match entry {
            RosterEntry::Stopped(node) => self.after_stop(node),
            RosterEntry::Repaired(repaired, node) if repaired == virtual_node => Roles {
                primary: self.primary,
                standby: Some(node),
            },
            RosterEntry::Repaired(_, _) => self,
        }
    }

    // Whether the node is the only member.
    pub(crate) fn is_only(self, node: u32) -> bool
        ensures { result ≡ is_only_member self node }
    {
        self.primary == node && self.standby.is_none()
    }

    /// Returns whether there is a standby, and it is the node.
    pub fn is_standby(self, node: u32) -> bool
        ensures { result ≡ is_standby self.standby node }
    {
        self.standby == Some(node)
    }
}
