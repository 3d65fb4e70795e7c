//! The roster that a step goes by.
ghost use Rattle.std.specs.Prelude.{◌≡◌, ◌<◌, None, Some};
ghost use Rattle.cl_types.specs.Placement.{IsNodeCount};
ghost use Rattle.cl_vnode.specs.Noted.{with_more};
ghost use Rattle.cl_vnode.specs.Sending.{primary_of};

use cl_roster::{Roster, RosterEntry};
use std::marker::Model;

/// A roster, with the entry that is about to follow it where there is one. So no roster is copied.
///
/// Contracts see the roster with that entry.
#[derive(Drop)]
pub(crate) struct Noted<'a> {
    roster: &'a Roster,
    more: Option<RosterEntry>,
}

impl<'a> Model for Noted<'a> {
    ghost use Rattle.cl_roster.specs.View.{RosterView};
    ghost use Rattle.cl_vnode.specs.Noted.{view_of};

    ghost Value = { RosterView };

    ghost view = { view_of };
}

impl<'a> Noted<'a> {
    /// The roster as it stands.
    pub(crate) fn so_far(roster: &'a Roster) -> Noted<'a>
        ensures { result ≡ roster.now }
    {
        Noted { roster, more: None }
    }

    /// The roster with one more entry.
    pub(crate) fn with(roster: &'a Roster, entry: RosterEntry) -> Noted<'a>
        ensures { result ≡ with_more roster.now (Some entry) }
    {
        Noted {
            roster,
            more: Some(entry),
        }
    }

    /// How many nodes there are without the spares.
    pub(crate) fn nodes(&self) -> u32
        ensures nodes { result ≡ self.now.nodes }
        ensures counted { IsNodeCount result }
    {
        self.roster.nodes()
    }

    /// The primary of the virtual node.
    pub(crate) fn primary(&self, v: u32) -> u32
        requires { v < self.now.nodes }
        ensures { result ≡ primary_of self.now v }
    {
        let roles = match self.more {
            Some(entry) => self.roster.roles_with(entry, v),
            None => self.roster.roles(self.roster.len(), v),
        };
        roles.primary
    }
}
