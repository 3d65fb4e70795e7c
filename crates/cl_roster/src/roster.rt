//! The roster itself: a list of entries that only grows, and what stands after them.
ghost use Rattle.std.specs.Prelude.{◌≡◌, ◌==◌, ◌&&◌, not, ◌+◌, ◌<◌, ◌≤◌, ◌↔◌, [], ◌∷◌, ◌++◌, length, take, None, IsTrue, IsOk, OnOk, OnErr, IfSome};
ghost use Rattle.cl_types.specs.Placement.{IsNodeCount};
ghost use Rattle.cl_roster.specs.Roles.{roles_after};
ghost use Rattle.cl_roster.specs.Roster.{IsClusterSize, IsLawfulEntry, IsLawfulRoster, entry_at, has_stopped, is_living, lowest_alone, site, spare_of, stop_verdict};

use crate::standing::Standing;
use crate::{ENTRIES_MAX, NODES_MAX, Roles, RosterEntry, VIRTUAL_NODES_MAX};
use cl_types::{AppendOnlyList, NoMemory, StopFault};
use std::alloc::Global;
use std::marker::Model;

/// Which nodes have stopped and which virtual nodes were repaired, in order.
///
/// Contracts see how many nodes and spares there are, the entries, and the room for more.
#[derive(Debug, Drop)]
pub struct Roster {
    nodes: u32,
    spares: u32,
    entries: AppendOnlyList<RosterEntry>,
    standing: Standing,
}

impl Model for Roster {
    ghost use Rattle.cl_roster.specs.View.{RosterView};

    ghost Value = { RosterView };

    ghost use Rattle.cl_roster.specs.Kept.{view_of, IsKept};

    ghost view = { view_of };

    ghost invariant = { IsKept };
}

impl Roster {
    /// Makes the roster of a cluster in which nothing has happened yet. It allocates nothing.
    pub fn new(alloc: Global, nodes: u32, spares: u32) -> Roster
        requires { IsClusterSize nodes spares }
        ensures nodes { result.nodes ≡ nodes }
        ensures spares { result.spares ≡ spares }
        ensures entries { result.entries ≡ [] }
    {
        Roster {
            nodes,
            spares,
            entries: AppendOnlyList::new(alloc),
            standing: Standing::first(nodes),
        }
    }

    /// Makes room for `count` more entries, or gives up for want of memory. The entries stay in either case.
    pub fn reserve(&mut self, count: usize) -> Result<(), NoMemory>
        ensures same { self.new ≡ record self.old { room = self.new.room } }
        ensures ok { OnOk result (count ≤ self.new.room) }
        ensures roomy { count ≤ self.old.room → IsOk result }
        ensures keeps_room { self.old.room ≤ self.new.room }
    {
        self.entries.reserve(count)
    }

    /// Appends an entry. With room it cannot fail; else it may give up for want of memory, and the entries stay.
    pub fn push(&mut self, entry: RosterEntry) -> Result<(), NoMemory>
        requires { IsLawfulEntry self.old.nodes self.old.spares self.old.entries entry }
        ensures ok { OnOk result
            (self.new ≡ record self.old { entries = self.old.entries ++ entry ∷ []; room = self.new.room }) }
        ensures err { OnErr result (self.new ≡ record self.old { room = self.new.room }) }
        ensures roomy { 1 ≤ self.old.room → IsOk result }
        ensures keeps_room { self.old.room ≤ self.new.room + 1 }
    {
        self.entries.push(entry)?;
        self.standing.note(entry);
        Ok(())
    }

    // Each roster is lawful, and its cluster has a lawful size.
    pub(crate) fn lawful(&self)
        ensures size { IsClusterSize self.now.nodes self.now.spares }
        ensures lawful { IsLawfulRoster self.now.nodes self.now.spares self.now.entries }
    {
        // To read a field is to know the invariant.
        let _nodes = self.nodes;
    }

    /// Returns how many nodes there are without the spares. There are as many virtual nodes.
    pub fn nodes(&self) -> u32
        ensures nodes { result ≡ self.now.nodes }
        ensures counted { IsNodeCount result }
    {
        self.nodes
    }

    /// Returns how many entries there are.
    pub fn len(&self) -> u32
        ensures count { result ≡ length self.now.entries }
        ensures few { result ≤ ENTRIES_MAX }
    {
        self.entries.len() as u32
    }

    /// Returns whether there is no entry.
    pub fn is_empty(&self) -> bool
        ensures { IsTrue result ↔ (self.now.entries ≡ []) }
    {
        self.entries.is_empty()
    }

    /// Returns the `k`-th entry, counted from 1, if there is one.
    pub fn entry(&self, k: u32) -> Option<RosterEntry>
        ensures { result ≡ entry_at self.now.entries k }
    {
        let index = k.checked_sub(1)?;
        self.entries.at(index as usize).copied()
    }

    /// Returns the roles of the virtual node after the first `k` entries. After all of them it walks none; no contract
    /// says so.
    pub fn roles(&self, k: u32, virtual_node: u32) -> Roles
        requires noted { k ≤ length self.now.entries }
        requires known { virtual_node < self.now.nodes }
        ensures noted { result ≡ roles_after self.now.nodes (take k self.now.entries) virtual_node }
        ensures now { k ≡ length self.now.entries
            → result ≡ roles_after self.now.nodes self.now.entries virtual_node }
    {
        let entries = self.entries.as_slice();
        if k as usize == entries.len() {
            return self.standing.roles(virtual_node);
        }
        roles_after(self.nodes, &entries[..k as usize], virtual_node)
    }

    /// Returns the roles of the virtual node once one more entry is noted. It walks no entries; no contract says so.
    pub fn roles_with(&self, entry: RosterEntry, virtual_node: u32) -> Roles
        requires { virtual_node < self.now.nodes }
        ensures { result ≡ roles_after self.now.nodes (self.now.entries ++ entry ∷ []) virtual_node }
    {
        self.standing.roles(virtual_node).after(virtual_node, entry)
    }

    /// Returns whether the node has not stopped in the first `k` entries. The front, which never stops, lives. After all
    /// entries it walks none; no contract says so.
    pub fn living(&self, k: u32, node: u32) -> bool
        requires { k ≤ length self.now.entries }
        ensures noted { result ≡ is_living (take k self.now.entries) node }
        ensures now { k ≡ length self.now.entries → result ≡ is_living self.now.entries node }
    {
        let entries = self.entries.as_slice();
        if k as usize == entries.len() {
            return !self.has_stopped(node);
        }
        !has_stopped_in(&entries[..k as usize], node)
    }

    // Whether the node has stopped.
    fn has_stopped(&self, node: u32) -> bool
        ensures { result ≡ has_stopped self.now.entries node }
    {
        (node as usize) < NODES_MAX && self.standing.has_stopped(node)
    }

    /// Returns whether the stop of the node is admitted, and otherwise why it is refused.
    ///
    /// The tests come in this order: there is no such node, it has stopped, it is the only member of a virtual node.
    pub fn may_stop(&self, node: u32) -> Result<(), StopFault>
        ensures { result ≡ stop_verdict self.now.nodes self.now.spares self.now.entries node }
    {
        if self.nodes + self.spares <= node {
            return Err(StopFault::Unknown);
        }
        if self.has_stopped(node) {
            return Err(StopFault::Down);
        }
        match self.lowest_alone(node) {
            Some(virtual_node) => Err(StopFault::Last(virtual_node)),
            None => Ok(()),
        }
    }

    // The lowest virtual node of which the node is the only member.
    fn lowest_alone(&self, node: u32) -> Option<u32>
        ensures { result ≡ lowest_alone self.now.nodes self.now.entries node }
    {
        (0..self.nodes).find(|virtual_node| self.standing.roles(*virtual_node).is_only(node))
    }

    /// Returns whether the node may become the standby of the virtual node.
    ///
    /// The virtual node must be there without a standby. The node must be there, live, and not be its primary.
    pub fn may_repair(&self, virtual_node: u32, node: u32) -> bool
        ensures { IsTrue result
            ↔ IsLawfulEntry self.now.nodes self.now.spares self.now.entries (RosterEntry.Repaired virtual_node node) }
    {
        if self.nodes <= virtual_node || self.nodes + self.spares <= node {
            return false;
        }
        let roles = self.standing.roles(virtual_node);
        roles.standby.is_none() && roles.primary != node && !self.has_stopped(node)
    }

    /// Returns the spare that repairs a virtual node without a standby, if there is one: the lowest living spare on the
    /// site other than that of its primary.
    pub fn spare_for(&self, virtual_node: u32) -> Option<u32>
        requires known { virtual_node < self.now.nodes }
        requires lone { (roles_after self.now.nodes self.now.entries virtual_node).standby ≡ None }
        ensures lowest { result ≡ spare_of self.now.nodes self.now.spares self.now.entries virtual_node }
        ensures lawful { IfSome result (λ spare.
            IsLawfulEntry self.now.nodes self.now.spares self.now.entries (RosterEntry.Repaired virtual_node spare)) }
    {
        self.lowest_spare(virtual_node)
    }

    // The lowest living spare on the site other than that of the virtual node's primary.
    fn lowest_spare(&self, virtual_node: u32) -> Option<u32>
        requires { virtual_node < self.now.nodes }
        ensures { result ≡ spare_of self.now.nodes self.now.spares self.now.entries virtual_node }
    {
        let primary = self.standing.roles(virtual_node).primary;
        (self.nodes..self.nodes + self.spares).find(|spare| self.can_stand_by(primary, *spare))
    }

    // Whether the node lives, and is on the site other than that of the primary.
    fn can_stand_by(&self, primary: u32, node: u32) -> bool
        ensures { result ≡ (is_living self.now.entries node && not (site node == site primary)) }
    {
        !self.has_stopped(node) && site(node) != site(primary)
    }
}

// The roles of the virtual node after the entries.
fn roles_after(nodes: u32, entries: &[RosterEntry], virtual_node: u32) -> Roles
    requires some { 0 < nodes }
    requires few { virtual_node < VIRTUAL_NODES_MAX }
    ensures { result ≡ roles_after nodes entries.now virtual_node }
{
    entries.iter().fold(
        Roles::first(nodes, virtual_node),
        |roles, entry| roles.after(virtual_node, *entry),
    )
}

// The site of the node.
fn site(node: u32) -> u32
    ensures { result ≡ site node }
{
    node % 2
}

// Whether the node's stop is among the entries.
fn has_stopped_in(entries: &[RosterEntry], node: u32) -> bool
    ensures { result ≡ has_stopped entries.now node }
{
    entries.iter().any(|entry| entry.is_stop_of(node))
}
