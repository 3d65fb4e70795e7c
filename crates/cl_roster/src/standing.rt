//! The roles and the stops after the whole roster, kept so that no look-up walks the entries.
ghost use Rattle.std.specs.Prelude.{◌≡◌, ◌<◌, ◌≤◌, ◌||◌, ◌++◌, ◌∷◌, [], ℕ, Bool, List};
ghost use Rattle.std.specs.List.{slice_index_or};
ghost use Rattle.cl_roster.specs.Roles.{first_roles, after_entry};
ghost use Rattle.cl_roster.specs.Roster.{is_stop_of};

use crate::{NODES_MAX, Roles, RosterEntry, VIRTUAL_NODES_MAX};

/// The roles of each virtual node and the flag of each node, by number.
#[derive(Debug, Drop)]
pub(crate) struct Standing {
    roles: [Roles; VIRTUAL_NODES_MAX],
    stopped: [bool; NODES_MAX],
}

// The roles of each virtual node at the start.
fn all_first(nodes: u32) -> [Roles; VIRTUAL_NODES_MAX]
    requires { 0 < nodes }
    ensures { (v : ℕ) (d : Roles) → v < VIRTUAL_NODES_MAX → slice_index_or result v d ≡ first_roles nodes v }
{
    let mut roles = [Roles::first(nodes, 0); VIRTUAL_NODES_MAX];
    for virtual_node in 0..VIRTUAL_NODES_MAX {
        roles[virtual_node] = Roles::first(nodes, virtual_node as u32);
    }
    roles
}

// Updates the roles of each virtual node by one more entry.
fn note_roles(roles: &mut [Roles; VIRTUAL_NODES_MAX], entry: RosterEntry)
    ensures { (v : ℕ) (d : Roles) → v < VIRTUAL_NODES_MAX
        → slice_index_or roles.new v d ≡ after_entry v (slice_index_or roles.old v d) entry }
{
    for virtual_node in 0..VIRTUAL_NODES_MAX {
        roles[virtual_node] = roles[virtual_node].after(virtual_node as u32, entry);
    }
}

// Updates the flags by one more entry.
fn note_stop(stopped: &mut [bool; NODES_MAX], entry: RosterEntry)
    ensures { (n : ℕ) (d : Bool) → n < NODES_MAX
        → slice_index_or stopped.new n d ≡ (slice_index_or stopped.old n d || is_stop_of n entry) }
{
    if let RosterEntry::Stopped(node) = entry {
        let index = node as usize;
        if index < NODES_MAX {
            stopped[index] = true;
        }
    }
}

impl Standing {
    ghost use Rattle.cl_roster.specs.Roles.{roles_after};
    ghost use Rattle.cl_roster.specs.Roster.{has_stopped};
    ghost use Rattle.cl_roster.specs.Standing.{Stands};

    // What stands before the first entry, in a cluster with so many nodes.
    pub(crate) fn first(nodes: u32) -> Standing
        requires { 0 < nodes }
        ensures { Stands nodes [] result }
    {
        Standing {
            roles: all_first(nodes),
            stopped: [false; NODES_MAX],
        }
    }

    // Updates both by one more entry.
    pub(crate) fn note(&mut self, entry: RosterEntry)
        ensures { (nodes : ℕ) (entries : List RosterEntry) → Stands nodes entries self.old
            → Stands nodes (entries ++ entry ∷ []) self.new }
    {
        note_roles(&mut self.roles, entry);
        note_stop(&mut self.stopped, entry);
    }

    // The roles of the virtual node.
    pub(crate) fn roles(&self, virtual_node: u32) -> Roles
        requires { virtual_node < VIRTUAL_NODES_MAX }
        ensures { (nodes : ℕ) (entries : List RosterEntry) → Stands nodes entries self.now
            → result ≡ roles_after nodes entries virtual_node }
    {
        self.roles[virtual_node as usize]
    }

    // Whether the node has stopped.
    pub(crate) fn has_stopped(&self, node: u32) -> bool
        requires { node < NODES_MAX }
        ensures { (nodes : ℕ) (entries : List RosterEntry) → Stands nodes entries self.now
            → result ≡ has_stopped entries node }
    {
        self.stopped[node as usize]
    }
}
