//! The roster: which nodes have stopped, and which nodes are primary and standby of each virtual node.
#![tactic(auto)]

mod entry;
mod laws;
mod limits;
mod roles;
mod roster;
mod standing;

pub use entry::RosterEntry;
pub use laws::{
    lawful_rosters, members_are_sound, one_entry_more, rosters_are_lawful, verdicts_and_spares,
    what_stays,
};
pub use limits::{ENTRIES_MAX, NODES_MAX, SPARES_MAX, VIRTUAL_NODES_MAX};
pub use roles::Roles;
pub use roster::Roster;
