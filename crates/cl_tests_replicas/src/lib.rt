//! Tests of one replica, primary or standby, through its public calls, a module for each.
#![tactic(auto)]

#[cfg(test)]
mod noting;
#[cfg(test)]
mod pair;
#[cfg(test)]
mod primaries;
#[cfg(test)]
mod vnode;
