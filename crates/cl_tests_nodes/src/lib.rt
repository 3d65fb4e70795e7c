//! Tests of actors and their parts through their public calls, a module for each.
#![tactic(auto)]

#[cfg(test)]
mod cluster;
#[cfg(test)]
mod endpoint;
#[cfg(test)]
mod front;
