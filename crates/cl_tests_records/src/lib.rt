//! Tests of locks, stores, logs, redo, participants, controllers, packets, decisions and modes through their public calls, a module for each crate.
#![tactic(auto)]

#[cfg(test)]
mod backup;
#[cfg(test)]
mod control;
#[cfg(test)]
mod locks;
#[cfg(test)]
mod log;
#[cfg(test)]
mod part;
#[cfg(test)]
mod redo;
#[cfg(test)]
mod repair;
#[cfg(test)]
mod store;
#[cfg(test)]
mod wire;
