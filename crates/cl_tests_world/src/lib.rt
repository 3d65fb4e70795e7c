//! Tests of the world through its public calls.
#![tactic(auto)]

#[cfg(test)]
mod asked;
#[cfg(test)]
mod audited;
#[cfg(test)]
mod events;
#[cfg(test)]
mod running;
