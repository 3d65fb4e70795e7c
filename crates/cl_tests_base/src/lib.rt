//! Tests of types, ends, lines, the plain map, lists, links, rosters and ranked stores through their public calls,
//! a module for each crate.
#![tactic(auto)]

#[cfg(test)]
mod ends;
#[cfg(test)]
mod lines;
#[cfg(test)]
mod link;
#[cfg(test)]
mod lists;
#[cfg(test)]
mod ranked;
#[cfg(test)]
mod roster;
#[cfg(test)]
mod serial;
#[cfg(test)]
mod types;
