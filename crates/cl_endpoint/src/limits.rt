//! Who the actors are.

/// How many actors there are: the nodes 0 to 15, and the front.
pub const ACTORS: usize = 17;
